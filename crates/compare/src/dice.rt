//! Numbers that look like chance and come from a seed.

/// A generator of numbers.
#[derive(Clone, Copy, PartialEq, Eq, Debug)]
pub struct Dice {
    state: u64,
}

impl Dice {
    /// The generator that starts from a seed.
    pub fn new(seed: u64) -> Dice {
        Dice { state: seed }
    }

    // The next number, of 31 bits.
    fn roll(&mut self) -> u64 {
        self.state = self
            .state
            .wrapping_mul(6_364_136_223_846_793_005)
            .wrapping_add(1_442_695_040_888_963_407);
        self.state >> 33
    }

    /// A number below a limit; 0 where the limit is 0, and then the dice are not rolled.
    pub fn below(&mut self, limit: usize) -> usize {
        if limit == 0 {
            return 0;
        }
        // 31 bits fit a usize.
        (self.roll() as usize) % limit
    }

    /// Any byte.
    pub fn byte(&mut self) -> u8 {
        self.roll().to_le_bytes()[0]
    }

    /// A byte below a limit; 0 where the limit is 0.
    pub fn byte_below(&mut self, limit: u8) -> u8 {
        self.below(usize::from(limit)).to_le_bytes()[0]
    }

    /// Yes, so many times in a hundred.
    pub fn chance(&mut self, percent: usize) -> bool {
        self.below(100) < percent
    }

    /// One of some values; the value `other` where there are none.
    pub fn pick<T: Copy>(&mut self, values: &[T], other: T) -> T {
        let place = self.below(values.len());
        values.get(place).copied().unwrap_or(other)
    }
}
