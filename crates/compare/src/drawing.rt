//! Calls that are drawn: mostly such as the run can take, and some that it cannot.
use crate::dice::Dice;
use crate::styles::{Style, Weight};
use crate::tally::PLAIN;
use model::sets::Set;
use model::whole::Model;
use model::words::{Call, Entry, Holding, Outage, Verb};

/// How many turns at the end of each period go to restarts and settling: one for each station, and some more.
const RECOVERY: usize = 12;

/// A flood opens so many revisions, two more than there can be, and then closes all that there are.
const FLOOD_OPENS: usize = 34;

/// The turn at which a flood has closed all revisions.
const FLOOD_OVER: usize = FLOOD_OPENS + 32;

/// What comes in place of a call that takes a message where none waits: mostly what can post something.
const OTHERS: [Verb; 6] = [
    Verb::Open,
    Verb::Close,
    Verb::Close,
    Verb::Chase,
    Verb::Inquire,
    Verb::Awaited,
];

/// Draws calls by the dice, in a style, for a run as the model has it.
#[derive(Drop)]
pub struct Drawing<'a> {
    pub dice: &'a mut Dice,
    pub style: &'a Style,
    pub model: &'a Model,
}

// Does the entry allow the call? Only close is drawn for an entry that is Open, though it allows giving up too.
fn suits(verb: Verb, holding: Holding) -> bool {
    let open = matches!(holding, Holding::Opened(_));
    holding.allows(verb) && !(open && verb == Verb::GiveUp)
}

impl Style {
    // Which call comes.
    fn verb(&self, dice: &mut Dice) -> Verb {
        let often = self.weights.iter().map(|weight| weight.1);
        let mut left = dice.below(often.fold(0, usize::saturating_add));
        // The first whose part of the total holds the number: a running rest is plainer than a scan.
        for Weight(verb, often) in self.weights {
            match left.checked_sub(often) {
                Some(rest) => left = rest,
                None => return verb,
            }
        }
        Verb::Settle
    }
}

impl<'a> Drawing<'a> {
    // The first station that is dark.
    fn dark_station(&self) -> Option<u8> {
        (0..self.model.log.served()).find(|station| self.model.dark.holds(*station))
    }

    // All stations of the run, as a set.
    fn everybody(&self) -> u8 {
        u8::from((0..self.model.log.served()).fold(Set::default(), Set::with))
    }

    // Which call comes; where nothing waits, mostly one that can post something in place of one that takes a message.
    fn fit_verb(&mut self) -> Verb {
        let verb = self.style.verb(self.dice);
        let takes = verb == Verb::Deliver || verb == Verb::Lose;
        if takes && self.model.post.is_empty() && !self.dice.chance(self.style.absurd) {
            return self.dice.pick(&OTHERS, Verb::Close);
        }
        verb
    }

    // The draws below are alike, but each rolls in an order of its own, which decides what is printed.

    // A revision: often one of the last, sometimes one that is not there.
    fn revision(&mut self) -> u16 {
        let opened = self.model.rows.len();
        let one = if self.dice.chance(self.style.absurd) {
            self.dice.pick(&[opened, opened, 31, 32, 40, 65535], 40)
        } else if self.dice.chance(60) {
            let back = self.dice.below(opened.min(6)).saturating_add(1);
            opened.saturating_sub(back)
        } else {
            self.dice.below(opened)
        };
        // The remainder is the number itself, and lets the cast be proved to lose nothing.
        (one % 65536) as u16
    }

    // A station: sometimes one that is not there.
    fn station(&mut self) -> u8 {
        let served = self.model.log.served();
        if self.dice.chance(self.style.absurd) {
            self.dice.pick(&[served, served, 8, 9, 200, 255], 200)
        } else {
            self.dice.byte_below(served)
        }
    }

    // A set: sometimes nobody, or stations that are not there.
    fn set(&mut self) -> u8 {
        let some = self.dice.byte();
        if self.dice.chance(self.style.absurd) {
            self.dice.pick(&[0, 0, some, some, 255, 128], 0)
        } else if self.dice.chance(10) {
            self.everybody()
        } else {
            some & self.everybody()
        }
    }

    // A place in the post: often the first, and so many times in a hundred one where nothing waits.
    fn place(&mut self, absurd: usize) -> usize {
        let waiting = self.model.post.len();
        if self.dice.chance(absurd) {
            self.dice.pick(&[waiting, waiting, 63, 64, 1000], 1000)
        } else if self.dice.chance(30) {
            0
        } else {
            self.dice.below(waiting)
        }
    }

    // Whether power fails in the step, and how much is kept.
    fn outage(&mut self) -> Outage {
        let after = if self.dice.chance(self.style.fused) {
            self.dice.byte_below(13)
        } else {
            Outage::NEVER.after
        };
        let kept = self.dice.pick(&[0, 0, 0, 1, 1, 2, 3, 255], 0);
        Outage { after, kept }
    }

    // One of the entries that allow the call.
    fn suitable(&mut self, verb: Verb) -> Option<Entry> {
        let passed = self.dice.below(8);
        self.model
            .parts
            .iter()
            .filter(|part| suits(verb, part.holding))
            .take(passed.saturating_add(1))
            .last()
            .map(|part| part.entry)
    }

    // A call of any kind, with all arguments.
    fn any(&mut self) -> Call {
        let verb = self.fit_verb();
        let outage = self.outage();
        let mut call = Call {
            verb,
            revision: self.revision(),
            station: self.station(),
            set: self.set(),
            place: self.place(self.style.absurd),
            copy: self.dice.chance(20),
            outage,
        };
        if self.dice.chance(self.style.absurd) || self.dice.chance(35) {
            return call;
        }
        if let Some(entry) = self.suitable(verb) {
            call.revision = entry.revision;
            call.station = entry.station;
        }
        if let (Verb::Restart, Some(station)) = (verb, self.dark_station()) {
            call.station = station;
        }
        call
    }

    // A call towards a settled run: a restart, a delivery, where nothing waits a close, and at the last turn settling.
    fn recovering(&mut self, last: bool) -> Call {
        if let Some(station) = self.dark_station() {
            return Call {
                verb: Verb::Restart,
                station,
                ..PLAIN
            };
        }
        if last {
            return PLAIN;
        }
        if !self.model.post.is_empty() {
            let place = self.place(0);
            return Call {
                verb: Verb::Deliver,
                place,
                ..PLAIN
            };
        }
        self.suitable(Verb::Close).map_or(
            PLAIN,
            |entry| Call {
                verb: Verb::Close,
                revision: entry.revision,
                ..PLAIN
            },
        )
    }

    // A call at the beginning of a flood.
    fn flooding(&mut self, turn: usize) -> Call {
        if turn < FLOOD_OPENS {
            let station = self.dice.byte_below(self.model.log.served());
            return Call {
                verb: Verb::Open,
                station,
                set: self.everybody(),
                ..PLAIN
            };
        }
        // The remainder is the number itself, and lets the cast be proved to lose nothing.
        let revision = (turn.wrapping_sub(FLOOD_OPENS) % 65536) as u16;
        Call {
            verb: Verb::Close,
            revision,
            ..PLAIN
        }
    }

    /// The call at a turn of a list.
    pub fn call(&mut self, turn: usize) -> Call {
        if self.style.flood && turn < FLOOD_OVER {
            return self.flooding(turn);
        }
        let Some(past) = turn.checked_rem(self.style.period) else {
            return self.any();
        };
        let left = self.style.period.saturating_sub(past);
        if left <= RECOVERY {
            self.recovering(left == 1)
        } else {
            self.any()
        }
    }
}
