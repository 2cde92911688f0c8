//! What a journal refuses.

/// Why a call of a journal, or the reading of a record's bytes, is refused.
#[derive(Clone, Copy, Debug, PartialEq, Eq)]
pub enum Refusal {
    /// The journal does not serve that station: 11.
    NotServed,
    /// Both lists together hold the capacity: 12.
    Full,
    /// The bytes begin with no record: 13.
    NotARecord,
}

/// The number of the refusal, by which listings name it.
impl From<Refusal> for u8 {
    ghost use Rattle.std.specs.Prelude.{◌≡◌};
    ghost use Rattle.journal.specs.Meaning.{number};

    ghost from_gives = { λ refusal told. told ≡ number refusal };

    fn from(refusal: Refusal) -> u8 {
        match refusal {
            Refusal::NotServed => 11,
            Refusal::Full => 12,
            Refusal::NotARecord => 13,
        }
    }
}
