//! What a run refuses.
ghost use Rattle.std.specs.Prelude.{◌≡◌};
ghost use Rattle.run.specs.Answers.{number};

/// The first question that was answered no. A refused call changes nothing.
#[derive(Clone, Copy, Debug, PartialEq, Eq)]
pub enum Refusal {
    /// The run is not fit: 1.
    Unfit,
    /// A station number is too high, or the set is empty: 2.
    NoSuchStation,
    /// The revision was not opened: 3.
    NotOpened,
    /// A station that has to act has no power: 4.
    NoPower,
    /// All revisions are opened already: 5.
    TooManyRevisions,
    /// The station's entry does not allow the call: 6.
    EntryForbids,
    /// No message waits at that place: 7.
    NoMessage,
    /// The station is not dark: 8.
    NotDark,
}

// The number by which a refusal is known.
impl From<Refusal> for u8 {
    ghost from_gives = { λ refusal n. n ≡ number refusal };

    fn from(refusal: Refusal) -> u8 {
        match refusal {
            Refusal::Unfit => 1,
            Refusal::NoSuchStation => 2,
            Refusal::NotOpened => 3,
            Refusal::NoPower => 4,
            Refusal::TooManyRevisions => 5,
            Refusal::EntryForbids => 6,
            Refusal::NoMessage => 7,
            Refusal::NotDark => 8,
        }
    }
}
