//! The calls of a journal, each by what it does to the journal's meaning.
ghost use Rattle.std.specs.Prelude.{◌≡◌, ℕ, ◌≤◌, List, length};
ghost use Rattle.journal.specs.Meaning.{Section, section, held, record_at, answer_of, write_answer, written, served_answer, forced, cut_to};

use crate::records::Record;
use crate::refusals::Refusal;

/// A journal: for each station that it serves a capacity, the stable records and the unforced ones.
pub trait Journal {
    // One section for each station served, in the order of their numbers.
    ghost meaning: { Self → List Section };

    // The ghost names of what the journal borrows to write to. No call changes them, as each of them says, since a trait
    // has no clause over all its calls.
    ghost lenders: { Self → List ℕ };

    /// How many stations are served.
    fn stations(&self) -> u8
        ensures value { result ≡ length (meaning self.now) }
        ensures few { result ≤ 8 };

    /// How many records there is room for at the station, 0 where it is not served.
    fn capacity(&self, station: u8) -> usize
        ensures value { result ≡ (section (meaning self.now) station).capacity }
        ensures fits { held (section (meaning self.now) station) ≤ result };

    /// How many records of the station are stable.
    fn stable_len(&self, station: u8) -> usize
        ensures { result ≡ length (section (meaning self.now) station).stable };

    /// How many records of the station are not forced yet.
    fn unforced_len(&self, station: u8) -> usize
        ensures { result ≡ length (section (meaning self.now) station).unforced };

    /// The stable record at a place, or none past the end.
    fn read(&self, station: u8, place: usize) -> Option<Record>
        ensures { result ≡ record_at (meaning self.now) station place };

    /// Puts a record at the end of the station's unforced list.
    fn write(&mut self, station: u8, line: Record) -> Result<(), Refusal>
        ensures answer { answer_of result ≡ write_answer (meaning self.old) station }
        ensures after { meaning self.new ≡ written line (meaning self.old) station }
        ensures lent { lenders self.new ≡ lenders self.old };

    /// Moves all unforced records of the station, in order, to the end of its stable list.
    fn force(&mut self, station: u8) -> Result<(), Refusal>
        ensures answer { answer_of result ≡ served_answer (meaning self.old) station }
        ensures after { meaning self.new ≡ forced (meaning self.old) station }
        ensures lent { lenders self.new ≡ lenders self.old };

    /// The power fails at the station: the first `kept` unforced records become stable, the rest are lost.
    fn cut(&mut self, station: u8, kept: usize) -> Result<(), Refusal>
        ensures answer { answer_of result ≡ served_answer (meaning self.old) station }
        ensures after { meaning self.new ≡ cut_to kept (meaning self.old) station }
        ensures lent { lenders self.new ≡ lenders self.old };
}
