//! What a journal keeps: records, each of a kind and for one revision, and their bytes.
ghost use Rattle.std.specs.Prelude.{◌≡◌, ℕ, List, ◌++◌, Some, ok_or};
ghost use Rattle.journal.specs.Bytes.{encoded, decoded, Decodes, Splits};
ghost use Rattle.journal.specs.Records.{letter_of, kind_of};
ghost use Rattle.journal.specs.declared.refusals.Refusal.TheVariants.{NotARecord};

use crate::refusals::Refusal;

/// The bytes of one record.
pub const RECORD_BYTES: usize = 4;

/// The kinds of record: four of the coordinator, three of the subordinate.
#[derive(Clone, Copy, Debug, PartialEq, Eq)]
pub enum Kind {
    /// I: the coordinator opens the vote.
    Opening,
    /// C: the coordinator decides commit.
    Commit,
    /// A: the coordinator decides abort.
    Abort,
    /// E: the coordinator need not remember any more.
    End,
    /// p: the subordinate is prepared.
    Prepared,
    /// c: the subordinate committed.
    Committed,
    /// a: the subordinate aborted.
    Aborted,
}

/// One record. The argument is a set of stations (I, C, A), 0 (E), or the coordinator's number (p, c, a).
#[derive(Clone, Copy, Debug, PartialEq, Eq)]
pub struct Record {
    pub kind: Kind,
    pub revision: u16,
    pub argument: u8,
}

/// The ASCII letter by which bytes and listings name the kind.
impl From<Kind> for u8 {
    ghost from_gives = { λ kind letter. letter ≡ letter_of kind };

    fn from(kind: Kind) -> u8 {
        match kind {
            Kind::Opening => b'I',
            Kind::Commit => b'C',
            Kind::Abort => b'A',
            Kind::End => b'E',
            Kind::Prepared => b'p',
            Kind::Committed => b'c',
            Kind::Aborted => b'a',
        }
    }
}

/// The kind that has this letter; any other byte begins no record.
impl TryFrom<u8> for Kind {
    type Error = Refusal;

    ghost try_from_gives = { λ letter found. found ≡ ok_or (kind_of letter) NotARecord };

    fn try_from(letter: u8) -> Result<Kind, Refusal> {
        match letter {
            b'I' => Ok(Kind::Opening),
            b'C' => Ok(Kind::Commit),
            b'A' => Ok(Kind::Abort),
            b'E' => Ok(Kind::End),
            b'p' => Ok(Kind::Prepared),
            b'c' => Ok(Kind::Committed),
            b'a' => Ok(Kind::Aborted),
            _ => Err(Refusal::NotARecord),
        }
    }
}

impl Record {
    /// The record's bytes: its kind's letter, its revision with the high byte first, its argument.
    pub fn encode(self) -> [u8; RECORD_BYTES]
        ensures bytes { result ≡ encoded self }
        ensures back { (rest : List ℕ) → decoded (result ++ rest) ≡ Some self }
    {
        let [high, low] = self.revision.to_be_bytes();
        [u8::from(self.kind), high, low, self.argument]
    }
}

/// The record at the front of the bytes, and the bytes behind it.
///
/// Another kind or fewer than four bytes is refused; any argument is taken.
pub fn decode(bytes: &[u8]) -> Result<(Record, &[u8]), Refusal>
    ensures cases { Decodes bytes.now result }
    ensures splits { Splits bytes.now result }
{
    let [kind, high, low, argument, rest @ ..] = bytes else {
        return Err(Refusal::NotARecord);
    };
    let record = Record {
        kind: Kind::try_from(*kind)?,
        revision: u16::from_be_bytes([*high, *low]),
        argument: *argument,
    };
    Ok((record, rest))
}
