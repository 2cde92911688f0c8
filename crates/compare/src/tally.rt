//! What was compared so far, and what is being compared.
use crate::seen::Seen;
use model::whole::Model;
use model::words::{Call, Outage, Refusal, Verb};
use std::fmt;

/// A call with no arguments to speak of, and power that lasts.
pub const PLAIN: Call = Call {
    verb: Verb::Settle,
    revision: 0,
    station: 0,
    set: 0,
    place: 0,
    copy: false,
    outage: Outage::NEVER,
};

/// A call, to be told: by its arguments, with fuse and kept number apart.
#[derive(Clone, Copy, PartialEq, Eq, Debug)]
pub struct Told(pub Call);

impl fmt::Display for Told {
    fn fmt<W: fmt::Write>(&self, f: &mut fmt::Formatter<W>) -> fmt::Result {
        let Call {
            verb,
            revision,
            station,
            set,
            place,
            copy,
            outage: Outage { after, kept },
        } = self.0;
        write!(
            f,
            "Call {{ verb: {verb:?}, revision: {revision}, station: {station}, set: {set}, "
        )?;
        write!(
            f,
            "place: {place}, copy: {copy}, fuse: {after}, kept: {kept} }}"
        )
    }
}

/// All refusals, by their numbers, none of which came yet.
const NONE_CAME: [(Refusal, usize); 11] = [
    (Refusal::Unfit, 0),
    (Refusal::NoSuchStation, 0),
    (Refusal::NotOpened, 0),
    (Refusal::NoPower, 0),
    (Refusal::TooManyRevisions, 0),
    (Refusal::EntryForbids, 0),
    (Refusal::NoMessage, 0),
    (Refusal::NotDark, 0),
    (Refusal::NotServed, 0),
    (Refusal::Full, 0),
    (Refusal::NotARecord, 0),
];

/// Counts of what agreed, and of each refusal; and the call at hand, its number in its list, and the last answer.
/// Counts saturate, since nothing bounds them. The refusals are an array and no map, so counting wants no memory.
#[derive(Clone, Copy, PartialEq, Eq, Debug)]
pub struct Tally {
    pub examples: usize,
    pub lists: usize,
    pub calls: usize,
    pub opened: usize,
    pub installed: usize,
    pub dropped: usize,
    pub fullest: usize,
    pub outages: usize,
    pub deeds: usize,
    pub decodings: usize,
    pub refused: [(Refusal, usize); 11],
    pub number: usize,
    pub call: Call,
    pub answer: Seen,
}

impl Tally {
    /// Nothing compared yet.
    pub fn new() -> Tally {
        Tally {
            examples: 0,
            lists: 0,
            calls: 0,
            opened: 0,
            installed: 0,
            dropped: 0,
            fullest: 0,
            outages: 0,
            deeds: 0,
            decodings: 0,
            refused: NONE_CAME,
            number: 0,
            call: PLAIN,
            answer: Seen::Nothing,
        }
    }

    /// Counts an answer's refusal, if it is one.
    pub fn note_refusal(&mut self, answer: Seen) {
        let Seen::Refused(number) = answer else {
            return;
        };
        for (refusal, count) in &mut self.refused {
            if u8::from(*refusal) == number {
                *count = count.saturating_add(1);
            }
        }
    }

    /// A list begins.
    pub fn begin(&mut self) {
        self.lists = self.lists.saturating_add(1);
        self.number = 0;
    }

    /// A call is about to be made.
    pub fn note_call(&mut self, call: &Call) {
        self.number = self.number.saturating_add(1);
        self.call = *call;
    }

    /// A call was made, and both sides agreed; before it so many stations were dark.
    pub fn note_answer(&mut self, answer: Seen, dark: usize, model: &Model) {
        self.calls = self.calls.saturating_add(1);
        self.answer = answer;
        self.fullest = self.fullest.max(model.post.len());
        if dark < model.dark.size() {
            self.outages = self.outages.saturating_add(1);
        }
        self.note_refusal(answer);
    }

    /// A list is over.
    pub fn end(&mut self, model: &Model) {
        let installed = model.rows.iter().filter(|row| row.installed.size() > 0);
        let dropped = model.rows.iter().filter(|row| row.dropped.size() > 0);
        self.opened = self.opened.saturating_add(model.rows.len());
        self.installed = self.installed.saturating_add(installed.count());
        self.dropped = self.dropped.saturating_add(dropped.count());
    }
}
