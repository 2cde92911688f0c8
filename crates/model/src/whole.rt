//! The run as one flat struct, and its calls.

use super::sections::{CAPACITY, Log};
use super::sets::{STATIONS, Set};
use super::steps::{Act, Step, Then};
use super::words::{
    Answer, Call, Entry, Failure, Holding, Kind, Message, Outage, Outcome, Part, Presumption,
    Record, Refusal, Row, Side, Verb,
};
use std::alloc::{AllocError, Global};

/// How many revisions there are at most.
const REVISIONS: u16 = 32;

/// How many messages wait at most.
const WAITING: usize = 64;

/// So many deliveries empty the post at most: no message has a weight over 18.
const MOST_DELIVERIES: usize = WAITING * 18;

/// A run: its presumption, who is dark, the entries that are not none, the post, the as-run log and the journal. The
/// entries are a list and no map, since `compare` draws calls from them by their order, which a map would change.
#[derive(Drop)]
pub struct Model {
    pub presumption: Presumption,
    /// A flag, since a run that is not fit is still looked at.
    pub fit: bool,
    pub dark: Set,
    pub parts: Vec<Part>,
    pub post: Vec<Message>,
    pub rows: Vec<Row>,
    pub log: Log,
    pub(crate) heap: Global,
}

impl Model {
    /// A fresh run over a journal.
    pub fn new(heap: Global, presumption: Presumption, log: Log) -> Model {
        let served = log.served();
        let roomy = (0..served).all(|station| log.capacity(station) >= CAPACITY);
        Model {
            presumption,
            fit: served >= 2 && roomy && log.lines.is_empty(),
            dark: Set::default(),
            parts: Vec::new(heap),
            post: Vec::new(heap),
            rows: Vec::new(heap),
            log,
            heap,
        }
    }

    /// Makes a call: its questions first, and then what it does.
    pub fn perform(&mut self, call: &Call) -> Result<Answer, Failure> {
        self.ask(call)?;
        let answer = match call.verb {
            Verb::Open => Answer::Revision(self.open(call.station, Set::from(call.set))?),
            Verb::Close | Verb::GiveUp | Verb::Reject | Verb::Chase | Verb::Inquire => {
                Answer::Acts(self.set_off(call)?)
            }
            Verb::Deliver => Answer::Acts(self.deliver(call.place, call.copy, call.outage)?),
            Verb::Lose => {
                self.take_out(call.place)?;
                Answer::Zero
            }
            Verb::Cut => {
                self.cut(call.station, call.outage.kept);
                Answer::Zero
            }
            Verb::Restart => {
                self.restart(call.station)?;
                Answer::Zero
            }
            Verb::Settle => Answer::Deliveries(self.settle()?),
            Verb::Awaited => Answer::Unheard(self.unheard(call.revision)),
        };
        Ok(answer)
    }

    /// What an entry holds; nothing where it is none.
    pub(crate) fn holding(&self, entry: Entry) -> Option<Holding> {
        self.parts
            .iter()
            .find(|part| part.entry == entry)
            .map(|part| part.holding)
    }

    /// The entry of a revision's coordinator.
    pub(crate) fn coordinating(&self, revision: u16) -> Option<Entry> {
        self.rows.get(usize::from(revision)).map(|row| Entry::new(
            row.coordinator,
            revision,
            Side::Coordinates,
        ))
    }

    /// The number that the next revision gets, as long as there is one.
    pub(crate) fn next_revision(&self) -> Option<u16> {
        (0..REVISIONS).nth(self.rows.len())
    }

    /// Makes an entry none.
    fn forget(&mut self, entry: Entry) {
        if let Some(place) = self.parts.iter().position(|part| part.entry == entry) {
            self.parts.swap_remove(place);
        }
    }

    /// Makes an entry hold something, in place of what it held.
    fn hold(&mut self, entry: Entry, holding: Holding) -> Result<(), AllocError> {
        self.forget(entry);
        self.parts.push(Part { entry, holding })?;
        Ok(())
    }

    /// The call open, once its questions are asked. Answers the new revision's number.
    fn open(&mut self, coordinator: u8, set: Set) -> Result<u16, Failure> {
        // Asked before the call, so there is one.
        let revision = self.next_revision().ok_or(Refusal::TooManyRevisions)?;
        self.rows.push(Row {
            coordinator,
            set,
            installed: Set::default(),
            dropped: Set::default(),
        })?;
        let coordinating = Entry::new(coordinator, revision, Side::Coordinates);
        self.hold(coordinating, Holding::Opened(set))?;
        for station in STATIONS.into_iter().filter(|station| set.holds(*station)) {
            let staging = Entry::new(station, revision, Side::Stages);
            self.hold(staging, Holding::Active(coordinator))?;
        }
        Ok(revision)
    }

    /// The five calls that set off a step of their acting station, once their questions are asked. Answers the acts
    /// done.
    fn set_off(&mut self, call: &Call) -> Result<usize, Failure> {
        // Asked before the call, so neither is refused here.
        let entry = self.acting(call).ok_or(Refusal::NotOpened)?;
        let step = match self.holding(entry).ok_or(Refusal::EntryForbids)? {
            Holding::Opened(set) if call.verb == Verb::Close => self.open_vote(entry, set)?,
            holding => self.moving_on(entry, holding)?,
        };
        Ok(self.carry_out(&step, call.outage)?)
    }

    /// The step of the call, other than close, that an entry allows.
    fn moving_on(&self, entry: Entry, holding: Holding) -> Result<Step, AllocError> {
        match holding {
            Holding::Opened(set) | Holding::Collecting(set, _) => self.decide_abort(
                entry, set, set,
            ),
            Holding::Announcing(outcome, awaited) => self.chasing(entry, outcome, awaited),
            Holding::Active(coordinator) => self.rejecting(entry, coordinator),
            Holding::Prepared(coordinator) => self.inquiring(entry, coordinator),
        }
    }

    /// Does the acts of a step as long as power lasts, and then either cuts the acting station or changes its entry.
    /// Answers the acts done.
    fn carry_out(&mut self, step: &Step, outage: Outage) -> Result<usize, AllocError> {
        let lasting = usize::from(outage.after);
        for act in step.acts.iter().take(lasting) {
            self.do_act(step.entry, *act)?;
        }
        if lasting < step.acts.len() {
            self.cut(step.entry.station, outage.kept);
            return Ok(lasting);
        }
        match step.then {
            Then::Stays => {}
            Then::Goes => self.forget(step.entry),
            Then::Turns(holding) => self.hold(step.entry, holding)?,
        }
        Ok(step.acts.len())
    }

    /// Does one act. A write or a force that the journal refuses is an act all the same, and the step goes on.
    fn do_act(&mut self, entry: Entry, act: Act) -> Result<(), AllocError> {
        let station = entry.station;
        let revision = entry.revision;
        match act {
            Act::Write(kind, argument) => {
                let what = Record {
                    kind,
                    revision,
                    argument,
                };
                if self.log.write(station, what) == Err(Failure::Memory) {
                    return Err(AllocError);
                }
            }
            Act::Force => {
                let _ = self.log.force(station);
            }
            // What is posted while so many wait is lost, and an act all the same.
            Act::Post(_, _) if self.post.len() >= WAITING => {}
            Act::Post(word, receiver) => self.post.push(Message {
                word,
                revision,
                sender: station,
                receiver,
            })?,
            Act::Mark(outcome) => {
                if let Some(row) = self.rows.get_mut(usize::from(revision)) {
                    match outcome {
                        Outcome::Commit => row.installed = row.installed.with(station),
                        Outcome::Abort => row.dropped = row.dropped.with(station),
                    }
                }
            }
        }
        Ok(())
    }

    /// Takes the message at a place out of the post. That one waits there was asked before.
    fn take_out(&mut self, place: usize) -> Result<Message, Refusal> {
        if place < self.post.len() {
            Ok(self.post.remove(place))
        } else {
            Err(Refusal::NoMessage)
        }
    }

    /// The call deliver, once its questions are asked. Answers the acts done.
    fn deliver(&mut self, place: usize, copy: bool, outage: Outage) -> Result<usize, Failure> {
        // Asked before the call, and by settle too, so a message waits there.
        let message = if copy {
            self.post.get(place).copied().ok_or(Refusal::NoMessage)?
        } else {
            self.take_out(place)?
        };
        if self.dark.holds(message.receiver) {
            return Ok(0);
        }
        let step = self.met_by(message)?;
        Ok(self.carry_out(&step, outage)?)
    }

    /// A power cut. It is one all the same where the journal refuses it.
    fn cut(&mut self, station: u8, kept: u8) {
        let _ = self.log.cut(station, usize::from(kept));
        self.parts.retain(|part| part.entry.station != station);
        self.dark = self.dark.with(station);
    }

    /// Power returns, and the entries come from the stable list.
    fn restart(&mut self, station: u8) -> Result<(), AllocError> {
        self.dark = self.dark.without(station);
        for revision in 0..REVISIONS {
            for side in [Side::Coordinates, Side::Stages] {
                let entry = Entry::new(station, revision, side);
                if let Some(holding) = self.rebuilt(entry) {
                    self.hold(entry, holding)?;
                }
            }
        }
        Ok(())
    }

    /// What an entry holds after a restart.
    fn rebuilt(&self, entry: Entry) -> Option<Holding> {
        match entry.side {
            Side::Coordinates => self.announced(entry),
            Side::Stages => self.promised(entry),
        }
    }

    /// The argument of the stable record of a kind for an entry's station and revision.
    fn on_record(&self, entry: Entry, kind: Kind) -> Option<u8> {
        self.log
            .lines
            .iter()
            .filter(|line| line.stable && line.station == entry.station)
            .map(|line| line.what)
            .find(|what| what.revision == entry.revision && what.kind == kind)
            .map(|what| what.argument)
    }

    /// A coordinator entry after a restart: C goes before A, and A before I.
    fn announced(&self, entry: Entry) -> Option<Holding> {
        let (outcome, set) = [
            (Kind::Commit, Outcome::Commit),
            (Kind::Abort, Outcome::Abort),
            (Kind::Opening, Outcome::Abort),
        ]
        .into_iter()
        .find_map(|(kind, outcome)| self.on_record(entry, kind).map(|set| (outcome, set)))?;
        let ended = self.on_record(entry, Kind::End).is_some();
        let awaits = self.presumption.handling(outcome).acknowledged && !ended;
        awaits.then_some(Holding::Announcing(outcome, Set::from(set)))
    }

    /// A subordinate entry after a restart.
    fn promised(&self, entry: Entry) -> Option<Holding> {
        let coordinator = self.on_record(entry, Kind::Prepared)?;
        let finished = [Kind::Committed, Kind::Aborted]
            .into_iter()
            .any(|kind| self.on_record(entry, kind).is_some());
        (!finished).then_some(Holding::Prepared(coordinator))
    }

    /// The call settle, once its questions are asked. Answers the deliveries made.
    fn settle(&mut self) -> Result<usize, Failure> {
        let mut made = self.drain()?;
        // By number, since settling changes the model while it goes through the rows.
        for revision in 0..REVISIONS {
            let Some(coordinating) = self.coordinating(revision) else {
                return Ok(made);
            };
            made = made.saturating_add(self.press(coordinating)?);
            for station in STATIONS {
                let staging = Entry::new(station, revision, Side::Stages);
                made = made.saturating_add(self.press(staging)?);
            }
        }
        Ok(made)
    }

    /// Within settle: gives up where an entry collects, chases where it announces, inquires where it is in doubt, and
    /// drains. Answers the deliveries made.
    fn press(&mut self, entry: Entry) -> Result<usize, Failure> {
        match self.holding(entry) {
            None | Some(Holding::Opened(_) | Holding::Active(_)) => {}
            Some(holding) => {
                let step = self.moving_on(entry, holding)?;
                self.carry_out(&step, Outage::NEVER)?;
            }
        }
        self.drain()
    }

    /// Delivers the first message until none waits. Answers how many it delivered.
    fn drain(&mut self) -> Result<usize, Failure> {
        // Counted, since only the bound shows that the deliveries end.
        for made in 0..MOST_DELIVERIES {
            if self.post.is_empty() {
                return Ok(made);
            }
            self.deliver(0, false, Outage::NEVER)?;
        }
        Ok(MOST_DELIVERIES)
    }

    /// Everybody whom the revision's coordinator has not yet heard from.
    fn unheard(&self, revision: u16) -> Set {
        let coordinating = self.coordinating(revision);
        match coordinating.and_then(|entry| self.holding(entry)) {
            Some(Holding::Collecting(set, voters)) => set.beyond(voters),
            Some(Holding::Announcing(_, awaited)) => awaited,
            _ => Set::default(),
        }
    }
}
