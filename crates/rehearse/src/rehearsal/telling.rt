//! The lines of a rehearsal.
use crate::rehearsal::Rehearsal;
use crate::rehearsal::scene::{Change, Scene};
use crate::script::{Call, REVISION};
use crate::words::{Done, Shown};
use journal::calls::Journal;
use presumption::Presumption;
use run::refusals::Refusal;
use std::io;

impl<R: Print, J: Journal, P: Presumption> Rehearsal<'_, R, J, P> {
    /// The call, with the message that it delivers.
    pub fn tell_call(&self, call: Call) -> io::Result<()> {
        match (call, self.run.message(0)) {
            (Call::Deliver(fuse), Some(message)) => {
                print!(self.rt; "deliver {}{}: ", Shown(message), Shown(fuse))
            }
            _ => print!(self.rt; "{call}: "),
        }
    }

    /// The answer, and what the call changed.
    pub fn tell_answer(&self, answer: Result<Done, Refusal>, before: Scene) -> io::Result<()> {
        let after = self.scene(before.station);
        let change = Change { before, after };
        print!(self.rt; "{}{}{}", Shown(answer), change.mark(), change.unforced())?;
        self.tell_stable(change)?;
        self.tell_posted(change)?;
        self.rt.println(change.outage())
    }

    // The records that became stable.
    fn tell_stable(&self, change: Change) -> io::Result<()> {
        let (journal, station) = (self.run.journal(), change.after.station);
        let lines = change
            .stable()
            .filter_map(|place| journal.read(station, place));
        for line in lines {
            print!(self.rt; "; {} becomes stable", Shown(line))?;
        }
        Ok(())
    }

    // The messages that were posted.
    fn tell_posted(&self, change: Change) -> io::Result<()> {
        let posted = change.posted().filter_map(|place| self.run.message(place));
        for (nth, message) in posted.enumerate() {
            let separator = if nth == 0 { "; posts " } else { ", " };
            print!(self.rt; "{separator}{}", Shown(message))?;
        }
        Ok(())
    }

    /// A station: its entries, and how many records it has.
    pub fn show_station(&self, station: u8) -> io::Result<()> {
        let coordinator = Shown(self.run.coordinator_entry(station, REVISION));
        let subordinate = Shown(self.run.subordinate_entry(station, REVISION));
        let stable = self.run.journal().stable_len(station);
        let unforced = self.run.journal().unforced_len(station);
        println!(self.rt;
            "station {station}: coordinator entry {coordinator}; subordinate entry {subordinate}; records: {stable} stable, {unforced} unforced"
        )
    }

    /// What became of the revision, if it was opened.
    pub fn show_revision(&self) -> io::Result<()> {
        if let Some(fate) = self.fate() {
            println!(self.rt; "revision {REVISION}: {fate}")?;
        }
        Ok(())
    }
}
