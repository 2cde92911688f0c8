//! What a call changes: the scene before it and after it.
ghost use Rattle.std.specs.Prelude.{◌≡◌, ◌-◌};

use crate::rehearsal::Rehearsal;
use crate::script::{COORDINATOR, Call, REVISION};
use journal::calls::Journal;
use presumption::Presumption;
use std::ops::Range;

/// One station and the post.
#[derive(Clone, Copy, Debug, PartialEq, Eq)]
pub struct Scene {
    pub station: u8,
    power: bool,
    // Two flags, as the row has two sets: that no station is in both is proved of runs and not seen in the type.
    installed: bool,
    dropped: bool,
    stable: usize,
    unforced: usize,
    waiting: usize,
}

/// Two scenes at one station, and a call between them.
#[derive(Clone, Copy, Debug, PartialEq, Eq)]
pub struct Change {
    pub before: Scene,
    pub after: Scene,
}

impl Scene {
    // The scene once a message is taken out of the post.
    fn delivered(self) -> Scene
        ensures { result.waiting ≡ self.waiting - 1 }
    {
        Scene {
            waiting: self.waiting.saturating_sub(1),
            ..self
        }
    }
}

impl Change {
    /// The mark that was made.
    pub fn mark(self) -> &'static str {
        if self.after.installed && !self.before.installed {
            "; marks installed"
        } else if self.after.dropped && !self.before.dropped {
            "; marks dropped"
        } else {
            ""
        }
    }

    /// The record that was left unforced: under both presumptions no step leaves two.
    pub fn unforced(self) -> &'static str {
        if self.after.unforced > self.before.unforced {
            "; leaves a record unforced"
        } else {
            ""
        }
    }

    /// The outage that began or ended.
    pub fn outage(self) -> &'static str {
        match (self.before.power, self.after.power) {
            (true, false) => "; power fails",
            (false, true) => "; power returns",
            _ => "",
        }
    }

    /// The places of the records that became stable.
    pub fn stable(self) -> Range<usize> {
        self.before.stable..self.after.stable
    }

    /// The places of the messages that were posted.
    pub fn posted(self) -> Range<usize> {
        self.before.waiting..self.after.waiting
    }
}

impl<R: Print, J: Journal, P: Presumption> Rehearsal<'_, R, J, P> {
    /// The scene now, at a station.
    pub fn scene(&self, station: u8) -> Scene {
        let fate = self.fate();
        Scene {
            station,
            power: self.run.power(station),
            installed: fate.is_some_and(|fate| fate.installed.contains(station)),
            dropped: fate.is_some_and(|fate| fate.dropped.contains(station)),
            stable: self.run.journal().stable_len(station),
            unforced: self.run.journal().unforced_len(station),
            waiting: self.run.waiting(),
        }
    }

    /// The scene before a call, at the station that will act.
    pub fn scene_before(&self, call: Call) -> Scene {
        match call {
            Call::Open { .. } | Call::Close | Call::GiveUp => self.scene(COORDINATOR),
            Call::Reject { station }
            | Call::Inquire { station }
            | Call::Cut { station, .. }
            | Call::Restart { station } => self.scene(station),
            Call::Deliver(_) => match self.run.message(0) {
                Some(message) => self.scene(message.receiver).delivered(),
                None => self.scene(COORDINATOR),
            },
        }
    }
}
