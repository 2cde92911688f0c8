//! What the stations act upon: a run's journal, post and as-run log.
ghost use Rattle.std.specs.Prelude.{◌≡◌, ◌≤◌, [], length, IfOk};
ghost use Rattle.std.specs.List.{slice_get};
ghost use Rattle.actor.specs.Log.{new_number};
ghost use Rattle.actor.specs.Post.{most_waiting};
ghost use Rattle.actor.specs.Store.{store, with_row, less, journal_cut};
ghost use Rattle.actor.specs.Store.{done_under_fuse, answer_under_fuse};
ghost use Rattle.actor.specs.Actors.{journal_of, store_of};
ghost use Rattle.station.specs.Acts.{acts};
ghost use Rattle.station.specs.Limits.{most_revisions};

use crate::acts::Acting;
use crate::fuse::{Fuse, PowerCut};
use crate::log::{Log, Row};
use crate::post::Post;
use journal::calls::Journal;
use presumption::Presumption;
use station::MAX_REVISIONS;
use station::messages::Message;
use station::sets::StationSet;
use station::steps::Step;
use std::alloc::{AllocError, Global};

/// A run's journal, post and log.
// No `Model`: `journal()` names the journal itself, and the view would be these same three fields.
// Of the other modules acts.rt alone uses the fields, to post, write and mark: perform.rt has an `Acting`, which hides them.
#[derive(Drop)]
pub struct Actor<J> {
    pub(crate) journal: J,
    pub(crate) post: Post,
    pub(crate) log: Log,
}

impl<J: Journal> Actor<J> {
    /// Nothing is posted or logged yet.
    pub fn new(heap: Global, journal: J) -> Result<Actor<J>, AllocError>
    where
        J: Drop,
        ensures { IfOk result (λ x. store_of J.meaning x
            ≡ store (J.meaning journal) [] []) }
    {
        let post = Post::new(heap)?;
        let log = Log::new(heap)?;
        Ok(Actor { journal, post, log })
    }

    /// The journal.
    pub fn journal(&self) -> &J
        ensures { result.now ≡ journal_of self.now }
    {
        &self.journal
    }

    /// How many revisions were opened.
    pub fn opened(&self) -> usize
        ensures count { result ≡ length (store_of J.meaning self.now).log }
        ensures few { result ≤ most_revisions }
    {
        self.log.len()
    }

    /// The revision's row of the as-run log, if it was opened.
    pub fn row(&self, revision: u16) -> Option<Row>
        ensures value { result ≡ slice_get (store_of J.meaning self.now).log revision }
        ensures few { length (store_of J.meaning self.now).log ≤ most_revisions }
    {
        self.log.row(revision)
    }

    /// One row more in the as-run log. Answers the revision's number, or none where all are opened.
    pub fn add_row(&mut self, coordinator: u8, set: StationSet) -> Option<u16>
        ensures number { result ≡ new_number (store_of J.meaning self.old).log }
        ensures store { store_of J.meaning self.new
            ≡ with_row coordinator set (store_of J.meaning self.old) }
    {
        let revision = self.opened();
        if revision >= usize::from(MAX_REVISIONS) {
            return None;
        }
        self.log.add(coordinator, set);
        // `as` is proved to lose nothing here, where `try_from` would bring in a failure.
        Some(revision as u16)
    }

    /// How many messages wait.
    pub fn waiting(&self) -> usize
        ensures count { result ≡ length (store_of J.meaning self.now).post }
        ensures few { result ≤ most_waiting }
    {
        self.post.len()
    }

    /// The message that waits at a place.
    pub fn message(&self, place: usize) -> Option<Message>
        ensures value { result ≡ slice_get (store_of J.meaning self.now).post place }
        ensures few { length (store_of J.meaning self.now).post ≤ most_waiting }
    {
        self.post.message(place)
    }

    /// Removes the message at a place.
    pub fn remove(&mut self, place: usize)
        ensures { store_of J.meaning self.new
            ≡ less place (store_of J.meaning self.old) }
    {
        self.post.remove(place);
    }

    /// The power fails at a station, and so many of its unforced records are kept.
    #[tactic(auto, unfolding(crate::specs::Store::journal_cut))]
    pub fn cut(&mut self, station: u8, kept: u8)
        ensures { store_of J.meaning self.new
            ≡ journal_cut station kept (store_of J.meaning self.old) }
    {
        let _ = self.journal.cut(station, usize::from(kept));
    }

    /// Performs a step of a station for a revision, under a fuse. Answers how many acts were done;
    /// where the fuse burns before the last of them, the station's journal is cut.
    #[tactic(auto, using(crate::proofs::Steps::store_under_fuse))]
    pub fn step<P: Presumption>(
        &mut self,
        presumption: &P,
        station: u8,
        revision: u16,
        step: Step,
        fuse: Fuse,
    ) -> Result<u8, PowerCut>
        ensures store { store_of J.meaning self.new
            ≡ done_under_fuse station
            (acts (P.answers presumption.now) station revision step)
            fuse.acts fuse.kept (store_of J.meaning self.old) }
        ensures answer { result
            ≡ answer_under_fuse fuse.acts
            (acts (P.answers presumption.now) station revision step) }
    {
        let mut acting = Acting::new(self, presumption, station, revision, fuse);
        acting.perform(step)?;
        Ok(acting.done())
    }
}
