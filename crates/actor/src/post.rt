//! The post: the messages that wait, in posting order.
ghost use Rattle.std.specs.Prelude.{◌≡◌, ◌≤◌, [], length, IfOk};
ghost use Rattle.std.specs.List.{slice_get};
ghost use Rattle.actor.specs.Post.{most_waiting, posted, without};

use station::messages::Message;
use std::alloc::{AllocError, Global};
use std::marker::Model;

/// The most messages that can wait.
pub const MAX_WAITING: usize = 64;

/// The messages that wait, in posting order.
/// The room is reserved at once, so no act can want memory; an ArrayVec would need a blank message.
#[derive(Drop)]
pub struct Post {
    messages: Vec<Message>,
}

// A clause sees the messages that wait, and not the invariant: callers know that they are few by the clauses `few`.
impl Model for Post {
    ghost use Rattle.std.specs.Prelude.{◌≤◌, List, length, vec_capacity};
    ghost use Rattle.actor.specs.Post.{most_waiting};
    ghost use Rattle.station.specs.declared.messages.Message.{Message};

    ghost Value = { List Message };

    ghost view = { λ p. p.messages.items };

    ghost invariant = { λ p. (most_waiting ≤ vec_capacity p.messages)
        × (length p.messages.items ≤ most_waiting) };
}

impl Post {
    /// No message waits yet.
    pub fn new(heap: Global) -> Result<Post, AllocError>
        ensures { IfOk result (λ x. x ≡ []) }
    {
        let messages = Vec::with_capacity(heap, MAX_WAITING)?;
        Ok(Post { messages })
    }

    /// How many messages wait.
    pub fn len(&self) -> usize
        ensures count { result ≡ length self.now }
        ensures few { result ≤ most_waiting }
    {
        self.messages.len()
    }

    /// The message that waits at a place.
    pub fn message(&self, place: usize) -> Option<Message>
        ensures value { result ≡ slice_get self.now place }
        ensures few { length self.now ≤ most_waiting }
    {
        self.messages.get(place).copied()
    }

    /// Posts a message; it is lost where as many wait as can.
    pub fn add(&mut self, message: Message)
        ensures { self.new ≡ posted message self.old }
    {
        if self.messages.len() < MAX_WAITING {
            self.messages.push_reserved(message);
        }
    }

    /// Removes the message at a place.
    pub fn remove(&mut self, place: usize)
        ensures { self.new ≡ without place self.old }
    {
        if place < self.messages.len() {
            self.messages.remove(place);
        }
    }
}
