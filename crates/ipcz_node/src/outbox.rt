//! The messages of a node that wait for a mailbox.
ghost use Rattle.std.specs.Prelude.{◌≤◌, ◌≡◌, ◌<◌, ◌++◌, [], ◌∷◌, nat_eq, length, slice_get, option_copied, option_to_list, None, OnOk, IsOk};
ghost use Rattle.ipcz_node.specs.Acts.{first_of, rest_of};

use ipcz_base::Message;
use std::alloc::{AllocError, Global};
use std::collections::VecDeque;
use std::marker::Model;

/// Messages that wait to be posted to one node.
///
/// The first has a place of its own, since most outboxes never hold more: it takes no buffer. That place counts as room once it was made
/// ready.
#[derive(Drop)]
pub struct Outbox {
    first: Option<Message>,
    is_ready: bool,
    rest: VecDeque<Message>,
}

impl Model for Outbox {
    ghost use Rattle.std.specs.Prelude.{◌≡◌, ◌++◌, ◌+◌, ◌-◌, [], None, option_to_list};
    ghost use Rattle.std.specs.VecDeque.{deque_len, deque_capacity};
    ghost use Rattle.std.specs.Coded.{codes};
    ghost use Rattle.ipcz_node.specs.RoomyNodes.{OutboxValue, first_room};

    ghost Value = { OutboxValue };

    ghost coded = { Prim.hlevel codes };

    ghost view = { λ a. record {
      messages = option_to_list a.first ++ a.rest.items;
      room = first_room a.first a.is_ready + (deque_capacity a.rest - deque_len a.rest);
    } };

    ghost invariant = { λ a. a.first ≡ None → a.rest.items ≡ [] };
}

impl Outbox {
    /// No messages, and no room.
    pub fn new(alloc: Global) -> Self
        ensures { result.messages ≡ [] }
    {
        Outbox {
            first: None,
            is_ready: false,
            rest: VecDeque::new(alloc),
        }
    }

    /// Makes room for a message more. An empty queue has the place for it, so it takes no memory then.
    #[tactic(auto, unfolding(crate::specs::RoomyNodes::first_room))]
    pub fn reserve(&mut self) -> Result<(), AllocError>
        ensures ok { OnOk result (0 < self.new.room) }
        ensures messages { self.new.messages ≡ self.old.messages }
        ensures succeeds { 0 < self.old.room → IsOk result }
        ensures empty { self.old.messages ≡ [] → IsOk result }
        ensures kept { self.old.room ≤ self.new.room }
    {
        if self.first.is_none() {
            self.is_ready = true;
            return Ok(());
        }
        self.rest.reserve(1)
    }

    /// Adds a message.
    #[tactic(auto, unfolding(crate::specs::RoomyNodes::first_room))]
    pub fn push(&mut self, message: Message)
        requires { 0 < self.old.room }
        ensures { self.new.messages ≡ self.old.messages ++ message ∷ [] }
    {
        if self.first.is_none() {
            self.first = Some(message);
        } else {
            self.rest.push_back_reserved(message);
        }
    }

    /// Whether no message waits.
    pub fn is_empty(&self) -> bool
        ensures { result ≡ nat_eq (length self.now.messages) 0 }
    {
        self.first.is_none()
    }

    /// How many messages wait.
    pub fn len(&self) -> usize
        ensures { result ≡ length self.now.messages }
    {
        let rest = self.rest.len();
        if self.first.is_some() { rest + 1 } else { 0 }
    }

    /// The message at an index, of which the first is 0.
    pub fn get(&self, i: usize) -> Option<&Message>
        ensures { option_copied result ≡ slice_get self.now.messages i }
    {
        if i == 0 {
            self.first.as_ref()
        } else {
            self.rest.get(i - 1)
        }
    }

    /// Takes the first message out into an empty place, if there is one, and keeps the room.
    #[tactic(auto, unfolding(crate::specs::Acts::first_of, crate::specs::Acts::rest_of))]
    #[inline(always)]
    pub fn take_first(&mut self, place: &mut Option<Message>)
        requires { place.old ≡ None }
        ensures messages { self.new.messages ≡ rest_of self.old.messages }
        ensures message { place.new ≡ first_of self.old.messages }
    {
        *place = self.first.take();
        if !self.rest.is_empty() {
            self.first = self.rest.pop_front();
        }
    }

    /// Moves the first message into an empty outbox, if there is one. It takes no memory. What is left empty gives its room back.
    pub(crate) fn move_first(&mut self, alloc: Global, other: &mut Outbox)
        requires { other.old.messages ≡ [] }
        ensures messages { self.new.messages ≡ rest_of self.old.messages }
        ensures moved { other.new.messages ≡ option_to_list (first_of self.old.messages) }
        ensures room { self.new.messages ≡ [] → self.new.room ≡ 0 }
    {
        self.take_first(&mut other.first);
        if self.is_empty() {
            self.give_back(alloc);
        }
    }

    /// Takes the first message out, if there is one. What is left empty gives its room back.
    pub fn pop(&mut self, alloc: Global) -> Option<Message>
        ensures messages { self.new.messages ≡ rest_of self.old.messages }
        ensures message { result ≡ first_of self.old.messages }
        ensures room { self.new.messages ≡ [] → self.new.room ≡ 0 }
    {
        let mut message = None;
        self.take_first(&mut message);
        if self.is_empty() {
            self.give_back(alloc);
        }
        message
    }

    // Gives all room back.
    #[tactic(auto, unfolding(crate::specs::RoomyNodes::first_room))]
    fn give_back(&mut self, alloc: Global)
        requires { self.old.messages ≡ [] }
        ensures messages { self.new.messages ≡ [] }
        ensures room { self.new.room ≡ 0 }
    {
        self.is_ready = false;
        if self.rest.capacity() > 0 {
            self.rest = VecDeque::from_vec(Vec::new(alloc));
        }
    }
}
