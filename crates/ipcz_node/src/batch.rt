//! Messages that go from one node to another in one step.
ghost use Rattle.std.specs.Prelude.{◌≡◌, [], None, nat_eq, length, option_to_list};
ghost use Rattle.ipcz_node.specs.Acts.{first_of, rest_of};

use crate::outbox::Outbox;
use ipcz_base::Message;
use std::alloc::Global;
use std::marker::Model;
use std::mem;

/// The messages that were posted to one node in one step, as far as they weren't taken out. Where all are taken out, the room for them stays, for those
/// of a later step.
#[derive(Drop)]
pub struct Batch {
    messages: Outbox,
}

impl Model for Batch {
    ghost use Rattle.std.specs.Prelude.{List};
    ghost use Rattle.std.specs.Coded.{codes};
    ghost use Rattle.ipcz_base.specs.declared.message.Message.{Message};

    ghost Value = { List Message };

    ghost coded = { Prim.hlevel codes };

    ghost view = { λ a. a.messages.messages };
}

impl Batch {
    /// No messages.
    pub fn new(alloc: Global) -> Self
        ensures { result ≡ [] }
    {
        Batch {
            messages: Outbox::new(alloc),
        }
    }

    /// Whether no message is left.
    pub fn is_empty(&self) -> bool
        ensures { result ≡ nat_eq (length self.now) 0 }
    {
        self.messages.is_empty()
    }

    /// Takes the first message out into an empty place, if one is left.
    #[inline(always)]
    pub fn take_first(&mut self, place: &mut Option<Message>)
        requires { place.old ≡ None }
        ensures messages { self.new ≡ rest_of self.old }
        ensures message { place.new ≡ first_of self.old }
    {
        self.messages.take_first(place);
    }

    /// Takes the first message of an outbox, if there is one. It takes no memory. What is left empty gives its room back.
    pub(crate) fn take_first_of(&mut self, outbox: &mut Outbox, alloc: Global)
        requires { self.old ≡ [] }
        ensures batch { self.new ≡ option_to_list (first_of outbox.old.messages) }
        ensures outbox { outbox.new.messages ≡ rest_of outbox.old.messages }
    {
        outbox.move_first(alloc, &mut self.messages);
    }

    /// Takes the messages of an outbox, which gets what room there is here.
    pub(crate) fn take_from(&mut self, outbox: &mut Outbox)
        requires { self.old ≡ [] }
        ensures batch { self.new ≡ outbox.old.messages }
        ensures outbox { outbox.new.messages ≡ [] }
    {
        mem::swap(&mut self.messages, outbox);
    }
}
