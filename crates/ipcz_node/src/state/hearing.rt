//! What a node does with a message that brings no item: a router here hears it, and what that sends in turn is to be sent.

ghost use Rattle.std.specs.Prelude.{◌≡◌, ◌<◌, ◌≤◌, ◌&&◌, true, false, Some, is_some, IfSome, OnOk, OnErr, IsOk, IsSomeAnd};
ghost use Rattle.ipcz_base.specs.Indexed.{place_at};
ghost use Rattle.ipcz_router.specs.Router.{Router as RouterRecord};
ghost use Rattle.ipcz_router.specs.Hearing.{hears, hear, answer_to};
ghost use Rattle.ipcz_node.specs.Node.{router_in, with_router};
ghost use Rattle.ipcz_node.specs.Hands.{fits, handle, tell, grows_where_it_fits};
ghost use Rattle.ipcz_node.specs.Telling.{HasRoomToTell, HasRoomFor, brings_item};
ghost use Rattle.ipcz_node.specs.Hearing.{is_news, is_dropped, HasRoomToHear, IsAsked};

use super::NodeState;
use crate::happened::{link_asked, side_asked};
use ipcz_base::{LinkId, Message};
use ipcz_router::{Router, Sending, links_brought};
use std::alloc::AllocError;

impl NodeState {
    // The router of the serial, to read.
    fn router(&self, serial: u64) -> &Router
        requires { is_some (router_in self.now.node serial) ≡ true }
        ensures { Some result.now.router ≡ router_in self.now.node serial }
    {
        match self.routers.router(serial) {
            Some(router) => router,
            None => unreachable!(),
        }
    }

    // Whether what a message brings to a router is new here.
    #[tactic(auto, unfolding(crate::specs::Hearing::is_news))]
    fn is_news(&self, router: &Router, message: &Message) -> bool
        ensures { result ≡ is_news self.now.node router.now.router message.now }
    {
        match message {
            Message::BypassPeer { target, fresh, .. } => {
                *target < self.count && !self.is_named(LinkId::Central(*fresh), router.end().side)
            }
            Message::AcceptBypass { side, fresh, .. } => {
                !self.is_named(LinkId::Central(*fresh), *side)
            }
            Message::StopProxying { .. }
            | Message::ProxyWillStop { .. }
            | Message::Flush { .. }
            | Message::Item { .. } => true,
        }
    }

    // Whether the router of the serial hears a message, which brings it news.
    fn is_heard_at(&self, serial: u64, sender: u8, message: &Message, source: Option<u8>) -> bool
        requires { is_some (router_in self.now.node serial) ≡ true }
        ensures { (r : RouterRecord) → router_in self.now.node serial ≡ Some r →
            result ≡ (hears r sender message.now source && is_news self.now.node r message.now) }
    {
        let router = self.router(serial);
        router.hears(sender, message, source) && self.is_news(router, message)
    }

    // The serial of the router that has the link which a message asks for.
    #[inline(always)]
    pub(super) fn asked(&self, message: &Message) -> Option<u64>
        ensures { IsAsked self.now.node message.now result }
    {
        self.link_serial(link_asked(message), side_asked(message))
    }

    // Whether a message that brings no item fits.
    pub(super) fn is_heard(&self, sender: u8, message: &Message, source: Option<u8>) -> bool
        requires { brings_item message.now ≡ false }
        ensures { result ≡ fits self.now.node sender message.now source }
    {
        self.is_heard_by(self.asked(message), sender, message, source)
    }

    // The same, if the router that it asks for is known.
    #[inline(always)]
    pub(super) fn is_heard_by(
        &self,
        asked: Option<u64>,
        sender: u8,
        message: &Message,
        source: Option<u8>,
    ) -> bool
        requires asked { IsAsked self.now.node message.now asked }
        requires other { brings_item message.now ≡ false }
        ensures { result ≡ fits self.now.node sender message.now source }
    {
        match asked {
            Some(serial) => self.is_heard_at(serial, sender, message, source),
            None => is_dropped(message),
        }
    }
}

impl NodeState {
    // A message more is to be sent, if there is one.
    #[tactic(auto, unfolding(crate::specs::Hands::tell))]
    fn tell(&mut self, sending: Option<Sending>)
        requires { HasRoomToTell self.old sending }
        ensures { self.new.node ≡ tell self.old.node sending }
    {
        if let Some(Sending { to, message }) = sending {
            self.outboxes.push(to, message);
        }
    }

    // Makes room for so many links more of a router, and for a message to a node, if there is one.
    fn reserve_links(&mut self, links: usize, to: Option<u8>) -> Result<(), AllocError>
        ensures node { self.new.node ≡ self.old.node }
        ensures links { OnOk result (links ≤ self.new.room.links) }
        ensures outbox { OnOk result (IfSome to (λ n. 0 < place_at 0 self.new.room.outboxes n)) }
        ensures full { links ≤ self.old.room.links → IfSome to (λ n. 0 < place_at 0 self.old.room.outboxes n) → IsOk result }
    {
        self.routers.reserve(0, links)?;
        match to {
            Some(to) => self.outboxes.reserve(to),
            None => Ok(()),
        }
    }

    // Makes room for what the router of the serial takes and tells, once it has heard a message.
    fn make_room_to_hear(&mut self, serial: u64, message: &Message) -> Result<(), AllocError>
        requires { is_some (router_in self.old.node serial) ≡ true }
        ensures node { self.new.node ≡ self.old.node }
        ensures room { (r : RouterRecord) → router_in self.old.node serial ≡ Some r → OnOk result (HasRoomToHear self.new message.now r) }
        ensures full { (r : RouterRecord) → router_in self.old.node serial ≡ Some r → HasRoomToHear self.old message.now r → IsOk result }
    {
        let to = self.router(serial).next_addressee(message);
        self.reserve_links(links_brought(message), to)
    }

    // The router of the serial hears a message, and what it sends in turn is to be sent.
    fn hear_at(
        &mut self,
        serial: u64,
        sender: u8,
        message: &Message,
        source: Option<u8>,
    ) -> Result<(), AllocError>
        requires { IsSomeAnd (router_in self.old.node serial) (λ r. hears r sender message.now source ≡ true) }
        ensures ok { (r : RouterRecord) → router_in self.old.node serial ≡ Some r →
            OnOk result (self.new.node ≡ tell (with_router self.old.node serial (hear r sender message.now)) (answer_to r message.now)) }
        ensures full { (r : RouterRecord) → router_in self.old.node serial ≡ Some r → HasRoomToHear self.old message.now r → IsOk result }
        ensures err { OnErr result (self.new.node ≡ self.old.node) }
    {
        self.make_room_to_hear(serial, message)?;
        let answer = self.routers.hear(serial, sender, message, source);
        self.tell(answer);
        Ok(())
    }

    // Handles a message that fits and brings no item; if there is no router for it, it is a Flush, which is dropped.
    pub(super) fn hear(
        &mut self,
        sender: u8,
        message: &Message,
        source: Option<u8>,
    ) -> Result<(), AllocError>
        requires fits { fits self.old.node sender message.now source ≡ true }
        requires other { brings_item message.now ≡ false }
        ensures ok { OnOk result (self.new.node ≡ handle self.old.node sender message.now) }
        ensures grows { grows_where_it_fits message.now ≡ false → IsOk result }
        ensures full { HasRoomFor self.old message.now → IsOk result }
        ensures err { OnErr result (self.new.node ≡ self.old.node) }
    {
        let asked = self.asked(message);
        self.hear_by(asked, sender, message, source)
    }

    // The same, if the router that it asks for is known.
    #[inline(always)]
    pub(super) fn hear_by(
        &mut self,
        asked: Option<u64>,
        sender: u8,
        message: &Message,
        source: Option<u8>,
    ) -> Result<(), AllocError>
        requires asked { IsAsked self.old.node message.now asked }
        requires fits { fits self.old.node sender message.now source ≡ true }
        requires other { brings_item message.now ≡ false }
        ensures ok { OnOk result (self.new.node ≡ handle self.old.node sender message.now) }
        ensures grows { grows_where_it_fits message.now ≡ false → IsOk result }
        ensures full { HasRoomFor self.old message.now → IsOk result }
        ensures err { OnErr result (self.new.node ≡ self.old.node) }
    {
        match asked {
            Some(serial) => self.hear_at(serial, sender, message, source),
            None => Ok(()),
        }
    }
}

// Whether a message is dropped if no router here has the link that it asks for.
#[tactic(auto, unfolding(crate::specs::Hearing::is_dropped))]
fn is_dropped(message: &Message) -> bool
    ensures { result ≡ is_dropped message.now }
{
    match message {
        Message::Flush { .. } => true,
        Message::Item { .. }
        | Message::BypassPeer { .. }
        | Message::AcceptBypass { .. }
        | Message::StopProxying { .. }
        | Message::ProxyWillStop { .. } => false,
    }
}
