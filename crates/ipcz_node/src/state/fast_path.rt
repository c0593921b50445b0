//! A lone parcel, which is all that the nodes have to do: it leaves one of them, and another takes it.

ghost use Rattle.std.specs.Prelude.{◌≡◌, ◌≤◌, [], Some, true, false, is_some, IfSome, IfNone, IsSomeAnd, ℕ};
ghost use Rattle.ipcz_base.specs.declared.link_end.LinkEnd.{LinkEnd as LinkEndRecord};
ghost use Rattle.ipcz_base.specs.Items.{ends_in};
ghost use Rattle.ipcz_base.specs.Limits.{no_number};
ghost use Rattle.ipcz_seq.specs.Queue.{current_item};
ghost use Rattle.ipcz_router.specs.Router.{Router as RouterRecord};
ghost use Rattle.ipcz_router.specs.Acts.{pop_out, rest};
ghost use Rattle.ipcz_router.specs.Lone.{takes_last};
ghost use Rattle.ipcz_node.specs.Rooms.{HasQueueRoom};
ghost use Rattle.ipcz_node.specs.Lone.{RestsNext, SendsNext, SendsOnly, TakesItem};
ghost use Rattle.ipcz_node.specs.Node.{found, link_router, router_in, with_router};

use super::NodeState;
use crate::act::Act;
use ipcz_base::{Item, LinkEnd, LinkId, Side};
use ipcz_router::RouterAct;

impl NodeState {
    /// The serial of a router and the link over which it sends its only item, which carries no ends, if that and the router's rest are all that
    /// the node has to do.
    #[inline(always)]
    pub fn only_sender(&self) -> Option<(u64, LinkEnd)>
        ensures some { IfSome result (λ s. SendsOnly self.now.node s.0 s.1) }
        ensures none { IfNone result ((serial : ℕ) → (link : LinkEndRecord) → SendsOnly self.now.node serial link → ⊥) }
    {
        if !self.outboxes.are_empty() || !self.pending.is_empty() || self.hand.is_some() {
            return None;
        }
        self.outboxes.has_each();
        self.routers.only_sender()
    }

    /// The lowest serial of a flagged router and the link over which it sends an item without ends, if that is the first that the node has to
    /// do while no mailbox to it is full.
    #[inline(always)]
    pub fn next_sender(&self) -> Option<(u64, LinkEnd)>
        ensures some { IfSome result (λ s. SendsNext self.now.node s.0 s.1) }
        ensures none { IfNone result ((serial : ℕ) → (link : LinkEndRecord) → SendsNext self.now.node serial link → ⊥) }
    {
        if self.hand.is_some() || !self.pending.is_empty() || !self.outboxes.are_empty() {
            return None;
        }
        self.outboxes.has_each();
        self.routers.next_sender()
    }

    /// The lowest serial of a flagged router that rests next, if that is the first that the node has to do while no mailbox to it is full.
    #[inline(always)]
    pub fn next_rest(&self) -> Option<u64>
        ensures some { IfSome result (RestsNext self.now.node) }
        ensures none { IfNone result ((serial : ℕ) → RestsNext self.now.node serial → ⊥) }
    {
        if self.hand.is_some() || !self.outboxes.are_empty() {
            return None;
        }
        match self.next_own() {
            Act::Router(serial, RouterAct::Rest) => Some(serial),
            _ => None,
        }
    }

    /// Takes the current item out of the out queue of the router of the serial, and gives its number with it: what the act `SendOut` of the
    /// router does, except to the outbox.
    #[inline(always)]
    pub fn send_next(&mut self, serial: u64) -> (u64, Item)
        requires { IsSomeAnd (router_in self.old.node serial) (λ r. is_some (current_item r.out_queue) ≡ true) }
        ensures node { (r : RouterRecord) → router_in self.old.node serial ≡ Some r →
            self.new.node ≡ with_router self.old.node serial (pop_out r) }
        ensures number { (r : RouterRecord) → router_in self.old.node serial ≡ Some r → result.0 ≡ r.out_queue.current }
        ensures item { (r : RouterRecord) → router_in self.old.node serial ≡ Some r → Some result.1 ≡ current_item r.out_queue }
        ensures serials { self.old.node.next_peripheral ≤ no_number }
    {
        self.counts_serials();
        self.routers.send_next(serial)
    }

    /// Takes the current item out of the out queue of the router of the serial, which rests then, and gives its number with it: what the acts
    /// `SendOut` and `Rest` of the router do, except to the outbox.
    #[inline(always)]
    pub fn send_last(&mut self, serial: u64) -> (u64, Item)
        requires { IsSomeAnd (router_in self.old.node serial) (λ r. is_some (current_item r.out_queue) ≡ true) }
        ensures node { (r : RouterRecord) → router_in self.old.node serial ≡ Some r →
            self.new.node ≡ with_router self.old.node serial (rest (pop_out r)) }
        ensures number { (r : RouterRecord) → router_in self.old.node serial ≡ Some r → result.0 ≡ r.out_queue.current }
        ensures item { (r : RouterRecord) → router_in self.old.node serial ≡ Some r → Some result.1 ≡ current_item r.out_queue }
        ensures serials { self.old.node.next_peripheral ≤ no_number }
    {
        self.counts_serials();
        self.routers.send_last(serial)
    }

    /// Gives an item without ends to the router that has the link at the side, if it comes over its outward edge and the router only rests
    /// before it and after it. It tells whether it did: `item` counts for nothing then. Else, and if there is no memory, `item` and the node
    /// stay as they are.
    #[inline(always)]
    pub fn take_last(&mut self, link: LinkId, side: Side, n: u64, item: &mut Item) -> bool
        requires { ends_in item.old ≡ [] }
        ensures taken { result ≡ true → TakesItem self.old.node link side n item.old self.new.node }
        ensures left { result ≡ false → (item.new ≡ item.old) × (self.new.node ≡ self.old.node) }
        ensures full { (s : ℕ) → (r : RouterRecord) → link_router self.old.node link side ≡ Some (found s r) → takes_last r link side n ≡ true →
            HasQueueRoom self.old.room.in_rooms s → result ≡ true }
    {
        self.counts_serials();
        if n == u64::MAX {
            return false;
        }
        match self.link_serial(link, side) {
            Some(serial) => self.routers.take_last(serial, link, side, n, item),
            None => false,
        }
    }
}
