//! The state of a node. What it does stands in the modules below.
ghost use Rattle.std.specs.Prelude.{◌≡◌, ◌≤◌, ◌-◌, Some, None, true, map, vec_len};
ghost use Rattle.std.specs.Prelude.{vec_capacity, option_copied, option_map, IfSome, IfNone, IsSomeAnd};
ghost use Rattle.std.specs.FinMap.{len};
ghost use Rattle.ipcz_base.specs.Limits.{no_number};
ghost use Rattle.ipcz_router.specs.Router.{IsOpenTerminal, router_has};
ghost use Rattle.ipcz_node.specs.Serials.{map_by, AreRising};
ghost use Rattle.ipcz_node.specs.Node.{router_in, terminal_of, link_router, found, is_named};

mod acts;
mod calls;
mod dry;
mod fast_path;
mod first_pairs;
mod hands;
mod hearing;
mod passing;
mod room;
mod sends;
mod told;
mod turn;

pub use self::calls::PutRefused;
pub use self::first_pairs::first_pair_count;
pub use self::told::Told;
use crate::directory::Directory;
use crate::outbox::Outbox;
use crate::outboxes::Outboxes;
use crate::spare::Spare;
use ipcz_base::{Descriptor, End, Item, LinkEnd, LinkId, Message, Moves, Refusal, Side};
use ipcz_router::Router;
use ipcz_router::act::{Answer, Applied, RouterAct};
use std::alloc::{AllocError, Global};
use std::marker::Model;

/// The state of a node (docs/PROTOCOL.md, "Nodes").
#[derive(Drop)]
pub struct NodeState {
    number: u8,
    count: u8,
    routers: Directory,
    outboxes: Outboxes,
    pending: Vec<End>,
    strays: Vec<Message>,
    hand: Option<u8>,
    opening: Option<u64>,
    next_peripheral: u64,
    moves: Spare<Descriptor>,
    event_ends: Spare<End>,
    alloc: Global,
}

impl Model for NodeState {
    ghost use Rattle.std.specs.Prelude.{◌-◌, vec_capacity, vec_len};
    ghost use Rattle.std.specs.FinMap.{code};
    ghost use Rattle.std.specs.Coded.{codes};
    ghost use Rattle.ipcz_node.specs.RoomyNodes.{RoomyNode};

    ghost Value = { RoomyNode };

    ghost coded = { Prim.hlevel (codes, code) };

    ghost view = { λ a. record {
      node = record {
        number = a.number;
        count = a.count;
        routers = a.routers.filed.routers;
        outboxes = a.outboxes.messages;
        pending = a.pending.items;
        strays = a.strays.items;
        held = a.routers.filed.held;
        hand = a.hand;
        opening = a.opening;
        next_router = a.routers.filed.next;
        next_peripheral = a.next_peripheral;
      };
      room = record {
        outboxes = a.outboxes.room;
        routers = a.routers.filed.room;
        links = a.routers.filed.links;
        out_rooms = a.routers.out_rooms;
        in_rooms = a.routers.in_rooms;
        ends = a.routers.more_ends;
        moves = a.moves;
        pending = vec_capacity a.pending - vec_len a.pending;
        strays = vec_capacity a.strays - vec_len a.strays;
        event_ends = a.event_ends;
      };
    } };
}

impl NodeState {
    /// The node's number.
    pub fn number(&self) -> u8
        ensures { result ≡ self.now.node.number }
    {
        self.number
    }

    /// How many nodes there are.
    pub fn count(&self) -> u8
        ensures { result ≡ self.now.node.count }
    {
        self.count
    }

    /// The sender of the message in hand, if there is one.
    pub fn hand(&self) -> Option<u8>
        ensures { result ≡ self.now.node.hand }
    {
        self.hand
    }

    /// The word that was claimed for an open which isn't done yet.
    pub fn opening(&self) -> Option<u64>
        ensures { result ≡ self.now.node.opening }
    {
        self.opening
    }

    /// Its routers with their serials, which rise.
    pub fn routers(&self) -> &[(u64, Router)]
        ensures routers { map_by (λ x. x.router) result.now ≡ self.now.node.routers }
        ensures rising { AreRising 0 self.now.node.next_router result.now }
    {
        self.routers.entries()
    }

    /// The router of a serial, to read.
    #[inline(always)]
    pub fn find_router(&self, serial: u64) -> Option<&Router>
        ensures { option_map (λ r. r.router) (option_copied result) ≡ router_in self.now.node serial }
    {
        self.routers.router(serial)
    }

    /// How many routers it has.
    pub fn router_count(&self) -> usize
        ensures { result ≡ len self.now.node.routers }
    {
        self.routers.len()
    }

    /// The messages that wait to be posted, by destination: a queue for each number that a node could have.
    pub fn outboxes(&self) -> &[Outbox]
        ensures { map (λ q. q.messages) result.now ≡ self.now.node.outboxes }
    {
        self.outboxes.queues()
    }

    /// The ends that are still to be closed, since a sink dropped the parcels that had them.
    pub fn pending(&self) -> &[End]
        ensures { result.now ≡ self.now.node.pending }
    {
        self.pending.as_slice()
    }

    // The serial of the open terminal of an end.
    #[inline(always)]
    fn terminal_serial(&self, at: End) -> Option<u64>
        ensures none { IfNone result (terminal_of self.now.node at ≡ None) }
        ensures open { IfSome result (λ serial. IsSomeAnd (router_in self.now.node serial) IsOpenTerminal) }
        ensures found { IfSome result (λ serial. IsSomeAnd (router_in self.now.node serial)
            (λ r. terminal_of self.now.node at ≡ Some (found serial r))) }
    {
        self.routers.terminal_of(at)
    }

    // The same, which is looked for first at a place among the open terminals of all ends. It may be any.
    #[inline(always)]
    fn terminal_near(&self, at: End, place: usize) -> Option<u64>
        ensures none { IfNone result (terminal_of self.now.node at ≡ None) }
        ensures open { IfSome result (λ serial. IsSomeAnd (router_in self.now.node serial) IsOpenTerminal) }
        ensures found { IfSome result (λ serial. IsSomeAnd (router_in self.now.node serial)
            (λ r. terminal_of self.now.node at ≡ Some (found serial r))) }
    {
        self.routers.terminal_near(at, place)
    }

    // The serial of the router that has the link at the side.
    #[inline(always)]
    fn link_serial(&self, link: LinkId, side: Side) -> Option<u64>
        ensures none { IfNone result (link_router self.now.node link side ≡ None) }
        ensures stands { IfSome result (λ serial. IsSomeAnd (router_in self.now.node serial) (λ r. router_has r link side ≡ true)) }
        ensures found { IfSome result (λ serial. IsSomeAnd (router_in self.now.node serial)
            (λ r. link_router self.now.node link side ≡ Some (found serial r))) }
    {
        self.routers.first_on(link, side)
    }

    // Whether a router here has the link at the side.
    fn is_named(&self, link: LinkId, side: Side) -> bool
        ensures { result ≡ is_named self.now.node link side }
    {
        match self.link_serial(link, side) {
            Some(_) => true,
            None => false,
        }
    }

    // The next serials are numbers of 64 bits. It does nothing, and is there for what a caller has to prove.
    fn counts_serials(&self)
        ensures routers { self.now.node.next_router ≤ no_number }
        ensures links { self.now.node.next_peripheral ≤ no_number }
    {
        let _serials = (self.routers.next_serial(), self.next_link());
    }

    // The serial of the next peripheral link.
    fn next_link(&self) -> u64
        ensures { result ≡ self.now.node.next_peripheral }
    {
        self.next_peripheral
    }
}
