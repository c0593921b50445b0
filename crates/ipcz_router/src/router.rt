//! Routers: the state of one, and what is read off it. What it does stands in the modules below.
ghost use Rattle.std.specs.Prelude.{◌≡◌, ◌<◌, ◌≤◌, true, false, Some, is_some, OnSome, IfNone, option_copied};
ghost use Rattle.ipcz_base.specs.Limits.{last_number, no_number};
ghost use Rattle.ipcz_seq.specs.Queue.{current_item};
ghost use Rattle.ipcz_seq.specs.Last.{last_entry};
ghost use Rattle.ipcz_router.specs.Router.{is_terminal, is_open_terminal, inward_has, router_has, new_terminal, terminal};
ghost use Rattle.ipcz_router.specs.Router.{from_descriptor, rouse, source_of, word_side};
ghost use Rattle.ipcz_router.specs.RoomyRouters.{KeepsRoom, LeavesRoom};
ghost use Rattle.ipcz_router.specs.Filings.{filing_of};
ghost use Rattle.ipcz_router.specs.Acts.{pop_out, pop_in};
ghost use Rattle.ipcz_router.specs.Calls.{next_number};

mod bypass;
mod calls;
mod dry;
mod fast_path;
mod hearing;
mod letting;
mod outlook;
mod passing;
mod turns;

use crate::filing::Filing;
use ipcz_base::{Descriptor, End, Item, LinkEnd, LinkId, Side};
use ipcz_edge::Edge;
use ipcz_seq::GapQueue;
use std::alloc::Global;
use std::marker::Model;

/// A router of one end of a pair (docs/PROTOCOL.md, "Routers").
///
/// A terminal is where callers put and get; it has no inward edge. A terminal that moves away leaves a proxy behind, which
/// passes on what comes from either side: from outward inward by its in queue, from inward outward by its out queue.
#[derive(Drop)]
pub struct Router {
    end: End,
    out_queue: GapQueue<Item>,
    in_queue: GapQueue<Item>,
    outward: Edge,
    inward: Option<Edge>,
    spare: Option<u64>,
    flagged: bool,
    closed: bool,
    marked: bool,
    mark_seen: bool,
    tried: bool,
    dry: bool,
    holds: bool,
    wake_owed: bool,
    mark_dropped: bool,
    gone_sent: bool,
}

impl Model for Router {
    ghost use Rattle.ipcz_router.specs.Numbers.{KeepsNumbers};
    ghost use Rattle.ipcz_router.specs.RoomyRouters.{RoomyRouter};
    ghost use Rattle.std.specs.Prelude.{is_none};
    ghost use Rattle.std.specs.FinMap.{code};
    ghost use Rattle.std.specs.Coded.{codes};

    ghost Value = { RoomyRouter };

    ghost coded = { Prim.hlevel (codes, code) };

    ghost view = { λ a. record {
      router = record {
        end = a.end;
        out_queue = a.out_queue.queue;
        in_queue = a.in_queue.queue;
        outward = a.outward;
        inward = a.inward;
        spare = a.spare;
        flagged = a.flagged;
        closed = a.closed;
        marked = a.marked;
        mark_seen = a.mark_seen;
        tried = a.tried;
        dry = a.dry;
        holds = a.holds;
        wake_owed = a.wake_owed;
        mark_dropped = a.mark_dropped;
        gone_sent = a.gone_sent;
      };
      out_room = a.out_queue.room;
      in_room = a.in_queue.room;
    } };

    ghost invariant = { λ a. KeepsNumbers (is_none a.inward) a.closed a.out_queue.queue a.in_queue.queue };
}

impl Router {
    /// A terminal of `end` on `link`, whose items are numbered from `first` on in both directions, which is at most
    /// [`ipcz_base::LAST`].
    ///
    /// It is marked stable if the link is central. Making it doesn't flag it. It keeps `alloc` for its queues.
    #[tactic(auto, unfolding(ipcz_base::specs::Links::is_central))]
    pub fn terminal(alloc: Global, end: End, link: LinkEnd, first: u64) -> Router
        requires { first ≤ last_number }
        ensures { result.router ≡ terminal end link first }
    {
        let is_central = matches!(link.link, LinkId::Central(_));
        Router::new(alloc, end, link, first, first, is_central)
    }

    /// The terminal that `descriptor` says, made at the node that its message came to; `from` is the node that sent it.
    ///
    /// It stands on side B of the descriptor's link, whatever the side of its end, and isn't marked. `next_out` is at most
    /// [`ipcz_base::LAST`], and `next_in` may be any number.
    pub fn from_descriptor(alloc: Global, descriptor: &Descriptor, from: u8) -> Router
        requires { descriptor.now.next_out ≤ last_number }
        ensures { result.router ≡ from_descriptor descriptor.now from }
    {
        let link = LinkEnd {
            link: descriptor.link,
            side: Side::B,
            other: from,
        };
        Router::new(
            alloc,
            descriptor.end,
            link,
            descriptor.next_out,
            descriptor.next_in,
            false,
        )
    }

    fn new(
        alloc: Global,
        end: End,
        link: LinkEnd,
        next_out: u64,
        next_in: u64,
        marked: bool,
    ) -> Router
        requires { next_out ≤ last_number }
        ensures { result.router ≡ new_terminal end link next_out next_in marked }
    {
        Router {
            end,
            out_queue: GapQueue::new_at(alloc, next_out),
            in_queue: GapQueue::new_at(alloc, next_in),
            outward: Edge::of(link),
            inward: None,
            spare: None,
            flagged: false,
            closed: false,
            marked,
            mark_seen: false,
            tried: false,
            dry: false,
            holds: false,
            wake_owed: false,
            mark_dropped: false,
            gone_sent: false,
        }
    }

    /// The end whose router this is. A moved terminal and the proxies that it left behind have the same end.
    pub fn end(&self) -> End
        ensures { result ≡ self.now.router.end }
    {
        self.end
    }

    /// Whether its node is to let it act.
    pub fn is_flagged(&self) -> bool
        ensures { result ≡ self.now.router.flagged }
    {
        self.flagged
    }

    /// Whether it has no inward edge.
    pub fn is_terminal(&self) -> bool
        ensures { result ≡ is_terminal self.now.router }
    {
        self.inward.is_none()
    }

    /// Whether it is a terminal that isn't closed, as `put`, `get` and `extend_to` require.
    pub fn is_open_terminal(&self) -> bool
        ensures { result ≡ is_open_terminal self.now.router }
    {
        self.inward.is_none() && !self.closed
    }

    /// Whether one of its edges has `link`, primary or decaying, and it stands on `side` of it.
    pub fn stands_on(&self, link: LinkId, side: Side) -> bool
        ensures { result ≡ router_has self.now.router link side }
    {
        self.outward.has(link, side) || self.inward_has(link, side)
    }

    #[tactic(auto, unfolding(ipcz_base::specs::Links::has_link))]
    fn inward_has(&self, link: LinkId, side: Side) -> bool
        ensures has { result ≡ inward_has self.now.router link side }
        ensures proxy { result ≡ true → is_terminal self.now.router ≡ false }
    {
        match &self.inward {
            Some(inward) => inward.has(link, side),
            None => false,
        }
    }

    /// Its edge toward the peer.
    pub fn outward(&self) -> Edge
        ensures { result ≡ self.now.router.outward }
    {
        self.outward
    }

    /// Its edge toward the terminal that moved away, if it is a proxy.
    pub fn inward(&self) -> Option<Edge>
        ensures { result ≡ self.now.router.inward }
    {
        self.inward
    }

    /// The word of its outward primary link with the side of its end, if there is that link and it is central.
    #[tactic(auto, unfolding(ipcz_base::specs::Links::word_of))]
    pub fn word(&self) -> Option<(u64, Side)>
        ensures { result ≡ word_side self.now.router }
    {
        match self.outward.primary()?.link {
            LinkId::Central(word) => Some((word, self.end.side)),
            LinkId::Peripheral { .. } => None,
        }
    }

    /// The number of the item that leaves the out queue next.
    pub fn out_number(&self) -> u64
        ensures { result ≡ self.now.router.out_queue.current }
    {
        self.out_queue.current()
    }

    /// The number of the item that leaves the in queue next.
    pub fn in_number(&self) -> u64
        ensures { result ≡ self.now.router.in_queue.current }
    {
        self.in_queue.current()
    }

    /// The first number from the out queue's current one on whose item hasn't come; at a terminal, the next one to put.
    pub fn next_number(&self) -> u64
        ensures { result ≡ next_number self.now.router }
    {
        self.out_queue.reach()
    }

    /// The node inward of a proxy, across its inward primary link: the one that may send the AcceptBypass of its bypass.
    pub fn source(&self) -> Option<u8>
        ensures { result ≡ source_of self.now.router }
    {
        match self.inward {
            Some(edge) => match edge.primary() {
                Some(end) => Some(end.other),
                None => None,
            },
            None => None,
        }
    }

    /// The item that leaves the out queue next, if it has come.
    pub fn out_item(&self) -> Option<&Item>
        ensures { option_copied result ≡ current_item self.now.router.out_queue }
    {
        self.out_queue.next()
    }

    /// The item that leaves the in queue next, if it has come.
    pub fn in_item(&self) -> Option<&Item>
        ensures { option_copied result ≡ current_item self.now.router.in_queue }
    {
        self.in_queue.next()
    }

    /// The item of the highest number in the out queue, with that number.
    pub fn out_last(&self) -> Option<&(u64, Item)>
        ensures { option_copied result ≡ last_entry self.now.router.out_queue }
    {
        self.out_queue.last()
    }

    /// The item of the highest number in the in queue, with that number.
    pub fn in_last(&self) -> Option<&(u64, Item)>
        ensures { option_copied result ≡ last_entry self.now.router.in_queue }
    {
        self.in_queue.last()
    }

    /// Where its node files it.
    #[inline(always)]
    #[tactic(auto, unfolding(ipcz_base::specs::Links::has_link))]
    pub fn filing(&self) -> Filing
        ensures { result ≡ filing_of self.now.router }
    {
        let (inward, inward_decaying) = match &self.inward {
            Some(inward) => (inward.primary(), inward.decaying()),
            None => (None, None),
        };
        Filing {
            outward: self.outward.primary(),
            outward_decaying: self.outward.decaying(),
            inward,
            inward_decaying,
            end: self.end,
            is_open: self.is_open_terminal(),
            flagged: self.flagged,
        }
    }

    /// Has it looked at again, as a Flush asks, and lets it try for the lock of its link again.
    pub fn rouse(&mut self)
        ensures router { self.new.router ≡ rouse self.old.router }
        ensures room { KeepsRoom self.old self.new }
    {
        self.flagged = true;
        self.tried = false;
    }

    // Takes the current item of the out queue out, if it is there.
    fn pop_out(&mut self) -> Option<Item>
        ensures item { result ≡ current_item self.old.router.out_queue }
        ensures taken { OnSome result (self.new.router ≡ pop_out self.old.router) }
        ensures none { IfNone result (self.new.router ≡ self.old.router) }
        ensures room { LeavesRoom self.old self.new 0 0 }
        ensures number { OnSome result (self.old.router.out_queue.current < no_number) }
    {
        self.out_queue.pop()
    }

    // Takes the current item of the out queue out, which is there.
    #[inline(always)]
    fn pop_out_ready(&mut self) -> Item
        requires { is_some (current_item self.old.router.out_queue) ≡ true }
        ensures item { Some result ≡ current_item self.old.router.out_queue }
        ensures taken { self.new.router ≡ pop_out self.old.router }
        ensures room { LeavesRoom self.old self.new 0 0 }
        ensures number { self.old.router.out_queue.current < no_number }
    {
        self.out_queue.pop_ready()
    }

    // Takes the current item of the in queue out, if it is there.
    fn pop_in(&mut self) -> Option<Item>
        ensures item { result ≡ current_item self.old.router.in_queue }
        ensures taken { OnSome result (self.new.router ≡ pop_in self.old.router) }
        ensures none { IfNone result (self.new.router ≡ self.old.router) }
        ensures room { LeavesRoom self.old self.new 0 0 }
        ensures number { OnSome result (self.old.router.in_queue.current < no_number) }
    {
        self.in_queue.pop()
    }
}
