//! Calls of callers at a terminal, and items that come to a router.
ghost use Rattle.std.specs.Prelude.{◌≡◌, ◌<◌, ◌≤◌, ◌-◌, ◌||◌, ◌&&◌, Some, None, true, false, is_some, is_none, IsOk, IfOk, IfErr, OnOk, OnErr, unwrap_or};
ghost use Rattle.ipcz_base.specs.Limits.{last_number, no_number};
ghost use Rattle.ipcz_seq.specs.Queue.{current_item, item_at, has_place, push_refusal};
ghost use Rattle.ipcz_router.specs.Router.{IsOpenTerminal, is_terminal, outward_has, router_has, rouse};
ghost use Rattle.ipcz_seq.specs.Last.{goes_behind};
ghost use Rattle.ipcz_router.specs.RoomyRouters.{room_for, KeepsRoom, LeavesRoom, LeavesRoomBut};
ghost use Rattle.ipcz_router.specs.Closing.{close_router};
ghost use Rattle.ipcz_router.specs.Calls.{next_number, put_item, router_put_refusal, router_get_refusal, item_refusal, take_item, sizes_found, has_place_for, has_come};
ghost use Rattle.ipcz_router.specs.Status.{HasParcels, IsStatus};
ghost use Rattle.ipcz_router.specs.Arrivals.{has_arrived};
ghost use Rattle.ipcz_router.specs.Calls.{accept, accept_from_outward, accept_from_inward, accept_refusal, extend, descriptor_of};

use super::Router;
use ipcz_base::{
    Descriptor, Item, LAST, LinkEnd, LinkId, Parcel, PortalStatus, Refusal, Side, Sizes,
};
use ipcz_edge::Edge;
use std::mem;

impl Router {
    /// Why a put would be refused, memory aside: `PeerClosed` if the peer's mark has come, even behind a gap, else
    /// `NumbersEnd` if the number would be [`LAST`] or more.
    pub fn put_refusal(&self) -> Option<Refusal>
        ensures { result ≡ router_put_refusal self.now.router }
    {
        self.refusal_at(self.out_queue.reach())
    }

    // The same if the next number is known.
    #[inline(always)]
    fn refusal_at(&self, n: u64) -> Option<Refusal>
        requires { n ≡ next_number self.now.router }
        ensures { result ≡ router_put_refusal self.now.router }
    {
        if self.mark_seen {
            Some(Refusal::PeerClosed)
        } else if n >= LAST {
            Some(Refusal::NumbersEnd)
        } else {
            None
        }
    }

    /// Puts a parcel into the out queue and answers its number, the next one at this end. The router is flagged.
    ///
    /// A refused call hands the parcel back. It answers `PeerClosed` if the peer's mark has come, even behind a gap, else
    /// `NumbersEnd` if the number would be [`LAST`] or more, else `OutOfMemory` if there was no room and none was
    /// found.
    #[inline(always)]
    pub fn put(&mut self, parcel: Parcel) -> Result<u64, (Refusal, Parcel)>
        requires { IsOpenTerminal self.old.router }
        ensures allowed { OnOk result (router_put_refusal self.old.router ≡ None) }
        ensures number { IfOk result (λ n. n ≡ next_number self.old.router) }
        ensures ok { OnOk result (self.new.router ≡ put_item self.old.router (Item.Parcel parcel)) }
        ensures why { IfErr result (λ e. e.0 ≡ unwrap_or (router_put_refusal self.old.router) Refusal.OutOfMemory) }
        ensures err { IfErr result (λ e. (e.1 ≡ parcel) × (self.new.router ≡ self.old.router)) }
        ensures full { 0 < self.old.out_room → router_put_refusal self.old.router ≡ None → IsOk result }
        ensures room { LeavesRoom self.old self.new 1 0 }
    {
        let n = self.out_queue.reach();
        if let Some(why) = self.refusal_at(n) {
            return Err((why, parcel));
        }
        if let Err(why) = self.reserve_close() {
            return Err((why, parcel));
        }
        self.push_out_ready(n, Item::Parcel(parcel));
        Ok(n)
    }

    /// Takes the parcel of the in queue's current number out, with that number.
    ///
    /// It answers `Empty` if that item hasn't come, whatever stands behind it, and `PeerClosed` if it is the mark, or Gone,
    /// which stays.
    #[tactic(auto, unfolding(crate::specs::Calls::item_refusal))]
    pub fn get(&mut self) -> Result<(u64, Parcel), Refusal>
        requires { IsOpenTerminal self.old.router }
        ensures number { IfOk result (λ g. g.0 ≡ self.old.router.in_queue.current) }
        ensures parcel { IfOk result (λ g. current_item self.old.router.in_queue ≡ Some (Item.Parcel g.1)) }
        ensures ok { OnOk result (self.new.router ≡ take_item self.old.router) }
        ensures why { IfErr result (λ e. router_get_refusal self.old.router ≡ Some e) }
        ensures err { IfErr result (λ _. self.new.router ≡ self.old.router) }
        ensures room { LeavesRoom self.old self.new 0 0 }
    {
        if let Some(Item::Mark | Item::Gone) = self.in_queue.next() {
            return Err(Refusal::PeerClosed);
        }
        let n = self.in_queue.current();
        match self.pop_in() {
            Some(Item::Parcel(parcel)) => Ok((n, parcel)),
            Some(Item::Mark | Item::Gone) => unreachable!(),
            None => Err(Refusal::Empty),
        }
    }

    /// How many bytes and ends the parcel has that a get would take out; none if it would be refused.
    #[tactic(auto, unfolding(crate::specs::Calls::sizes_found))]
    pub fn next_sizes(&self) -> Option<Sizes>
        ensures { result ≡ sizes_found (current_item self.now.router.in_queue) }
    {
        match self.in_queue.next() {
            Some(item) => item.sizes(),
            None => None,
        }
    }

    /// Whether something has come that a get would answer by: a parcel, or the peer's mark. Else a get is `Empty`.
    pub fn has_come(&self) -> bool
        ensures { result ≡ has_come self.now.router }
    {
        self.in_queue.next().is_some()
    }

    /// What gets would answer, one after the other. It looks at each parcel that waits.
    pub fn status(&self) -> PortalStatus
        ensures { IsStatus self.now.router.in_queue result }
    {
        let next = self.in_queue.current();
        let behind = self.behind_parcels();
        PortalStatus {
            next,
            sizes: self.next_sizes(),
            waiting: behind - next,
            peer_closed: self.in_queue.item_at(behind).is_some(),
        }
    }

    /// Whether its outward primary link is central, its side of it is marked stable, and no edge decays.
    pub fn has_arrived(&self) -> bool
        ensures { result ≡ has_arrived self.now.router }
    {
        self.is_on_central() && self.marked && !self.decays()
    }

    // The first number, from the in queue's current one on, that no parcel stands under.
    fn behind_parcels(&self) -> u64
        ensures from { self.now.router.in_queue.current ≤ result }
        ensures parcels { let q = self.now.router.in_queue in HasParcels q (result - q.current) (is_some (item_at q result)) }
    {
        let reach = self.in_queue.reach();
        let mut n = self.in_queue.current();
        while n < reach {
            if !self.has_parcel(n) {
                return n;
            }
            n += 1;
        }
        reach
    }

    // Whether a parcel stands in the in queue under a number.
    #[inline(always)]
    #[tactic(auto, unfolding(crate::specs::Calls::item_refusal))]
    fn has_parcel(&self, n: u64) -> bool
        ensures { result ≡ is_none (item_refusal (item_at self.now.router.in_queue n)) }
    {
        match self.in_queue.item_at(n) {
            Some(Item::Parcel(_)) => true,
            Some(Item::Mark) => false,
            Some(Item::Gone) => false,
            None => false,
        }
    }

    /// Whether an item of this number that comes over `link`, for the router on `side` of it, has its place.
    pub fn has_place_for(&self, link: LinkId, side: Side, n: u64) -> bool
        ensures { result ≡ has_place_for self.now.router (outward_has self.now.router link side) n }
    {
        if n == u64::MAX {
            return false;
        }
        if self.outward.has(link, side) {
            self.in_queue.has_place(n)
        } else {
            self.out_queue.has_place(n)
        }
    }

    /// Takes in the item with number `n` that came over `link`, for the router on `side` of it. The router is flagged.
    ///
    /// What comes over a link of the outward edge goes into the in queue, what comes over a link of the inward edge into
    /// the out queue. A refused call hands the item back. It answers `Stranger` if no edge has the link at that side,
    /// else `Passed` if `n` has left the queue, else `Occupied` if `n` is in it, else `OutOfMemory` if there was no
    /// room and none was found.
    #[inline(always)]
    #[tactic(auto, unfolding(crate::specs::Calls::accept))]
    pub fn accept(
        &mut self,
        link: LinkId,
        side: Side,
        n: u64,
        item: Item,
    ) -> Result<(), (Refusal, Item)>
        requires { n < no_number }
        ensures stands { OnOk result (router_has self.old.router link side ≡ true) }
        ensures place { let from_outward = outward_has self.old.router link side in
            OnOk result (has_place_for self.old.router from_outward n ≡ true) }
        ensures ok { let from_outward = outward_has self.old.router link side in
            OnOk result (self.new.router ≡ accept self.old.router from_outward n item) }
        ensures why { IfErr result (λ e. e.0 ≡ accept_refusal self.old.router link side n) }
        ensures err { IfErr result (λ e. (e.1 ≡ item) × (self.new.router ≡ self.old.router)) }
        ensures kept { IfErr result (λ e. (e.0 ≡ Refusal.OutOfMemory → ⊥) → self.new ≡ self.old) }
        ensures full { let from_outward = outward_has self.old.router link side in
            IfErr result (λ e. e.0 ≡ Refusal.OutOfMemory → room_for self.old from_outward ≡ 0) }
        ensures room { LeavesRoomBut self.old self.new (outward_has self.old.router link side) }
    {
        let mut item = item;
        match self.accept_from(link, side, n, &mut item) {
            Ok(()) => Ok(()),
            Err(why) => Err((why, item)),
        }
    }

    /// Takes in an item as `accept` does, from where it lies: `item` is left as it is if it is refused, and counts for nothing if it is
    /// taken.
    #[inline(always)]
    #[tactic(auto, unfolding(crate::specs::Calls::accept))]
    pub fn accept_from(
        &mut self,
        link: LinkId,
        side: Side,
        n: u64,
        item: &mut Item,
    ) -> Result<(), Refusal>
        requires { n < no_number }
        ensures stands { OnOk result (router_has self.old.router link side ≡ true) }
        ensures place { OnOk result (has_place_for self.old.router (outward_has self.old.router link side) n ≡ true) }
        ensures ok { OnOk result (self.new.router ≡ accept self.old.router (outward_has self.old.router link side) n item.old) }
        ensures why { IfErr result (λ e. e ≡ accept_refusal self.old.router link side n) }
        ensures full { IfErr result (λ e. e ≡ Refusal.OutOfMemory → room_for self.old (outward_has self.old.router link side) ≡ 0) }
        ensures err { OnErr result ((item.new ≡ item.old) × (self.new.router ≡ self.old.router)) }
        ensures kept { IfErr result (λ e. (e ≡ Refusal.OutOfMemory → ⊥) → self.new ≡ self.old) }
        ensures room { LeavesRoomBut self.old self.new (outward_has self.old.router link side) }
    {
        if self.outward.has(link, side) {
            self.take_in(n, item)
        } else if self.inward_has(link, side) {
            self.take_out(n, item)
        } else {
            Err(Refusal::Stranger)
        }
    }

    // An item is taken into the in queue from where it lies, and the router is flagged.
    #[inline(always)]
    pub(super) fn take_in(&mut self, n: u64, item: &mut Item) -> Result<(), Refusal>
        requires { n < no_number }
        ensures place { OnOk result (has_place self.old.router.in_queue n ≡ true) }
        ensures ok { OnOk result (self.new.router ≡ accept_from_outward self.old.router n item.old) }
        ensures why { IfErr result (λ e. e ≡ push_refusal self.old.router.in_queue n) }
        ensures full { IfErr result (λ e. e ≡ Refusal.OutOfMemory → self.old.in_room ≡ 0) }
        ensures err { OnErr result ((item.new ≡ item.old) × (self.new.router ≡ self.old.router)) }
        ensures kept { IfErr result (λ e. (e ≡ Refusal.OutOfMemory → ⊥) → self.new ≡ self.old) }
        ensures room { LeavesRoom self.old self.new 0 1 }
    {
        if self.in_queue.takes_behind(n) {
            self.take_in_behind(n, item);
            return Ok(());
        }
        self.take_in_between(n, item)
    }

    // The same for any number. Most items come behind all that are there, so this stands apart.
    #[cold]
    #[inline(never)]
    fn take_in_between(&mut self, n: u64, item: &mut Item) -> Result<(), Refusal>
        requires { n < no_number }
        ensures place { OnOk result (has_place self.old.router.in_queue n ≡ true) }
        ensures ok { OnOk result (self.new.router ≡ accept_from_outward self.old.router n item.old) }
        ensures why { IfErr result (λ e. e ≡ push_refusal self.old.router.in_queue n) }
        ensures full { IfErr result (λ e. e ≡ Refusal.OutOfMemory → self.old.in_room ≡ 0) }
        ensures err { OnErr result ((item.new ≡ item.old) × (self.new.router ≡ self.old.router)) }
        ensures kept { IfErr result (λ e. (e ≡ Refusal.OutOfMemory → ⊥) → self.new ≡ self.old) }
        ensures room { LeavesRoom self.old self.new 0 1 }
    {
        self.in_queue.reserve_for(n)?;
        self.push_in_ready(n, mem::replace(item, Item::Mark));
        Ok(())
    }

    // The same of an item that goes behind all that are there, where there is room. It stands apart, so that a push is inlined in it.
    #[inline(never)]
    fn take_in_behind(&mut self, n: u64, item: &mut Item)
        requires number { n < no_number }
        requires behind { goes_behind self.old.router.in_queue n ≡ true }
        requires room { 0 < self.old.in_room }
        ensures router { self.new.router ≡ accept_from_outward self.old.router n item.old }
        ensures room { LeavesRoom self.old self.new 0 1 }
    {
        let is_mark = item.is_mark();
        self.in_queue.push_behind(n, mem::replace(item, Item::Mark));
        self.come_in(is_mark);
    }

    // An item is taken into the out queue of a proxy from where it lies, and the router is flagged.
    #[inline(always)]
    fn take_out(&mut self, n: u64, item: &mut Item) -> Result<(), Refusal>
        requires number { n < no_number }
        requires proxy { is_terminal self.old.router ≡ false }
        ensures place { OnOk result (has_place self.old.router.out_queue n ≡ true) }
        ensures ok { OnOk result (self.new.router ≡ accept_from_inward self.old.router n item.old) }
        ensures why { IfErr result (λ e. e ≡ push_refusal self.old.router.out_queue n) }
        ensures full { IfErr result (λ e. e ≡ Refusal.OutOfMemory → self.old.out_room ≡ 0) }
        ensures err { OnErr result ((item.new ≡ item.old) × (self.new.router ≡ self.old.router)) }
        ensures kept { IfErr result (λ e. (e ≡ Refusal.OutOfMemory → ⊥) → self.new ≡ self.old) }
        ensures room { LeavesRoom self.old self.new 1 0 }
    {
        self.out_queue.reserve_for(n)?;
        self.push_out_ready(n, mem::replace(item, Item::Mark));
        Ok(())
    }

    /// Makes the terminal a proxy, whose inward primary link is `link`: the new peripheral link to the moved terminal, of
    /// which a proxy has side A. The proxy is flagged, and keeps its queues and its outward edge.
    ///
    /// The answer goes with the message that moves the end: the next number to put is the out queue's reach, and the next
    /// to get the in queue's current number, since the proxy passes on what stands in its in queue. That the peer's mark has
    /// come doesn't travel: it is seen again when it comes into the moved terminal's in queue.
    #[tactic(auto, using(crate::proofs::Numbers::reach_keeps))]
    pub fn extend_to(&mut self, link: LinkEnd) -> Descriptor
        requires { IsOpenTerminal self.old.router }
        ensures router { self.new.router ≡ extend self.old.router link }
        ensures descriptor { result ≡ descriptor_of self.old.router link.link }
        ensures next_out { result.next_out ≤ last_number }
        ensures room { KeepsRoom self.old self.new }
    {
        let descriptor = Descriptor {
            end: self.end,
            link: link.link,
            next_out: self.out_queue.reach(),
            next_in: self.in_queue.current(),
        };
        self.inward = Some(Edge::of(link));
        self.rouse();
        descriptor
    }

    /// Puts the mark into the out queue, under the next number at this end, and makes the terminal a sink. The router is
    /// flagged; the answer is the mark's number, which is at most [`LAST`].
    ///
    /// It answers `OutOfMemory` if there was no room for the mark and none was found; then nothing has changed. While the
    /// out queue has room, as after `reserve_close`, it isn't refused.
    #[tactic(auto, using(crate::proofs::Numbers::reach_keeps))]
    pub fn close(&mut self) -> Result<u64, Refusal>
        requires { IsOpenTerminal self.old.router }
        ensures number { IfOk result (λ n. n ≡ next_number self.old.router) }
        ensures last { IfOk result (λ n. n ≤ last_number) }
        ensures ok { OnOk result (self.new.router ≡ close_router self.old.router) }
        ensures err { IfErr result (λ e. (e ≡ Refusal.OutOfMemory) × (self.new.router ≡ self.old.router)) }
        ensures full { OnErr result (self.old.out_room ≡ 0) }
        ensures room { LeavesRoom self.old self.new 1 0 }
    {
        let n = self.out_queue.reach();
        match self.out_queue.push(n, Item::Mark) {
            Ok(()) => {
                self.closed = true;
                self.rouse();
                Ok(n)
            }
            Err((why, _)) => Err(why),
        }
    }

    /// Makes room in the out queue for one item more, so that a `close` after it isn't refused.
    ///
    /// It answers `OutOfMemory` if there is no room and none was found. The router stays as it was, refused or not.
    pub fn reserve_close(&mut self) -> Result<(), Refusal>
        ensures router { self.new.router ≡ self.old.router }
        ensures ok { OnOk result (0 < self.new.out_room) }
        ensures held { 0 < self.old.out_room → self.new ≡ self.old }
        ensures in_room { self.new.in_room ≡ self.old.in_room }
        ensures err { IfErr result (λ e. (e ≡ Refusal.OutOfMemory) × (self.old.out_room ≡ 0)) }
    {
        self.out_queue.reserve()
    }

    // An item comes into the out queue, if it has its place and there is room, and the router is flagged. At a terminal it is one that its
    // callers put.
    #[inline(always)]
    fn push_out_ready(&mut self, n: u64, item: Item)
        requires number { n < no_number }
        requires put { is_terminal self.old.router ≡ true → n < last_number }
        requires place { has_place self.old.router.out_queue n ≡ true }
        requires room { 0 < self.old.out_room }
        ensures router { self.new.router ≡ accept_from_inward self.old.router n item }
        ensures room { LeavesRoom self.old self.new 1 0 }
    {
        self.out_queue.push_ready(n, item);
        self.rouse();
    }

    // An item comes into the in queue, if it has its place and there is room, and the router is flagged.
    #[inline(always)]
    fn push_in_ready(&mut self, n: u64, item: Item)
        requires number { n < no_number }
        requires place { has_place self.old.router.in_queue n ≡ true }
        requires room { 0 < self.old.in_room }
        ensures router { self.new.router ≡ accept_from_outward self.old.router n item }
        ensures room { LeavesRoom self.old self.new 0 1 }
    {
        let is_mark = item.is_mark();
        self.in_queue.push_ready(n, item);
        self.come_in(is_mark);
    }

    // The router is flagged for an item that has come into the in queue; at a terminal, a mark is seen.
    #[inline(always)]
    fn come_in(&mut self, is_mark: bool)
        ensures router { self.new.router ≡ rouse (record self.old.router {
          mark_seen = self.old.router.mark_seen || (is_terminal self.old.router && is_mark);
        }) }
        ensures room { KeepsRoom self.old self.new }
    {
        self.mark_seen = self.mark_seen || (self.inward.is_none() && is_mark);
        self.rouse();
    }
}
