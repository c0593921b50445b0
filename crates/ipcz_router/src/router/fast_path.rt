//! A lone parcel: whether its routers have nothing else to do, and how it leaves one of them.

ghost use Rattle.std.specs.Prelude.{◌≡◌, ◌<◌, Some, true, false, nat_eq, length, is_some};
ghost use Rattle.ipcz_base.specs.Items.{ends_in};
ghost use Rattle.ipcz_base.specs.Limits.{no_number};
ghost use Rattle.ipcz_seq.specs.Queue.{current_item};
ghost use Rattle.ipcz_router.specs.Router.{router_has};
ghost use Rattle.ipcz_router.specs.Calls.{accept_from_outward};
ghost use Rattle.ipcz_router.specs.RoomyRouters.{LeavesRoom};
ghost use Rattle.ipcz_router.specs.Acts.{item_passes, pop_out, rest};
ghost use Rattle.ipcz_router.specs.Lone.{last_link, next_link, takes_last, TakesLast, is_settled, is_still};

use super::Router;
use ipcz_base::{Item, LinkEnd, LinkId, Side};

impl Router {
    /// The link of the only item in the out queue, if it leaves next, carries no ends, and is all that an open terminal has to do before it
    /// rests.
    #[inline(always)]
    pub fn last_way(&self) -> Option<LinkEnd>
        ensures { result ≡ last_link self.now.router }
    {
        if self.out_queue.len() != 1 {
            return None;
        }
        self.next_way()
    }

    /// The link of the item that leaves next, if it carries no ends and is the first that an open terminal has to do.
    #[inline(always)]
    pub fn next_way(&self) -> Option<LinkEnd>
        ensures { result ≡ next_link self.now.router }
    {
        if !self.is_settled() || !self.sends_lone() {
            return None;
        }
        self.outward.primary()
    }

    /// Whether it is an open terminal that only rests, whatever comes into its in queue.
    #[inline(always)]
    pub fn is_still(&self) -> bool
        ensures { result ≡ is_still self.now.router }
    {
        self.is_settled() && self.out_queue.next().is_none()
    }

    // The same but for sends outward.
    #[inline(always)]
    fn is_settled(&self) -> bool
        ensures { result ≡ is_settled self.now.router }
    {
        let is_apart = self.inward.is_some() | self.closed | self.outward.decays() | self.wake_owed;
        !is_apart && (self.marked || !self.is_on_central())
    }

    // Whether the current item of the out queue has come and carries no ends.
    #[inline(always)]
    #[tactic(auto, unfolding(crate::specs::Acts::item_passes))]
    fn sends_lone(&self) -> bool
        ensures { result ≡ item_passes (λ item. nat_eq (length (ends_in item)) 0) (current_item self.now.router.out_queue) }
    {
        match self.out_queue.next() {
            Some(Item::Parcel(parcel)) => parcel.ends.is_empty(),
            Some(Item::Mark | Item::Gone) => true,
            None => false,
        }
    }

    /// Takes the current item of the out queue out.
    #[inline(always)]
    pub fn send_next(&mut self) -> Item
        requires { is_some (current_item self.old.router.out_queue) ≡ true }
        ensures router { self.new.router ≡ pop_out self.old.router }
        ensures item { Some result ≡ current_item self.old.router.out_queue }
        ensures room { LeavesRoom self.old self.new 0 0 }
    {
        self.pop_out_ready()
    }

    /// Takes the current item of the out queue out, and rests.
    #[inline(always)]
    pub fn send_last(&mut self) -> Item
        requires { is_some (current_item self.old.router.out_queue) ≡ true }
        ensures router { self.new.router ≡ rest (pop_out self.old.router) }
        ensures item { Some result ≡ current_item self.old.router.out_queue }
        ensures room { LeavesRoom self.old self.new 0 0 }
    {
        let item = self.send_next();
        self.flagged = false;
        item
    }

    /// Takes an item that came over a link of this router and rests, if it isn't flagged and only rests. It tells whether it did: `item`
    /// counts for nothing then. Else `item` and the router stay as they are. With room for the item, it is taken wherever it has its place.
    #[inline(always)]
    pub fn take_last(&mut self, n: u64, item: &mut Item) -> bool
        requires { n < no_number }
        ensures after { result ≡ true → self.new.router ≡ rest (accept_from_outward self.old.router n item.old) }
        ensures taken { result ≡ true → (link : LinkId) (side : Side) → router_has self.old.router link side ≡ true →
            TakesLast self.old.router link side n item.old self.new.router }
        ensures left { result ≡ false → (item.new ≡ item.old) × (self.new.router ≡ self.old.router) }
        ensures full { result ≡ false → (link : LinkId) (side : Side) → takes_last self.old.router link side n ≡ true →
            self.old.in_room ≡ 0 }
    {
        if self.flagged || !self.is_still() {
            return false;
        }
        if self.take_in(n, item).is_err() {
            return false;
        }
        self.flagged = false;
        true
    }
}
