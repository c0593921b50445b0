//! What a lone parcel takes of its two routers, each by a call of its own.

ghost use Rattle.std.specs.Prelude.{ℕ, ◌≡◌, ◌<◌, [], Some, true, false, is_some, IfSome, IfNone, IsSomeAnd};
ghost use Rattle.std.specs.FinMap.{get};
ghost use Rattle.ipcz_base.specs.declared.link_end.LinkEnd.{LinkEnd as LinkEndRecord};
ghost use Rattle.ipcz_base.specs.Items.{ends_in};
ghost use Rattle.ipcz_base.specs.Limits.{no_number};
ghost use Rattle.ipcz_seq.specs.Queue.{current_item};
ghost use Rattle.ipcz_router.specs.Router.{Router as RouterRecord, router_has};
ghost use Rattle.ipcz_router.specs.Acts.{pop_out, rest};
ghost use Rattle.ipcz_router.specs.Lone.{takes_last, TakesLast};
ghost use Rattle.ipcz_node.specs.Lone.{IsFirstSender, IsOnlySender};
ghost use Rattle.ipcz_node.specs.Rooms.{put_filed, HasQueueRoom};

use super::Directory;
use super::filing::follow;
use ipcz_base::{Item, LinkEnd, LinkId, Side};

impl Directory {
    /// The serial of the only flagged router and the link over which it sends its last item, as `Router::last_way`.
    #[inline(always)]
    pub fn only_sender(&self) -> Option<(u64, LinkEnd)>
        ensures some { IfSome result (λ s. IsOnlySender self.now.filed.routers s.0 s.1) }
        ensures none { IfNone result ((serial : ℕ) → (link : LinkEndRecord) → IsOnlySender self.now.filed.routers serial link → ⊥) }
    {
        let Some(serial) = self.files.flagged.only() else {
            return None;
        };
        let Some(router) = self.routers.router(serial) else {
            return None;
        };
        match router.last_way() {
            Some(link) => Some((serial, link)),
            None => None,
        }
    }

    /// The lowest serial of a flagged router and the link over which it sends an item without ends next, as `Router::next_way`.
    #[inline(always)]
    pub fn next_sender(&self) -> Option<(u64, LinkEnd)>
        ensures some { IfSome result (λ s. IsFirstSender self.now.filed.routers s.0 s.1) }
        ensures none { IfNone result ((serial : ℕ) → (link : LinkEndRecord) → IsFirstSender self.now.filed.routers serial link → ⊥) }
    {
        let Some(serial) = self.files.flagged.first() else {
            return None;
        };
        let Some(router) = self.routers.router(serial) else {
            return None;
        };
        match router.next_way() {
            Some(link) => Some((serial, link)),
            None => None,
        }
    }

    /// Takes the current item out of the out queue of the router of the serial, as `Router::send_next`, and gives its number with it.
    #[inline(always)]
    pub fn send_next(&mut self, serial: u64) -> (u64, Item)
        requires { IsSomeAnd (get self.old.filed.routers serial) (λ r. is_some (current_item r.out_queue) ≡ true) }
        ensures router { (r : RouterRecord) → get self.old.filed.routers serial ≡ Some r →
            self.new.filed ≡ put_filed self.old.filed serial (pop_out r) }
        ensures number { (r : RouterRecord) → get self.old.filed.routers serial ≡ Some r → result.0 ≡ r.out_queue.current }
        ensures item { (r : RouterRecord) → get self.old.filed.routers serial ≡ Some r → Some result.1 ≡ current_item r.out_queue }
    {
        let router = self.routers.router_mut(serial);
        let was = router.is_flagged();
        let n = router.out_number();
        let item = router.send_next();
        let is = router.is_flagged();
        follow(&mut self.files.flagged, serial, was, is);
        (n, item)
    }

    /// Takes the current item out of the out queue of the router of the serial, as `Router::send_last`, and gives its number with it.
    #[inline(always)]
    pub fn send_last(&mut self, serial: u64) -> (u64, Item)
        requires { IsSomeAnd (get self.old.filed.routers serial) (λ r. is_some (current_item r.out_queue) ≡ true) }
        ensures router { (r : RouterRecord) → get self.old.filed.routers serial ≡ Some r →
            self.new.filed ≡ put_filed self.old.filed serial (rest (pop_out r)) }
        ensures number { (r : RouterRecord) → get self.old.filed.routers serial ≡ Some r → result.0 ≡ r.out_queue.current }
        ensures item { (r : RouterRecord) → get self.old.filed.routers serial ≡ Some r → Some result.1 ≡ current_item r.out_queue }
    {
        let router = self.routers.router_mut(serial);
        let was = router.is_flagged();
        let n = router.out_number();
        let item = router.send_last();
        let is = router.is_flagged();
        follow(&mut self.files.flagged, serial, was, is);
        (n, item)
    }

    /// Gives an item without ends to the router of the serial, as `Router::take_last`.
    #[inline(always)]
    pub fn take_last(
        &mut self,
        serial: u64,
        link: LinkId,
        side: Side,
        n: u64,
        item: &mut Item,
    ) -> bool
        requires stands { IsSomeAnd (get self.old.filed.routers serial) (λ r. router_has r link side ≡ true) }
        requires number { n < no_number }
        requires alone { ends_in item.old ≡ [] }
        ensures taken { (r : RouterRecord) → get self.old.filed.routers serial ≡ Some r → result ≡ true → (v : RouterRecord) ×
            TakesLast r link side n item.old v × (self.new.filed ≡ put_filed self.old.filed serial v) }
        ensures left { result ≡ false → (item.new ≡ item.old) × (self.new.filed ≡ self.old.filed) }
        ensures full { (r : RouterRecord) → get self.old.filed.routers serial ≡ Some r → takes_last r link side n ≡ true →
            HasQueueRoom self.old.in_rooms serial → result ≡ true }
    {
        let router = self.routers.router_mut(serial);
        let was = router.is_flagged();
        if !router.take_last(n, item) {
            return false;
        }
        let is = router.is_flagged();
        follow(&mut self.files.flagged, serial, was, is);
        let is_new = self.ready.is_new(serial, router, n);
        self.ready.note(&self.routers, serial, is_new);
        true
    }
}
