//! What most parcels take, each by a call of its own: a send outward, an item without ends that comes, and a rest.

ghost use Rattle.std.specs.Prelude.{◌≡◌, ◌<◌, [], Some, true, is_some, IsSomeAnd, OnOk, OnErr, IfErr};
ghost use Rattle.std.specs.FinMap.{get};
ghost use Rattle.ipcz_base.specs.Items.{ends_in};
ghost use Rattle.ipcz_base.specs.Limits.{no_number};
ghost use Rattle.ipcz_router.specs.Router.{Router as RouterRecord, outward_has, router_has};
ghost use Rattle.ipcz_router.specs.Calls.{accept, accept_refusal, has_place_for};
ghost use Rattle.ipcz_router.specs.ActTable.{may_take};
ghost use Rattle.ipcz_router.specs.ActEffects.{apply, output_of};
ghost use Rattle.ipcz_router.specs.Carrying.{carried_by};
ghost use Rattle.ipcz_node.specs.Rooms.{put_filed, HasQueueRoom, rooms_for};

use super::Directory;
use super::filing::follow;
use ipcz_base::{Item, LinkId, Message, Refusal, Side};
use ipcz_router::act::{Answer, RouterAct};
use std::alloc::Global;

impl Directory {
    /// Does the act `SendOut` of the router of the serial, as `Router::send_out`.
    #[inline(always)]
    pub fn send_out(&mut self, alloc: Global, serial: u64) -> Message
        requires { IsSomeAnd (get self.old.filed.routers serial) (λ r. may_take r RouterAct.SendOut ≡ true) }
        ensures router { (r : RouterRecord) → get self.old.filed.routers serial ≡ Some r →
            self.new.filed ≡ put_filed self.old.filed serial (apply r RouterAct.SendOut Answer.Plain) }
        ensures message { (r : RouterRecord) → get self.old.filed.routers serial ≡ Some r →
            Some result ≡ carried_by (output_of r RouterAct.SendOut) }
        ensures ends { self.new.ends ≡ self.old.ends }
    {
        let router = self.routers.router_mut(serial);
        let was = router.is_flagged();
        let message = router.send_out(alloc);
        let is = router.is_flagged();
        follow(&mut self.files.flagged, serial, was, is);
        message
    }

    /// Gives an item without ends to the router of the serial, as `accept` does; `item` is left as it is if it is refused, and counts for
    /// nothing if it is taken.
    #[inline(always)]
    #[tactic(auto, using(crate::proofs::Written::insert_same))]
    pub fn accept_lone(
        &mut self,
        serial: u64,
        link: LinkId,
        side: Side,
        n: u64,
        item: &mut Item,
    ) -> Result<(), Refusal>
        requires stands { IsSomeAnd (get self.old.filed.routers serial) (λ r. router_has r link side ≡ true) }
        requires number { n < no_number }
        requires alone { ends_in item.old ≡ [] }
        ensures place { (r : RouterRecord) → get self.old.filed.routers serial ≡ Some r →
            OnOk result (has_place_for r (outward_has r link side) n ≡ true) }
        ensures ok { (r : RouterRecord) → get self.old.filed.routers serial ≡ Some r →
            OnOk result (self.new.filed ≡ put_filed self.old.filed serial (accept r (outward_has r link side) n item.old)) }
        ensures why { (r : RouterRecord) → get self.old.filed.routers serial ≡ Some r →
            IfErr result (λ e. e ≡ accept_refusal r link side n) }
        ensures full { (r : RouterRecord) → get self.old.filed.routers serial ≡ Some r →
            HasQueueRoom (rooms_for self.old.in_rooms self.old.out_rooms (outward_has r link side)) serial →
            IfErr result (λ e. e ≡ Refusal.OutOfMemory → ⊥) }
        ensures err { OnErr result ((item.new ≡ item.old) × (self.new.filed ≡ self.old.filed)) }
        ensures kept { IfErr result (λ e. (e ≡ Refusal.OutOfMemory → ⊥) → self.new ≡ self.old) }
        ensures ends { self.new.ends ≡ self.old.ends }
    {
        let router = self.routers.router_mut(serial);
        let was = router.is_flagged();
        router.accept_from(link, side, n, item)?;
        let is = router.is_flagged();
        follow(&mut self.files.flagged, serial, was, is);
        let is_new = self.ready.is_new(serial, router, n);
        self.ready.note(&self.routers, serial, is_new);
        Ok(())
    }

    /// Does the act `Rest` of the router of the serial, as `Router::rest`.
    pub fn rest(&mut self, serial: u64)
        requires { is_some (get self.old.filed.routers serial) ≡ true }
        ensures router { (r : RouterRecord) → get self.old.filed.routers serial ≡ Some r →
            self.new.filed ≡ put_filed self.old.filed serial (apply r RouterAct.Rest Answer.Plain) }
        ensures ends { self.new.ends ≡ self.old.ends }
    {
        let router = self.routers.router_mut(serial);
        let was = router.is_flagged();
        router.rest();
        let is = router.is_flagged();
        follow(&mut self.files.flagged, serial, was, is);
    }
}
