//! Calls of callers at a router that is filed.
ghost use Rattle.std.specs.Prelude.{ℕ, ◌≡◌, ◌-◌, length, Some, None, true};
ghost use Rattle.std.specs.Prelude.{is_some, OnOk, OnErr, IfOk, IfErr, IsSomeAnd, unwrap_or};
ghost use Rattle.std.specs.FinMap.{get};
ghost use Rattle.ipcz_base.specs.declared.item.Item.{Item};
ghost use Rattle.ipcz_seq.specs.Queue.{current_item};
ghost use Rattle.ipcz_router.specs.Router.{Router as RouterRecord, IsOpenTerminal};
ghost use Rattle.ipcz_router.specs.Calls.{has_come, next_number, put_item, router_put_refusal, router_get_refusal, take_item, sizes_found};
ghost use Rattle.ipcz_router.specs.Status.{IsStatus};
ghost use Rattle.ipcz_router.specs.Arrivals.{has_arrived};
ghost use Rattle.ipcz_node.specs.Rooms.{put_filed, hold_filed, release_filed, HasQueueRoom};
ghost use Rattle.std.specs.FinSet as sets;
ghost use Rattle.std.specs.Prelude.{IsOk};
ghost use Rattle.ipcz_router.specs.Closing.{close_router};
ghost use Rattle.ipcz_node.specs.Node.{source_at, word_at};
ghost use Rattle.ipcz_node.specs.Calls.{got_from, ends_found};

use super::Directory;
use super::filing::follow;
use crate::routers::is_ready;
use ipcz_base::{End, Parcel, PortalStatus, Refusal, Side, Sizes};

impl Directory {
    /// Puts a parcel into the router of the serial, as `Router::put`.
    #[inline(always)]
    #[tactic(auto, using(crate::proofs::Written::insert_same))]
    pub fn put(&mut self, serial: u64, parcel: Parcel) -> Result<u64, (Refusal, Parcel)>
        requires { IsSomeAnd (get self.old.filed.routers serial) IsOpenTerminal }
        ensures allowed { (r : RouterRecord) → get self.old.filed.routers serial ≡ Some r → OnOk result (router_put_refusal r ≡ None) }
        ensures number { (r : RouterRecord) → get self.old.filed.routers serial ≡ Some r → IfOk result (λ n. n ≡ next_number r) }
        ensures ok { (r : RouterRecord) → get self.old.filed.routers serial ≡ Some r →
            OnOk result (self.new.filed ≡ put_filed self.old.filed serial (put_item r (Item.Parcel parcel))) }
        ensures why { (r : RouterRecord) → get self.old.filed.routers serial ≡ Some r →
            IfErr result (λ e. e.0 ≡ unwrap_or (router_put_refusal r) Refusal.OutOfMemory) }
        ensures full { (r : RouterRecord) → get self.old.filed.routers serial ≡ Some r → router_put_refusal r ≡ None →
            HasQueueRoom self.old.out_rooms serial → IsOk result }
        ensures err { IfErr result (λ e. (e.1 ≡ parcel) × (self.new.filed ≡ self.old.filed)) }
    {
        let router = self.routers.router_mut(serial);
        let was = router.is_flagged();
        let n = router.put(parcel)?;
        let is = router.is_flagged();
        follow(&mut self.files.flagged, serial, was, is);
        Ok(n)
    }

    /// Takes the next parcel out of the router of the serial, as `Router::get`; its ends are held from then on. It takes no
    /// memory.
    #[tactic(auto, using(crate::proofs::Written::insert_same), unfolding(ipcz_router::specs::Calls::item_refusal, crate::specs::Calls::item_got, crate::specs::Calls::ends_found))]
    pub fn get(&mut self, serial: u64) -> Result<(u64, Parcel), Refusal>
        requires { IsSomeAnd (get self.old.filed.routers serial) IsOpenTerminal }
        ensures allowed { (r : RouterRecord) → get self.old.filed.routers serial ≡ Some r → OnOk result (router_get_refusal r ≡ None) }
        ensures parcel { (r : RouterRecord) → get self.old.filed.routers serial ≡ Some r → IfOk result (λ g. got_from r ≡ Some g) }
        ensures ok { (r : RouterRecord) → get self.old.filed.routers serial ≡ Some r →
            OnOk result (self.new.filed ≡ hold_filed (put_filed self.old.filed serial (take_item r))
            (ends_found (current_item r.in_queue))) }
        ensures why { (r : RouterRecord) → get self.old.filed.routers serial ≡ Some r → IfErr result (λ e. router_get_refusal r ≡ Some e) }
        ensures err { OnErr result (self.new.filed ≡ self.old.filed) }
        ensures ends { IfOk result (λ g. self.new.ends ≡ self.old.ends - length g.1.ends) }
        ensures err_ends { OnErr result (self.new.ends ≡ self.old.ends) }
    {
        let router = self.routers.router_mut(serial);
        let was = router.is_flagged();
        let answer = router.get();
        let is = router.is_flagged();
        follow(&mut self.files.flagged, serial, was, is);
        let (n, parcel) = answer?;
        let has_ended = self.ready.has_ended(serial, router);
        self.ready.drop_ended(serial, has_ended);
        self.held.insert_all(parcel.ends.as_slice());
        self.ends = self.ends.saturating_sub(parcel.ends.len());
        Ok((n, parcel))
    }

    /// The sizes of the next parcel of the router of the serial, as `Router::next_sizes`.
    pub fn next_sizes(&self, serial: u64) -> Option<Sizes>
        ensures { (r : RouterRecord) → get self.now.filed.routers serial ≡ Some r → result ≡ sizes_found (current_item r.in_queue) }
    {
        match self.routers.router(serial) {
            Some(router) => router.next_sizes(),
            None => None,
        }
    }

    /// What gets at the router of the serial would answer, as `Router::status`.
    pub fn status(&self, serial: u64) -> PortalStatus
        requires { is_some (get self.now.filed.routers serial) ≡ true }
        ensures { (r : RouterRecord) → get self.now.filed.routers serial ≡ Some r → IsStatus r.in_queue result }
    {
        match self.routers.router(serial) {
            Some(router) => router.status(),
            None => unreachable!(),
        }
    }

    /// Whether something has come at the router of the serial, as `Router::has_come`.
    pub fn has_come(&self, serial: u64) -> bool
        ensures { (r : RouterRecord) → get self.now.filed.routers serial ≡ Some r → result ≡ has_come r }
    {
        match self.routers.router(serial) {
            Some(router) => router.has_come(),
            None => false,
        }
    }

    /// Whether the router of the serial has arrived, as `Router::has_arrived`.
    pub fn has_arrived(&self, serial: u64) -> bool
        requires { is_some (get self.now.filed.routers serial) ≡ true }
        ensures { (r : RouterRecord) → get self.now.filed.routers serial ≡ Some r → result ≡ has_arrived r }
    {
        match self.routers.router(serial) {
            Some(router) => router.has_arrived(),
            None => unreachable!(),
        }
    }

    /// Closes the router of the serial, as `Router::close`.
    #[tactic(auto, using(crate::proofs::Written::insert_same))]
    pub fn close(&mut self, serial: u64) -> Result<u64, Refusal>
        requires { IsSomeAnd (get self.old.filed.routers serial) IsOpenTerminal }
        ensures number { (r : RouterRecord) → get self.old.filed.routers serial ≡ Some r → IfOk result (λ n. n ≡ next_number r) }
        ensures ok { (r : RouterRecord) → get self.old.filed.routers serial ≡ Some r →
            OnOk result (self.new.filed ≡ put_filed self.old.filed serial (close_router r)) }
        ensures full { HasQueueRoom self.old.out_rooms serial → IsOk result }
        ensures err { IfErr result (λ e. (e ≡ Refusal.OutOfMemory) × (self.new.filed ≡ self.old.filed)) }
    {
        let router = self.routers.router_mut(serial);
        let was = router.filing();
        let was_ready = is_ready(router);
        let answer = router.close();
        let is = router.filing();
        let has_ended = was_ready & !is_ready(router);
        self.files.refile(serial, &was, &is);
        self.ready.drop_ended(serial, has_ended);
        answer
    }

    /// Makes room for one item more in the out queue of the router of the serial, so that a put or a close after it wants no
    /// memory.
    #[tactic(auto, using(crate::proofs::Written::insert_same, crate::proofs::Written::insert_here))]
    pub fn reserve_out(&mut self, serial: u64) -> Result<(), Refusal>
        requires { is_some (get self.old.filed.routers serial) ≡ true }
        ensures ok { OnOk result (HasQueueRoom self.new.out_rooms serial) }
        ensures filed { self.new.filed ≡ self.old.filed }
        ensures full { HasQueueRoom self.old.out_rooms serial → IsOk result }
        ensures kept { (other : ℕ) → HasQueueRoom self.old.out_rooms other → HasQueueRoom self.new.out_rooms other }
        ensures in_rooms { self.new.in_rooms ≡ self.old.in_rooms }
        ensures err { IfErr result (λ e. e ≡ Refusal.OutOfMemory) }
    {
        self.routers.router_mut(serial).reserve_close()
    }

    /// Whether callers hold the end.
    pub fn holds(&self, end: End) -> bool
        ensures { result ≡ sets.contains self.now.filed.held end }
    {
        self.held.has(end)
    }

    /// Where the end stands among those that callers hold, if they hold it. Mostly its open terminal stands there among those of all ends.
    #[inline(always)]
    pub fn held_place(&self, end: End) -> Option<usize>
        ensures { is_some result ≡ sets.contains self.now.filed.held end }
    {
        self.held.place(end)
    }

    /// Callers hold these ends no more.
    pub fn release(&mut self, ends: &[End])
        ensures filed { self.new.filed ≡ release_filed self.old.filed ends.now }
        ensures out_rooms { self.new.out_rooms ≡ self.old.out_rooms }
    {
        self.held.remove_all(ends);
    }

    /// The word of the outward primary link of the router of the serial, with its side.
    pub fn word_of(&self, serial: u64) -> Option<(u64, Side)>
        ensures { result ≡ word_at (get self.now.filed.routers serial) }
    {
        match self.routers.router(serial) {
            Some(router) => router.word(),
            None => None,
        }
    }

    /// The node inward of the router of the serial.
    pub fn source_of(&self, serial: u64) -> Option<u8>
        ensures { result ≡ source_at (get self.now.filed.routers serial) }
    {
        match self.routers.router(serial) {
            Some(router) => router.source(),
            None => None,
        }
    }
}
