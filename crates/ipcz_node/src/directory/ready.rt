//! Which routers of a directory are ready: open terminals where a get isn't `Empty`.
ghost use Rattle.std.specs.Prelude.{ℕ, ◌≡◌, ◌==◌, ◌+◌, ◌<◌, ◌≤◌, ◌&&◌, ◌||◌, not, true, if◌then◌else◌};
ghost use Rattle.std.specs.Ordering.{nat_cmp};
ghost use Rattle.ipcz_router.specs.Router.{is_open_terminal};
ghost use Rattle.ipcz_router.specs.Calls.{has_come};
ghost use Rattle.ipcz_node.specs.Directories.{passes};
ghost use Rattle.ipcz_node.specs.Finding.{is_ready};
ghost use Rattle.ipcz_node.specs.SortedSets.{has};

use crate::routers::Routers;
use crate::serial_ring::SerialRing;
use ipcz_router::Router;

/// The serials of the ready routers. That of the one which became ready last stands apart, and stays there once it is ready no more: mostly it
/// is the next one to become ready, and then nothing is to be filed.
#[derive(Drop)]
pub(super) struct Ready {
    pub(super) latest: u64,
    pub(super) others: SerialRing,
}

impl Ready {
    /// Whether an item of the number `n`, which has come to the router of the serial, makes it one that is to be filed: an open terminal of
    /// which a get takes that item next, and not the latest.
    #[inline(always)]
    pub(super) fn is_new(&self, serial: u64, router: &Router, n: u64) -> bool
        ensures { result ≡ (not (serial == self.now.latest) && (is_open_terminal router.now.router && n == router.now.router.in_queue.current)) }
    {
        serial != self.latest && router.is_open_terminal() && n == router.in_number()
    }

    /// Files the router of a serial, if it is to be filed: it is the latest then, and the one that was is one of the others, if it is
    /// still ready.
    #[inline(always)]
    pub(super) fn note(&mut self, routers: &Routers, serial: u64, is_new: bool)
        requires { is_new ≡ true → passes is_ready routers.now.routers self.old.latest ≡ true → 0 < self.old.others.room }
        ensures latest { self.new.latest ≡ (if is_new then serial else self.old.latest) }
        ensures members { (s : ℕ) → has nat_cmp self.new.others.members s ≡
            (((is_new && passes is_ready routers.now.routers self.old.latest) && self.old.latest == s) || has nat_cmp self.old.others.members s) }
        ensures room { self.old.others.room ≤ self.new.others.room +
            (if is_new && passes is_ready routers.now.routers self.old.latest then 1 else 0) }
    {
        if is_new {
            self.file_latest(routers);
            self.latest = serial;
        }
    }

    // The latest is one of the others from here on, if it is still ready.
    #[inline(never)]
    fn file_latest(&mut self, routers: &Routers)
        requires { passes is_ready routers.now.routers self.old.latest ≡ true → 0 < self.old.others.room }
        ensures latest { self.new.latest ≡ self.old.latest }
        ensures members { (s : ℕ) → has nat_cmp self.new.others.members s ≡
            ((passes is_ready routers.now.routers self.old.latest && self.old.latest == s) || has nat_cmp self.old.others.members s) }
        ensures room { self.old.others.room ≤ self.new.others.room +
            (if passes is_ready routers.now.routers self.old.latest then 1 else 0) }
    {
        if routers.is_ready(self.latest) {
            self.others.insert(self.latest);
        }
    }

    /// Whether a router of the serial that was ready is to be filed no more after a get: none is left to be got, and it isn't the latest.
    #[inline(always)]
    pub(super) fn has_ended(&self, serial: u64, router: &Router) -> bool
        ensures { result ≡ (not (serial == self.now.latest) && not (has_come router.now.router)) }
    {
        serial != self.latest && !router.has_come()
    }

    /// Files the router of a serial no more, if it was ready and is so no more; nothing is to be done of the latest.
    #[inline(always)]
    pub(super) fn drop_ended(&mut self, serial: u64, has_ended: bool)
        requires { (not (serial == self.old.latest) && has_ended) ≡ true → has nat_cmp self.old.others.members serial ≡ true }
        ensures latest { self.new.latest ≡ self.old.latest }
        ensures members { (s : ℕ) → has nat_cmp self.new.others.members s ≡
            (not ((not (serial == self.old.latest) && has_ended) && serial == s) && has nat_cmp self.old.others.members s) }
        ensures room { self.old.others.room + (if not (serial == self.old.latest) && has_ended then 1 else 0) ≤ self.new.others.room }
    {
        if serial != self.latest && has_ended {
            self.others.remove(serial);
        }
    }
}
