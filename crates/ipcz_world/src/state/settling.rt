//! Settling: which node takes the next act in passes over the nodes.

ghost use Rattle.std.specs.Prelude.{◌≡◌, ◌<◌, ◌≤◌, IfSome, IfNone};
ghost use Rattle.ipcz_world.specs.Settling.{next_node};
ghost use Rattle.ipcz_world.specs.Taking.{IsRegular};
ghost use Rattle.ipcz_world.specs.Turns.{next_at, is_idle};
ghost use Rattle.ipcz_world.specs.Visiting.{AreIdle, IsFirstBusy, IsNextBusy};

use crate::state::State;
use ipcz_node::Act;

impl State {
    /// The next node that has an act, in passes over the nodes from this one on, with that act; none if each node is idle.
    #[inline(always)]
    pub(crate) fn next_busy(&self, n: u8) -> Option<(u8, Act)>
        requires regular { IsRegular self.now.world }
        requires place { n ≤ self.now.world.count }
        ensures some { IfSome result (λ found. IsNextBusy self.now.world n found.0) }
        ensures act { IfSome result (λ found. found.1 ≡ next_at self.now.world found.0) }
        ensures none { IfNone result (AreIdle self.now.world 0 self.now.world.count) }
    {
        match self.first_busy(n, self.count) {
            Some(found) => Some(found),
            None => self.first_busy(0, n),
        }
    }

    /// The same by a call of its own: `next_busy` is called before each act, this one once.
    #[inline(never)]
    pub(crate) fn last_busy(&self, n: u8) -> Option<(u8, Act)>
        requires regular { IsRegular self.now.world }
        requires place { n ≤ self.now.world.count }
        ensures some { IfSome result (λ found. IsNextBusy self.now.world n found.0) }
        ensures act { IfSome result (λ found. found.1 ≡ next_at self.now.world found.0) }
        ensures none { IfNone result (AreIdle self.now.world 0 self.now.world.count) }
    {
        self.next_busy(n)
    }

    /// The node after this one in a pass, or the first one of the next pass.
    pub(crate) fn next_node(&self, n: u8) -> u8
        requires node { n < self.now.world.count }
        ensures { result ≡ next_node self.now.world n }
    {
        let count = self.count;
        if n + 1 < count { n + 1 } else { 0 }
    }

    // The first node from one number up to another that has an act, if one has, with that act.
    #[inline(always)]
    fn first_busy(&self, from: u8, to: u8) -> Option<(u8, Act)>
        requires regular { IsRegular self.now.world }
        requires nodes { to ≤ self.now.world.count }
        ensures some { IfSome result (λ found. IsFirstBusy self.now.world from to found.0) }
        ensures act { IfSome result (λ found. found.1 ≡ next_at self.now.world found.0) }
        ensures none { IfNone result (AreIdle self.now.world from to) }
    {
        for n in from..to {
            let act = self.next(n);
            if !is_idle(act) {
                return Some((n, act));
            }
        }
        None
    }
}

/// Whether an act is idle.
#[tactic(auto, unfolding(crate::specs::Turns::is_idle))]
pub(crate) fn is_idle(act: Act) -> bool
    ensures { result ≡ is_idle act }
{
    match act {
        Act::Idle => true,
        Act::Hand(_) | Act::Look(_) | Act::Post(_) | Act::Close(_) | Act::Router(_, _) => false,
    }
}
