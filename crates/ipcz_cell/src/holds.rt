//! Which ends callers of a cell's node hold.
ghost use Rattle.std.specs.Prelude.{◌≡◌};
ghost use Rattle.ipcz_node.specs.Finding.{IsNextHeld};
ghost use Rattle.ipcz_node.specs.Node.{holds_end};

use crate::cell::NodeCell;
use crate::fabric::FabricName;
use ipcz_base::End;

impl<F: FabricName> NodeCell<F> {
    /// Whether callers of this node hold the end. It takes no memory.
    ///
    /// It is never refused.
    ///
    /// In the table of `start(alloc, 2, 8)` the first cell holds the end of side A of pair 0, and not that of side B.
    pub fn holds(&self, end: End) -> bool
        ensures { result ≡ holds_end self.now.part.state end }
    {
        self.state.holds(end)
    }

    /// The first end that callers of this node hold, from a router's serial on, with the serial of its terminal; or none. From 0 on, and
    /// then each time from the serial after the last one, it gives all of them, as `NodeState::held_from` does. It takes no memory.
    ///
    /// It is never refused.
    ///
    /// In the table of `start(alloc, 2, 8)` `held_from(0)` of the first cell is serial 0 with the end of side A of pair 0, and `held_from(1)` is none.
    pub fn held_from(&self, serial: u64) -> Option<(u64, End)>
        ensures { IsNextHeld self.now.part.state serial result }
    {
        self.state.held_from(serial)
    }
}
