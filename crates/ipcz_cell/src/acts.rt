//! Turns of a cell one after the other, whose events are not told: how many they were, and which nodes they touched.
ghost use Rattle.std.specs.Prelude.{◌≡◌, ◌<◌, ◌||◌, ℕ};
ghost use Rattle.ipcz_cell.specs.TurnChains.{touches, RunsTurns, RunsTouching};
ghost use Rattle.ipcz_node.specs.NodeSets.{has_node};

use crate::bells::{Ringer, Unheard, Waking};
use crate::cell::NodeCell;
use crate::fabric::{Fabric, FabricName};
use ipcz_base::Refusal;
use ipcz_node::{Act, NodeSet};

// Adds the node that an act touches beside its own, if there is one.
fn add_touched(touched: &mut NodeSet, act: Act)
    ensures { (n : ℕ) → n < 64 → has_node touched.new n ≡ (touches act n || has_node touched.old n) }
{
    match act {
        Act::Post(node) | Act::Hand(node) => touched.add(node),
        _ => {}
    }
}

impl<F: FabricName> NodeCell<F> {
    /// Takes turns one after the other, each as `turn` does, until one is idle, but no more than `limit`, and answers how many it has taken
    /// before the idle one. It tells nothing of them.
    ///
    /// It ends at the first turn that is refused, with that refusal. What the turns before have done stays; how many they were isn't told.
    ///
    /// Refused as the first turn that is refused ([`NodeCell::turn`]).
    ///
    /// Where nothing waits, `cell.acts(&fabric, 100)` is `Ok(0)`.
    pub fn acts(&mut self, fabric: &Fabric<F>, limit: u64) -> Result<u64, Refusal>
        ensures { RunsTurns F.table limit self.old result self.new }
    {
        let mut touched = NodeSet::none();
        self.acts_by::<Waking>(fabric, limit, &mut touched)
    }

    /// The same, but it wakes no thread that sleeps for a node of the table. In place of that it adds to `touched` each node that a turn has touched:
    /// into whose mailbox it has posted, or whose message it has handled, so that this node can post its next. Only at these nodes a turn may have
    /// become possible: who sleeps on words of its own, as a library for C, wakes those nodes and no others.
    ///
    /// Refused as [`NodeCell::acts`]. Then `touched` has what the turns before have touched.
    ///
    /// Where nothing waits, `cell.acts_touching(&fabric, 100, &mut touched)` is `Ok(0)`, and `touched` stays as it was.
    pub fn acts_touching(
        &mut self,
        fabric: &Fabric<F>,
        limit: u64,
        touched: &mut NodeSet,
    ) -> Result<u64, Refusal>
        ensures { RunsTouching F.table limit self.old result touched.old touched.new self.new }
    {
        self.acts_by::<Unheard>(fabric, limit, touched)
    }

    // Takes turns, adds the nodes that they touch, and rings as R does.
    #[inline(always)]
    fn acts_by<R: Ringer>(
        &mut self,
        fabric: &Fabric<F>,
        limit: u64,
        touched: &mut NodeSet,
    ) -> Result<u64, Refusal>
        ensures { RunsTouching F.table limit self.old result touched.old touched.new self.new }
    {
        for taken in 0..limit {
            let act = self.act(fabric);
            match self.take::<(), R>(fabric, act) {
                Ok(()) => match act {
                    Act::Idle => return Ok(taken),
                    _ => add_touched(touched, act),
                },
                Err(why) => return Err(why),
            }
        }
        Ok(limit)
    }
}
