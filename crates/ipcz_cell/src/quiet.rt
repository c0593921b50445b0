//! Whether a node has nothing to do, as its cell finds it.
ghost use Rattle.std.specs.Prelude.{◌≡◌, ◌==◌, ◌&&◌, ◌||◌, ◌≤◌};
ghost use Rattle.ipcz_node.specs.Acts.{is_quiet};
ghost use Rattle.ipcz_cell.specs.Opens.{FindsFree, FindsQuiet, are_spent};

use crate::cell::NodeCell;
use crate::fabric::{Fabric, FabricName};

// Whether a mailbox of this word has no message: it is empty, or its sender has taken it.
fn is_free(found: u64) -> bool
    ensures { result ≡ (found == 0 || found == 3) }
{
    found == 0 || found == 3
}

impl<F: FabricName> NodeCell<F> {
    // Whether the mailboxes to this node are found free, from a sender on.
    fn are_free(&mut self, fabric: &Fabric<F>, from: u8) -> bool
        requires { from ≤ F.table.count }
        ensures { FindsFree F.table from self.old result self.new }
    {
        if from == fabric.nodes {
            return true;
        }
        let node = self.node();
        let here = is_free(self.load_mail(fabric, from, node));
        let rest = self.are_free(fabric, from + 1);
        here && rest
    }

    // Whether the node has nothing to do by itself, nor with batches of which something is left.
    fn rests(&self) -> bool
        ensures { result ≡ (is_quiet self.now.part.state && are_spent self.now.part F.table.count) }
    {
        self.state.quiet() && self.held.is_empty()
    }

    /// Whether the node has nothing to do: by itself, as `NodeState::quiet`, and since each mailbox to it was loaded and no message was
    /// found in it. Another node may post meanwhile: of the table it says only what the loads have found. It takes no memory.
    ///
    /// It is never refused.
    ///
    /// In a table at its start `cell.quiet(&fabric)` is true, and after a put at the cell it is false.
    pub fn quiet(&mut self, fabric: &Fabric<F>) -> bool
        ensures { FindsQuiet F.table self.old result self.new }
    {
        let free = self.are_free(fabric, 0);
        self.rests() && free
    }
}
