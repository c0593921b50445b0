//! Waiting for something to do.
ghost use Rattle.std.specs.Prelude.{◌≡◌, ◌≢◌, true, false};
ghost use Rattle.ipcz_cell.specs.Turns.{Chooses};

use crate::bells::Ticket;
use crate::cell::NodeCell;
use crate::fabric::{Fabric, FabricName};
use ipcz_node::Act;
use std::sync::Wait;
use std::time::Duration;

impl<F: FabricName> NodeCell<F> {
    /// Sleeps if the node has nothing to do, and tells whether it had nothing: until a message is posted to the node, a message of it is
    /// handled, `Fabric::notify_all` is called for it, or `limit` has passed; `Duration::MAX` is without end. A sleep may also end for no
    /// reason. So turns follow, and another wait once they are idle. If a loop looks at something else besides, as a flag that ends it,
    /// call `wait_since`.
    ///
    /// It answers true only if the node's first act was `Idle` for the mailboxes as it found them. It answers false only if it was
    /// another, which a turn would take, and then it didn't sleep. It takes no memory, and nothing but `seen` changes.
    ///
    /// It is never refused. So a thread that serves a node goes round: `if cell.acts(&fabric, 64)? == 0 { cell.wait(rt, &fabric, limit); }`.
    pub fn wait<R: Wait>(&mut self, rt: &R, fabric: &Fabric<F>, limit: Duration) -> bool
        ensures idle { result ≡ true → Chooses F.table self.old Act.Idle self.new }
        ensures busy { result ≡ false → (act : Act) × (act ≢ Act.Idle) × Chooses F.table self.old act self.new }
    {
        let ticket = fabric.bells.watch(self.node());
        self.wait_since(rt, fabric, ticket, limit)
    }

    /// Waits, as `wait`, with a ticket that the caller has taken by `fabric.bells().watch(cell.node())`: the sleep ends at once if the bell
    /// was rung since. So a flag can be looked at behind `watch`, whose setter calls `Fabric::notify_all` behind it, and isn't missed.
    ///
    /// It is never refused. So `let ticket = fabric.bells().watch(cell.node());` stands before the look at the flag, and
    /// `cell.wait_since(rt, &fabric, ticket, limit)` behind it.
    pub fn wait_since<R: Wait>(
        &mut self,
        rt: &R,
        fabric: &Fabric<F>,
        ticket: Ticket,
        limit: Duration,
    ) -> bool
        ensures idle { result ≡ true → Chooses F.table self.old Act.Idle self.new }
        ensures busy { result ≡ false → (act : Act) × (act ≢ Act.Idle) × Chooses F.table self.old act self.new }
    {
        let node = self.node();
        let act = self.act(fabric);
        if !matches!(&act, Act::Idle) {
            return false;
        }
        fabric.bells.sleep(rt, node, ticket, limit);
        true
    }
}
