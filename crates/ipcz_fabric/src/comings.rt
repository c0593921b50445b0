//! At which ends of a node something has come.
ghost use Rattle.std.specs.Prelude.{◌≡◌};

use ipcz_base::End;
use ipcz_cell::{FabricName, NodeCell};

/// Says at which ends of a node something has come.
pub(crate) trait Comings {
    ghost use Rattle.std.specs.Prelude.{◌≡◌, Bool};
    ghost use Rattle.ipcz_base.specs.declared.end.End.{End};

    /// At which ends.
    ghost comes: { Self → End → Bool };

    /// Whether something has come at this end.
    fn has_come(&self, at: End) -> bool
        ensures { result ≡ comes self.now at };
}

impl<F: FabricName> Comings for NodeCell<F> {
    ghost use Rattle.ipcz_fabric.specs.Waiting.{is_answered};

    ghost comes = { λ c at. is_answered c.part.state at };

    fn has_come(&self, at: End) -> bool {
        self.has_come(at) || self.look(at).is_none()
    }
}
