//! Notes of portals: which end a portal is of, and of which node.
ghost use Rattle.std.specs.Prelude.{◌≡◌};
ghost use Rattle.ipcz_fabric.specs.Portals.{PortalValue, portal_at};

use ipcz_base::End;
use std::marker::Model;

/// What a set notes of a portal that somebody else owns. Nobody can put or get with it.
#[derive(Drop)]
pub(crate) struct PortalNote {
    node: u8,
    end: End,
}

impl Model for PortalNote {
    ghost use Rattle.std.specs.Coded.{codes};
    ghost use Rattle.ipcz_fabric.specs.Portals.{PortalValue};

    ghost Value = { PortalValue };

    ghost coded = { Prim.hlevel codes };

    ghost view = { λ p. record { node = p.node; end = p.end } };
}

impl PortalNote {
    // A note of the portal of an end that callers of a node hold.
    pub(crate) fn new(node: u8, end: End) -> PortalNote
        ensures { result ≡ portal_at node end }
    {
        PortalNote { node, end }
    }

    // The number of the node.
    pub(crate) fn node(&self) -> u8
        ensures { result ≡ self.now.node }
    {
        self.node
    }

    // The node and the end, by which a map finds the portal.
    pub(crate) fn key(&self) -> (u8, End)
        ensures { result ≡ (self.now.node, self.now.end) }
    {
        (self.node, self.end)
    }
}
