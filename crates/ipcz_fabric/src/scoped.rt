//! Portals that are closed at the end of their scope.
ghost use Rattle.std.specs.Prelude.{◌≡◌};

use crate::hub::Hub;
use crate::portal::Portal;
use ipcz_cell::FabricName;
use std::marker::Model;
use std::sync::Wait;

/// A portal that is closed when it is let go, on whichever way its scope is left: so its peer is told, and nobody waits there for ever.
///
/// That it is closed then is tested, and no contract: a clause can't speak of a value that is gone. If the close finds no memory, which a queue that
/// has to grow may want, the portal stays open. Who wants to know the close's answer takes the portal out and gives it to [`Portal::close`].
pub struct ScopedPortal<'a, R: Wait, F: FabricName> {
    rt: &'a R,
    hub: &'a Hub<F>,
    portal: Portal<F>,
}

impl<'a, R: Wait, F: FabricName> Model for ScopedPortal<'a, R, F> {
    ghost use Rattle.std.specs.Coded.{codes};
    ghost use Rattle.ipcz_fabric.specs.Portals.{PortalValue};

    ghost Value = { PortalValue };

    ghost coded = { Prim.hlevel codes };

    ghost view = { λ p. p.portal };
}

impl<'a, R: Wait, F: FabricName> ScopedPortal<'a, R, F> {
    /// The portal, for a call. It is never refused.
    ///
    /// So `scoped.portal().get(rt, &hub)` gets a parcel.
    pub fn portal(&self) -> &Portal<F>
        ensures { result.now ≡ self.now }
    {
        &self.portal
    }

    /// Takes the portal out, which then isn't closed: to send it away, or to keep it. It is never refused.
    ///
    /// So `scoped.into_portal().close(rt, &hub)` closes it and tells its number.
    pub fn into_portal(self) -> Portal<F>
        ensures { result ≡ self.entry }
    {
        let ScopedPortal {
            rt: _,
            hub: _,
            portal,
        } = self;
        portal
    }
}

impl<'a, R: Wait, F: FabricName> Drop for ScopedPortal<'a, R, F> {
    fn drop(self) {
        let ScopedPortal { rt, hub, portal } = self;
        let _closed = portal.close(rt, hub);
    }
}

impl<F: FabricName> Portal<F> {
    /// The same portal, which is closed at the end of its scope. It is never refused.
    ///
    /// So behind `let reply = portal.scoped(rt, &hub);` each `?` closes the portal on its way out.
    pub fn scoped<'a, R: Wait>(self, rt: &'a R, hub: &'a Hub<F>) -> ScopedPortal<'a, R, F>
        ensures { result ≡ self }
    {
        ScopedPortal {
            rt,
            hub,
            portal: self,
        }
    }
}
