//! Portals that came with a parcel, each made as it is taken out, so that they take no memory.
ghost use Rattle.std.specs.Prelude.{◌≡◌, ◌<◌, ◌++◌, ◌∷◌, [], ◌==◌, length, take, IfOk, IfErr, MatchOption};
ghost use Rattle.ipcz_fabric.specs.Portals.{portals_at};

use crate::portal::{MOST_PORTALS, Portal, add_portals};
use ipcz_base::{Bytes, End, Parcel};
use ipcz_cell::FabricName;
use std::alloc::Global;
use std::marker::{Model, PhantomData};

/// The portals that came with a parcel, in the order in which they were attached. They are of the node where it was got.
///
/// Those that are still here when it is dropped are dropped unclosed, as a `Portal` is.
#[derive(Drop)]
pub struct Portals<F: FabricName> {
    node: u8,
    ends: Vec<End>,
    of: PhantomData<F>,
}

impl<F: FabricName> Model for Portals<F> {
    ghost use Rattle.std.specs.Prelude.{◌<◌, List};
    ghost use Rattle.std.specs.Coded.{codes};
    ghost use Rattle.ipcz_fabric.specs.Portals.{PortalValue, portals_at};

    ghost Value = { List PortalValue };

    ghost coded = { Prim.hlevel codes };

    ghost view = { λ p. portals_at p.node p.ends.items };

    ghost invariant = { λ p. p.node < F.table.count };
}

/// What a get that waits gives: a parcel, with its number. Its ends are portals of the node where it was got.
#[derive(Drop)]
pub struct Arrival<F: FabricName> {
    pub n: u64,
    pub bytes: Bytes,
    pub portals: Portals<F>,
}

// A parcel that was got at a node.
pub(crate) fn arrival_of<F: FabricName>(node: u8, n: u64, parcel: Parcel) -> Arrival<F>
    requires { node < F.table.count }
    ensures number { result.n ≡ n }
    ensures bytes { result.bytes ≡ parcel.bytes }
    ensures portals { result.portals ≡ portals_at node (take 8 parcel.ends) }
{
    let mut ends = parcel.ends.into_vec();
    ends.truncate(MOST_PORTALS);
    Arrival {
        n,
        bytes: parcel.bytes,
        portals: Portals {
            node,
            ends,
            of: PhantomData,
        },
    }
}

impl<F: FabricName> Portals<F> {
    /// How many there are: at most eight, less those that were taken out. It is never refused.
    ///
    /// Of a parcel that was put with two portals, `arrival.portals.len()` is 2.
    pub fn len(&self) -> usize
        ensures { result ≡ length self.now }
    {
        self.ends.len()
    }

    /// Whether there is none. It is never refused.
    ///
    /// Of a parcel that was put without portals, `arrival.portals.is_empty()` is true.
    pub fn is_empty(&self) -> bool
        ensures { result ≡ (length self.now == 0) }
    {
        self.ends.is_empty()
    }

    /// Takes the last one out, or tells that there is none. It takes no memory, and is never refused.
    ///
    /// Of a parcel that was put with one portal, `arrival.portals.pop()` is that portal, of the node where the parcel was got.
    pub fn pop(&mut self) -> Option<Portal<F>>
        ensures { MatchOption result ((self.old ≡ []) × (self.new ≡ [])) (λ p. self.old ≡ self.new ++ p ∷ []) }
    {
        match self.ends.pop() {
            Some(end) => Some(Portal::new(self.node, end)),
            None => None,
        }
    }

    /// Makes a list of them, in their order. If there is no memory for the list, it gives them back.
    ///
    /// So `let list = arrival.portals.into_vec(alloc)` has them as `Got` of [`Portal::get`] has.
    pub fn into_vec(self, alloc: Global) -> Result<Vec<Portal<F>>, Portals<F>>
        ensures ok { IfOk result (λ portals. portals.items ≡ self) }
        ensures back { IfErr result (λ portals. portals ≡ self) }
    {
        let count = self.ends.len();
        let Ok(mut portals) = Vec::with_capacity(alloc, count) else {
            return Err(self);
        };
        add_portals(self.node, self.ends.as_slice(), count, &mut portals);
        Ok(portals)
    }
}
