//! Hubs and worlds of a table: what the tests of hubs and portals begin and end with.
ghost use Rattle.std.specs.Prelude.{◌≡◌};

use ipcz_base::Bytes;
use ipcz_fabric::{Blank, FabricName, Hub, Portal, finish};
use ipcz_world::World;
use std::alloc::Global;
use std::process::Abort;
use std::sync::Wait;

/// A hub of the cells of a table, and its portals.
pub(crate) fn hub_of<F: FabricName>(blank: Blank) -> Option<(Hub<F>, Vec<Portal<F>>)>
    requires { blank ≡ F.table }
{
    match blank.name::<F>() {
        Ok((fabric, cells)) => Hub::new(fabric, cells).ok(),
        Err(_) => None,
    }
}

/// Whether a portal is put at another, in a parcel without bytes.
pub(crate) fn sends<F: FabricName, R: Wait>(
    rt: &R,
    hub: &Hub<F>,
    alloc: Global,
    at: &Portal<F>,
    moved: Portal<F>,
) -> bool {
    let mut portals = Vec::new(alloc);
    if portals.push(moved).is_err() {
        return false;
    }
    at.put(rt, hub, Bytes::new(), portals).is_ok()
}

/// The world that the cells of a hub show.
pub(crate) fn world_of<F: FabricName>(hub: Hub<F>) -> Option<World> {
    match hub.into_cells() {
        Ok((fabric, cells)) => finish(fabric, cells).ok(),
        Err(_) => None,
    }
}

/// The two portals of a hub's first pair, of which these are all.
pub(crate) fn both<F: FabricName>(mut portals: Vec<Portal<F>>) -> Option<(Portal<F>, Portal<F>)> {
    let there = portals.pop()?;
    let here = portals.pop()?;
    Some((here, there))
}

/// How many routers the first two nodes have in the world that the cells of a hub show.
pub(crate) fn routers_of<F: FabricName>(hub: Hub<F>) -> Option<[Option<usize>; 2]> {
    let world = world_of(hub)?;
    Some([world.routers(0), world.routers(1)])
}

/// What is looked at has to go well. (A test that asserts this itself is several times as dear to prove.)
pub(crate) fn well(rt: &impl Abort, went: Option<bool>) {
    assert_eq!(rt; went, Some(true));
}
