//! Tables and parcels: what the tests of cells begin and end with, and what they put.
ghost use Rattle.std.specs.Prelude.{◌≡◌};

use ipcz_base::{Bytes, End, Ends};
use ipcz_cell::{Blank, Fabric, FabricName, NodeCell, finish};
use ipcz_world::World;
use std::alloc::{AllocError, Global};

/// The fabric of a table, and the cells of its nodes.
#[derive(Drop)]
pub(crate) struct Table<F: FabricName> {
    pub fabric: Fabric<F>,
    pub cells: Vec<NodeCell<F>>,
}

/// Names a table.
pub(crate) fn named<F: FabricName>(blank: Blank) -> Option<Table<F>>
    requires { blank ≡ F.table }
{
    match blank.name::<F>() {
        Ok((fabric, cells)) => Some(Table { fabric, cells }),
        Err(_) => None,
    }
}

/// The world that the cells of a table show.
pub(crate) fn world_of<F: FabricName>(table: Table<F>) -> Option<World> {
    match finish(table.fabric, table.cells) {
        Ok(world) => Some(world),
        Err(_) => None,
    }
}

/// How many routers the first two nodes have in that world.
pub(crate) fn routers_of<F: FabricName>(table: Table<F>) -> Option<[Option<usize>; 2]> {
    let world = world_of(table)?;
    Some([world.routers(0), world.routers(1)])
}

// A parcel of these bytes and ends, as two lists.
fn lists(alloc: Global, data: &[u8], ends: &[End]) -> Result<(Bytes, Ends), AllocError> {
    let bytes = Bytes::from_slice(alloc, data)?;
    let list = Vec::from_slice(alloc, ends)?;
    Ok((bytes, Ends::from_vec(list)))
}

/// Puts these bytes and ends at an end; the parcel's number, if it isn't refused.
pub(crate) fn put<F: FabricName>(
    fabric: &Fabric<F>,
    cell: &mut NodeCell<F>,
    alloc: Global,
    at: End,
    data: &[u8],
    ends: &[End],
) -> Option<u64> {
    let (bytes, list) = lists(alloc, data, ends).ok()?;
    cell.put(fabric, at, bytes, list).ok()
}
