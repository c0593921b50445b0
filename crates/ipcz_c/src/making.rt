//! What calls make of what C gives: a world, and the lists of a parcel.
ghost use Rattle.std.specs.Prelude.{◌≡◌, IfOk, IfErr, true};
ghost use Rattle.ipcz_world.specs.World.{new_world};
ghost use Rattle.ipcz_c.specs.Named.{ends_of};
ghost use Rattle.ipcz_c.specs.Calls.{is_within, has_slots};

use crate::portal::{Portal, ends_of};
use ipcz_base::{Bytes, Ends, Refusal};
use ipcz_node::first_pair_count;
use ipcz_world::World;
use std::alloc::{AllocError, Global};

// Whether a world or a table that C makes may have so many nodes and words.
pub(crate) fn are_within(nodes: u8, words: u32) -> bool
    ensures { result ≡ is_within nodes words }
{
    1 <= nodes && nodes <= 64 && first_pair_count(nodes) <= words && words <= 4096
}

// Whether a table that C makes, whose link words come back, may have so many nodes, and slots for links.
pub(crate) fn have_slots(nodes: u8, slots: u32) -> bool
    ensures { result ≡ has_slots nodes slots }
{
    1 <= nodes
        && nodes <= 64
        && 1 <= slots
        && first_pair_count(nodes) <= slots
        && slots <= 1_048_576
}

// A new world in a box.
pub(crate) fn boxed_world(
    alloc: Global,
    nodes: u8,
    words: u32,
) -> Result<Box<World, Global>, Refusal>
    requires { is_within nodes words ≡ true }
    ensures world { IfOk result (λ w. w.value.world ≡ new_world nodes words) }
    ensures why { IfErr result (λ e. e ≡ Refusal.OutOfMemory) }
{
    let world = World::new(alloc, nodes, words)?;
    match Box::new(alloc, world) {
        Ok(world) => Ok(world),
        Err(_) => Err(Refusal::OutOfMemory),
    }
}

// The lists of a parcel.
pub(crate) fn lists_of(
    alloc: Global,
    bytes: &[u8],
    portals: &[Portal],
) -> Result<(Bytes, Ends), AllocError>
    ensures { IfOk result (λ r. (r.0 ≡ bytes.now) × (r.1 ≡ ends_of portals.now)) }
{
    let bytes = Bytes::from_slice(alloc, bytes)?;
    let ends = ends_of(alloc, portals)?;
    Ok((bytes, ends))
}
