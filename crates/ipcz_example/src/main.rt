//! A caller of the library: what is put at a portal on node 0 is got at its peer on node 1.
#![tactic(auto)]

use ipcz_base::{Bytes, End, Ends, Refusal, Side};
use ipcz_world::{Reply, Step, World};
use std::alloc::Global;

// Puts `hello` at the portal of node 0, lets the nodes act, and gives what a get on node 1 answers.
fn talk(alloc: Global) -> Result<Reply, Refusal> {
    let left = End {
        pair: 0,
        side: Side::A,
    };
    let right = left.opposite();
    let mut world = World::new(alloc, 2, 1 << 24)?;
    let bytes = Bytes::from_slice(alloc, b"hello")?;
    let ends = Ends::from_vec(Vec::new(alloc));
    world.put_wide(0, left, bytes, ends)?;
    world.settle(100)?;
    Ok(world.step(&Step::Get { node: 1, at: right }))
}

fn main(rt: HostRuntime) -> anyhow::Result<()> {
    if let Reply::Got(number, parcel) = talk(rt.alloc())? {
        let text = str::from_utf8(parcel.bytes.as_slice())?;
        println!(rt; "parcel {number}: {text}")?;
    }
    Ok(())
}
