//! Callers on two threads: an end moves from node 0 to node 1, a text goes to it there, and an answer comes back. Each thread sleeps while
//! there is nothing to do. In `cells` each owns the cell of a node; in `hub` both share a hub, and two workers take the turns.
#![tactic(auto)]

mod cells;
mod hub;

use ipcz_fabric::start_lasting;
use std::marker::Brand;
use std::str;

fn main(rt: HostRuntime) -> anyhow::Result<()> {
    let blank = start_lasting(rt.alloc(), 2, 8, u64::MAX)?;
    let answer = cells::talk_by_cells::<Brand, _>(&rt, rt.alloc(), blank)?;
    println!(rt; "cells: {}", str::from_utf8(answer.as_slice())?)?;
    let blank = start_lasting(rt.alloc(), 2, 8, u64::MAX)?;
    let answer = hub::talk_by_hub::<Brand, _>(&rt, rt.alloc(), blank)?;
    println!(rt; "hub: {}", str::from_utf8(answer.as_slice())?)?;
    Ok(())
}
