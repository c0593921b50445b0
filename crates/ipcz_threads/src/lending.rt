//! Cells are given their gates.
ghost use Rattle.std.specs.Prelude.{◌≡◌, ◌≤◌, ◌+◌, ◌++◌, length, map, vec_len, vec_capacity};
ghost use Rattle.std.specs.VecDeque.{deque_len};

use crate::worker::NodeWorker;
use ipcz_fabric::{Fabric, FabricName, NodeCell};
use std::collections::VecDeque;

/// Makes a worker of each cell, with the gate of its place, behind the workers that there are.
pub(crate) fn lend<'a, F: FabricName, G>(
    fabric: &'a Fabric<F>,
    mut cells: VecDeque<NodeCell<F>>,
    gates: &'a mut [G],
    mut workers: Vec<NodeWorker<'a, F, G>>,
) -> Vec<NodeWorker<'a, F, G>>
    requires room { vec_len workers + deque_len cells ≤ vec_capacity workers }
    requires gates { deque_len cells ≤ length gates.old }
    ensures { map (λ w. w.cell) result.items ≡ map (λ w. w.cell) workers.entry.items ++ cells.items }
{
    let Some(cell) = cells.pop_front() else {
        return workers;
    };
    let Some((gate, rest)) = gates.split_first_mut() else {
        unreachable!()
    };
    workers.push_reserved(NodeWorker {
        fabric,
        cell,
        gate,
        starved: false,
        left: 0,
    });
    lend(fabric, cells, rest, workers)
}
