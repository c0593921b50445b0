//! The cells of a new table, one for each handle of C.
ghost use Rattle.std.specs.Prelude.{◌≡◌, map, length, OnOk, OnErr, IfOk, IfErr};
ghost use Rattle.std.specs.VecDeque.{deque_len};
ghost use Rattle.ipcz_c.specs.HeldCells.{IsOnly};
ghost use Rattle.ipcz_c.specs.CellCalls.{are_vacant, AreHeld, AreMade};

use crate::cell_handle::CellHandle;
use crate::member::Member;
use ipcz_base::Refusal;
use ipcz_cell::{Blank, Fabric, FabricName, NodeCell};
use std::alloc::{AllocError, Global};
use std::collections::VecDeque;
use std::sync::Arc;

// Whether no handle has a cell.
pub(crate) fn are_vacant(handles: &[CellHandle]) -> bool
    ensures { result ≡ are_vacant handles.now }
{
    match handles {
        [] => true,
        [first, rest @ ..] => !first.has_cell && are_vacant(rest),
    }
}

// The cells of a fabric, each with a share of it, in boxes.
fn boxed<F: FabricName>(
    alloc: Global,
    fabric: Arc<Fabric<F>, Global>,
    cells: Vec<NodeCell<F>>,
) -> Result<VecDeque<Box<Member<F>, Global>>, AllocError>
    ensures all { IfOk result (λ members. map (λ m. m.value) members.items ≡ cells.items) }
    ensures many { IfOk result (λ members. deque_len members ≡ length members.items) }
{
    let _all = cells.as_slice();
    let mut cells = VecDeque::from_vec(cells);
    let mut members = VecDeque::new(alloc);
    while let Some(cell) = cells.pop_front() {
        let share = fabric.clone()?;
        let member = Member::new(share, cell);
        let Ok(kept) = Box::new(alloc, member) else {
            return Err(AllocError);
        };
        members.push_back(kept)?;
    }
    Ok(members)
}

// Gives each handle its cell.
fn hand_out<F: FabricName>(
    mut members: VecDeque<Box<Member<F>, Global>>,
    handles: &mut [CellHandle],
)
    requires each { length members.items ≡ length handles.old }
    requires many { deque_len members ≡ length members.items }
    requires only { IsOnly F }
    ensures held { AreHeld F.table (map (λ m. m.value) members.items) handles.new }
    ensures each { length handles.new ≡ length handles.old }
{
    for at in 0..handles.len() {
        let Some(member) = members.pop_front() else {
            unreachable!()
        };
        handles[at] = CellHandle::of(member);
    }
}

// Names a new table, and gives each handle the cell of a node.
pub(crate) fn seat<F: FabricName>(
    alloc: Global,
    blank: Blank,
    handles: &mut [CellHandle],
) -> Result<(), Refusal>
    requires named { blank ≡ F.table }
    requires many { F.table.count ≡ length handles.old }
    requires only { IsOnly F }
    ensures made { OnOk result (AreMade blank.size blank.slots blank.reuses handles.new) }
    ensures why { IfErr result (λ e. e ≡ Refusal.OutOfMemory) }
    ensures back { OnErr result (handles.new ≡ handles.old) }
{
    let Ok((fabric, cells)) = blank.name::<F>() else {
        return Err(Refusal::OutOfMemory);
    };
    let Ok(fabric) = Arc::new(alloc, fabric) else {
        return Err(Refusal::OutOfMemory);
    };
    let Ok(members) = boxed(alloc, fabric, cells) else {
        return Err(Refusal::OutOfMemory);
    };
    hand_out(members, handles);
    Ok(())
}
