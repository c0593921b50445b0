//! No two cells of a table are of one node.
ghost use Rattle.std.specs.Prelude.{◌≡◌, ◌<◌, [], ◌∷◌};
ghost use Rattle.ipcz_cell.specs.CellStates.{part_in};
ghost use Rattle.ipcz_cell.specs.Ending.{outside};

use crate::cell::NodeCell;
use crate::ending::Rest;
use crate::fabric::{Fabric, FabricName};
use crate::plays::{Twins, load_step};
use crate::seat::TableSeat;
use std::marker::Brand;

// Makes two seats one that have a part of one node each.
fn join_twins<F: FabricName>(seat: &mut TableSeat, fabric: &Fabric<F>, other: TableSeat)
    requires own { (seat.old.table_id ≡ F.table.id) × (other.table_id ≡ F.table.id) }
    requires slots { other.me.1 ≡ [] }
    requires parts { (seat.old.me.0.view.parts ≡ part_in seat.old.me.0.view ∷ []) × (other.me.0.view.parts ≡ part_in other.me.0.view ∷ []) }
    requires twins { (part_in seat.old.me.0.view).node ≡ (part_in other.me.0.view).node }
    ensures table { seat.new.table_id ≡ F.table.id }
    ensures done { seat.new.me.0.view ≡ outside F.table.count seat.old.me.0.view }
{
    fabric.table.shared.join_seat::<Twins<F>>(seat, other);
}

// Looks at the table with a seat that has one part: its node is one of the table's.
fn look<F: FabricName>(seat: &mut TableSeat, fabric: &Fabric<F>)
    requires own { seat.old.table_id ≡ F.table.id }
    requires whole { seat.old.me.0.view.parts ≡ part_in seat.old.me.0.view ∷ [] }
    ensures { (part_in seat.old.me.0.view).node < F.table.count }
{
    load_step::<F, Brand>(seat, fabric, 0);
}

impl<F: FabricName> Fabric<F> {
    /// Tells that no two cells of the table are of one node: whoever had two such cells could prove anything, so a call of this never comes about.
    /// It stands where cells are put in order, and a place is found taken.
    ///
    /// It takes no memory, and is never refused.
    ///
    /// So `fabric.never_twins(cell, other)` stands where a proof wants that `cell` and `other` are of two nodes.
    pub fn never_twins(&self, cell: NodeCell<F>, other: NodeCell<F>)
        requires twins { cell.part.node ≡ other.part.node }
        ensures never { ⊥ }
    {
        let Rest { mut seat, .. } = cell.rest(self);
        let Rest { seat: other, .. } = other.rest(self);
        join_twins(&mut seat, self, other);
        look(&mut seat, self);
    }
}
