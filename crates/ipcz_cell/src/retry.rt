//! Proxies that found no slot for their bypass, and ask again.
ghost use Rattle.std.specs.Prelude.{◌≡◌, ◌<◌, [], ◌∷◌, true, is_some};
ghost use Rattle.ipcz_node.specs.Node.{router_in};
ghost use Rattle.ipcz_rule.specs.Steps.{wet_part};
ghost use Rattle.ipcz_cell.specs.CellStates.{change_part, part_in};
ghost use Rattle.ipcz_cell.specs.Cells.{AreSound};
ghost use Rattle.ipcz_cell.specs.Outcomes.{IsPicked, touched};
ghost use Rattle.ipcz_cell.specs.Retries.{FindsNumber, IsFirstDry, Retries};
ghost use Rattle.ipcz_cell.specs.Seats.{mine_of, SlotsStay};

use crate::cell::{NodeCell, touch};
use crate::fabric::{Fabric, FabricName};
use crate::plays::Outcome;
use crate::seat::TableSeat;
use crate::slots::{leave_slot, number_at};
use ipcz_base::End;
use ipcz_rule::Retry;
use std::marker::Brand;

// A router may claim again, as a step on the node's inbox. X is what it tells.
fn wet_here<F: FabricName, X: Outcome>(
    seat: &mut TableSeat,
    fabric: &Fabric<F>,
    node: u8,
    serial: u64,
)
    requires picked { IsPicked X.tells (touched (wet_part serial)) }
    requires own { seat.old.table_id ≡ F.table.id }
    requires whole { seat.old.me.0.view.parts ≡ part_in seat.old.me.0.view ∷ [] }
    requires node { node < F.table.count }
    requires there { is_some (router_in (part_in seat.old.me.0.view).state serial) ≡ true }
    ensures table { seat.new.table_id ≡ seat.old.table_id }
    ensures done { (mine_of seat.new.me) ≡ (change_part (wet_part serial) seat.old.me.0.view, seat.old.me.1) }
    ensures sound { AreSound F.table.count F.table.size seat.new.me.0.view }
    ensures slots { SlotsStay seat.old.me seat.new.me }
{
    let _serial = serial;
    touch::<F, X>(seat, fabric, node);
}

impl<F: FabricName> NodeCell<F> {
    // The router that waits first for a slot: its serial and its end.
    fn first_waiting(&mut self) -> Option<(u64, End)>
        ensures waits { IsFirstDry self.old.part.state result }
        ensures stays { self.new ≡ self.old }
    {
        self.state.first_dry()
    }

    // Whether a claim would find a number now, for which a slot is taken and given back.
    fn finds_number(&mut self, fabric: &Fabric<F>) -> bool
        ensures { FindsNumber F.table self.old result self.new }
    {
        let count = self.load_count(fabric);
        if count == fabric.words {
            return false;
        }
        let Some(number) = number_at(&mut self.seat, fabric, count) else {
            return false;
        };
        leave_slot(&mut self.seat, fabric, number);
        true
    }

    // Lets a router claim again.
    fn rewet(&mut self, fabric: &Fabric<F>, serial: u64)
        requires { is_some (router_in self.old.part.state serial) ≡ true }
        ensures part { self.new.part ≡ wet_part serial self.old.part }
        ensures seen { self.new.seen ≡ self.old.seen }
        ensures looked { self.new.looked ≡ self.old.looked }
    {
        let node = self.state.number();
        wet_here::<F, Brand>(&mut self.seat, fabric, node, serial);
        self.state.rewet(serial);
    }

    /// Lets a proxy ask again for the slot of its bypass, if it was told that there is none and one is to be had now: the proxy of the lowest
    /// serial. A proxy that was told so doesn't ask again by itself, and stays where it is, in the way of its pair's parcels; who owns the cell
    /// of a table whose slots are used again calls this now and then, until it answers [`Retry::NoneWaits`].
    ///
    /// Where no router waits it looks at nothing, as the node knows. Else it looks at the node's routers in their order, at the claim count and
    /// at each slot, as far as it must. It takes no memory, and is never refused.
    ///
    /// It answers `NoneWaits` if none of the node's routers was told that there is no slot; `NoSlot` if each slot was looked at and none was to
    /// be had, or if no number is left for one, or for any; and else `Again`: the claim that the router tries at the node's next turns may find
    /// that another node was there before it.
    ///
    /// In a table of `start` each answer is `NoneWaits`, or, where all link words were claimed and a proxy was told so, `NoSlot`.
    ///
    /// In a table at its start `cell.retry(&fabric)` is `Retry::NoneWaits`.
    pub fn retry(&mut self, fabric: &Fabric<F>) -> Retry
        ensures { Retries F.table self.old result self.new }
    {
        let Some((serial, _)) = self.first_waiting() else {
            return Retry::NoneWaits;
        };
        if self.finds_number(fabric) {
            self.rewet(fabric, serial);
            return Retry::Again(serial);
        }
        Retry::NoSlot
    }
}
