//! Callers: what each has seen of the history of the nodes, and its own calls.
ghost use Rattle.std.specs.Prelude.{◌≡◌, ◌<◌, [], ◌∷◌, ℕ, Some};
ghost use Rattle.ipcz_rule.specs.declared.history.CallerView.{CallerView};
ghost use Rattle.ipcz_rule.specs.Histories.{entry_of, noted, caller_view, without_caller};
ghost use Rattle.ipcz_rule.specs.Lasting.{own_of};
ghost use Rattle.ipcz_cell.specs.Callers.{IsWritten, caller_own, with_caller};
ghost use Rattle.ipcz_cell.specs.CellStates.{part_in};
ghost use Rattle.ipcz_cell.specs.Cells.{AreSound};
ghost use Rattle.ipcz_cell.specs.Outcomes.{IsPicked, noting};
ghost use Rattle.ipcz_cell.specs.Seats.{mine_of, SlotsStay};

use crate::cell::{NodeCell, touch};
use crate::fabric::{Fabric, FabricName};
use crate::plays::{Comes, Outcome, Returns, Together};
use crate::seat::TableSeat;
use atomic_table::Badge;
use ipcz_rule::View;
use ipcz_slots::Own;
use std::marker::{Brand, Model, PhantomData};
use std::mem;

/// Which call is written down.
pub trait CallName {
    ghost use Rattle.ipcz_rule.specs.declared.history.Call.{Call};

    ghost call: { Call };
}

impl CallName for Brand {
    ghost use Rattle.ipcz_rule.specs.declared.history.Call.TheVariants.{Retried};
    ghost use Rattle.ipcz_rule.specs.declared.retry.Retry.TheVariants.{NoneWaits};

    ghost call = { Retried NoneWaits };
}

/// A caller's seat at the table. To a contract it is the caller's number, what it has seen of the history of the nodes, and its own calls.
///
/// The history is all that was called through [`NodeCell::note`], at any node, by any caller, in one order.
#[derive(Drop)]
pub struct CallerSeat<F: FabricName> {
    badge: Badge<Own<View>>,
    of: PhantomData<F>,
}

impl<F: FabricName> Model for CallerSeat<F> {
    ghost use Rattle.std.specs.FinMap.{code};
    ghost use Rattle.std.specs.FinSet as sets;
    ghost use Rattle.std.specs.Coded.{codes};
    ghost use Rattle.ipcz_rule.specs.declared.history.CallerView.{CallerView};
    ghost use Rattle.ipcz_cell.specs.Callers.{IsCallerSeat, first_caller};

    ghost Value = { CallerView };

    ghost coded = { Prim.hlevel (codes, code, sets.code) };

    ghost view = { λ c. first_caller c.badge.views };

    ghost invariant = { λ c. IsCallerSeat F.table c.badge.table_id c.badge.views };
}

// A caller lends its view to a seat.
fn lend<F: FabricName>(seat: &mut TableSeat, fabric: &Fabric<F>, caller: Badge<Own<View>>)
    requires own { (seat.old.table_id ≡ F.table.id) × (caller.table_id ≡ F.table.id) }
    requires caller { (c : CallerView) × (caller.views ≡ caller_own c ∷ []) }
    ensures table { seat.new.table_id ≡ F.table.id }
    ensures done { (c : CallerView) × (caller.views ≡ caller_own c ∷ []) × (mine_of seat.new.me ≡ (with_caller c seat.old.me.0.view, seat.old.me.1)) }
    ensures slots { SlotsStay seat.old.me seat.new.me }
{
    fabric
        .table
        .shared
        .join_seat::<Together>(seat, caller.into_seat());
}

// Writes the call that C names into the history of a node, as a step on the node's inbox. X is what it tells.
fn write_here<F: FabricName, X: Outcome, C: CallName>(
    seat: &mut TableSeat,
    fabric: &Fabric<F>,
    node: u8,
)
    requires picked { IsPicked X.tells (noting C.call) }
    requires own { seat.old.table_id ≡ F.table.id }
    requires whole { seat.old.me.0.view.parts ≡ part_in seat.old.me.0.view ∷ [] }
    requires caller { (c : CallerView) × (seat.old.me.0.view.caller ≡ Some c) }
    requires node { node < F.table.count }
    ensures table { seat.new.table_id ≡ F.table.id }
    ensures done { (n : ℕ) × noting C.call (mine_of seat.old.me) n (mine_of seat.new.me) }
    ensures sound { AreSound F.table.count F.table.size seat.new.me.0.view }
    ensures slots { SlotsStay seat.old.me seat.new.me }
{
    touch::<F, X>(seat, fabric, node);
}

// The caller whose view a seat has gets a seat of its own again.
fn give_back<F: FabricName>(seat: &mut TableSeat, fabric: &Fabric<F>) -> Badge<Own<View>>
    requires own { seat.old.table_id ≡ F.table.id }
    requires whole { seat.old.me.0.view.parts ≡ part_in seat.old.me.0.view ∷ [] }
    ensures table { (seat.new.table_id ≡ F.table.id) × (result.table_id ≡ F.table.id) }
    ensures done { mine_of seat.new.me ≡ (without_caller seat.old.me.0.view, seat.old.me.1) }
    ensures given { result.views ≡ own_of (caller_view seat.old.me.0.view.caller) [] [] [] ∷ [] }
    ensures slots { SlotsStay seat.old.me seat.new.me }
{
    let caller = fabric.table.shared.split_seat::<Returns>(seat);
    caller.into_badge()
}

impl<F: FabricName> Fabric<F> {
    /// A caller that has called nothing yet. It takes no memory, and is never refused.
    ///
    /// So `let mut me = fabric.caller();` stands before the first `cell.note(fabric, &mut me)`.
    pub fn caller(&self) -> CallerSeat<F>
        ensures { (result.seen ≡ []) × (result.mine ≡ []) }
    {
        let (_, seat) = self.table.shared.load_new_seat::<Comes>(0);
        CallerSeat {
            badge: seat.into_badge(),
            of: PhantomData,
        }
    }
}

impl<F: FabricName> NodeCell<F> {
    /// Writes the call that C names into the history of the node, as a call of this caller. It does nothing else: whoever writes says what was called
    /// and what it answered, as a hub does behind each call of a cell. It takes no memory, and is never refused.
    ///
    /// Behind it the caller has seen all of the history up to this call, and of its own calls there are those that it has made.
    ///
    /// So `cell.note::<C>(fabric, &mut me)` stands behind the call whose answer `C` names.
    pub fn note<C: CallName>(&mut self, fabric: &Fabric<F>, me: &mut CallerSeat<F>)
        ensures part { self.new.part ≡ noted (entry_of self.old.part.node me.old.id C.call) self.old.part }
        ensures seen { self.new.seen ≡ self.old.seen }
        ensures me { IsWritten (entry_of self.old.part.node me.old.id C.call) self.new.part.history me.old me.new }
    {
        let node = self.state.number();
        lend(
            &mut self.seat,
            fabric,
            mem::replace(&mut me.badge, Badge::blank()),
        );
        write_here::<F, Brand, C>(&mut self.seat, fabric, node);
        me.badge = give_back(&mut self.seat, fabric);
    }
}
