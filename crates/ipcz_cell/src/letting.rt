//! What an act gives up of the link words, and the step by which it does.
ghost use Rattle.std.specs.Prelude.{◌≡◌, ◌<◌, ℕ, [], ◌∷◌, true, false, None};
ghost use Rattle.ipcz_router.specs.Router.{Router as RouterRecord};
ghost use Rattle.ipcz_router.specs.LettingGo.{let_go_end};
ghost use Rattle.ipcz_node.specs.Acts.{act_lacks_serials};
ghost use Rattle.ipcz_node.specs.RoomyNodes.{IsPossibleAct};
ghost use Rattle.ipcz_rule.specs.Steps.{act_part, is_touch_act};
ghost use Rattle.ipcz_cell.specs.CellStates.{part_in, change_part};
ghost use Rattle.ipcz_cell.specs.Cells.{AreSound};
ghost use Rattle.ipcz_cell.specs.GivenUp.{RouterGives, GivesUp};
ghost use Rattle.ipcz_cell.specs.Lettings.{bit_of_side, MayLetGo, MayLeave};
ghost use Rattle.ipcz_cell.specs.Outcomes.{IsPicked, touched};
ghost use Rattle.ipcz_cell.specs.Seats.{mine_of, HasNoSlots, SlotsStay};

use crate::cell::touch;
use crate::fabric::{Fabric, FabricName};
use crate::plays::{By, Outcome};
use crate::seat::TableSeat;
use crate::slots::{let_go_word, number_slot, return_step};
use atomic_table::Play;
use ipcz_base::Side;
use ipcz_node::{Act, Batch, NodeState};
use ipcz_router::Router;
use ipcz_router::act::{Answer, RouterAct};
use ipcz_rule::View;
use ipcz_slots::Own;
use std::marker::{Brand, PhantomData};

/// What an act gives up: nothing; the end of a word; or such an end, and a word that nobody but its router had.
#[derive(Clone, Copy, Debug, PartialEq, Eq)]
pub(crate) enum GivenUp {
    Nothing,
    End(u64, Side),
    EndAndSpare(u64, Side, u64),
}

// Whether an act may give something up.
#[inline(always)]
#[tactic(auto, unfolding(ipcz_router::specs::LettingGo::let_go_end, ipcz_router::specs::ActEffects::leaves_by))]
fn may_give_up(act: RouterAct) -> bool
    ensures { result ≡ false → (r : RouterRecord) → let_go_end r act ≡ None }
{
    match act {
        RouterAct::FinishOut | RouterAct::Discard | RouterAct::Leave | RouterAct::Retire => true,
        _ => false,
    }
}

// What a router gives up by an act.
fn given_of(router: &Router, act: RouterAct) -> GivenUp
    ensures { RouterGives router.now.router act result }
{
    let Some((word, side)) = router.let_go_end(act) else {
        return GivenUp::Nothing;
    };
    match router.let_go_spare(act) {
        Some(spare) => GivenUp::EndAndSpare(word, side, spare),
        None => GivenUp::End(word, side),
    }
}

/// What an act of a node gives up, as the node stands before it. Most acts give nothing up, and aren't asked for more than which they are.
#[inline(always)]
pub(crate) fn given_up<F: FabricName>(state: &NodeState, fabric: &Fabric<F>, act: Act) -> GivenUp
    ensures { GivesUp F.table.reuses state.now.node act result }
{
    let Act::Router(serial, deed) = act else {
        return GivenUp::Nothing;
    };
    if !may_give_up(deed) || !fabric.reuses {
        return GivenUp::Nothing;
    }
    match state.find_router(serial) {
        Some(router) => given_of(router, deed),
        None => GivenUp::Nothing,
    }
}

/// Which slot a step gives its seat.
pub(crate) trait SlotName {
    ghost use Rattle.std.specs.Prelude.{ℕ};

    ghost slot: { ℕ };
}

impl SlotName for Brand {
    ghost slot = { 0 };
}

// A step that tells what X says, and that the nodes of the seat are sound; the slot that S names is the seat's then, to be emptied.
struct Leaves<F, X, S> {
    of: PhantomData<F>,
    by: PhantomData<X>,
    slot: PhantomData<S>,
}

impl<F: FabricName, X: Outcome, S: SlotName> Play<Batch, Own<View>> for Leaves<F, X, S> {
    ghost use Rattle.std.specs.Prelude.{◌≡◌, ◌∷◌};
    ghost use Rattle.ipcz_cell.specs.Cells.{AreSound};
    ghost use Rattle.ipcz_cell.specs.Seats.{mine_of};

    ghost then = { λ st m n m'. X.tells (mine_of m) n (mine_of m') × AreSound F.table.count F.table.size m'.0.view ×
        (m'.0.dirty ≡ S.slot ∷ m.0.dirty) × (m'.0.free ≡ m.0.free) × (m'.0.looked ≡ m.0.looked) };
}

// The bit of a side in a let-go word.
fn side_bit(side: Side) -> u64
    ensures { result ≡ bit_of_side side }
{
    match side {
        Side::A => 1,
        Side::B => 2,
    }
}

// Sets the bit of a side of the let-go word of a number's slot. X is what it tells.
fn let_go_step<F: FabricName, X: Outcome>(
    seat: &mut TableSeat,
    fabric: &Fabric<F>,
    number: u64,
    side: Side,
)
    requires own { seat.old.table_id ≡ F.table.id }
    requires reuses { F.table.reuses ≡ true }
    requires may { MayLetGo F.table seat.old.id seat.old.me number side (X.tells (mine_of seat.old.me)) }
    ensures table { seat.new.table_id ≡ seat.old.table_id }
    ensures done { (n : ℕ) × X.tells (mine_of seat.old.me) n (mine_of seat.new.me) }
    ensures sound { AreSound F.table.count F.table.size seat.new.me.0.view }
    ensures slots { SlotsStay seat.old.me seat.new.me }
{
    let word = let_go_word(fabric, number_slot(fabric, number));
    fabric
        .table
        .shared
        .fetch_or::<By<F, X>>(seat, word, side_bit(side));
}

// The same of a proxy that leaves with a word which it claimed for its bypass: the slot of that word, which S names, is the seat's then.
fn leave_step<F: FabricName, X: Outcome, S: SlotName>(
    seat: &mut TableSeat,
    fabric: &Fabric<F>,
    number: u64,
    side: Side,
    slot: u32,
)
    requires named { S.slot ≡ slot }
    requires own { seat.old.table_id ≡ F.table.id }
    requires reuses { F.table.reuses ≡ true }
    requires may { MayLeave F.table seat.old.id seat.old.me number side slot (X.tells (mine_of seat.old.me)) }
    ensures table { seat.new.table_id ≡ seat.old.table_id }
    ensures done { (n : ℕ) × X.tells (mine_of seat.old.me) n (mine_of seat.new.me) }
    ensures slot { seat.new.me.0.dirty ≡ slot ∷ seat.old.me.0.dirty }
    ensures free { seat.new.me.0.free ≡ seat.old.me.0.free }
    ensures looked { seat.new.me.0.looked ≡ seat.old.me.0.looked }
    ensures sound { AreSound F.table.count F.table.size seat.new.me.0.view }
{
    let _slot = slot;
    let word = let_go_word(fabric, number_slot(fabric, number));
    fabric
        .table
        .shared
        .fetch_or::<Leaves<F, X, S>>(seat, word, side_bit(side));
}

/// The step of an act that touches no link word: on the node's inbox, or, if it gives an end of a link word up, on the let-go word of
/// that word's slot. A slot that only the act's router had is given back then. X is what the step tells.
#[inline(always)]
pub(crate) fn act_step<F: FabricName, X: Outcome>(
    seat: &mut TableSeat,
    fabric: &Fabric<F>,
    node: u8,
    act: Act,
    given: GivenUp,
)
    requires picked { IsPicked X.tells (touched (act_part act Answer.Plain)) }
    requires own { seat.old.table_id ≡ F.table.id }
    requires whole { seat.old.me.0.view.parts ≡ part_in seat.old.me.0.view ∷ [] }
    requires node { node < F.table.count }
    requires touch { is_touch_act act ≡ true }
    requires possible { IsPossibleAct (part_in seat.old.me.0.view).state act }
    requires serials { act_lacks_serials (part_in seat.old.me.0.view).state act ≡ false }
    requires given { GivesUp F.table.reuses (part_in seat.old.me.0.view).state act given }
    requires none { HasNoSlots seat.old.me.0 }
    ensures table { seat.new.table_id ≡ seat.old.table_id }
    ensures done { (mine_of seat.new.me) ≡ (change_part (act_part act Answer.Plain) seat.old.me.0.view, seat.old.me.1) }
    ensures sound { AreSound F.table.count F.table.size seat.new.me.0.view }
    ensures slots { SlotsStay seat.old.me seat.new.me }
{
    let _words = fabric.words;
    match given {
        GivenUp::Nothing => {
            touch::<F, X>(seat, fabric, node);
        }
        GivenUp::End(number, side) => let_go_step::<F, X>(seat, fabric, number, side),
        GivenUp::EndAndSpare(number, side, spare) => {
            let slot = number_slot(fabric, spare);
            leave_step::<F, X, Brand>(seat, fabric, number, side, slot);
            return_step(seat, fabric, slot);
        }
    }
}
