//! The slots of a table's link words: taken, emptied and given back.
ghost use Rattle.std.specs.Prelude.{◌≡◌, ◌<◌, ◌%◌, ◌⊎◌, true, false, cond, [], ◌∷◌, IfSome, IfNone, is_some};
ghost use Rattle.ipcz_slots.specs.Slots.{has_number, without_number, let_go_word};
ghost use Rattle.ipcz_rule.specs.Batches.{BatchMine};
ghost use Rattle.ipcz_cell.specs.Claims.{IsNumberAt, LooksAtEach, FindsNone};
ghost use Rattle.ipcz_cell.specs.Seats.{mine_of, sizes_of, HasNoSlots, HasSlotFor};

use crate::fabric::{Fabric, FabricName};
use crate::making::BOTH_SIDES;
use crate::seat::TableSeat;
use atomic_table::Play;
use ipcz_node::Batch;
use ipcz_rule::View;
use ipcz_slots::{Own, next_number, slot_of};
use std::marker::PhantomData;

// A step that takes a slot which both sides have let go, if it finds it so.
struct Takes<F> {
    of: PhantomData<F>,
}

impl<F: FabricName> Play<Batch, Own<View>> for Takes<F> {
    ghost use Rattle.ipcz_cell.specs.Seats.{Taken};

    ghost then = { λ st m n m'. Taken F.table st.word m n m' };
}

// A step that empties the word of a slot that was taken.
struct Empties<F> {
    of: PhantomData<F>,
}

impl<F: FabricName> Play<Batch, Own<View>> for Empties<F> {
    ghost use Rattle.ipcz_cell.specs.Seats.{Emptied};

    ghost then = { λ st m n m'. Emptied st.word m m' };
}

// A step that gives a slot back.
struct Returns<F> {
    of: PhantomData<F>,
}

impl<F: FabricName> Play<Batch, Own<View>> for Returns<F> {
    ghost use Rattle.ipcz_cell.specs.Seats.{Returned};

    ghost then = { λ st m n m'. Returned F.table st.word m m' };
}

/// Where the word of a slot's let-go bits stands: behind those of the links, of the counts and of the mailboxes.
pub(crate) fn let_go_word<F: FabricName>(fabric: &Fabric<F>, slot: u32) -> usize
    requires { slot < F.table.slots }
    ensures word { result ≡ let_go_word (sizes_of F.table) slot }
    ensures inside { result < F.table.id.words }
{
    let nodes = fabric.nodes as usize;
    fabric.slots as usize + (1 + nodes + nodes * nodes) + slot as usize
}

/// The slot of a number.
pub(crate) fn number_slot<F: FabricName>(fabric: &Fabric<F>, number: u64) -> u32
    requires { F.table.reuses ≡ true }
    ensures slot { result ≡ number % F.table.slots }
    ensures inside { result < F.table.slots }
{
    slot_of(number, u64::from(fabric.slots)) as u32
}

// Takes a slot that both sides have let go, and tells whether it was one; if not the seat has looked at it.
fn take_step<F: FabricName>(seat: &mut TableSeat, fabric: &Fabric<F>, slot: u32) -> bool
    requires own { seat.old.table_id ≡ F.table.id }
    requires reuses { F.table.reuses ≡ true }
    requires inside { slot < F.table.slots }
    ensures table { (seat.new.table_id ≡ seat.old.table_id) × (seat.new.id ≡ seat.old.id) }
    ensures me { ◌≡◌ {A = BatchMine} (mine_of seat.new.me) (mine_of seat.old.me) }
    ensures dirty { seat.new.me.0.dirty ≡ cond result (slot ∷ seat.old.me.0.dirty) seat.old.me.0.dirty }
    ensures free { seat.new.me.0.free ≡ seat.old.me.0.free }
    ensures looked { seat.new.me.0.looked ≡ cond result seat.old.me.0.looked (slot ∷ seat.old.me.0.looked) }
{
    let word = let_go_word(fabric, slot);
    let found = fabric
        .table
        .shared
        .compare_exchange::<Takes<F>>(seat, word, BOTH_SIDES, 0);
    found == BOTH_SIDES
}

// Empties the word of a slot that was taken.
fn empty_step<F: FabricName>(seat: &mut TableSeat, fabric: &Fabric<F>, slot: u32)
    requires own { seat.old.table_id ≡ F.table.id }
    requires reuses { F.table.reuses ≡ true }
    requires inside { slot < F.table.slots }
    requires taken { has_number seat.old.me.0.dirty slot ≡ true }
    ensures table { (seat.new.table_id ≡ seat.old.table_id) × (seat.new.id ≡ seat.old.id) }
    ensures me { ◌≡◌ {A = BatchMine} (mine_of seat.new.me) (mine_of seat.old.me) }
    ensures dirty { seat.new.me.0.dirty ≡ without_number seat.old.me.0.dirty slot }
    ensures free { seat.new.me.0.free ≡ slot ∷ seat.old.me.0.free }
    ensures looked { seat.new.me.0.looked ≡ seat.old.me.0.looked }
{
    let _slots = fabric.slots;
    fabric
        .table
        .shared
        .store::<Empties<F>>(seat, slot as usize, 0);
}

// Gives a slot back that is the seat's, to whoever wants it.
pub(crate) fn return_step<F: FabricName>(seat: &mut TableSeat, fabric: &Fabric<F>, slot: u32)
    requires own { seat.old.table_id ≡ F.table.id }
    requires reuses { F.table.reuses ≡ true }
    requires inside { slot < F.table.slots }
    requires had { (has_number seat.old.me.0.dirty slot ≡ true) ⊎ (has_number seat.old.me.0.free slot ≡ true) }
    ensures table { (seat.new.table_id ≡ seat.old.table_id) × (seat.new.id ≡ seat.old.id) }
    ensures me { ◌≡◌ {A = BatchMine} (mine_of seat.new.me) (mine_of seat.old.me) }
    ensures dirty { seat.new.me.0.dirty ≡ without_number seat.old.me.0.dirty slot }
    ensures free { seat.new.me.0.free ≡ without_number seat.old.me.0.free slot }
    ensures looked { seat.new.me.0.looked ≡ seat.old.me.0.looked }
{
    let word = let_go_word(fabric, slot);
    fabric
        .table
        .shared
        .store::<Returns<F>>(seat, word, BOTH_SIDES);
}

// A slot that both sides have let go, looked for from one on, all round; it is emptied, and the seat's. If there is none each was looked at.
fn find_slot<F: FabricName>(seat: &mut TableSeat, fabric: &Fabric<F>, first: u32) -> Option<u32>
    requires own { seat.old.table_id ≡ F.table.id }
    requires reuses { F.table.reuses ≡ true }
    requires inside { first < F.table.slots }
    requires none { HasNoSlots seat.old.me.0 }
    ensures table { (seat.new.table_id ≡ seat.old.table_id) × (seat.new.id ≡ seat.old.id) }
    ensures me { ◌≡◌ {A = BatchMine} (mine_of seat.new.me) (mine_of seat.old.me) }
    ensures none { IfNone result (HasNoSlots seat.new.me.0) }
    ensures looked { IfNone result (LooksAtEach F.table seat.old.me.0.looked seat.new.me.0.looked) }
    ensures free { IfSome result (λ slot. (slot < F.table.slots) × (seat.new.me.0.dirty ≡ []) × (seat.new.me.0.free ≡ slot ∷ [])) }
{
    let mut slot = first;
    for tried in 0..fabric.slots {
        let _tried = tried;
        if take_step(seat, fabric, slot) {
            empty_step(seat, fabric, slot);
            return Some(slot);
        }
        slot = if slot + 1 < fabric.slots { slot + 1 } else { 0 };
    }
    None
}

/// The number that a claim is for at a claim count; if slots are used again its slot is the seat's then. There is none if no slot is to be had.
pub(crate) fn number_at<F: FabricName>(
    seat: &mut TableSeat,
    fabric: &Fabric<F>,
    count: u64,
) -> Option<u64>
    requires own { seat.old.table_id ≡ F.table.id }
    requires few { count < F.table.size }
    requires none { HasNoSlots seat.old.me.0 }
    ensures table { (seat.new.table_id ≡ seat.old.table_id) × (seat.new.id ≡ seat.old.id) }
    ensures me { ◌≡◌ {A = BatchMine} (mine_of seat.new.me) (mine_of seat.old.me) }
    ensures number { IfSome result (λ n. IsNumberAt F.table count n × HasSlotFor F.table n seat.new.me.0) }
    ensures none { IfNone result (HasNoSlots seat.new.me.0) }
    ensures why { IfNone result (FindsNone F.table count seat.old.me.0.looked seat.new.me.0.looked) }
    ensures order { F.table.reuses ≡ false → is_some result ≡ true }
{
    if !fabric.reuses {
        return Some(count);
    }
    let slots = u64::from(fabric.slots);
    let slot = find_slot(seat, fabric, slot_of(count, slots) as u32)?;
    let number = next_number(count, u64::from(slot), slots, fabric.words);
    if number.is_none() {
        return_step(seat, fabric, slot);
    }
    number
}

/// Gives the slot of a number back that was to be claimed.
pub(crate) fn leave_slot<F: FabricName>(seat: &mut TableSeat, fabric: &Fabric<F>, number: u64)
    requires own { seat.old.table_id ≡ F.table.id }
    requires below { number < F.table.size }
    requires slot { HasSlotFor F.table number seat.old.me.0 }
    ensures table { (seat.new.table_id ≡ seat.old.table_id) × (seat.new.id ≡ seat.old.id) }
    ensures me { ◌≡◌ {A = BatchMine} (mine_of seat.new.me) (mine_of seat.old.me) }
    ensures none { HasNoSlots seat.new.me.0 }
{
    if fabric.reuses {
        return_step(seat, fabric, number_slot(fabric, number));
    }
}
