//! The single steps on the table, each with what it tells of its seat. X says what that is, and each call picks it. A clause speaks of the table
//! that is folded, in which each number has a word of its own: a step on a number's word is one on its slot.
ghost use Rattle.std.specs.Prelude.{◌≡◌, ◌≤◌, ◌<◌, ◌+◌, ◌*◌, ◌%◌, ◌==◌, eqb, MatchBool};
ghost use Rattle.std.specs.Prelude.{bit_and, bit_or};
ghost use prog.Atomic.{either};
ghost use Rattle.ipcz_cell.specs.Cells.{AreSound};
ghost use Rattle.ipcz_cell.specs.Seats.{mine_of, Keeps, IsSlotted, MayClaim, HasNoSlots, SlotsStay};

use crate::fabric::{Fabric, FabricName};
use crate::seat::TableSeat;
use atomic_table::{Join, Play, Split};
use ipcz_node::Batch;
use ipcz_rule::View;
use ipcz_slots::{Own, slot_of};
use std::marker::{Brand, PhantomData};

/// What a step tells of its seat.
pub(crate) trait Outcome {
    ghost use Rattle.ipcz_cell.specs.Outcomes.{Tells};

    ghost tells: { Tells };
}

impl Outcome for Brand {
    ghost use Rattle.ipcz_cell.specs.Outcomes.{loaded};

    ghost tells = { loaded 0 };
}

/// A step that tells what X says, and that the nodes of the seat are sound. The seat's slots stay.
pub(crate) struct By<F, X> {
    of: PhantomData<F>,
    by: PhantomData<X>,
}

impl<F: FabricName, X: Outcome> Play<Batch, Own<View>> for By<F, X> {
    ghost use Rattle.std.specs.Prelude.{◌≡◌};
    ghost use Rattle.ipcz_cell.specs.Cells.{AreSound};
    ghost use Rattle.ipcz_cell.specs.Seats.{mine_of};

    ghost then = { λ st m n m'. X.tells (mine_of m) n (mine_of m') × AreSound F.table.count F.table.size m'.0.view ×
        (m'.0.dirty ≡ m.0.dirty) × (m'.0.free ≡ m.0.free) × (m'.0.looked ≡ m.0.looked) };
}

/// The slot of a number's link word.
pub(crate) fn link_word<F: FabricName>(fabric: &Fabric<F>, number: u64) -> usize
    requires { number < F.table.size }
    ensures slot { result ≡ number % F.table.slots }
    ensures inside { result < F.table.slots }
{
    slot_of(number, u64::from(fabric.slots)) as usize
}

/// Loads the word of a number.
pub(crate) fn load_link<F: FabricName, X: Outcome>(
    seat: &mut TableSeat,
    fabric: &Fabric<F>,
    number: u64,
) -> u64
    requires own { seat.old.table_id ≡ F.table.id }
    requires inside { number < F.table.size }
    requires slotted { IsSlotted F.table seat.old.id seat.old.me.0.view number }
    requires may { Keeps F.table.reuses F.table.count F.table.size F.table.id.slots seat.old.id (mine_of seat.old.me) number (λ n. n) (X.tells (mine_of seat.old.me)) }
    ensures table { seat.new.table_id ≡ seat.old.table_id }
    ensures done { X.tells (mine_of seat.old.me) result (mine_of seat.new.me) }
    ensures sound { AreSound F.table.count F.table.size seat.new.me.0.view }
    ensures slots { SlotsStay seat.old.me seat.new.me }
{
    let word = link_word(fabric, number);
    fabric.table.shared.load::<By<F, X>>(seat, word)
}

/// Exchanges a number in the word of a number for another, and answers what was found.
pub(crate) fn exchange_link<F: FabricName, X: Outcome>(
    seat: &mut TableSeat,
    fabric: &Fabric<F>,
    number: u64,
    old: u64,
    new: u64,
) -> u64
    requires own { seat.old.table_id ≡ F.table.id }
    requires inside { number < F.table.size }
    requires slotted { IsSlotted F.table seat.old.id seat.old.me.0.view number }
    requires may { Keeps F.table.reuses F.table.count F.table.size F.table.id.slots seat.old.id (mine_of seat.old.me) number (λ n. either (n == old) new n)
        (X.tells (mine_of seat.old.me)) }
    ensures table { seat.new.table_id ≡ seat.old.table_id }
    ensures done { X.tells (mine_of seat.old.me) result (mine_of seat.new.me) }
    ensures sound { AreSound F.table.count F.table.size seat.new.me.0.view }
    ensures slots { SlotsStay seat.old.me seat.new.me }
{
    let word = link_word(fabric, number);
    fabric
        .table
        .shared
        .compare_exchange::<By<F, X>>(seat, word, old, new)
}

/// Sets bits of the word of a number.
pub(crate) fn set_link<F: FabricName, X: Outcome>(
    seat: &mut TableSeat,
    fabric: &Fabric<F>,
    number: u64,
    bits: u64,
) -> u64
    requires own { seat.old.table_id ≡ F.table.id }
    requires inside { number < F.table.size }
    requires slotted { IsSlotted F.table seat.old.id seat.old.me.0.view number }
    requires may { Keeps F.table.reuses F.table.count F.table.size F.table.id.slots seat.old.id (mine_of seat.old.me) number (λ n. bit_or n bits) (X.tells (mine_of seat.old.me)) }
    ensures table { seat.new.table_id ≡ seat.old.table_id }
    ensures done { X.tells (mine_of seat.old.me) result (mine_of seat.new.me) }
    ensures sound { AreSound F.table.count F.table.size seat.new.me.0.view }
    ensures slots { SlotsStay seat.old.me seat.new.me }
{
    let word = link_word(fabric, number);
    fabric.table.shared.fetch_or::<By<F, X>>(seat, word, bits)
}

/// Keeps bits of the word of a number.
pub(crate) fn keep_link<F: FabricName, X: Outcome>(
    seat: &mut TableSeat,
    fabric: &Fabric<F>,
    number: u64,
    bits: u64,
) -> u64
    requires own { seat.old.table_id ≡ F.table.id }
    requires inside { number < F.table.size }
    requires slotted { IsSlotted F.table seat.old.id seat.old.me.0.view number }
    requires may { Keeps F.table.reuses F.table.count F.table.size F.table.id.slots seat.old.id (mine_of seat.old.me) number (λ n. bit_and n bits) (X.tells (mine_of seat.old.me)) }
    ensures table { seat.new.table_id ≡ seat.old.table_id }
    ensures done { X.tells (mine_of seat.old.me) result (mine_of seat.new.me) }
    ensures sound { AreSound F.table.count F.table.size seat.new.me.0.view }
    ensures slots { SlotsStay seat.old.me seat.new.me }
{
    let word = link_word(fabric, number);
    fabric.table.shared.fetch_and::<By<F, X>>(seat, word, bits)
}

/// Loads a word behind the link words: the claim count is at 0, then come the inboxes, and then the mailboxes.
pub(crate) fn load_step<F: FabricName, X: Outcome>(
    seat: &mut TableSeat,
    fabric: &Fabric<F>,
    place: usize,
) -> u64
    requires own { seat.old.table_id ≡ F.table.id }
    requires inside { place < 1 + F.table.count + F.table.count * F.table.count }
    requires may { Keeps F.table.reuses F.table.count F.table.size F.table.id.slots seat.old.id (mine_of seat.old.me) (F.table.size + place) (λ n. n)
        (X.tells (mine_of seat.old.me)) }
    ensures table { seat.new.table_id ≡ seat.old.table_id }
    ensures done { X.tells (mine_of seat.old.me) result (mine_of seat.new.me) }
    ensures sound { AreSound F.table.count F.table.size seat.new.me.0.view }
    ensures slots { SlotsStay seat.old.me seat.new.me }
{
    load_behind::<F, X>(seat, fabric, fabric.slots, place)
}

/// The same, by how many slots there are, so that who loads several reads it once.
pub(crate) fn load_behind<F: FabricName, X: Outcome>(
    seat: &mut TableSeat,
    fabric: &Fabric<F>,
    slots: u32,
    place: usize,
) -> u64
    requires own { seat.old.table_id ≡ F.table.id }
    requires slots { slots ≡ F.table.slots }
    requires inside { place < 1 + F.table.count + F.table.count * F.table.count }
    requires may { Keeps F.table.reuses F.table.count F.table.size F.table.id.slots seat.old.id (mine_of seat.old.me) (F.table.size + place) (λ n. n)
        (X.tells (mine_of seat.old.me)) }
    ensures table { seat.new.table_id ≡ seat.old.table_id }
    ensures done { X.tells (mine_of seat.old.me) result (mine_of seat.new.me) }
    ensures sound { AreSound F.table.count F.table.size seat.new.me.0.view }
    ensures slots { SlotsStay seat.old.me seat.new.me }
{
    fabric
        .table
        .shared
        .load::<By<F, X>>(seat, slots as usize + place)
}

/// Stores a number in a word behind the claim count.
pub(crate) fn store_step<F: FabricName, X: Outcome>(
    seat: &mut TableSeat,
    fabric: &Fabric<F>,
    place: usize,
    new: u64,
)
    requires own { seat.old.table_id ≡ F.table.id }
    requires behind { 1 ≤ place }
    requires inside { place < 1 + F.table.count + F.table.count * F.table.count }
    requires may { Keeps F.table.reuses F.table.count F.table.size F.table.id.slots seat.old.id (mine_of seat.old.me) (F.table.size + place) (λ _. new)
        (λ _. X.tells (mine_of seat.old.me) new) }
    ensures table { seat.new.table_id ≡ seat.old.table_id }
    ensures done { X.tells (mine_of seat.old.me) new (mine_of seat.new.me) }
    ensures sound { AreSound F.table.count F.table.size seat.new.me.0.view }
    ensures slots { SlotsStay seat.old.me seat.new.me }
{
    let word = fabric.slots as usize + place;
    fabric.table.shared.store::<By<F, X>>(seat, word, new);
}

/// Sets bits of a word behind the claim count.
pub(crate) fn set_step<F: FabricName, X: Outcome>(
    seat: &mut TableSeat,
    fabric: &Fabric<F>,
    place: usize,
    bits: u64,
) -> u64
    requires own { seat.old.table_id ≡ F.table.id }
    requires behind { 1 ≤ place }
    requires inside { place < 1 + F.table.count + F.table.count * F.table.count }
    requires may { Keeps F.table.reuses F.table.count F.table.size F.table.id.slots seat.old.id (mine_of seat.old.me) (F.table.size + place)
        (λ n. bit_or n bits) (X.tells (mine_of seat.old.me)) }
    ensures table { seat.new.table_id ≡ seat.old.table_id }
    ensures done { X.tells (mine_of seat.old.me) result (mine_of seat.new.me) }
    ensures slots { SlotsStay seat.old.me seat.new.me }
{
    let word = fabric.slots as usize + place;
    fabric.table.shared.fetch_or::<By<F, X>>(seat, word, bits)
}

/// Keeps bits of a word behind the claim count.
pub(crate) fn keep_step<F: FabricName, X: Outcome>(
    seat: &mut TableSeat,
    fabric: &Fabric<F>,
    place: usize,
    bits: u64,
) -> u64
    requires own { seat.old.table_id ≡ F.table.id }
    requires behind { 1 ≤ place }
    requires inside { place < 1 + F.table.count + F.table.count * F.table.count }
    requires may { Keeps F.table.reuses F.table.count F.table.size F.table.id.slots seat.old.id (mine_of seat.old.me) (F.table.size + place)
        (λ n. bit_and n bits) (X.tells (mine_of seat.old.me)) }
    ensures table { seat.new.table_id ≡ seat.old.table_id }
    ensures done { X.tells (mine_of seat.old.me) result (mine_of seat.new.me) }
    ensures slots { SlotsStay seat.old.me seat.new.me }
{
    let word = fabric.slots as usize + place;
    fabric.table.shared.fetch_and::<By<F, X>>(seat, word, bits)
}

/// Exchanges a number of a word behind the claim count for another, and answers what was found.
pub(crate) fn exchange_step<F: FabricName, X: Outcome>(
    seat: &mut TableSeat,
    fabric: &Fabric<F>,
    place: usize,
    old: u64,
    new: u64,
) -> u64
    requires own { seat.old.table_id ≡ F.table.id }
    requires behind { 1 ≤ place }
    requires inside { place < 1 + F.table.count + F.table.count * F.table.count }
    requires may { Keeps F.table.reuses F.table.count F.table.size F.table.id.slots seat.old.id (mine_of seat.old.me) (F.table.size + place)
        (λ n. either (n == old) new n) (X.tells (mine_of seat.old.me)) }
    ensures table { seat.new.table_id ≡ seat.old.table_id }
    ensures done { X.tells (mine_of seat.old.me) result (mine_of seat.new.me) }
    ensures sound { AreSound F.table.count F.table.size seat.new.me.0.view }
    ensures slots { SlotsStay seat.old.me seat.new.me }
{
    let word = fabric.slots as usize + place;
    fabric
        .table
        .shared
        .compare_exchange::<By<F, X>>(seat, word, old, new)
}

/// A step on the claim count that tells what X says, and that the nodes of the seat are sound. If the count was found the seat has no slot then.
pub(crate) struct Counts<F, X> {
    of: PhantomData<F>,
    by: PhantomData<X>,
}

impl<F: FabricName, X: Outcome> Play<Batch, Own<View>> for Counts<F, X> {
    ghost use Rattle.std.specs.Prelude.{eqb, MatchBool};
    ghost use Rattle.ipcz_cell.specs.Cells.{AreSound};
    ghost use Rattle.ipcz_cell.specs.Seats.{mine_of, HasNoSlots, SlotsStay};

    ghost then = { λ st m n m'. X.tells (mine_of m) n (mine_of m') × AreSound F.table.count F.table.size m'.0.view ×
        MatchBool (eqb n st.first) (HasNoSlots m'.0) (SlotsStay m m') };
}

/// Exchanges the claim count for the number behind one, and answers what was found.
pub(crate) fn claim_step<F: FabricName, X: Outcome>(
    seat: &mut TableSeat,
    fabric: &Fabric<F>,
    count: u64,
    number: u64,
) -> u64
    requires own { seat.old.table_id ≡ F.table.id }
    requires below { number < F.table.size }
    requires may { MayClaim F.table seat.old.id seat.old.me count number X.tells }
    ensures table { seat.new.table_id ≡ seat.old.table_id }
    ensures kept { seat.new.id ≡ seat.old.id }
    ensures done { X.tells (mine_of seat.old.me) result (mine_of seat.new.me) }
    ensures sound { AreSound F.table.count F.table.size seat.new.me.0.view }
    ensures slots { MatchBool (eqb result count) (HasNoSlots seat.new.me.0) (SlotsStay seat.old.me seat.new.me) }
{
    let place = fabric.slots as usize;
    let next = number + 1;
    fabric
        .table
        .shared
        .compare_exchange::<Counts<F, X>>(seat, place, count, next)
}

/// A new seat gets the first part of a view, and no slot.
pub(crate) struct Deal;

impl Split<Own<View>> for Deal {
    ghost use Rattle.std.specs.Prelude.{[]};
    ghost use Rattle.ipcz_rule.specs.Start.{after_deal, dealt};
    ghost use Rattle.ipcz_rule.specs.Lasting.{own_of};

    ghost left = { λ o. own_of (after_deal o.view) o.dirty o.free o.looked };

    ghost right = { λ o. own_of (dealt o.view) [] [] [] };
}

/// A seat takes in the parts and the slots of another.
pub(crate) struct Together;

impl Join<Own<View>> for Together {
    ghost use Rattle.std.specs.Prelude.{◌++◌, []};
    ghost use Rattle.ipcz_rule.specs.Kinds.{together, spent};
    ghost use Rattle.ipcz_rule.specs.Lasting.{own_of};

    ghost both = { λ o p. own_of (together o.view p.view) (o.dirty ++ p.dirty) (o.free ++ p.free) o.looked };

    ghost spent = { own_of spent [] [] [] };
}

/// Two seats with a part of one node would become one whose part is of no node. There are none such, so anything may be said of them.
pub(crate) struct Twins<F> {
    of: PhantomData<F>,
}

impl<F: FabricName> Join<Own<View>> for Twins<F> {
    ghost use Rattle.std.specs.Prelude.{◌++◌, []};
    ghost use Rattle.ipcz_rule.specs.Kinds.{spent};
    ghost use Rattle.ipcz_rule.specs.Lasting.{own_of};
    ghost use Rattle.ipcz_cell.specs.Ending.{outside};

    ghost both = { λ o p. own_of (outside F.table.count o.view) (o.dirty ++ p.dirty) (o.free ++ p.free) o.looked };

    ghost spent = { own_of spent [] [] [] };
}

/// A new seat has the view of a caller that has called nothing yet.
pub(crate) struct Comes;

impl Play<Batch, Own<View>> for Comes {
    ghost use Rattle.std.specs.Prelude.{◌≡◌, ℕ};
    ghost use Rattle.ipcz_rule.specs.Histories.{new_caller};
    ghost use Rattle.ipcz_cell.specs.Callers.{caller_own};

    ghost then = { λ st m n m'. (id : ℕ) × (m'.0 ≡ caller_own (new_caller id)) };
}

/// A new seat gets the view of the caller that a seat has.
pub(crate) struct Returns;

impl Split<Own<View>> for Returns {
    ghost use Rattle.std.specs.Prelude.{[]};
    ghost use Rattle.ipcz_rule.specs.Histories.{caller_view, without_caller};
    ghost use Rattle.ipcz_rule.specs.Lasting.{own_of};

    ghost left = { λ o. own_of (without_caller o.view) o.dirty o.free o.looked };

    ghost right = { λ o. own_of (caller_view o.view.caller) [] [] [] };
}
