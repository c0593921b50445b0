//! The way back from a table to a world.
ghost use Rattle.ipcz_cell.specs.Seats.{mine_of};
ghost use Rattle.std.specs.Prelude.{◌≡◌, ◌≤◌, ◌<◌, ◌+◌, ◌*◌, ◌++◌, ℕ, true, false, [], ◌∷◌, IfOk, IfErr};
ghost use Rattle.std.specs.Prelude.{length, List, map, vec_len, vec_capacity, slice_index};
ghost use Rattle.std.specs.Slots.{slots_items, slots_len, IsFull};
ghost use mathlib.Core.Option.{some};
ghost use Rattle.atomic_table.specs.Table.{rest};
ghost use Rattle.ipcz_base.specs.Indexed.{place_at};
ghost use Rattle.ipcz_base.specs.declared.message.Message.{Message as MessageData};
ghost use Rattle.ipcz_world.specs.declared.mail.Mail.{Mail as MailValue};
ghost use Rattle.ipcz_world.specs.declared.mail.Mail.TheVariants as mails;
ghost use Rattle.ipcz_rule.specs.Rule.{has_number};
ghost use Rattle.ipcz_rule.specs.Steps.{unprobe_part};
ghost use Rattle.ipcz_rule.specs.Kinds.{together};
ghost use Rattle.ipcz_rule.specs.End.{AreAll, IsShown, rested, states_of};
ghost use Rattle.ipcz_cell.specs.CellStates.{part_in, change_part};
ghost use Rattle.ipcz_cell.specs.Cells.{AreBelow, IsSoundCell, batch_slots, probed_slots};
ghost use Rattle.ipcz_cell.specs.Outcomes.{IsPicked};
ghost use Rattle.ipcz_cell.specs.TableNames.{IsLaidOut};
ghost use Rattle.ipcz_cell.specs.Ending.{unprobed, given_back, HasSlotOf, is_in_order, parts_of, Reads, GivesNoWorld, box_of, hand_left};

use crate::cell::NodeCell;
use crate::fabric::{Fabric, FabricName};
use crate::mail::{place_of, slot_of};
use crate::node_list::NodeList;
use crate::plays::{Outcome, Together, load_step, store_step};
use crate::seat::TableSeat;
use atomic_table::{Closed, Table};
use ipcz_base::{Message, Refusal};
use ipcz_node::{Batch, NodeState};
use ipcz_rule::{FabricLaw, Size, View};
use ipcz_slots::Own;
use ipcz_world::{Mail, World};
use std::alloc::{AllocError, Global};
use std::collections::VecDeque;
use std::marker::Brand;

// Gives the first mailbox that was probed back. X is what the step tells.
fn unprobe<F: FabricName, X: Outcome>(seat: &mut TableSeat, fabric: &Fabric<F>, node: u8, to: u8)
    requires picked { IsPicked X.tells (unprobed to) }
    requires own { seat.old.table_id ≡ F.table.id }
    requires whole { seat.old.me.0.view.parts ≡ part_in seat.old.me.0.view ∷ [] }
    requires node { ((part_in seat.old.me.0.view).node ≡ node) × (node < F.table.count) }
    requires to { (to < F.table.count) × (has_number (part_in seat.old.me.0.view).probed to ≡ true) }
    requires slot { seat.old.me.1 ≡ (node * F.table.count + to, []) ∷ rest seat.old.me.1 }
    ensures table { seat.new.table_id ≡ F.table.id }
    ensures done { (mine_of seat.new.me) ≡ (change_part (unprobe_part to) seat.old.me.0.view, rest seat.old.me.1) }
{
    let place = place_of(fabric, slot_of(fabric, node, to));
    store_step::<F, X>(seat, fabric, place, 0);
}

// Gives the first mailbox that was probed back.
fn unprobe_one<F: FabricName>(seat: &mut TableSeat, fabric: &Fabric<F>, node: u8, to: u8)
    requires own { seat.old.table_id ≡ F.table.id }
    requires whole { seat.old.me.0.view.parts ≡ part_in seat.old.me.0.view ∷ [] }
    requires node { ((part_in seat.old.me.0.view).node ≡ node) × (node < F.table.count) }
    requires to { (to < F.table.count) × (has_number (part_in seat.old.me.0.view).probed to ≡ true) }
    requires slot { seat.old.me.1 ≡ (node * F.table.count + to, []) ∷ rest seat.old.me.1 }
    ensures table { seat.new.table_id ≡ F.table.id }
    ensures done { (mine_of seat.new.me) ≡ (change_part (unprobe_part to) seat.old.me.0.view, rest seat.old.me.1) }
{
    unprobe::<F, Brand>(seat, fabric, node, to);
}

// Gives all mailboxes back that were probed.
fn unprobe_all<F: FabricName>(
    seat: &mut TableSeat,
    fabric: &Fabric<F>,
    node: u8,
    mut probed: NodeList,
    held: &NodeList,
)
    requires own { seat.old.table_id ≡ F.table.id }
    requires whole { seat.old.me.0.view.parts ≡ part_in seat.old.me.0.view ∷ [] }
    requires node { ((part_in seat.old.me.0.view).node ≡ node) × (node < F.table.count) }
    requires probed { ((part_in seat.old.me.0.view).probed ≡ probed) × AreBelow F.table.count probed }
    requires slots { seat.old.me.1 ≡ probed_slots F.table.count node probed ++ batch_slots F.table.count (part_in seat.old.me.0.view) held.now }
    ensures table { seat.new.table_id ≡ F.table.id }
    ensures done { seat.new.me.0.view.parts ≡ rested (part_in seat.old.me.0.view) ∷ [] }
    ensures slots { seat.new.me.1 ≡ batch_slots F.table.count (part_in seat.old.me.0.view) held.now }
{
    let _held = held;
    let count = probed.len();
    for _done in 0..count {
        let Some(to) = probed.take_first() else {
            unreachable!()
        };
        unprobe_one(seat, fabric, node, to);
    }
}

// Gives the first slot back, which is that of a sender's batch. X is what the step tells.
fn give_back<F: FabricName, X: Outcome>(
    seat: &mut TableSeat,
    fabric: &Fabric<F>,
    node: u8,
    from: u8,
)
    requires picked { IsPicked X.tells (given_back (F.table.size + 1 + F.table.count + (from * F.table.count + node))) }
    requires own { seat.old.table_id ≡ F.table.id }
    requires whole { seat.old.me.0.view.parts ≡ part_in seat.old.me.0.view ∷ [] }
    requires node { ((part_in seat.old.me.0.view).node ≡ node) × (node < F.table.count) }
    requires from { (from < F.table.count) × HasSlotOf (part_in seat.old.me.0.view) from }
    requires slot { (batch : List MessageData) × (seat.old.me.1 ≡ (from * F.table.count + node, batch) ∷ rest seat.old.me.1) }
    ensures table { seat.new.table_id ≡ F.table.id }
    ensures done { (seat.new.me.0.view.parts ≡ seat.old.me.0.view.parts) × (seat.new.me.1 ≡ rest seat.old.me.1) }
{
    let place = place_of(fabric, slot_of(fabric, from, node));
    load_step::<F, X>(seat, fabric, place);
}

// Gives the first slot back, which is that of a sender's batch.
fn give_back_one<F: FabricName>(seat: &mut TableSeat, fabric: &Fabric<F>, node: u8, from: u8)
    requires own { seat.old.table_id ≡ F.table.id }
    requires whole { seat.old.me.0.view.parts ≡ part_in seat.old.me.0.view ∷ [] }
    requires node { ((part_in seat.old.me.0.view).node ≡ node) × (node < F.table.count) }
    requires from { (from < F.table.count) × HasSlotOf (part_in seat.old.me.0.view) from }
    requires slot { (batch : List MessageData) × (seat.old.me.1 ≡ (from * F.table.count + node, batch) ∷ rest seat.old.me.1) }
    ensures table { seat.new.table_id ≡ F.table.id }
    ensures done { (seat.new.me.0.view.parts ≡ seat.old.me.0.view.parts) × (seat.new.me.1 ≡ rest seat.old.me.1) }
{
    give_back::<F, Brand>(seat, fabric, node, from);
}

// Gives all slots of batches back.
fn give_back_all<F: FabricName>(
    seat: &mut TableSeat,
    fabric: &Fabric<F>,
    node: u8,
    mut held: NodeList,
)
    requires own { seat.old.table_id ≡ F.table.id }
    requires whole { seat.old.me.0.view.parts ≡ part_in seat.old.me.0.view ∷ [] }
    requires node { ((part_in seat.old.me.0.view).node ≡ node) × (node < F.table.count) }
    requires held { AreBelow F.table.count held × ((sender : ℕ) → has_number held sender ≡ true → HasSlotOf (part_in seat.old.me.0.view) sender) }
    requires slots { seat.old.me.1 ≡ batch_slots F.table.count (part_in seat.old.me.0.view) held }
    ensures table { seat.new.table_id ≡ F.table.id }
    ensures done { (seat.new.me.0.view.parts ≡ seat.old.me.0.view.parts) × (seat.new.me.1 ≡ []) }
{
    let count = held.len();
    for _done in 0..count {
        let Some(from) = held.take_first() else {
            unreachable!()
        };
        give_back_one(seat, fabric, node, from);
    }
}

// What is left of a cell that has given its slots back.
#[derive(Drop)]
pub(crate) struct Rest {
    pub(crate) state: NodeState,
    pub(crate) message: Option<Message>,
    pub(crate) seat: TableSeat,
}

impl<F: FabricName> NodeCell<F> {
    /// The number of the node.
    pub fn node(&self) -> u8
        ensures node { result ≡ self.now.part.node }
        ensures inside { result < F.table.count }
        ensures sound { IsSoundCell F.table self.now }
    {
        self.state.number()
    }

    // Gives its slots back.
    pub(crate) fn rest(self, fabric: &Fabric<F>) -> Rest
        ensures state { result.state.node ≡ self.part.state }
        ensures message { result.message ≡ self.part.message }
        ensures seat { (result.seat.table_id ≡ F.table.id) × (result.seat.me.0.view.parts ≡ rested self.part ∷ []) × (result.seat.me.1 ≡ []) }
    {
        let NodeCell {
            state,
            message,
            probed,
            held,
            mut seat,
            of: _,
        } = self;
        let node = state.number();
        unprobe_all(&mut seat, fabric, node, probed, &held);
        give_back_all(&mut seat, fabric, node, held);
        Rest {
            state,
            message,
            seat,
        }
    }
}

// A seat takes in the parts of another.
fn join<F: FabricName>(seat: &mut TableSeat, fabric: &Fabric<F>, other: TableSeat)
    requires own { (seat.old.table_id ≡ F.table.id) × (other.table_id ≡ F.table.id) }
    requires slots { other.me.1 ≡ [] }
    ensures table { seat.new.table_id ≡ F.table.id }
    ensures done { (mine_of seat.new.me) ≡ (together seat.old.me.0.view other.me.0.view, seat.old.me.1) }
{
    fabric.table.shared.join_seat::<Together>(seat, other);
}

// The link words, and their claim count.
fn read_words(closed: &Closed<Batch, Global>, words: u64, mut bits: Vec<u64>) -> Vec<u64>
    requires full { IsFull closed.now.words }
    requires inside { words < slots_len closed.now.words }
    requires room { words ≤ vec_capacity bits }
    requires empty { vec_len bits ≡ 0 }
    ensures many { length result.items ≡ words }
    ensures read { (i : ℕ) → i < words → slice_index result.items i ≡ slice_index (slots_items closed.now.words) i }
{
    for i in 0..words {
        bits.push_reserved(closed.word(i as usize));
    }
    bits
}

// A mailbox, from its word, its slot and the hand of its receiver.
fn read_box(word: u64, mut slot: Batch, hand: &mut Option<Message>) -> Mail
    ensures mail { result ≡ box_of word slot hand.old }
    ensures hand { hand.new ≡ hand_left word hand.old }
{
    match word {
        1 => {
            let mut first = None;
            slot.take_first(&mut first);
            match first {
                Some(message) => Mail::Full(message),
                None => Mail::Empty,
            }
        }
        2 => match hand.take() {
            Some(message) => Mail::Hand(message),
            None => Mail::Empty,
        },
        _ => Mail::Empty,
    }
}

// The mailboxes. Then nothing is left of the table.
fn read_boxes(
    mut closed: Closed<Batch, Global>,
    first: usize,
    nodes: u8,
    mut hands: Vec<Option<Message>>,
    mut boxes: Vec<Mail>,
) -> Vec<Mail>
    requires full { IsFull closed.words × IsFull closed.slots }
    requires few { nodes ≤ 64 }
    requires counts { (first + nodes * nodes ≤ slots_len closed.words) × (slots_len closed.slots ≡ nodes * nodes) }
    requires hands { vec_len hands ≡ nodes }
    requires room { nodes * nodes ≤ vec_capacity boxes }
    requires empty { vec_len boxes ≡ 0 }
    ensures many { length result.items ≡ nodes * nodes }
    ensures read { (mail : ℕ → MailValue) → Reads nodes first (slots_items closed.words) (slots_items closed.slots) hands.items mail →
        (k : ℕ) → k < nodes * nodes → place_at mails.Empty result.items k ≡ mail k }
{
    let count = nodes as usize;
    for k in 0..count * count {
        let word = closed.word(first + k);
        let slot = closed.take(k);
        let mail = read_box(word, slot, &mut hands[k % count]);
        boxes.push_reserved(mail);
    }
    closed.free();
    boxes
}

// The room that a finish takes first.
struct Room {
    states: Vec<NodeState>,
    hands: Vec<Option<Message>>,
    boxes: Vec<Mail>,
    bits: Vec<u64>,
}

// Takes room for so many nodes and words.
fn make_room(alloc: Global, nodes: u8, words: u64) -> Result<Room, AllocError>
    ensures states { IfOk result (λ r. (vec_len r.states ≡ 0) × (nodes ≤ vec_capacity r.states)) }
    ensures hands { IfOk result (λ r. (vec_len r.hands ≡ 0) × (nodes ≤ vec_capacity r.hands)) }
    ensures boxes { IfOk result (λ r. (vec_len r.boxes ≡ 0) × (nodes * nodes ≤ vec_capacity r.boxes)) }
    ensures bits { IfOk result (λ r. (vec_len r.bits ≡ 0) × (words ≤ vec_capacity r.bits)) }
{
    let count = nodes as usize;
    let states = Vec::with_capacity(alloc, count)?;
    let hands = Vec::with_capacity(alloc, count)?;
    let boxes = Vec::with_capacity(alloc, count * count)?;
    let bits = Vec::with_capacity(alloc, words as usize)?;
    Ok(Room {
        states,
        hands,
        boxes,
        bits,
    })
}

// Whether the cells are those of the nodes from one on, in their order.
fn is_in_order<F: FabricName>(cells: &[NodeCell<F>], i: u8, count: u8) -> bool
    requires { i ≤ count }
    ensures { result ≡ is_in_order count i cells.now }
{
    match cells {
        [] => i == count,
        [first, rest @ ..] => first.node() == i && i < count && is_in_order(rest, i + 1, count),
    }
}

impl<F: FabricName> Fabric<F> {
    /// Whether these are the cells of all nodes of the table, in the order of their numbers, as `finish` wants them. It takes no memory.
    pub fn are_all(&self, cells: &[NodeCell<F>]) -> bool
        ensures { result ≡ is_in_order F.table.count 0 cells.now }
    {
        is_in_order(cells, 0, self.nodes)
    }
}

// What is left of all cells: their states, the messages in their hands, and one seat.
struct Union {
    states: Vec<NodeState>,
    hands: Vec<Option<Message>>,
    seat: TableSeat,
}

// Takes the cells of all nodes apart, and makes their seats one.
fn join_all<F: FabricName>(
    fabric: &Fabric<F>,
    cells: Vec<NodeCell<F>>,
    mut states: Vec<NodeState>,
    mut hands: Vec<Option<Message>>,
) -> Union
    requires some { 1 ≤ F.table.count }
    requires ordered { is_in_order F.table.count 0 cells.items ≡ true }
    requires states { (vec_len states ≡ 0) × (F.table.count ≤ vec_capacity states) }
    requires hands { (vec_len hands ≡ 0) × (F.table.count ≤ vec_capacity hands) }
    ensures own { result.seat.table_id ≡ F.table.id }
    ensures parts { result.seat.me.0.view.parts ≡ map rested (parts_of cells.items) }
    ensures states { map (λ k. k.node) result.states.items ≡ map (λ p. p.state) (parts_of cells.items) }
    ensures hands { result.hands.items ≡ map (λ p. p.message) (parts_of cells.items) }
{
    let mut cells = VecDeque::from_vec(cells);
    let Some(first) = cells.pop_front() else {
        unreachable!()
    };
    let Rest {
        state,
        message,
        mut seat,
    } = first.rest(fabric);
    states.push_reserved(state);
    hands.push_reserved(message);
    for _node in 1..fabric.nodes {
        let Some(cell) = cells.pop_front() else {
            unreachable!()
        };
        let Rest {
            state,
            message,
            seat: other,
        } = cell.rest(fabric);
        join(&mut seat, fabric, other);
        states.push_reserved(state);
        hands.push_reserved(message);
    }
    Union {
        states,
        hands,
        seat,
    }
}

// Ends the table: the seat has the parts of all nodes.
fn close(
    table: Table<Batch, Own<View>, Size, FabricLaw, Global>,
    seat: TableSeat,
    states: Vec<NodeState>,
    hands: Vec<Option<Message>>,
    boxes: Vec<Mail>,
    bits: Vec<u64>,
    nodes: u8,
    words: u64,
) -> World
    requires own { seat.table_id ≡ table.shared.table_id }
    requires size { (table.shared.key.nodes ≡ nodes) × (table.shared.key.words ≡ words) × (table.shared.key.slots ≡ words) ×
        (table.shared.key.reuses ≡ false) }
    requires laid { IsLaidOut (record { id = table.shared.table_id; count = nodes; size = words; slots = words; reuses = false }) }
    requires all { AreAll nodes seat.me.0.view.parts }
    requires states { map (λ k. k.node) states.items ≡ states_of seat.me.0.view.parts }
    requires hands { hands.items ≡ map (λ p. p.message) seat.me.0.view.parts }
    requires boxes { (vec_len boxes ≡ 0) × (nodes * nodes ≤ vec_capacity boxes) }
    requires bits { (vec_len bits ≡ 0) × (words ≤ vec_capacity bits) }
    ensures { IsShown nodes words seat.me.0.view.parts result.world }
{
    let seat = seat;
    let closed = table.close_with(seat);
    let bits = read_words(&closed, words, bits);
    let claimed = closed.word(words as usize);
    let first = words as usize + 1 + nodes as usize;
    let boxes = read_boxes(closed, first, nodes, hands, boxes);
    World::of_parts(states, boxes, bits, claimed)
}

/// Ends the table and gives the world that it showed: the nodes are those of the cells, the link words, the claim count and the mailboxes
/// are those of the table, a message in a cell's hand is in hand, and the world is lawful with the books that the cells' views keep.
///
/// Refused `NoWord` if the table's slots are used again, since it has no words any more of the links that were let go; `Stranger` if the
/// cells' nodes aren't 0, 1, and so on to the last, in order; else `OutOfMemory`. A refusal gives the fabric and the cells back, as they
/// were.
///
/// Of the fabric and the cells that `name` gave of `start(alloc, 2, 8)?` it gives the world of `World::new(alloc, 2, 8)`.
pub fn finish<F: FabricName>(
    fabric: Fabric<F>,
    cells: Vec<NodeCell<F>>,
) -> Result<World, (Refusal, Fabric<F>, Vec<NodeCell<F>>)>
    ensures shown { IfOk result (λ w. (F.table.reuses ≡ false) × IsShown F.table.count F.table.size (parts_of cells.items) w.world) }
    ensures why { IfErr result (λ e. GivesNoWorld F.table cells.items e.0) }
    ensures back { IfErr result (λ e. e.2.items ≡ cells.items) }
{
    if fabric.reuses {
        return Err((Refusal::NoWord, fabric, cells));
    }
    if !fabric.are_all(cells.as_slice()) {
        return Err((Refusal::Stranger, fabric, cells));
    }
    let alloc = *cells.allocator();
    let Ok(room) = make_room(alloc, fabric.nodes, fabric.words) else {
        return Err((Refusal::OutOfMemory, fabric, cells));
    };
    let Room {
        states,
        hands,
        boxes,
        bits,
    } = room;
    let Union {
        states,
        hands,
        seat,
    } = join_all(&fabric, cells, states, hands);
    let Fabric {
        table,
        nodes,
        words,
        slots: _,
        reuses: _,
        bells: _,
        news: _,
        of: _,
    } = fabric;
    Ok(close(table, seat, states, hands, boxes, bits, nodes, words))
}
