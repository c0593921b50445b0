//! The mailboxes of a cell, each in a word of the table with its slot.
ghost use Rattle.ipcz_cell.specs.Seats.{mine_of, SlotsStay};
ghost use Rattle.std.specs.Prelude.{◌≡◌, ◌<◌, ◌≤◌, ◌+◌, ◌*◌, true, false, [], ◌∷◌, Some, None, OnOk, OnErr, IfOk, IfErr, IsOk, ◌≢◌, if◌then◌else◌};
ghost use Rattle.std.specs.Prelude.{ℕ, List, ◌||◌, length, nat_eq, not, IfSome};
ghost use Rattle.atomic_table.specs.Table.{rest};
ghost use Rattle.ipcz_node.specs.Acts.{first_of, has_mail_for, rest_of};
ghost use Rattle.ipcz_node.specs.Events.{hand_event};
ghost use Rattle.ipcz_node.specs.Hands.{is_unfit, message_lacks_serials};
ghost use Rattle.ipcz_rule.specs.Rule.{has_number};
ghost use Rattle.ipcz_rule.specs.Steps.{old_word};
ghost use Rattle.ipcz_base.specs.declared.message.Message.{Message as MessageData};
ghost use Rattle.ipcz_node.specs.Node.{Node as NodeData, with_outbox};
ghost use Rattle.ipcz_cell.specs.CellStates.{part_in, change_part, roomy};
ghost use Rattle.ipcz_cell.specs.Parts.{handed_part};
ghost use Rattle.ipcz_cell.specs.Cells.{AreSound, has_batch, held_slots, is_hand_of};
ghost use Rattle.ipcz_cell.specs.TableNames.{IsLaidOut};
ghost use Rattle.ipcz_cell.specs.Mails.{slot_of, mail_word, old_named, HasSeen, IsKnown, Probes, Looks, LoadsSource, Handles, IsTold, looked_on_part, posted_batch, posted_part, posted_rest};
ghost use Rattle.ipcz_world.specs.RoomyWorlds.{HasRoomToHandle};
ghost use Rattle.ipcz_cell.specs.Outcomes.{IsPicked, probed, posted, looked, sourced, handed, touched, turned_by};

use crate::bells::{Ringer, Waking};
use crate::cell::{NodeCell, touch};
use crate::fabric::{Fabric, FabricName};
use crate::inbox::{announce, clear};
use crate::node_list::NodeList;
use crate::plays::{Outcome, exchange_step, load_behind, load_link, store_step};
use crate::seat::TableSeat;
use ipcz_base::{Message, Refusal};
use ipcz_node::{Act, Handed, Happened, NodeState, Told};
use ipcz_word::source;
use std::marker::Brand;
use std::mem;

// The slot of the mailbox from one node to another.
pub(crate) fn slot_of<F: FabricName>(fabric: &Fabric<F>, from: u8, to: u8) -> usize
    requires from { from < F.table.count }
    requires to { to < F.table.count }
    ensures slot { result ≡ slot_of F.table from to }
    ensures inside { result < F.table.id.slots }
    ensures few { F.table.count ≤ 64 }
{
    from as usize * fabric.nodes as usize + to as usize
}

// How far behind the link words that of the mailbox of a slot is.
pub(crate) fn place_of<F: FabricName>(fabric: &Fabric<F>, slot: usize) -> usize
    requires { slot < F.table.id.slots }
    ensures word { F.table.size + result ≡ F.table.size + 1 + F.table.count + slot }
    ensures behind { 1 ≤ result }
    ensures inside { result < 1 + F.table.count + F.table.count * F.table.count }
{
    1 + fabric.nodes as usize + slot
}

// How far behind the link words that of the mailbox from one node to another is, in a table of so many nodes.
pub(crate) fn mail_place<F: FabricName>(nodes: u8, from: u8, to: u8) -> usize
    requires laid_out { IsLaidOut F.table }
    requires count { nodes ≡ F.table.count }
    requires from { from < F.table.count }
    requires to { to < F.table.count }
    ensures word { F.table.size + result ≡ mail_word F.table from to }
    ensures inside { result < 1 + F.table.count + F.table.count * F.table.count }
{
    let slot = from as usize * nodes as usize + to as usize;
    1 + nodes as usize + slot
}

// Brings so many slots behind the others. It does nothing.
fn turn_over(seat: &mut TableSeat, n: usize)
    ensures table { seat.new.table_id ≡ seat.old.table_id }
    ensures id { seat.new.id ≡ seat.old.id }
    ensures me { (mine_of seat.new.me) ≡ (seat.old.me.0.view, turned_by n seat.old.me.1) }
    ensures slots { SlotsStay seat.old.me seat.new.me }
{
    if n > 0 {
        seat.turn();
        turn_over(seat, n - 1);
    }
}

// Tells T what happened, or why nothing did.
pub(crate) fn tell<T: Told>(done: Result<Happened, Refusal>) -> Result<T, Refusal>
    ensures { IsTold T.tells (λ is. is ≡ done) result }
{
    match done {
        Ok(event) => Ok(T::told(event)),
        Err(why) => Err(why),
    }
}

// What is told of the item in hand, if that has its place here; of another message nothing is told.
#[tactic(auto, unfolding(ipcz_node::specs::Events::hand_event, ipcz_node::specs::Events::kind_of, ipcz_node::specs::Hands::link_asked))]
#[inline(always)]
fn item_told<T: Told>(message: &Option<Message>) -> Option<T>
    ensures { IfSome result (λ told. (x : MessageData) × (message.now ≡ Some x) × (old_word x ≡ None) ×
        ((n : NodeData) → (from : ℕ) → is_unfit n from x None ≡ false → T.tells (hand_event n from x None) told)) }
{
    let Some(Message::Item { link, n, .. }) = message else {
        return None;
    };
    Some(T::told(Happened::Hand {
        kind: Handed::Item(*n),
        link: *link,
        unfit: false,
    }))
}

// An exchange 0 to 3. X is what it tells.
fn probe_here<F: FabricName, X: Outcome>(
    node: u8,
    seat: &mut TableSeat,
    fabric: &Fabric<F>,
    to: u8,
) -> u64
    requires picked { IsPicked X.tells (probed (mail_word F.table node to) (slot_of F.table node to) to) }
    requires own { seat.old.table_id ≡ F.table.id }
    requires whole { seat.old.me.0.view.parts ≡ part_in seat.old.me.0.view ∷ [] }
    requires node { ((part_in seat.old.me.0.view).node ≡ node) × (node < F.table.count) }
    requires to { to < F.table.count }
    ensures table { seat.new.table_id ≡ seat.old.table_id }
    ensures done { probed (mail_word F.table node to) (slot_of F.table node to) to (mine_of seat.old.me) result (mine_of seat.new.me) }
    ensures sound { AreSound F.table.count F.table.size seat.new.me.0.view }
    ensures slots { SlotsStay seat.old.me seat.new.me }
    ensures small { to < 64 }
{
    let slot = slot_of(fabric, node, to);
    let place = place_of(fabric, slot);
    exchange_step::<F, X>(seat, fabric, place, 0, 3)
}

// A store 1 at a mailbox that was probed, whose slot has what is posted, behind the announcement of it. X is what the store tells.
fn post_here<F: FabricName, X: Outcome>(node: u8, seat: &mut TableSeat, fabric: &Fabric<F>, to: u8)
    requires picked { IsPicked X.tells (posted F.table to) }
    requires own { seat.old.table_id ≡ F.table.id }
    requires whole { seat.old.me.0.view.parts ≡ part_in seat.old.me.0.view ∷ [] }
    requires node { ((part_in seat.old.me.0.view).node ≡ node) × (node < F.table.count) }
    requires to { to < F.table.count }
    requires probed { has_number (part_in seat.old.me.0.view).probed to ≡ true }
    requires mail { has_mail_for (part_in seat.old.me.0.view).state to ≡ true }
    requires slot { seat.old.me.1 ≡ (slot_of F.table node to, posted_batch F.table to (part_in seat.old.me.0.view).state) ∷ rest seat.old.me.1 }
    ensures table { seat.new.table_id ≡ seat.old.table_id }
    ensures done { (mine_of seat.new.me) ≡ (change_part (posted_part F.table to) seat.old.me.0.view, rest seat.old.me.1) }
    ensures sound { AreSound F.table.count F.table.size seat.new.me.0.view }
    ensures slots { SlotsStay seat.old.me seat.new.me }
{
    let slot = slot_of(fabric, node, to);
    let place = place_of(fabric, slot);
    announce(node, seat, fabric, to);
    store_step::<F, X>(seat, fabric, place, 1);
}

// An exchange 1 to 2. X is what it tells.
fn look_here<F: FabricName, X: Outcome>(
    node: u8,
    seat: &mut TableSeat,
    fabric: &Fabric<F>,
    from: u8,
) -> u64
    requires picked { IsPicked X.tells (looked (not F.table.reuses) (mail_word F.table from node) (slot_of F.table from node) from) }
    requires own { seat.old.table_id ≡ F.table.id }
    requires whole { seat.old.me.0.view.parts ≡ part_in seat.old.me.0.view ∷ [] }
    requires node { ((part_in seat.old.me.0.view).node ≡ node) × (node < F.table.count) }
    requires from { from < F.table.count }
    requires idle { (part_in seat.old.me.0.view).state.hand ≡ None }
    ensures table { seat.new.table_id ≡ seat.old.table_id }
    ensures done { looked (not F.table.reuses) (mail_word F.table from node) (slot_of F.table from node) from (mine_of seat.old.me) result (mine_of seat.new.me) }
    ensures sound { AreSound F.table.count F.table.size seat.new.me.0.view }
    ensures slots { SlotsStay seat.old.me seat.new.me }
{
    let slot = slot_of(fabric, from, node);
    let place = place_of(fabric, slot);
    exchange_step::<F, X>(seat, fabric, place, 1, 2)
}

// The look at the next message of a batch, of which the seat has the slot: a step on the node's inbox. X is what it tells.
fn look_on_here<F: FabricName, X: Outcome>(
    node: u8,
    seat: &mut TableSeat,
    fabric: &Fabric<F>,
    from: u8,
)
    requires picked { IsPicked X.tells (touched (looked_on_part from)) }
    requires own { seat.old.table_id ≡ F.table.id }
    requires whole { seat.old.me.0.view.parts ≡ part_in seat.old.me.0.view ∷ [] }
    requires node { node < F.table.count }
    requires from { from < F.table.count }
    requires idle { (part_in seat.old.me.0.view).state.hand ≡ None }
    requires left { has_batch (part_in seat.old.me.0.view) from ≡ true }
    ensures table { seat.new.table_id ≡ seat.old.table_id }
    ensures done { (mine_of seat.new.me) ≡ (change_part (looked_on_part from) seat.old.me.0.view, seat.old.me.1) }
    ensures sound { AreSound F.table.count F.table.size seat.new.me.0.view }
    ensures slots { SlotsStay seat.old.me seat.new.me }
{
    let _from = from;
    touch::<F, X>(seat, fabric, node);
}

// The hand of a message behind which others of its batch stand: a step on the node's inbox. X is what it tells.
fn hand_on_here<F: FabricName, X: Outcome>(
    node: u8,
    seat: &mut TableSeat,
    fabric: &Fabric<F>,
    from: u8,
    source: Option<u8>,
)
    requires picked { IsPicked X.tells (touched (handed_part from source)) }
    requires own { seat.old.table_id ≡ F.table.id }
    requires whole { seat.old.me.0.view.parts ≡ part_in seat.old.me.0.view ∷ [] }
    requires node { node < F.table.count }
    requires hand { (part_in seat.old.me.0.view).state.hand ≡ Some from }
    requires message { (x : MessageData) × ((part_in seat.old.me.0.view).message ≡ Some x) ×
        (message_lacks_serials (part_in seat.old.me.0.view).state from x source ≡ false) × IsKnown F.table.size from x source }
    requires left { has_batch (part_in seat.old.me.0.view) from ≡ true }
    ensures table { seat.new.table_id ≡ seat.old.table_id }
    ensures done { (mine_of seat.new.me) ≡ (change_part (handed_part from source) seat.old.me.0.view, seat.old.me.1) }
    ensures sound { AreSound F.table.count F.table.size seat.new.me.0.view }
    ensures slots { SlotsStay seat.old.me seat.new.me }
{
    let (_from, _source) = (from, source);
    touch::<F, X>(seat, fabric, node);
}

// Puts what is to be posted to a node into the slot that the seat took last: all messages that wait for it, or the first alone where link words don't
// come back.
fn fill<F: FabricName>(
    state: &mut NodeState,
    seat: &mut TableSeat,
    fabric: &Fabric<F>,
    slot: usize,
    to: u8,
)
    requires own { seat.old.table_id ≡ F.table.id }
    requires slot { seat.old.me.1 ≡ (slot, []) ∷ rest seat.old.me.1 }
    requires mail { has_mail_for state.old.node to ≡ true }
    ensures node { state.new.node ≡ with_outbox state.old.node to (posted_rest F.table to state.old.node) }
    ensures table { seat.new.table_id ≡ seat.old.table_id }
    ensures filled { (mine_of seat.new.me) ≡ (seat.old.me.0.view, (slot, posted_batch F.table to state.old.node) ∷ rest seat.old.me.1) }
    ensures slots { SlotsStay seat.old.me seat.new.me }
{
    let batch = seat.slot_mut(&fabric.table.shared, slot);
    if fabric.reuses {
        state.post_all(to, batch);
    } else {
        state.post_first(to, batch);
    }
}

// Takes the first message out of the slot that the seat took last, into an empty place.
fn take_out<F: FabricName>(
    seat: &mut TableSeat,
    fabric: &Fabric<F>,
    slot: usize,
    place: &mut Option<Message>,
)
    requires empty { place.old ≡ None }
    requires own { seat.old.table_id ≡ F.table.id }
    requires slot { (batch : List MessageData) × (seat.old.me.1 ≡ (slot, batch) ∷ rest seat.old.me.1) }
    ensures table { seat.new.table_id ≡ seat.old.table_id }
    ensures taken { (batch : List MessageData) → seat.old.me.1 ≡ (slot, batch) ∷ rest seat.old.me.1 →
        (place.new ≡ first_of batch) × ((mine_of seat.new.me) ≡ (seat.old.me.0.view, (slot, rest_of batch) ∷ rest seat.old.me.1)) }
    ensures view { seat.new.me.0.view ≡ seat.old.me.0.view }
    ensures slots { SlotsStay seat.old.me seat.new.me }
{
    seat.slot_mut(&fabric.table.shared, slot).take_first(place);
}

// Whether no message is left in the slot that the seat took last.
fn is_spent<F: FabricName>(seat: &mut TableSeat, fabric: &Fabric<F>, slot: usize) -> bool
    requires own { seat.old.table_id ≡ F.table.id }
    requires slot { (batch : List MessageData) × (seat.old.me.1 ≡ (slot, batch) ∷ rest seat.old.me.1) }
    ensures table { seat.new.table_id ≡ seat.old.table_id }
    ensures spent { (batch : List MessageData) → seat.old.me.1 ≡ (slot, batch) ∷ rest seat.old.me.1 → result ≡ nat_eq (length batch) 0 }
    ensures same { (mine_of seat.new.me) ≡ (mine_of seat.old.me) }
    ensures slots { SlotsStay seat.old.me seat.new.me }
{
    seat.slot_mut(&fabric.table.shared, slot).is_empty()
}

// The step behind a message in hand that was handled: its slot goes home if nothing is left of its batch, and else stays the seat's. So many
// mailboxes are probed.
fn leave_slot<F: FabricName>(
    node: u8,
    probed: usize,
    held: &mut NodeList,
    seat: &mut TableSeat,
    fabric: &Fabric<F>,
    from: u8,
    source: Option<u8>,
)
    requires own { seat.old.table_id ≡ F.table.id }
    requires whole { seat.old.me.0.view.parts ≡ part_in seat.old.me.0.view ∷ [] }
    requires node { ((part_in seat.old.me.0.view).node ≡ node) × (node < F.table.count) }
    requires from { from < F.table.count }
    requires hand { (part_in seat.old.me.0.view).state.hand ≡ Some from }
    requires message { (x : MessageData) × ((part_in seat.old.me.0.view).message ≡ Some x) ×
        (message_lacks_serials (part_in seat.old.me.0.view).state from x source ≡ false) × IsKnown F.table.size from x source }
    requires probed { (probed ≡ length (part_in seat.old.me.0.view).probed) × (probed ≤ 64) }
    requires slots { seat.old.me.1 ≡ held_slots F.table.count (part_in seat.old.me.0.view) held.old }
    requires held { (sender : ℕ) → has_number held.old sender ≡ (is_hand_of (Some from) sender || has_batch (part_in seat.old.me.0.view) sender) }
    ensures table { seat.new.table_id ≡ seat.old.table_id }
    ensures done { seat.new.me.0.view ≡ change_part (handed_part from source) seat.old.me.0.view }
    ensures sound { AreSound F.table.count F.table.size seat.new.me.0.view }
    ensures left { seat.new.me.1 ≡ held_slots F.table.count (part_in seat.new.me.0.view) held.new }
    ensures held { (sender : ℕ) → has_number held.new sender ≡ has_batch (part_in seat.old.me.0.view) sender }
    ensures slots { SlotsStay seat.old.me seat.new.me }
{
    let slot = slot_of(fabric, from, node);
    let many = held.len();
    let place = held.place_of(from);
    turn_over(seat, probed + place);
    if is_spent(seat, fabric, slot) {
        held.take(from);
        hand_here::<F, Brand>(node, seat, fabric, from, source);
        turn_over(seat, many - 1 - place);
    } else {
        hand_on_here::<F, Brand>(node, seat, fabric, from, source);
        turn_over(seat, many - place);
    }
}

// The word of the old link that the message in hand names, if it is an AcceptBypass.
fn old_word(message: &Option<Message>) -> Option<u64>
    ensures { result ≡ old_named message.now }
{
    match message {
        Some(Message::AcceptBypass { old, .. }) => Some(*old),
        Some(
            Message::Item { .. }
            | Message::BypassPeer { .. }
            | Message::StopProxying { .. }
            | Message::ProxyWillStop { .. }
            | Message::Flush { .. },
        )
        | None => None,
    }
}

// A load of the old link's word before an AcceptBypass in hand is handled. X is what it tells.
fn source_here<F: FabricName, X: Outcome>(
    seat: &mut TableSeat,
    fabric: &Fabric<F>,
    from: u8,
    old: u64,
) -> u64
    requires picked { IsPicked X.tells (sourced old from) }
    requires own { seat.old.table_id ≡ F.table.id }
    requires whole { seat.old.me.0.view.parts ≡ part_in seat.old.me.0.view ∷ [] }
    requires hand { (part_in seat.old.me.0.view).state.hand ≡ Some from }
    requires message { (x : MessageData) × ((part_in seat.old.me.0.view).message ≡ Some x) × (old_word x ≡ Some old) }
    requires inside { old < F.table.size }
    ensures table { seat.new.table_id ≡ seat.old.table_id }
    ensures done { sourced old from (mine_of seat.old.me) result (mine_of seat.new.me) }
    ensures sound { AreSound F.table.count F.table.size seat.new.me.0.view }
    ensures slots { SlotsStay seat.old.me seat.new.me }
{
    let (_nodes, _from) = (fabric.nodes, from);
    load_link::<F, X>(seat, fabric, old)
}

// A store 0 at the mailbox of which the last message is in hand, for which the source is known, once its sender's bit is cleared. X is what the store tells.
fn hand_here<F: FabricName, X: Outcome>(
    node: u8,
    seat: &mut TableSeat,
    fabric: &Fabric<F>,
    from: u8,
    source: Option<u8>,
)
    requires picked { IsPicked X.tells (handed from source) }
    requires own { seat.old.table_id ≡ F.table.id }
    requires whole { seat.old.me.0.view.parts ≡ part_in seat.old.me.0.view ∷ [] }
    requires node { ((part_in seat.old.me.0.view).node ≡ node) × (node < F.table.count) }
    requires from { from < F.table.count }
    requires hand { (part_in seat.old.me.0.view).state.hand ≡ Some from }
    requires message { (x : MessageData) × ((part_in seat.old.me.0.view).message ≡ Some x) ×
        (message_lacks_serials (part_in seat.old.me.0.view).state from x source ≡ false) × IsKnown F.table.size from x source }
    requires spent { has_batch (part_in seat.old.me.0.view) from ≡ false }
    requires slot { seat.old.me.1 ≡ (slot_of F.table from node, []) ∷ rest seat.old.me.1 }
    ensures table { seat.new.table_id ≡ seat.old.table_id }
    ensures done { (mine_of seat.new.me) ≡ (change_part (handed_part from source) seat.old.me.0.view, rest seat.old.me.1) }
    ensures sound { AreSound F.table.count F.table.size seat.new.me.0.view }
    ensures slots { SlotsStay seat.old.me seat.new.me }
{
    let _source = source;
    let slot = slot_of(fabric, from, node);
    let place = place_of(fabric, slot);
    clear(node, seat, fabric, from);
    store_step::<F, X>(seat, fabric, place, 0);
}

impl<F: FabricName> NodeCell<F> {
    // Loads the word that is so far behind the link words, of which there are so many slots.
    pub(crate) fn load_at(&mut self, fabric: &Fabric<F>, slots: u32, place: usize) -> u64
        requires slots { slots ≡ F.table.slots }
        requires inside { place < 1 + F.table.count + F.table.count * F.table.count }
        ensures { HasSeen (F.table.size + place) result self.old self.new }
    {
        load_behind::<F, Brand>(&mut self.seat, fabric, slots, place)
    }

    // Loads the word of the mailbox from one node to another.
    pub(crate) fn load_mail(&mut self, fabric: &Fabric<F>, from: u8, to: u8) -> u64
        requires from { from < F.table.count }
        requires to { to < F.table.count }
        ensures { HasSeen (mail_word F.table from to) result self.old self.new }
    {
        let place = mail_place::<F>(fabric.nodes, from, to);
        self.load_at(fabric, fabric.slots, place)
    }

    /// Takes the empty mailbox to a node, or has it already. It answers false only if the mailbox was found at another value than 0. It takes
    /// no memory, and is never refused.
    ///
    /// Where a message waits for node 1, and the mailbox to it is empty, `cell.mail_probe(&fabric, 1)` is true.
    #[inline(always)]
    pub fn mail_probe(&mut self, fabric: &Fabric<F>, to: u8) -> bool
        requires { to < F.table.count }
        ensures { Probes (mail_word F.table self.old.part.node to) to self.old result self.new }
    {
        if self.probed.has(to) {
            return true;
        }
        let found = probe_here::<F, Brand>(self.state.number(), &mut self.seat, fabric, to);
        if found != 0 {
            return false;
        }
        self.probed.add(to);
        true
    }

    /// Posts what waits for a node into its mailbox, which was taken by a probe: all of it in a table whose link words come back, and else the
    /// first message. It takes no memory, and is never refused.
    ///
    /// So `cell.mail_post(&fabric, 1)` stands behind a `mail_probe` of node 1 that answered true, if a message waits for that node.
    #[inline(always)]
    pub fn mail_post(&mut self, fabric: &Fabric<F>, to: u8)
        requires to { to < F.table.count }
        requires probed { has_number self.old.part.probed to ≡ true }
        requires mail { has_mail_for self.old.part.state to ≡ true }
        ensures part { self.new.part ≡ posted_part F.table to self.old.part }
        ensures seen { self.new.seen ≡ self.old.seen }
    {
        self.post_by::<Waking>(fabric, to)
    }

    // Posts, and rings as R does.
    pub(crate) fn post_by<R: Ringer>(&mut self, fabric: &Fabric<F>, to: u8)
        requires to { to < F.table.count }
        requires probed { has_number self.old.part.probed to ≡ true }
        requires mail { has_mail_for self.old.part.state to ≡ true }
        ensures part { self.new.part ≡ posted_part F.table to self.old.part }
        ensures seen { self.new.seen ≡ self.old.seen }
    {
        let node = self.state.number();
        let slot = slot_of(fabric, node, to);
        let place = self.probed.take(to);
        turn_over(&mut self.seat, place);
        fill(&mut self.state, &mut self.seat, fabric, slot, to);
        post_here::<F, Brand>(node, &mut self.seat, fabric, to);
        R::ring(&fabric.bells, to);
        let behind = self.probed.len() - place;
        turn_over(&mut self.seat, behind + self.held.len());
    }

    /// Takes a message of another node into the hand: the next of those that came with an earlier one and are left, or the first of a full
    /// mailbox. It answers false only if none is left and the mailbox was found at another value than 1. It takes no memory.
    ///
    /// It is never refused.
    ///
    /// Where node 0 has posted a message, `cell.mail_look(&fabric, 0)` is true.
    #[inline(always)]
    pub fn mail_look(&mut self, fabric: &Fabric<F>, from: u8) -> bool
        requires from { from < F.table.count }
        requires idle { self.old.part.state.hand ≡ None }
        ensures { Looks (mail_word F.table from self.old.part.node) from self.old result self.new }
    {
        if self.held.has(from) {
            self.look_on(fabric, from);
            return true;
        }
        let node = self.state.number();
        let found = look_here::<F, Brand>(node, &mut self.seat, fabric, from);
        if found != 1 {
            return false;
        }
        let slot = slot_of(fabric, from, node);
        take_out(&mut self.seat, fabric, slot, &mut self.message);
        turn_over(&mut self.seat, 1);
        self.held.push(from);
        self.state.look(from);
        true
    }

    // Takes the next message of a batch into the hand, of which the seat has the slot.
    fn look_on(&mut self, fabric: &Fabric<F>, from: u8)
        requires from { from < F.table.count }
        requires idle { self.old.part.state.hand ≡ None }
        requires left { has_batch self.old.part from ≡ true }
        ensures part { self.new.part ≡ looked_on_part from self.old.part }
        ensures seen { self.new.seen ≡ self.old.seen }
    {
        let node = self.state.number();
        let slot = slot_of(fabric, from, node);
        let many = self.held.len();
        let place = self.held.place_of(from);
        turn_over(&mut self.seat, self.probed.len() + place);
        take_out(&mut self.seat, fabric, slot, &mut self.message);
        look_on_here::<F, Brand>(node, &mut self.seat, fabric, from);
        turn_over(&mut self.seat, many - place);
        self.state.look(from);
    }

    // Rings for a message that was handled: whoever has sent it may post again, if it was the last of its batch.
    #[inline(always)]
    fn ring_handled<R: Ringer>(&self, fabric: &Fabric<F>, from: u8) {
        if !self.held.has(from) {
            R::ring(&fabric.bells, from);
        }
        R::ring(&fabric.news, self.state.number());
    }

    // Loads the word of the old link that the message in hand names, if it is an AcceptBypass, and tells the source. Another message
    // has none, and neither has an AcceptBypass whose old link has no word of the table: then nothing is loaded. By the rule of the table
    // there is no such AcceptBypass.
    fn load_source(&mut self, fabric: &Fabric<F>, from: u8) -> Option<u8>
        requires { self.old.part.state.hand ≡ Some from }
        ensures { LoadsSource F.table.size from self.old result self.new }
    {
        let Some(old) = old_word(&self.message) else {
            return None;
        };
        if old >= fabric.words {
            return None;
        }
        let found = source_here::<F, Brand>(&mut self.seat, fabric, from, old);
        source(found)
    }

    // Handles the message in hand where it stands, if it is an item without ends and moves that has its place here, and tells whether
    // it was one. For such an item there is no source.
    #[inline(always)]
    fn handle_lone(
        &mut self,
        fabric: &Fabric<F>,
        from: u8,
        source: Option<u8>,
    ) -> Result<bool, Refusal>
        requires hand { self.old.part.state.hand ≡ Some from }
        requires known { (x : MessageData) → self.old.part.message ≡ Some x → IsKnown F.table.size from x source }
        ensures taken { IfOk result (λ taken. taken ≡ true → self.new.part ≡ handed_part from source self.old.part) }
        ensures fit { IfOk result
            (λ taken. taken ≡ true → (x : MessageData) × (self.old.part.message ≡ Some x) × (is_unfit self.old.part.state from x source ≡ false)) }
        ensures left { IfOk result (λ taken. taken ≡ false → self.new ≡ self.old) }
        ensures why { IfErr result (λ e. (x : MessageData) × (self.old.part.message ≡ Some x) ×
            (e ≡ Refusal.OutOfMemory) × (message_lacks_serials self.old.part.state from x source ≡ false)) }
        ensures full { (x : MessageData) → self.old.part.message ≡ Some x → HasRoomToHandle (roomy self.old) from x source → IsOk result }
        ensures err { OnErr result (self.new.part ≡ self.old.part) }
        ensures seen { self.new.seen ≡ self.old.seen }
    {
        let node = self.state.number();
        let Some(message) = &mut self.message else {
            return Ok(false);
        };
        match self.state.deliver_at_once(from, message) {
            Ok(true) => {
                self.message = None;
                let probed = self.probed.len();
                leave_slot(
                    node,
                    probed,
                    &mut self.held,
                    &mut self.seat,
                    fabric,
                    from,
                    source,
                );
                Ok(true)
            }
            Ok(false) => Ok(false),
            Err(why) => Err(why),
        }
    }

    // Handles the message in hand, whatever it is, for which the source is known.
    #[inline(never)]
    fn handle_any(
        &mut self,
        fabric: &Fabric<F>,
        from: u8,
        source: Option<u8>,
    ) -> Result<Happened, Refusal>
        requires hand { self.old.part.state.hand ≡ Some from }
        requires known { (x : MessageData) → self.old.part.message ≡ Some x → IsKnown F.table.size from x source }
        ensures ok { OnOk result (self.new.part ≡ handed_part from source self.old.part) }
        ensures event { IfOk result
            (λ h. (x : MessageData) × (self.old.part.message ≡ Some x) × (h ≡ hand_event self.old.part.state from x source)) }
        ensures why { IfErr result (λ e. (x : MessageData) × (self.old.part.message ≡ Some x) ×
            (e ≡ (if message_lacks_serials self.old.part.state from x source then Refusal.NumbersEnd else Refusal.OutOfMemory))) }
        ensures full { (x : MessageData) → self.old.part.message ≡ Some x → HasRoomToHandle (roomy self.old) from x source →
            IfErr result (λ e. e ≢ Refusal.OutOfMemory) }
        ensures err { OnErr result (self.new.part ≡ self.old.part) }
        ensures seen { self.new.seen ≡ self.old.seen }
    {
        let node = self.state.number();
        let Some(message) = mem::replace(&mut self.message, None) else {
            unreachable!()
        };
        match self.state.deliver(from, message, source) {
            Ok(event) => {
                let probed = self.probed.len();
                leave_slot(
                    node,
                    probed,
                    &mut self.held,
                    &mut self.seat,
                    fabric,
                    from,
                    source,
                );
                Ok(event)
            }
            Err((why, message)) => {
                self.message = Some(message);
                Err(why)
            }
        }
    }

    /// Handles the message in hand. An AcceptBypass is taken only if the word of the old link names its sender as the source: one load
    /// of that word tells it.
    ///
    /// Refused `NumbersEnd` if the message fits and would make more routers than serials are left for, and `OutOfMemory` if there is no room for
    /// what it makes a router take and tell, or for a stray more if it doesn't fit, and none is found. A refused message stays in hand, and
    /// nothing but what was seen has changed.
    ///
    /// So `cell.mail_handle(&fabric, 0)` stands behind a `mail_look` of node 0 that answered true.
    pub fn mail_handle(&mut self, fabric: &Fabric<F>, from: u8) -> Result<Happened, Refusal>
        requires { self.old.part.state.hand ≡ Some from }
        ensures { Handles F.table.size from self.old result self.new }
    {
        self.handle_as::<Happened, Waking>(fabric, from)
    }

    // Handles the message in hand, first where it stands if it is an item, and rings as R does. T says whether what happened is told.
    #[inline(always)]
    pub(crate) fn handle_as<T: Told, R: Ringer>(
        &mut self,
        fabric: &Fabric<F>,
        from: u8,
    ) -> Result<T, Refusal>
        requires { self.old.part.state.hand ≡ Some from }
        ensures { IsTold T.tells (λ done. Handles F.table.size from self.old done self.new) result }
    {
        if let Some(told) = item_told(&self.message)
            && self.handle_lone(fabric, from, None)?
        {
            self.ring_handled::<R>(fabric, from);
            return Ok(told);
        }
        tell(self.handle_by::<R>(fabric, from))
    }

    // Handles, whatever message it is, and rings as R does.
    fn handle_by<R: Ringer>(&mut self, fabric: &Fabric<F>, from: u8) -> Result<Happened, Refusal>
        requires { self.old.part.state.hand ≡ Some from }
        ensures { Handles F.table.size from self.old result self.new }
    {
        let source = self.load_source(fabric, from);
        let handled = self.handle_any(fabric, from, source);
        if handled.is_ok() {
            self.ring_handled::<R>(fabric, from);
        }
        handled
    }
}
