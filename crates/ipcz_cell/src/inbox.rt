//! The inboxes of the nodes. An inbox is a word with a bit for each sender. A sender sets its bit before it posts, while it has the mailbox; the
//! receiver clears it while it has the last message of a batch in hand. So where the bit isn't set the mailbox isn't full, and one load tells it of all
//! senders.
ghost use Rattle.std.specs.Prelude.{◌≡◌, ◌≢◌, ◌≤◌, ◌<◌, ◌+◌, ◌*◌, ◌^◌, ℕ, ◌∷◌, [], true, false};
ghost use Rattle.std.specs.Int.{bit_at};
ghost use Rattle.ipcz_rule.specs.Rule.{announcing};
ghost use Rattle.ipcz_cell.specs.CellStates.{part_in};
ghost use Rattle.ipcz_cell.specs.Cells.{has_batch};
ghost use Rattle.ipcz_cell.specs.Mails.{inbox_word};
ghost use Rattle.ipcz_cell.specs.Outcomes.{IsPicked, peeked, announced, cleared};
ghost use Rattle.ipcz_cell.specs.Seats.{mine_of, SlotsStay};

use crate::fabric::{Fabric, FabricName};
use crate::plays::{Outcome, keep_step, load_step, set_step};
use crate::seat::TableSeat;
use std::marker::Brand;

// As long as no more bits are set than these, none is cleared: then a turn loads so many mailboxes at most, and the inbox isn't written, so that
// each processor keeps its copy.
const FEW_SENDERS: u32 = 4;

// How far behind the link words the inbox of a node is.
pub(crate) fn inbox_place<F: FabricName>(node: u8) -> usize
    requires { node < F.table.count }
    ensures word { F.table.size + result ≡ inbox_word F.table node }
    ensures behind { 1 ≤ result }
    ensures inside { result < 1 + F.table.count + F.table.count * F.table.count }
{
    1 + node as usize
}

// The bit of a sender.
fn bit_of(node: u8) -> u64
    requires { node < 64 }
    ensures { result ≡ 2 ^ node }
{
    1 << node
}

// All bits but that of a sender.
fn all_but(node: u8) -> u64
    requires { node < 64 }
    ensures others { (j : ℕ) → j < 64 → j ≢ node → bit_at result j ≡ 1 }
{
    !(1 << node)
}

// Whether the bit of a sender is set.
fn is_set(inbox: u64, from: u8) -> bool
    requires { from < 64 }
    ensures set { result ≡ true → bit_at inbox from ≡ 1 }
    ensures clear { (result ≡ true → ⊥) → bit_at inbox from ≡ 0 }
{
    inbox >> from & 1 == 1
}

// Loads the inbox of a node. X is what it tells.
fn peek_here<F: FabricName, X: Outcome>(
    node: u8,
    seat: &mut TableSeat,
    fabric: &Fabric<F>,
    to: u8,
) -> u64
    requires picked { IsPicked X.tells (peeked node to) }
    requires own { seat.old.table_id ≡ F.table.id }
    requires whole { seat.old.me.0.view.parts ≡ part_in seat.old.me.0.view ∷ [] }
    requires node { (part_in seat.old.me.0.view).node ≡ node }
    requires to { to < F.table.count }
    ensures table { seat.new.table_id ≡ seat.old.table_id }
    ensures done { peeked node to (mine_of seat.old.me) result (mine_of seat.new.me) }
    ensures slots { SlotsStay seat.old.me seat.new.me }
{
    let _node = node;
    load_step::<F, X>(seat, fabric, inbox_place::<F>(to))
}

// Sets the bit of a node in the inbox of another. X is what it tells.
fn set_here<F: FabricName, X: Outcome>(node: u8, seat: &mut TableSeat, fabric: &Fabric<F>, to: u8)
    requires picked { IsPicked X.tells (announced to) }
    requires own { seat.old.table_id ≡ F.table.id }
    requires whole { seat.old.me.0.view.parts ≡ part_in seat.old.me.0.view ∷ [] }
    requires node { ((part_in seat.old.me.0.view).node ≡ node) × (node < 64) }
    requires to { to < F.table.count }
    ensures table { seat.new.table_id ≡ seat.old.table_id }
    ensures done { (mine_of seat.new.me) ≡ (announcing to seat.old.me.0.view, seat.old.me.1) }
    ensures slots { SlotsStay seat.old.me seat.new.me }
{
    set_step::<F, X>(seat, fabric, inbox_place::<F>(to), bit_of(node));
}

// Clears the bit of a sender in the inbox of a node, which has the last message of that sender's batch in hand. X is what it tells.
fn clear_here<F: FabricName, X: Outcome>(
    node: u8,
    seat: &mut TableSeat,
    fabric: &Fabric<F>,
    from: u8,
)
    requires picked { IsPicked X.tells cleared }
    requires own { seat.old.table_id ≡ F.table.id }
    requires whole { seat.old.me.0.view.parts ≡ part_in seat.old.me.0.view ∷ [] }
    requires node { ((part_in seat.old.me.0.view).node ≡ node) × (node < F.table.count) }
    requires from { from < 64 }
    requires hand { (part_in seat.old.me.0.view).state.hand ≡ Some from }
    requires spent { has_batch (part_in seat.old.me.0.view) from ≡ false }
    ensures table { seat.new.table_id ≡ seat.old.table_id }
    ensures part { seat.new.me.0.view.parts ≡ seat.old.me.0.view.parts }
    ensures seen { seat.new.me.0.view.seen ≡ seat.old.me.0.view.seen }
    ensures caller { seat.new.me.0.view.caller ≡ seat.old.me.0.view.caller }
    ensures held { seat.new.me.1 ≡ seat.old.me.1 }
    ensures slots { SlotsStay seat.old.me seat.new.me }
{
    keep_step::<F, X>(seat, fabric, inbox_place::<F>(node), all_but(from));
}

/// Announces a message of a node to another: sets the node's bit in the other's inbox, unless a load finds it set.
pub(crate) fn announce<F: FabricName>(node: u8, seat: &mut TableSeat, fabric: &Fabric<F>, to: u8)
    requires own { seat.old.table_id ≡ F.table.id }
    requires whole { seat.old.me.0.view.parts ≡ part_in seat.old.me.0.view ∷ [] }
    requires node { ((part_in seat.old.me.0.view).node ≡ node) × (node < 64) }
    requires to { to < F.table.count }
    ensures table { seat.new.table_id ≡ seat.old.table_id }
    ensures done { (mine_of seat.new.me) ≡ (announcing to seat.old.me.0.view, seat.old.me.1) }
    ensures slots { SlotsStay seat.old.me seat.new.me }
{
    let found = peek_here::<F, Brand>(node, seat, fabric, to);
    if !is_set(found, node) {
        set_here::<F, Brand>(node, seat, fabric, to);
    }
}

/// Clears the bit of a sender in the inbox of a node, which has the last message of that sender's batch in hand, if more than a few bits are set there.
pub(crate) fn clear<F: FabricName>(node: u8, seat: &mut TableSeat, fabric: &Fabric<F>, from: u8)
    requires own { seat.old.table_id ≡ F.table.id }
    requires whole { seat.old.me.0.view.parts ≡ part_in seat.old.me.0.view ∷ [] }
    requires node { ((part_in seat.old.me.0.view).node ≡ node) × (node < F.table.count) }
    requires from { from < 64 }
    requires hand { (part_in seat.old.me.0.view).state.hand ≡ Some from }
    requires spent { has_batch (part_in seat.old.me.0.view) from ≡ false }
    ensures table { seat.new.table_id ≡ seat.old.table_id }
    ensures part { seat.new.me.0.view.parts ≡ seat.old.me.0.view.parts }
    ensures seen { seat.new.me.0.view.seen ≡ seat.old.me.0.view.seen }
    ensures caller { seat.new.me.0.view.caller ≡ seat.old.me.0.view.caller }
    ensures held { seat.new.me.1 ≡ seat.old.me.1 }
    ensures slots { SlotsStay seat.old.me seat.new.me }
{
    let found = peek_here::<F, Brand>(node, seat, fabric, node);
    if found.count_ones() > FEW_SENDERS {
        clear_here::<F, Brand>(node, seat, fabric, from);
    }
}
