//! The calls on cells that C makes; `include/ipcz_portals.h` says what each is for, and what C must uphold.
//!
//! A handle that has no cell is answered `NOT_CREATED`, 0 or `false`. C passes nothing for `alloc`. Each call names the table of its cell
//! anew, by the type `Brand`: its proof says which table that is.
ghost use Rattle.std.specs.Prelude.{◌≡◌, ◌<◌, None, Some, IsSome, IfOk, IfErr, if◌then◌else◌, true, false, length};
ghost use Rattle.std.specs.Option.{IsNone};
ghost use Rattle.ipcz_base.specs.Refusals.{code_of};
ghost use Rattle.ipcz_node.specs.Node.{holds_end};
ghost use Rattle.ipcz_cell.specs.Opens.{FindsQuiet};
ghost use Rattle.ipcz_c.specs.Named.{named};
ghost use Rattle.ipcz_c.specs.Statuses.{not_created, already_created};
ghost use Rattle.ipcz_c.specs.Told.{room_of, fits, TellsSizes};
ghost use Rattle.ipcz_c.specs.Calls.{IsRefused, is_within, has_slots, LacksRoom};
ghost use Rattle.ipcz_c.specs.Looks.{CellLooks, HasArrivedAt};
ghost use Rattle.ipcz_c.specs.Ready.{CellFindsReady};
ghost use Rattle.ipcz_c.specs.CellSteps.{CountsClaimed};
ghost use Rattle.ipcz_c.specs.HeldCells.{HeldCell, Moves, cell_sizes};
ghost use Rattle.ipcz_c.specs.CellCalls.{CellOpens, CellPuts, CellGets, CellCloses, CellActs, CellRetries, CellReads, are_vacant, CellsAreMade, CellsLast};

use crate::cell_handle::CellHandle;
use crate::cell_making::{are_vacant, seat};
use crate::making::{are_within, have_slots, lists_of};
use crate::portal::{Portal, Seen};
use crate::status::{ALREADY_CREATED, NOT_CREATED, TOO_SMALL, refused, status};
use crate::tell::{
    got, lacking, outcome, retried, tell_arrived, tell_ends, tell_got, tell_number, tell_ready,
    tell_seen, tell_sizes,
};
use ipcz_base::{Profile, Refusal};
use ipcz_cell::{NodeSet, start, start_lasting};
use std::alloc::Global;
use std::marker::Brand;

// How many nodes the table has whose cells these handles get; or the status of what stands against it.
fn node_count(cells: &[CellHandle]) -> Result<u8, u32>
    ensures nodes { IfOk result (λ n. (n ≡ length cells.now) × (are_vacant cells.now ≡ true)) }
    ensures why { IfErr result (λ status. status ≡ (if are_vacant cells.now then code_of Refusal.TooMany else already_created)) }
    ensures many { IfErr result (λ status. are_vacant cells.now ≡ true → 255 < length cells.now) }
{
    if !are_vacant(cells) {
        return Err(ALREADY_CREATED);
    }
    match u8::try_from(cells.len()) {
        Ok(nodes) => Ok(nodes),
        Err(_) => Err(refused(Refusal::TooMany)),
    }
}

/// Makes a table of so many words, and a node for each handle.
#[unsafe(no_mangle)]
#[tactic(auto, using(crate::proofs::SameOwner::brand_only))]
pub extern "C" fn ipcz_cells_create(alloc: Global, words: u32, cells: &mut [CellHandle]) -> u32
    ensures made { are_vacant cells.old ≡ true → is_within (length cells.old) words ≡ true → CellsAreMade words cells.old result cells.new }
    ensures many { are_vacant cells.old ≡ true → is_within (length cells.old) words ≡ false →
        IsRefused (code_of Refusal.TooMany) cells.old result cells.new }
    ensures held { are_vacant cells.old ≡ false → IsRefused already_created cells.old result cells.new }
{
    let nodes = match node_count(cells) {
        Ok(nodes) => nodes,
        Err(status) => return status,
    };
    if !are_within(nodes, words) {
        return refused(Refusal::TooMany);
    }
    match start(alloc, nodes, words) {
        Ok(blank) => outcome(seat::<Brand>(alloc, blank, cells)),
        Err(why) => refused(why),
    }
}

/// Makes the cells of a table whose link words come back, with so many slots for links, one cell for each node.
#[unsafe(no_mangle)]
#[tactic(auto, using(crate::proofs::SameOwner::brand_only))]
pub extern "C" fn ipcz_cells_create_lasting(
    alloc: Global,
    slots: u32,
    cells: &mut [CellHandle],
) -> u32
    ensures made { are_vacant cells.old ≡ true → has_slots (length cells.old) slots ≡ true → CellsLast slots cells.old result cells.new }
    ensures many { are_vacant cells.old ≡ true → has_slots (length cells.old) slots ≡ false →
        IsRefused (code_of Refusal.TooMany) cells.old result cells.new }
    ensures held { are_vacant cells.old ≡ false → IsRefused already_created cells.old result cells.new }
{
    let nodes = match node_count(cells) {
        Ok(nodes) => nodes,
        Err(status) => return status,
    };
    if !have_slots(nodes, slots) {
        return refused(Refusal::TooMany);
    }
    match start_lasting(alloc, nodes, slots, u64::MAX) {
        Ok(blank) => outcome(seat::<Brand>(alloc, blank, cells)),
        Err(why) => refused(why),
    }
}

/// Gives the cell up, with all that its node keeps; the handle has none then.
#[unsafe(no_mangle)]
#[tactic(auto, using(crate::proofs::SameOwner::brand_only))]
pub extern "C" fn ipcz_cell_destroy(alloc: Global, of: &mut CellHandle)
    ensures { of.new.held.cell ≡ None }
{
    if of.has_cell {
        of.give_up::<Brand>(alloc);
    }
}

/// Opens a new pair of portals on the node.
#[unsafe(no_mangle)]
#[tactic(auto, using(crate::proofs::SameOwner::brand_only))]
pub extern "C" fn ipcz_cell_open(
    alloc: Global,
    of: &mut CellHandle,
    first: &mut Portal,
    second: &mut Portal,
) -> u32
    ensures did { IsSome of.old.held.cell →
        CellOpens of.old.held.cell result first.old second.old first.new second.new of.new.held.cell }
    ensures none { IsNone of.old.held.cell → IsRefused not_created of.old.held.cell result of.new.held.cell
        × (first.new ≡ first.old) × (second.new ≡ second.old) }
{
    if !of.has_cell {
        return NOT_CREATED;
    }
    let answer = of.open::<Brand>(alloc);
    tell_ends(answer, first, second)
}

/// Puts a parcel of printed bytes at a portal of the node: these bytes, and these portals of the node.
#[unsafe(no_mangle)]
pub extern "C" fn ipcz_cell_put_parcel(
    alloc: Global,
    of: &mut CellHandle,
    at: Portal,
    bytes: &[u8],
    portals: &[Portal],
    number: &mut u64,
) -> u32
    ensures did { IsSome of.old.held.cell →
        CellPuts Profile.Printed of.old.held.cell at bytes.now portals.now result number.old number.new of.new.held.cell }
    ensures none { IsNone of.old.held.cell → IsRefused not_created of.old.held.cell result of.new.held.cell × (number.new ≡ number.old) }
{
    put_as(alloc, Profile::Printed, of, at, bytes, portals, number)
}

/// Puts a parcel of up to 65,536 bytes of any value.
#[unsafe(no_mangle)]
pub extern "C" fn ipcz_cell_put_wide_parcel(
    alloc: Global,
    of: &mut CellHandle,
    at: Portal,
    bytes: &[u8],
    portals: &[Portal],
    number: &mut u64,
) -> u32
    ensures did { IsSome of.old.held.cell →
        CellPuts Profile.Wide of.old.held.cell at bytes.now portals.now result number.old number.new of.new.held.cell }
    ensures none { IsNone of.old.held.cell → IsRefused not_created of.old.held.cell result of.new.held.cell × (number.new ≡ number.old) }
{
    put_as(alloc, Profile::Wide, of, at, bytes, portals, number)
}

// Puts a parcel of a profile.
#[tactic(auto, using(crate::proofs::SameOwner::brand_only))]
fn put_as(
    alloc: Global,
    profile: Profile,
    of: &mut CellHandle,
    at: Portal,
    bytes: &[u8],
    portals: &[Portal],
    number: &mut u64,
) -> u32
    ensures did { IsSome of.old.held.cell →
        CellPuts profile of.old.held.cell at bytes.now portals.now result number.old number.new of.new.held.cell }
    ensures none { IsNone of.old.held.cell → IsRefused not_created of.old.held.cell result of.new.held.cell × (number.new ≡ number.old) }
{
    if !of.has_cell {
        return NOT_CREATED;
    }
    match lists_of(alloc, bytes, portals) {
        Ok((bytes, ends)) => {
            let answer = of.put::<Brand>(alloc, profile, at.end(), bytes, ends);
            tell_number(answer, number)
        }
        Err(_) => refused(Refusal::OutOfMemory),
    }
}

/// Whether a get at a portal of the node would give a parcel; then its sizes are written. Nothing is taken.
#[unsafe(no_mangle)]
#[tactic(auto, using(crate::proofs::SameOwner::brand_only), unfolding(crate::specs::HeldCells::cell_sizes, crate::specs::Told::TellsSizes))]
pub extern "C" fn ipcz_cell_next_sizes(
    alloc: Global,
    of: &mut CellHandle,
    at: Portal,
    size: &mut usize,
    count: &mut usize,
) -> bool
    ensures told { TellsSizes (cell_sizes of.old.held.cell (named at)) result size.old count.old size.new count.new }
    ensures same { of.new.held.cell ≡ of.old.held.cell }
{
    if !of.has_cell {
        return false;
    }
    let next = of.next_sizes::<Brand>(alloc, at.end());
    tell_sizes(next, size, count)
}

/// What gets at a portal of the node would answer, one after the other. Nothing is taken.
#[unsafe(no_mangle)]
#[tactic(auto, using(crate::proofs::SameOwner::brand_only))]
pub extern "C" fn ipcz_cell_look(
    alloc: Global,
    of: &mut CellHandle,
    at: Portal,
    seen: &mut Seen,
) -> u32
    ensures did { IsSome of.old.held.cell → CellLooks of.old.held.cell at result seen.old seen.new }
    ensures same { of.new.held.cell ≡ of.old.held.cell }
    ensures none { IsNone of.old.held.cell → (result ≡ not_created) × (seen.new ≡ seen.old) }
{
    if !of.has_cell {
        return NOT_CREATED;
    }
    let answer = of.look::<Brand>(alloc, at.end());
    tell_seen(answer, seen)
}

/// Whether a portal of the node has arrived, so that it leaves at most one proxy in its route if it travels on now.
#[unsafe(no_mangle)]
#[tactic(auto, using(crate::proofs::SameOwner::brand_only))]
pub extern "C" fn ipcz_cell_has_arrived(
    alloc: Global,
    of: &mut CellHandle,
    at: Portal,
    arrived: &mut bool,
) -> u32
    ensures did { HasArrivedAt of.old.held.cell at result arrived.old arrived.new }
    ensures same { of.new.held.cell ≡ of.old.held.cell }
    ensures none { IsNone of.old.held.cell → (result ≡ not_created) × (arrived.new ≡ arrived.old) }
{
    if !of.has_cell {
        return NOT_CREATED;
    }
    let answer = of.has_arrived::<Brand>(alloc, at.end());
    tell_arrived(answer, arrived)
}

/// The next portal of the node, from a serial on, at which a get wouldn't be `Empty`, and from which serial to ask for the one behind it.
#[unsafe(no_mangle)]
#[tactic(auto, using(crate::proofs::SameOwner::brand_only))]
pub extern "C" fn ipcz_cell_next_ready(
    alloc: Global,
    of: &mut CellHandle,
    from: &mut u64,
    at: &mut Portal,
) -> u32
    ensures did { IsSome of.old.held.cell → CellFindsReady of.old.held.cell result from.old from.new at.old at.new }
    ensures same { of.new.held.cell ≡ of.old.held.cell }
    ensures none { IsNone of.old.held.cell → (result ≡ not_created) × (from.new ≡ from.old) × (at.new ≡ at.old) }
{
    if !of.has_cell {
        return NOT_CREATED;
    }
    let answer = of.ready_from::<Brand>(alloc, *from);
    tell_ready(answer, from, at)
}

/// Gets the next parcel at a portal of the node.
#[unsafe(no_mangle)]
#[tactic(auto, using(crate::proofs::SameOwner::brand_only))]
pub extern "C" fn ipcz_cell_get_parcel(
    alloc: Global,
    of: &mut CellHandle,
    at: Portal,
    bytes: &mut [u8],
    size: &mut usize,
    portals: &mut [Portal],
    count: &mut usize,
    number: &mut u64,
) -> u32
    ensures did { IsSome of.old.held.cell →
        fits (cell_sizes of.old.held.cell (named at)) (length bytes.old) (length portals.old) ≡ true →
        CellGets of.old.held.cell at result
        (room_of bytes.old size.old portals.old count.old number.old)
        (room_of bytes.new size.new portals.new count.new number.new) of.new.held.cell }
    ensures small { IsSome of.old.held.cell →
        fits (cell_sizes of.old.held.cell (named at)) (length bytes.old) (length portals.old) ≡ false →
        LacksRoom of.old.held.cell (cell_sizes of.old.held.cell (named at)) result
        (room_of bytes.old size.old portals.old count.old number.old)
        (room_of bytes.new size.new portals.new count.new number.new) of.new.held.cell }
    ensures none { IsNone of.old.held.cell → IsRefused not_created of.old.held.cell result of.new.held.cell
        × (room_of bytes.new size.new portals.new count.new number.new ≡ room_of bytes.old size.old portals.old count.old number.old) }
{
    if !of.has_cell {
        return NOT_CREATED;
    }
    let end = at.end();
    let next = of.next_sizes::<Brand>(alloc, end);
    if let Some(sizes) = lacking(next, bytes.len(), portals.len()) {
        *size = sizes.bytes;
        *count = sizes.ends;
        return TOO_SMALL;
    }
    let answer = of.get::<Brand>(alloc, end);
    let reply = got(answer);
    tell_got(&reply, bytes, size, portals, count, number);
    status(&reply)
}

/// Closes a portal of the node.
#[unsafe(no_mangle)]
#[tactic(auto, using(crate::proofs::SameOwner::brand_only))]
pub extern "C" fn ipcz_cell_close(alloc: Global, of: &mut CellHandle, at: Portal) -> u32
    ensures did { IsSome of.old.held.cell → CellCloses of.old.held.cell at result of.new.held.cell }
    ensures none { IsNone of.old.held.cell → IsRefused not_created of.old.held.cell result of.new.held.cell }
{
    if !of.has_cell {
        return NOT_CREATED;
    }
    let answer = of.close::<Brand>(alloc, at.end());
    outcome(answer)
}

/// Takes turns of the node until it has no act, or so many were taken, and tells which nodes these have touched.
#[unsafe(no_mangle)]
#[tactic(auto, using(crate::proofs::SameOwner::brand_only))]
pub extern "C" fn ipcz_cell_acts_touching(
    alloc: Global,
    of: &mut CellHandle,
    limit: u64,
    acts: &mut u64,
    touched: &mut u64,
) -> u32
    ensures did { IsSome of.old.held.cell → CellActs limit of.old.held.cell result acts.old acts.new touched.new of.new.held.cell }
    ensures none { IsNone of.old.held.cell →
        IsRefused not_created of.old.held.cell result of.new.held.cell × (acts.new ≡ acts.old) × (touched.new ≡ touched.old) }
{
    if !of.has_cell {
        return NOT_CREATED;
    }
    let mut nodes = NodeSet::none();
    let answer = of.acts::<Brand>(alloc, limit, &mut nodes);
    *touched = nodes.bits();
    tell_number(answer, acts)
}

/// Whether the node has nothing to do, for the mailboxes as they are found.
#[unsafe(no_mangle)]
#[tactic(auto, using(crate::proofs::SameOwner::brand_only))]
pub extern "C" fn ipcz_cell_quiet(alloc: Global, of: &mut CellHandle) -> bool
    ensures did { IsSome of.old.held.cell → Moves (λ t c d. FindsQuiet t c result d) of.old.held.cell of.new.held.cell }
    ensures none { IsNone of.old.held.cell → (result ≡ false) × (of.new.held.cell ≡ of.old.held.cell) }
{
    if !of.has_cell {
        return false;
    }
    of.quiet::<Brand>(alloc)
}

/// Lets a proxy of the node ask again for the slot of its bypass: 0 if none waits for one, 1 if one waits and no slot is to be had, and 2 if
/// it asks again.
#[unsafe(no_mangle)]
#[tactic(auto, using(crate::proofs::SameOwner::brand_only))]
pub extern "C" fn ipcz_cell_retry(alloc: Global, of: &mut CellHandle) -> u32
    ensures did { IsSome of.old.held.cell → CellRetries of.old.held.cell result of.new.held.cell }
    ensures none { IsNone of.old.held.cell → (result ≡ 0) × (of.new.held.cell ≡ of.old.held.cell) }
{
    if !of.has_cell {
        return 0;
    }
    retried(of.retry::<Brand>(alloc))
}

/// How many link words of the table were claimed, when their count was loaded.
#[unsafe(no_mangle)]
#[tactic(auto, using(crate::proofs::SameOwner::brand_only))]
pub extern "C" fn ipcz_cell_claimed(alloc: Global, of: &mut CellHandle) -> u64
    ensures did { IsSome of.old.held.cell → Moves (λ t c d. CountsClaimed t.size c result d) of.old.held.cell of.new.held.cell }
    ensures none { IsNone of.old.held.cell → (result ≡ 0) × (of.new.held.cell ≡ of.old.held.cell) }
{
    if !of.has_cell {
        return 0;
    }
    of.claimed::<Brand>(alloc)
}

/// Whether a link word was claimed, when their count was loaded; then its number, as it was loaded, is written.
#[unsafe(no_mangle)]
#[tactic(auto, using(crate::proofs::SameOwner::brand_only))]
pub extern "C" fn ipcz_cell_word(alloc: Global, of: &mut CellHandle, i: u64, word: &mut u64) -> bool
    ensures did { IsSome of.old.held.cell → CellReads i of.old.held.cell result word.old word.new of.new.held.cell }
    ensures none { IsNone of.old.held.cell → (result ≡ false) × (word.new ≡ word.old) × (of.new.held.cell ≡ of.old.held.cell) }
{
    if !of.has_cell {
        return false;
    }
    match of.word::<Brand>(alloc, i) {
        Some(n) => {
            *word = n;
            true
        }
        None => false,
    }
}

/// Whether the callers of the node hold a portal.
#[unsafe(no_mangle)]
#[tactic(auto, using(crate::proofs::SameOwner::brand_only))]
pub extern "C" fn ipcz_cell_holds(alloc: Global, of: &mut CellHandle, portal: Portal) -> bool
    ensures did { (c : HeldCell) → of.old.held.cell ≡ Some c → result ≡ holds_end c.cell.part.state (named portal) }
    ensures none { IsNone of.old.held.cell → result ≡ false }
    ensures same { of.new.held.cell ≡ of.old.held.cell }
{
    if !of.has_cell {
        return false;
    }
    of.holds::<Brand>(alloc, portal.end())
}

/// Whether the handle has a cell; then the number of its node is written.
#[unsafe(no_mangle)]
#[tactic(auto, using(crate::proofs::SameOwner::brand_only))]
pub extern "C" fn ipcz_cell_node(alloc: Global, of: &mut CellHandle, node: &mut u8) -> bool
    ensures did { (c : HeldCell) → of.old.held.cell ≡ Some c → (result ≡ true) × (node.new ≡ c.cell.part.node) }
    ensures none { IsNone of.old.held.cell → (result ≡ false) × (node.new ≡ node.old) }
    ensures same { of.new.held.cell ≡ of.old.held.cell }
{
    if !of.has_cell {
        return false;
    }
    *node = of.node::<Brand>(alloc);
    true
}
