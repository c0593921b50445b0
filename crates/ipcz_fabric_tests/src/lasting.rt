//! Tables whose link words come back: many more pairs are opened, moved and closed than there are slots for their links.
ghost use Rattle.std.specs.Prelude.{◌≡◌};

use crate::cell_tables::{named, put};
use crate::closes::{both_close, close_all};
use crate::hub_tables::{both, hub_of};
use crate::hubs::moves_and_closes;
use ipcz_base::{End, Refusal, Side};
use ipcz_cell::{Blank, Fabric, FabricName, NodeCell, finish, start_lasting};
use ipcz_fabric::{Hub, Portal};
use std::alloc::Global;
use std::marker::Brand;
use std::sync::Wait;
use std::test::Fail;
use std::thread::{Threads, join};

/// How many requests are made; each opens a pair, and moves an end of it.
const REQUESTS: u64 = 100_000;

/// How many slots there are for links: for the pair that the requests go over, for that of a request, and for its bypass.
const SLOTS: u32 = 3;

/// How many numbers links can have: enough for all requests.
const NUMBERS: u64 = u64::MAX;

/// How often a portal goes to the other node and back.
const LAPS: u64 = 50_000;

const PASSES: u64 = 1000;

/// The end of the first pair at the first node.
pub(crate) const LEFT: End = End {
    pair: 0,
    side: Side::A,
};

/// The end of the first pair at the second node.
pub(crate) const RIGHT: End = End {
    pair: 0,
    side: Side::B,
};

/// Whether both come to rest.
pub(crate) fn come_to_rest<F: FabricName>(
    fabric: &Fabric<F>,
    left: &mut NodeCell<F>,
    right: &mut NodeCell<F>,
) -> bool {
    for _pass in 0..PASSES {
        let (Ok(by_left), Ok(by_right)) = (left.acts(fabric, PASSES), right.acts(fabric, PASSES))
        else {
            return false;
        };
        if by_left == 0 && by_right == 0 {
            return true;
        }
    }
    false
}

// Whether a request comes with a portal for its answer, which is answered there and closed.
fn answers<F: FabricName>(fabric: &Fabric<F>, cell: &mut NodeCell<F>, alloc: Global) -> bool {
    let Ok((_, request)) = cell.get(fabric, RIGHT) else {
        return false;
    };
    let Some(end) = request.ends.as_slice().first().copied() else {
        return false;
    };
    put(fabric, cell, alloc, end, b"yes", &[]).is_some() && cell.close(fabric, end).is_ok()
}

// Whether the answer comes to the end that was kept, which is closed then.
fn hears<F: FabricName>(fabric: &Fabric<F>, cell: &mut NodeCell<F>, kept: End) -> bool {
    let Ok((_, answer)) = cell.get(fabric, kept) else {
        return false;
    };
    answer.bytes.as_slice() == b"yes".as_slice()
        && matches!(cell.get(fabric, kept), Err(Refusal::PeerClosed))
        && cell.close(fabric, kept).is_ok()
}

// Whether a request with a fresh portal is answered, and nothing of it is left to do.
fn request<F: FabricName>(
    fabric: &Fabric<F>,
    left: &mut NodeCell<F>,
    right: &mut NodeCell<F>,
    alloc: Global,
) -> bool {
    let Ok((kept, sent)) = left.open_pair(fabric) else {
        return false;
    };
    put(fabric, left, alloc, LEFT, b"is it so?", &[sent]).is_some()
        && come_to_rest(fabric, left, right)
        && answers(fabric, right, alloc)
        && come_to_rest(fabric, left, right)
        && hears(fabric, left, kept)
        && come_to_rest(fabric, left, right)
}

// How many link words all requests have claimed, if each was answered.
fn requests<F: FabricName>(
    fabric: &Fabric<F>,
    cells: &mut [NodeCell<F>],
    alloc: Global,
) -> Option<u64> {
    let [left, right] = cells else {
        return None;
    };
    for _request in 0..REQUESTS {
        if !request(fabric, left, right, alloc) {
            return None;
        }
    }
    Some(left.claimed(fabric))
}

fn claimed_by_requests<F: FabricName>(blank: Blank, alloc: Global) -> Option<u64>
    requires { blank ≡ F.table }
{
    let mut it = named::<F>(blank)?;
    requests(&it.fabric, it.cells.as_mut_slice(), alloc)
}

#[test]
fn a_request_with_a_portal_for_its_answer_works_for_ever(rt: HostRuntime) -> Result<(), Fail> {
    let blank = start_lasting(rt.alloc(), 2, SLOTS, NUMBERS)?;
    let claimed = claimed_by_requests::<Brand>(blank, rt.alloc());
    // The pair that is there at the start; then each request's pair and its bypass, with no number passed over or more.
    assert!(rt; claimed.is_some_and(|count| count > 2 * REQUESTS));
    Ok(())
}

// The end that comes with the next parcel at another.
fn end_got<F: FabricName>(fabric: &Fabric<F>, cell: &mut NodeCell<F>, at: End) -> Option<End> {
    match cell.get(fabric, at) {
        Ok((_, parcel)) => parcel.ends.as_slice().first().copied(),
        Err(_) => None,
    }
}

// The end that comes with the next parcel at another, sent on at a third.
fn passes_on<F: FabricName>(
    fabric: &Fabric<F>,
    cell: &mut NodeCell<F>,
    alloc: Global,
    at: End,
) -> Option<()> {
    let end = end_got(fabric, cell, at)?;
    put(fabric, cell, alloc, at, b"on", &[end])?;
    Some(())
}

// Whether a portal goes to the other node and back.
fn goes_and_comes<F: FabricName>(
    fabric: &Fabric<F>,
    left: &mut NodeCell<F>,
    right: &mut NodeCell<F>,
    alloc: Global,
) -> bool {
    come_to_rest(fabric, left, right)
        && passes_on(fabric, right, alloc, RIGHT).is_some()
        && come_to_rest(fabric, left, right)
        && passes_on(fabric, left, alloc, LEFT).is_some()
}

// Whether the parcel has come that was put for it.
fn has_come<F: FabricName>(fabric: &Fabric<F>, cell: &mut NodeCell<F>, at: End) -> bool {
    match cell.get(fabric, at) {
        Ok((_, parcel)) => parcel.bytes.as_slice() == b"there".as_slice(),
        Err(_) => false,
    }
}

// Whether a portal goes to the other node and back so many times, and then has a parcel that was put for it.
fn travels<F: FabricName>(
    fabric: &Fabric<F>,
    left: &mut NodeCell<F>,
    right: &mut NodeCell<F>,
    alloc: Global,
) -> Option<bool> {
    let (kept, sent) = left.open_pair(fabric).ok()?;
    put(fabric, left, alloc, LEFT, b"on", &[sent])?;
    for _lap in 0..LAPS {
        if !goes_and_comes(fabric, left, right, alloc) {
            return None;
        }
    }
    put(fabric, left, alloc, kept, b"there", &[])?;
    let rests = come_to_rest(fabric, left, right);
    let end = end_got(fabric, right, RIGHT)?;
    Some(rests && has_come(fabric, right, end))
}

// The same between two cells.
fn both_pass<F: FabricName>(
    fabric: &Fabric<F>,
    cells: &mut [NodeCell<F>],
    alloc: Global,
) -> Option<bool> {
    match cells {
        [left, right] => travels(fabric, left, right, alloc),
        _ => None,
    }
}

fn travelled<F: FabricName>(blank: Blank, alloc: Global) -> Option<bool>
    requires { blank ≡ F.table }
{
    let mut it = named::<F>(blank)?;
    both_pass(&it.fabric, it.cells.as_mut_slice(), alloc)
}

#[test]
fn a_portal_travels_for_ever(rt: HostRuntime) -> Result<(), Fail> {
    let blank = start_lasting(rt.alloc(), 2, SLOTS, NUMBERS)?;
    assert!(rt; travelled::<Brand>(blank, rt.alloc()) == Some(true));
    Ok(())
}

// How many of so many pairs are moved from one portal's node to the other's and closed, one after the other.
fn closed_between<F: FabricName, R: Wait>(
    rt: &R,
    alloc: Global,
    hub: &Hub<F>,
    (here, there): (&Portal<F>, &Portal<F>),
    pairs: u64,
) -> u64 {
    for done in 0..pairs {
        if moves_and_closes(rt, hub, alloc, here, there) != Some((0, 0)) {
            return done;
        }
    }
    pairs
}

// The same, with the first portals of a hub.
fn closed_of_firsts<F: FabricName, R: Wait>(
    rt: &R,
    alloc: Global,
    hub: &Hub<F>,
    portals: Vec<Portal<F>>,
    pairs: u64,
) -> Option<u64> {
    let (here, there) = both(portals)?;
    Some(closed_between(rt, alloc, hub, (&here, &there), pairs))
}

// How many of so many pairs of a hub, one after the other, are moved to the other node and closed.
fn closed_one_by_one<F: FabricName, R: Wait>(
    rt: &R,
    alloc: Global,
    blank: Blank,
    pairs: u64,
) -> Option<u64>
    requires { blank ≡ F.table }
{
    let (hub, portals) = hub_of::<F>(blank)?;
    closed_of_firsts(rt, alloc, &hub, portals, pairs)
}

#[test]
fn a_hub_opens_and_closes_pairs_for_ever(rt: HostRuntime) -> Result<(), Fail> {
    let blank = start_lasting(rt.alloc(), 2, 8, NUMBERS)?;
    assert!(rt; closed_one_by_one::<Brand, _>(&rt, rt.alloc(), blank, 20_000) == Some(20_000));
    Ok(())
}

// How many link words are claimed once two threads, each with a cell of its own, have opened, moved and closed so many pairs, and all has come to rest.
fn claimed_behind<F: FabricName + Send + Sync, R: Threads>(
    rt: &R,
    alloc: Global,
    fabric: &Fabric<F>,
    cells: &mut [NodeCell<F>],
    pairs: u64,
) -> Option<u64> {
    if !close_all(rt, alloc, fabric, cells, pairs) {
        return None;
    }
    Some(cells.first_mut()?.claimed(fabric))
}

// The same, with the cells of a table.
fn threads_close<F: FabricName + Send + Sync, R: Threads>(
    rt: &R,
    alloc: Global,
    blank: Blank,
    pairs: u64,
) -> Option<u64>
    requires { blank ≡ F.table }
{
    let mut it = named::<F>(blank)?;
    claimed_behind(rt, alloc, &it.fabric, it.cells.as_mut_slice(), pairs)
}

#[test]
fn two_threads_close_more_pairs_than_there_are_slots(rt: HostRuntime) -> Result<(), Fail> {
    let blank = start_lasting(rt.alloc(), 2, 12, NUMBERS)?;
    let claimed = threads_close::<Brand, _>(&rt, rt.alloc(), blank, 2_000);
    assert!(rt; claimed.is_some_and(|count| count > 2_000));
    Ok(())
}

// Whether four threads, each with a cell of its own, two by two open, move and close so many pairs, with one claim count for all.
fn two_by_two<F: FabricName + Send + Sync, R: Threads + Sync>(
    rt: &R,
    alloc: Global,
    fabric: &Fabric<F>,
    first: &mut NodeCell<F>,
    second: &mut NodeCell<F>,
    third: &mut NodeCell<F>,
    fourth: &mut NodeCell<F>,
    pairs: u64,
) -> bool {
    let (left, right) = join(
        rt,
        || both_close(rt, alloc, fabric, first, second, 0, pairs),
        || both_close(rt, alloc, fabric, third, fourth, 5, pairs),
    );
    left && right
}

// The same of four cells.
fn all_close<F: FabricName + Send + Sync, R: Threads + Sync>(
    rt: &R,
    alloc: Global,
    fabric: &Fabric<F>,
    cells: &mut [NodeCell<F>],
    pairs: u64,
) -> bool {
    match cells {
        [first, second, third, fourth] => {
            two_by_two(rt, alloc, fabric, first, second, third, fourth, pairs)
        }
        _ => false,
    }
}

fn four_close<F: FabricName + Send + Sync, R: Threads + Sync>(
    rt: &R,
    alloc: Global,
    blank: Blank,
    pairs: u64,
) -> Option<bool>
    requires { blank ≡ F.table }
{
    let mut it = named::<F>(blank)?;
    Some(all_close(rt, alloc, &it.fabric, it.cells.as_mut_slice(), pairs))
}

#[test]
fn four_threads_close_more_pairs_than_there_are_slots(rt: HostRuntime) -> Result<(), Fail> {
    let blank = start_lasting(rt.alloc(), 4, 24, NUMBERS)?;
    assert!(rt; four_close::<Brand, _>(&rt, rt.alloc(), blank, 500) == Some(true));
    Ok(())
}

// Whether the first cell shows no link word.
fn shows_none<F: FabricName>(fabric: &Fabric<F>, cells: &mut [NodeCell<F>]) -> bool {
    match cells {
        [first, ..] => first.word(fabric, 0).is_none(),
        [] => false,
    }
}

// Why such a table gives no world.
fn gives_no_world<F: FabricName>(blank: Blank) -> Option<Refusal>
    requires { blank ≡ F.table }
{
    let mut it = named::<F>(blank)?;
    let none = shows_none(&it.fabric, it.cells.as_mut_slice());
    match finish(it.fabric, it.cells) {
        Err((why, _, _)) if none => Some(why),
        _ => None,
    }
}

#[test]
fn a_table_whose_words_come_back_shows_none(rt: HostRuntime) -> Result<(), Fail> {
    let blank = start_lasting(rt.alloc(), 2, SLOTS, NUMBERS)?;
    assert!(rt; gives_no_world::<Brand>(blank) == Some(Refusal::NoWord));
    Ok(())
}
