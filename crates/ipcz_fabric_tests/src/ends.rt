//! How a table ends: the way back from its cells to a world.
ghost use Rattle.std.specs.Prelude.{◌≡◌, ◌<◌};

use crate::cell_tables::{named, put, world_of};
use crate::opens::opens_and_claims;
use ipcz_base::{End, Refusal, Side};
use ipcz_cell::{Blank, Fabric, FabricName, NodeCell, finish, start};
use ipcz_node::Happened;
use ipcz_world::{Reply, Step, World};
use std::alloc::Global;
use std::marker::Brand;
use std::test::Fail;

// Why the cells of two nodes in the other order give no world, if the cells that come back give one in their order.
fn refused_first<F: FabricName>(blank: Blank) -> Option<Refusal>
    requires { blank ≡ F.table }
{
    let (fabric, mut cells) = blank.name::<F>().ok()?;
    cells.as_mut_slice().reverse();
    match finish(fabric, cells) {
        Ok(_) => None,
        Err((why, fabric, mut back)) => {
            back.as_mut_slice().reverse();
            finish(fabric, back).is_ok().then_some(why)
        }
    }
}

#[test]
fn cells_in_another_order_are_handed_back(rt: HostRuntime) -> Result<(), Fail> {
    let blank = start(rt.alloc(), 2, 4)?;
    assert!(rt; refused_first::<Brand>(blank) == Some(Refusal::Stranger));
    Ok(())
}

const A0: End = End {
    pair: 0,
    side: Side::A,
};

// Puts a parcel without bytes at the end 0A of a cell's node, and takes so many turns.
fn puts_and_acts<F: FabricName>(
    fabric: &Fabric<F>,
    cell: &mut NodeCell<F>,
    turns: u64,
    alloc: Global,
) -> bool {
    if put(fabric, cell, alloc, A0, &[], &[]).is_none() {
        return false;
    }
    for _turn in 0..turns {
        if cell.turn(fabric).is_err() {
            return false;
        }
    }
    true
}

// The reply to a turn of a node of a world. (Nothing is promised of it, so that what it is found to be says nothing of the world.)
fn turn(world: &mut World, node: u8) -> Reply {
    world.step(&Step::Turn(node))
}

// Whether a node of a world has nothing to do.
fn is_idle(world: &mut World, node: u8) -> bool {
    matches!(turn(world, node), Reply::Turned(Happened::Idle))
}

// Whether a node's next act in a world is a post to another.
fn posts(world: &mut World, node: u8, other: u8) -> bool {
    matches!(turn(world, node), Reply::Turned(Happened::Post(to)) if to == other)
}

// Whether a node's next act in a world is the hand of a message.
fn hands(world: &mut World, node: u8) -> bool {
    matches!(turn(world, node), Reply::Turned(Happened::Hand { .. }))
}

// Whether the reply is that the pair 2 was opened.
fn is_pair_2(reply: &Reply) -> bool {
    match reply {
        Reply::Opened(a, b) => a.pair == 2 && *b == a.opposite(),
        _ => false,
    }
}

// Whether an open on the first node of a world gives the pair 2 by the word 2, which was claimed for it and was empty till then.
fn opens_by_claim(world: &mut World) -> bool {
    if world.claimed() != 3 || world.word(2) != Some(0) {
        return false;
    }
    let reply = world.step(&Step::Open(0));
    is_pair_2(&reply) && world.word(2) == Some(3) && world.claimed() == 3
}

// Whether the first cell opens the pair 1 and then claims the word 2 for an open by itself.
fn first_claims<F: FabricName>(fabric: &Fabric<F>, cells: &mut [NodeCell<F>]) -> bool {
    match cells {
        [first, _] => opens_and_claims(fabric, first, 1, 2),
        _ => false,
    }
}

// Whether the first cell sends a parcel, and then takes the mailbox to the other node.
fn first_probes<F: FabricName>(fabric: &Fabric<F>, cells: &mut [NodeCell<F>], alloc: Global) -> bool
    requires { 1 < F.table.count }
{
    match cells {
        [first, _] => puts_and_acts(fabric, first, 1, alloc) && first.mail_probe(fabric, 1),
        _ => false,
    }
}

// Whether a cell's next act is a look at the mailbox of the first node.
fn looks<F: FabricName>(fabric: &Fabric<F>, cell: &mut NodeCell<F>) -> bool {
    match cell.turn(fabric) {
        Ok(Happened::Look(from)) => from == 0,
        _ => false,
    }
}

// Whether the first cell posts a parcel, and the second looks at its mailbox.
fn second_looks<F: FabricName>(
    fabric: &Fabric<F>,
    cells: &mut [NodeCell<F>],
    alloc: Global,
) -> bool {
    match cells {
        [first, second] => puts_and_acts(fabric, first, 2, alloc) && looks(fabric, second),
        _ => false,
    }
}

// What cells do before their table ends.
#[derive(Clone, Copy)]
enum Case {
    Claims,
    Probes,
    Looks,
}

// Whether cells do it.
fn do_it<F: FabricName>(
    fabric: &Fabric<F>,
    cells: &mut [NodeCell<F>],
    alloc: Global,
    case: Case,
) -> bool
    requires { 1 < F.table.count }
{
    match case {
        Case::Claims => first_claims(fabric, cells),
        Case::Probes => first_probes(fabric, cells, alloc),
        Case::Looks => second_looks(fabric, cells, alloc),
    }
}

// Whether the world goes on from there. A word that is claimed for an open by itself is that of the open. A message whose mailbox its node has
// taken and not filled is only in the outbox: the other node finds nothing until it is posted. A message that a cell has in hand is in hand, and
// the next act is to handle it.
fn goes_on(world: &mut World, case: Case) -> bool {
    match case {
        Case::Claims => opens_by_claim(world),
        Case::Probes => is_idle(world, 1) && posts(world, 0, 1),
        Case::Looks => hands(world, 1),
    }
}

// Whether the world that cells show goes on from what they have done.
fn lives_on<F: FabricName>(alloc: Global, blank: Blank, case: Case) -> Option<bool>
    requires named { blank ≡ F.table }
    requires nodes { blank.count ≡ 2 }
{
    let mut it = named::<F>(blank)?;
    let done = do_it(&it.fabric, it.cells.as_mut_slice(), alloc, case);
    let mut world = world_of(it)?;
    Some(done && goes_on(&mut world, case))
}

// The same, of a new table.
fn lives(alloc: Global, case: Case) -> Result<Option<bool>, Refusal> {
    let blank = start(alloc, 2, 4)?;
    Ok(lives_on::<Brand>(alloc, blank, case))
}

#[test]
fn an_open_under_way_lives_on_in_the_world(rt: HostRuntime) {
    assert_eq!(rt; lives(rt.alloc(), Case::Claims), Ok(Some(true)));
}

#[test]
fn a_mailbox_that_was_taken_is_empty_in_the_world(rt: HostRuntime) {
    assert_eq!(rt; lives(rt.alloc(), Case::Probes), Ok(Some(true)));
}

#[test]
fn a_message_in_hand_is_handled_in_the_world(rt: HostRuntime) {
    assert_eq!(rt; lives(rt.alloc(), Case::Looks), Ok(Some(true)));
}
