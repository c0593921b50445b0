//! Each call of a world that carries the promise, on its happy path.
use ipcz_base::{Bytes, End, Ends, Refusal, Sequence, Side};
use ipcz_node::Happened;
use ipcz_promise::{
    add_words, close, get, holder_of, is_quiet, new_world, open, play, put, put_wide, ready_from,
    retry, run, settle, step, turn, words_left,
};
use ipcz_world::{Reply, Settled, Step, World};
use std::alloc::{AllocError, Global};
use std::process::Abort;

// The portals of the first pair, at nodes 0 and 1, and those of the pair that an open makes.
const LEFT: End = End {
    pair: 0,
    side: Side::A,
};

const RIGHT: End = End {
    pair: 0,
    side: Side::B,
};

const THIRD: End = End {
    pair: 1,
    side: Side::A,
};

const FOURTH: End = End {
    pair: 1,
    side: Side::B,
};

// A parcel of these bytes and portals, as two lists.
fn lists(alloc: Global, data: &[u8], portals: &[End]) -> Result<(Bytes, Ends), AllocError> {
    let bytes = Bytes::from_slice(alloc, data)?;
    let list = Vec::from_slice(alloc, portals)?;
    Ok((bytes, Sequence::from_vec(list)))
}

// Puts these bytes and portals at a portal of node 0; the parcel's number, or why it is refused.
fn puts(
    alloc: Global,
    world: &mut World,
    at: End,
    data: &[u8],
    portals: &[End],
) -> Result<u64, Refusal> {
    let (bytes, ends) = lists(alloc, data, portals)?;
    let answer = put(world, 0, at, bytes, ends);
    match answer {
        Ok(number) => Ok(number),
        Err(refused) => Err(refused.why),
    }
}

fn is_opened(reply: &Reply) -> bool {
    matches!(reply, Reply::Opened(a, b) if *a == THIRD && *b == FOURTH)
}

fn is_put(reply: &Reply, number: u64) -> bool {
    matches!(reply, Reply::Put(n) if *n == number)
}

fn is_got(reply: &Reply, number: u64, data: &[u8], portals: &[End]) -> bool {
    match reply {
        Reply::Got(n, parcel) => *n == number
            && parcel.bytes.as_slice() == data
            && parcel.ends.as_slice() == portals,
        _ => false,
    }
}

fn is_idle(reply: &Reply) -> bool {
    matches!(reply, Reply::Turned(Happened::Idle))
}

fn is_refused(reply: &Reply, want: Refusal) -> bool {
    matches!(reply, Reply::Refused(why) if *why == want)
}

// Whether a world is quiet, and opens a pair by one of its seven words.
fn opens_by_a_word(world: &mut World) -> bool {
    let unused = words_left(world);
    let opened = open(world, 0);
    is_opened(&opened) && unused == 7 && words_left(world) == 6 && is_quiet(world)
}

// Whether what was put at a portal is got at its peer, after the six acts of a lone parcel; and then a get is Empty.
fn is_got_after_six(world: &mut World) -> bool {
    let waits = !is_quiet(world);
    let settled = settle(world, 100);
    let got = get(world, 1, RIGHT);
    let empty = get(world, 1, RIGHT);
    waits
        && settled == Ok(Settled::Settled { after: 6 })
        && is_quiet(world)
        && is_got(&got, 0, b"hello", &[])
        && is_refused(&empty, Refusal::Empty)
}

// Whether a world with eight words carries a parcel.
fn is_carried(alloc: Global, world: &mut World) -> bool {
    opens_by_a_word(world)
        && puts(alloc, world, LEFT, b"hello", &[]) == Ok(0)
        && is_got_after_six(world)
}

fn carries(alloc: Global) -> Result<bool, Refusal> {
    let mut world = new_world(alloc, 2, 8)?;
    Ok(is_carried(alloc, &mut world))
}

// Whether a world in which no word is left is given some, and opens a pair then.
fn is_grown(world: &mut World) -> bool {
    let refused = open(world, 0);
    let grown = add_words(world, 2).is_ok();
    let added = words_left(world);
    let opened = open(world, 0);
    is_refused(&refused, Refusal::NoWord)
        && grown
        && added == 2
        && is_opened(&opened)
        && words_left(world) == 1
}

fn grows(alloc: Global) -> Result<bool, Refusal> {
    let mut world = new_world(alloc, 2, 1)?;
    Ok(is_grown(&mut world))
}

// Moves a portal in a world without a word to spare, and gets it on the other node. Its proxy stays.
fn moves_without_a_word(alloc: Global, world: &mut World) -> Result<Reply, Refusal> {
    open(world, 0);
    puts(alloc, world, LEFT, b"m", &[FOURTH])?;
    settle(world, 100)?;
    Ok(get(world, 1, RIGHT))
}

// Whether one proxy is let ask again, once: then something waits.
fn one_is_let_ask(world: &mut World) -> bool {
    let quiet = is_quiet(world);
    let asked = retry(world);
    let again = retry(world);
    quiet && asked == 1 && again == 0 && !is_quiet(world)
}

// Whether the proxy takes a word that was added, only once it was let ask again. What is held stays so.
fn takes_an_added_word(world: &mut World) -> Result<bool, Refusal> {
    add_words(world, 1)?;
    let asks = one_is_let_ask(world);
    let kept = words_left(world);
    settle(world, 100)?;
    Ok(asks && kept == 1 && words_left(world) == 0 && holder_of(world, FOURTH) == Some(1))
}

// Whether a portal has moved, where no word is left.
fn has_moved(alloc: Global, world: &mut World) -> Result<bool, Refusal> {
    let got = moves_without_a_word(alloc, world)?;
    Ok(is_got(&got, 0, b"m", &[FOURTH]))
}

// Whether a portal that moved where no word was left is let out of the way of its parcels once there is one.
fn asks_again(alloc: Global) -> Result<bool, Refusal> {
    let mut world = new_world(alloc, 2, 2)?;
    match has_moved(alloc, &mut world) {
        Ok(true) => takes_an_added_word(&mut world),
        other => other,
    }
}

// Whether a portal under way is nobody's, and then held by who gets the parcel that it was put into.
fn is_moved(alloc: Global, world: &mut World) -> Result<bool, Refusal> {
    open(world, 0);
    puts(alloc, world, LEFT, b"m", &[FOURTH])?;
    let under_way = holder_of(world, FOURTH);
    settle(world, 100)?;
    let got = get(world, 1, RIGHT);
    Ok(
        under_way == None
            && is_got(&got, 0, b"m", &[FOURTH])
            && holder_of(world, FOURTH) == Some(1)
            && holder_of(world, THIRD) == Some(0),
    )
}

fn moves(alloc: Global) -> Result<bool, Refusal> {
    let mut world = new_world(alloc, 2, 8)?;
    is_moved(alloc, &mut world)
}

// Whether a put of bytes that don't print is refused, gives them back, and is accepted as a wide one.
fn is_widely_put(alloc: Global, world: &mut World, data: &[u8]) -> Result<bool, AllocError> {
    let (bytes, ends) = lists(alloc, data, &[])?;
    match put(world, 0, LEFT, bytes, ends) {
        Ok(_) => Ok(false),
        Err(refused) => {
            let is_bad = refused.why == Refusal::BadData && refused.bytes.as_slice() == data;
            let answer = put_wide(world, 0, LEFT, refused.bytes, refused.ends);
            Ok(is_bad && answer.is_ok_and(|number| number == 0))
        }
    }
}

// Whether a portal is closed behind one parcel, once.
fn is_closed(world: &mut World) -> bool {
    let closed = close(world, 0, LEFT);
    let again = close(world, 0, LEFT);
    matches!(closed, Reply::Closed(1)) && is_refused(&again, Refusal::Stranger)
}

// Whether its peer gets the parcel, and then hears of the close.
fn is_heard(world: &mut World) -> bool {
    let settled = settle(world, 100).is_ok();
    let got = get(world, 1, RIGHT);
    let heard = get(world, 1, RIGHT);
    settled && is_got(&got, 0, &[0, 255], &[]) && is_refused(&heard, Refusal::PeerClosed)
}

// Whether the peer of a portal that was closed gets what was put there, and then hears of it.
fn closes(alloc: Global) -> Result<bool, Refusal> {
    let mut world = new_world(alloc, 2, 1)?;
    let turned = turn(&mut world, 0);
    let wide = is_widely_put(alloc, &mut world, &[0, 255]) == Ok(true);
    Ok(is_idle(&turned) && wide && is_closed(&mut world) && is_heard(&mut world))
}

// Whether just these portals of a node, in the order of their serials, have something.
fn are_ready(world: &World, node: u8, portals: &[End]) -> bool {
    let mut from = 0;
    for portal in portals {
        match ready_from(world, node, from) {
            Some(found) if found.1 == *portal => from = found.0.saturating_add(1),
            _ => return false,
        }
    }
    ready_from(world, node, from).is_none()
}

// Whether a portal is told to have something when a parcel has come there, and not before and behind that.
fn tells_a_parcel(alloc: Global, world: &mut World) -> Result<bool, Refusal> {
    open(world, 0);
    puts(alloc, world, LEFT, b"a", &[])?;
    let under_way = are_ready(world, 1, &[]);
    settle(world, 100)?;
    let come = are_ready(world, 1, &[RIGHT]) && are_ready(world, 0, &[]);
    get(world, 1, RIGHT);
    Ok(under_way && come && are_ready(world, 1, &[]))
}

// Whether another is, and one whose peer has closed; and that of one node is not another's.
fn tells_a_close(alloc: Global, world: &mut World) -> Result<bool, Refusal> {
    puts(alloc, world, THIRD, b"b", &[])?;
    close(world, 1, RIGHT);
    settle(world, 100)?;
    Ok(are_ready(world, 0, &[LEFT, FOURTH]) && are_ready(world, 2, &[]))
}

fn tells_what_has_come(alloc: Global) -> Result<bool, Refusal> {
    let mut world = new_world(alloc, 2, 8)?;
    match tells_a_parcel(alloc, &mut world) {
        Ok(true) => tells_a_close(alloc, &mut world),
        other => other,
    }
}

// A put at the one portal of the first pair, a get at the other, and an open, with both nodes on their own.
fn three_steps(alloc: Global) -> Result<[Step; 3], AllocError> {
    let (bytes, ends) = lists(alloc, b"a", &[])?;
    Ok([
        Step::Put {
            node: 0,
            at: LEFT,
            bytes,
            ends,
        },
        Step::Get { node: 1, at: RIGHT },
        Step::Open(1),
    ])
}

fn are_three(replies: &[Reply], number: u64) -> bool {
    match replies {
        [one, two, three] => is_put(one, number)
            && is_refused(two, Refusal::Empty)
            && is_refused(three, Refusal::NoWord),
        _ => false,
    }
}

// Whether steps that are run again, and stepped, give what they gave.
fn runs_again(alloc: Global, world: &mut World, steps: &[Step; 3]) -> Result<bool, Refusal> {
    let again = run(world, alloc, steps)?;
    let third = step(world, &steps[0]);
    Ok(are_three(again.as_slice(), 1) && is_put(&third, 2))
}

// Whether steps that are played, and run again, give what they give one by one.
fn plays(alloc: Global) -> Result<bool, Refusal> {
    let steps = three_steps(alloc)?;
    let (played, mut world) = play(alloc, 2, 1, &steps)?;
    match runs_again(alloc, &mut world, &steps) {
        Ok(again) => Ok(again && are_three(played.as_slice(), 0)),
        Err(why) => Err(why),
    }
}

// What is tried has to go well. (A test that asserts this itself is several times as dear to prove.)
pub(crate) fn well(rt: &impl Abort, went: Result<bool, Refusal>) {
    assert_eq!(rt; went, Ok(true));
}

#[test]
fn a_parcel_is_got_at_the_peer(rt: HostRuntime) {
    well(&rt, carries(rt.alloc()));
}

#[test]
fn words_are_added(rt: HostRuntime) {
    well(&rt, grows(rt.alloc()));
}

#[test]
fn a_portal_that_found_no_word_asks_again(rt: HostRuntime) {
    well(&rt, asks_again(rt.alloc()));
}

#[test]
fn a_portal_moves_with_its_parcel(rt: HostRuntime) {
    well(&rt, moves(rt.alloc()));
}

#[test]
fn a_closed_portal_is_read_to_the_end(rt: HostRuntime) {
    well(&rt, closes(rt.alloc()));
}

#[test]
fn portals_that_have_something_are_told(rt: HostRuntime) {
    well(&rt, tells_what_has_come(rt.alloc()));
}

#[test]
fn what_is_played_is_what_is_stepped(rt: HostRuntime) {
    well(&rt, plays(rt.alloc()));
}
