//! Lists of calls on a world, each with what it gives.
//!
//! Nothing is promised of what stands here: a test's own proof would else work out the world at each call. So a test is a list of calls.

use super::{get, is_got, is_put, is_refused, put};
use ipcz_base::{Bytes, End, PortalStatus, Refusal, Sequence, Sizes};
use ipcz_world::{Reply, Settled, Step, World};
use std::alloc::{AllocError, Global};

/// A call on a world, with what it gives.
#[derive(Clone, Copy)]
pub enum Call {
    /// Opens a pair on a node, which has these ends.
    Open(u8, End, End),
    /// Puts these bytes and ends at an end of a node, under this number.
    Put(u8, End, &'static [u8], &'static [End], u64),
    /// Puts a wide parcel of so many bytes of a value at an end of a node, under this number.
    PutWide(u8, End, u8, usize, u64),
    /// A wide put of so many bytes is refused.
    WideRefused(u8, End, usize, Refusal),
    /// How many bytes and ends the parcel has that a get at an end of a node would give, or none if it would be refused.
    NextSizes(u8, End, Option<Sizes>),
    /// What gets at an end of a node would answer: the number of the next parcel, its sizes, how many wait, and whether the peer has closed.
    Look(u8, End, Option<PortalStatus>),
    /// Whether an end of a node has arrived, or none if its callers don't hold it.
    Arrived(u8, End, Option<bool>),
    /// The first end of a node's callers, from a serial on, where a get isn't `Empty`, with its router's serial.
    Ready(u8, u64, Option<(u64, End)>),
    /// Gets these bytes and ends at an end of a node, under this number.
    Get(u8, End, u64, &'static [u8], &'static [End]),
    /// Gets a parcel of so many bytes of a value at an end of a node, under this number.
    GetWide(u8, End, u64, u8, usize),
    /// Closes an end of a node, whose mark has this number.
    Close(u8, End, u64),
    /// Takes turns of a node, which do this as their values print.
    Turns(u8, &'static [&'static str]),
    /// An open on a node is refused.
    OpenRefused(u8, Refusal),
    /// A put of a byte with these ends is refused.
    PutRefused(u8, End, &'static [End], Refusal),
    /// A get is refused.
    GetRefused(u8, End, Refusal),
    /// A close is refused.
    CloseRefused(u8, End, Refusal),
    /// A turn is refused.
    TurnRefused(u8, Refusal),
    /// Settles within so many acts: after how many nothing waits, or none if the limit comes first.
    Settle(u64, Option<u64>),
    /// How many words are claimed.
    Claimed(u64),
    /// How many words are left.
    Left(u64),
    /// Whether nothing waits.
    Quiet(bool),
    /// A word, or none if it isn't claimed.
    Word(u64, Option<u64>),
    /// The node that holds an end.
    Holder(End, Option<u8>),
    /// The limit that the world tells.
    Limit(u64),
    /// Settles within so many acts.
    SettleWithin(u64),
    /// How many routers a node has, or none if it isn't one of the world's.
    Routers(u8, Option<usize>),
}

// Whether a reply is that of a turn which does what its value prints.
fn prints(alloc: Global, reply: &Reply, event: &str) -> Result<bool, AllocError> {
    let want = format!(in alloc; "Turned({event})")?;
    Ok(format!(in alloc; "{reply:?}")?.as_str() == want.as_str())
}

// Whether a turn does what its value prints.
fn takes(world: &mut World, alloc: Global, node: u8, event: &str) -> Result<bool, AllocError> {
    prints(alloc, &world.step(&Step::Turn(node)), event)
}

// Whether turns do what their values print.
fn take_all(
    world: &mut World,
    alloc: Global,
    node: u8,
    events: &[&str],
) -> Result<bool, AllocError> {
    for event in events {
        if !takes(world, alloc, node, *event)? {
            return Ok(false);
        }
    }
    Ok(true)
}

// Whether the reply is that a pair was opened that has these ends. (What is known of a step would be worked out in each arm of a match on its reply, if that stood
// behind the step.)
fn is_opened(reply: &Reply, first: End, second: End) -> bool {
    match reply {
        Reply::Opened(a, b) => *a == first && *b == second,
        _ => false,
    }
}

/// Whether the reply is that an end was closed, with a mark of this number.
pub fn is_closed(reply: &Reply, number: u64) -> bool {
    matches!(reply, Reply::Closed(n) if *n == number)
}

/// Whether a pair is opened that has these ends.
pub fn opens(world: &mut World, node: u8, first: End, second: End) -> bool {
    let reply = world.step(&Step::Open(node));
    is_opened(&reply, first, second)
}

// Whether a close has a mark of this number.
fn closes(world: &mut World, node: u8, at: End, number: u64) -> bool {
    let reply = world.step(&Step::Close { node, at });
    is_closed(&reply, number)
}

// Whether a settle ends so.
fn settles(world: &mut World, limit: u64, want: Option<u64>) -> bool {
    match world.settle(limit) {
        Ok(Settled::Settled { after }) => want == Some(after),
        Ok(Settled::Unsettled) => want.is_none(),
        Err(_) => false,
    }
}

// Whether nothing waits after so many acts at most.
fn settles_within(world: &mut World, limit: u64) -> bool {
    matches!(world.settle(limit), Ok(Settled::Settled { .. }))
}

/// Whether a put of these bytes and ends has this number.
pub fn puts(
    world: &mut World,
    alloc: Global,
    node: u8,
    at: End,
    (data, ends): (&[u8], &[End]),
    number: u64,
) -> Result<bool, AllocError> {
    let step = put(alloc, node, at, data, ends)?;
    Ok(is_put(&world.step(&step), number))
}

// A list of so many bytes of a value.
fn bytes_of(alloc: Global, value: u8, count: usize) -> Result<Bytes, AllocError> {
    Ok(Bytes::from_vec(vec![in alloc; value; count]?))
}

// Whether a put of a wide parcel has this number.
fn puts_wide(
    world: &mut World,
    alloc: Global,
    node: u8,
    at: End,
    (value, count): (u8, usize),
    number: u64,
) -> Result<bool, AllocError> {
    let bytes = bytes_of(alloc, value, count)?;
    let ends = Sequence::from_vec(Vec::new(alloc));
    let answer = world.put_wide(node, at, bytes, ends);
    Ok(answer.is_ok_and(|n| n == number))
}

// Whether a get gives so many bytes of a value.
fn gets_wide(
    world: &mut World,
    alloc: Global,
    node: u8,
    at: End,
    (value, count): (u8, usize),
    number: u64,
) -> Result<bool, AllocError> {
    let bytes = bytes_of(alloc, value, count)?;
    Ok(is_got(&world.get(node, at), number, bytes.as_slice(), &[]))
}

// Whether a call gives what it should.
fn gives(world: &mut World, alloc: Global, call: Call) -> Result<bool, AllocError> {
    match call {
        Call::Put(node, at, data, ends, number) => {
            puts(world, alloc, node, at, (data, ends), number)
        }
        Call::PutWide(node, at, value, count, number) => {
            puts_wide(world, alloc, node, at, (value, count), number)
        }
        Call::GetWide(node, at, number, value, count) => {
            gets_wide(world, alloc, node, at, (value, count), number)
        }
        Call::Turns(node, events) => take_all(world, alloc, node, events),
        Call::OpenRefused(..)
        | Call::PutRefused(..)
        | Call::GetRefused(..)
        | Call::WideRefused(..)
        | Call::CloseRefused(..)
        | Call::TurnRefused(..) => refuses(world, alloc, call),
        _ => Ok(answers(world, call)),
    }
}

// Whether a call that makes no list gives what it should.
fn answers(world: &mut World, call: Call) -> bool {
    match call {
        Call::Open(node, first, second) => opens(world, node, first, second),
        Call::Get(node, at, number, data, ends) => {
            is_got(&world.get(node, at), number, data, ends)
        }
        Call::Close(node, at, number) => closes(world, node, at, number),
        Call::Settle(limit, want) => settles(world, limit, want),
        Call::SettleWithin(limit) => settles_within(world, limit),
        _ => is(world, call),
    }
}

// Whether a world is as a call says that only looks.
fn is(world: &World, call: Call) -> bool {
    match call {
        Call::NextSizes(node, at, want) => world.next_sizes(node, at) == want,
        Call::Look(node, at, want) => world.look(node, at) == want,
        Call::Arrived(node, at, want) => world.has_arrived(node, at) == want,
        Call::Ready(node, serial, want) => world.ready_from(node, serial) == want,
        Call::Claimed(count) => world.claimed() == count,
        Call::Left(count) => world.words_left() == count,
        Call::Quiet(want) => world.is_quiet() == want,
        Call::Word(i, word) => world.word(i) == word,
        Call::Holder(end, node) => world.holder_of(end) == node,
        Call::Limit(limit) => world.settle_limit() == Some(limit),
        Call::Routers(node, count) => world.routers(node) == count,
        _ => false,
    }
}

// The step that puts so many bytes of no value.
fn wide(alloc: Global, node: u8, at: End, count: usize) -> Result<Step, AllocError> {
    Ok(Step::PutWide {
        node,
        at,
        bytes: bytes_of(alloc, 0, count)?,
        ends: Sequence::from_vec(Vec::new(alloc)),
    })
}

// The step that a call says is refused, with why.
fn refused(alloc: Global, call: Call) -> Result<Option<(Step, Refusal)>, AllocError> {
    match call {
        Call::OpenRefused(node, why) => Ok(Some((Step::Open(node), why))),
        Call::PutRefused(node, at, ends, why) => {
            Ok(Some((put(alloc, node, at, b"b", ends)?, why)))
        }
        Call::GetRefused(node, at, why) => Ok(Some((get(node, at), why))),
        Call::WideRefused(node, at, count, why) => Ok(Some((wide(alloc, node, at, count)?, why))),
        Call::CloseRefused(node, at, why) => Ok(Some((Step::Close { node, at }, why))),
        Call::TurnRefused(node, why) => Ok(Some((Step::Turn(node), why))),
        _ => Ok(None),
    }
}

// Whether a call is refused as it should be.
fn refuses(world: &mut World, alloc: Global, call: Call) -> Result<bool, AllocError> {
    match refused(alloc, call)? {
        Some((step, why)) => Ok(is_refused(&world.step(&step), why)),
        None => Ok(false),
    }
}

/// The first of these calls on a world that doesn't give what it should.
pub fn first_wrong(
    world: &mut World,
    alloc: Global,
    calls: &[Call],
) -> Result<Option<usize>, AllocError> {
    for (i, call) in calls.iter().enumerate() {
        if !gives(world, alloc, *call)? {
            return Ok(Some(i));
        }
    }
    Ok(None)
}
