//! The recipes of docs/RECIPES.md, on one thread.
use crate::calls::well;
use ipcz_base::{Bytes, End, Refusal, Sequence, Side};
use ipcz_promise::{close, get, new_world, open, put, settle};
use ipcz_world::{Reply, Settled, World};
use std::alloc::Global;

// The two portals of a pair. First pairs are numbered in the order of their nodes: with four, nodes 0 and 1 have pair 0, 0 and 2 pair 1,
// 0 and 3 pair 2, and 1 and 2 pair 3. The lower node has `left`.
fn left(pair: u64) -> End {
    End {
        pair,
        side: Side::A,
    }
}

fn right(pair: u64) -> End {
    End {
        pair,
        side: Side::B,
    }
}

// The ends of the pair that was opened.
fn ends_of(reply: &Reply) -> Result<(End, End), Refusal> {
    match reply {
        Reply::Opened(one, other) => Ok((*one, *other)),
        Reply::Refused(why) => Err(*why),
        _ => Err(Refusal::Stranger),
    }
}

// A new pair on a node.
fn opened(world: &mut World, node: u8) -> Result<(End, End), Refusal> {
    let reply = open(world, node);
    ends_of(&reply)
}

// Puts a text, with the portals that go along.
fn send(
    alloc: Global,
    world: &mut World,
    node: u8,
    at: End,
    text: &[u8],
    portals: &[End],
) -> Result<(), Refusal> {
    let bytes = Bytes::from_slice(alloc, text)?;
    let mut ends = Vec::new(alloc);
    ends.extend_from_slice(portals)?;
    match put(world, node, at, bytes, Sequence::from_vec(ends)) {
        Ok(_number) => Ok(()),
        Err(refused) => Err(refused.why),
    }
}

// The portal that the next parcel brings.
fn brought(world: &mut World, node: u8, at: End) -> Result<End, Refusal> {
    match get(world, node, at) {
        Reply::Got(_number, parcel) => parcel
            .ends
            .as_slice()
            .first()
            .copied()
            .ok_or(Refusal::Stranger),
        Reply::Refused(why) => Err(why),
        _ => Err(Refusal::Stranger),
    }
}

// Whether the next parcel is this text.
fn hears(world: &mut World, node: u8, at: End, text: &[u8]) -> bool {
    match get(world, node, at) {
        Reply::Got(_number, parcel) => parcel.bytes.as_slice() == text,
        _ => false,
    }
}

// Whether a get is refused so.
fn is_refused(world: &mut World, node: u8, at: End, want: Refusal) -> bool {
    matches!(get(world, node, at), Reply::Refused(why) if why == want)
}

fn tells_a_close(reply: &Reply) -> bool {
    matches!(reply, Reply::Closed(_))
}

fn is_closed(world: &mut World, node: u8, at: End) -> bool {
    let reply = close(world, node, at);
    tells_a_close(&reply)
}

// Lets the nodes work, and tells whether all is done.
fn rest(world: &mut World) -> Result<bool, Refusal> {
    Ok(matches!(settle(world, 1000)?, Settled::Settled { .. }))
}

// In a world that `new_world(alloc, 2, 8)` gives.
fn request_and_reply(alloc: Global, world: &mut World) -> Result<bool, Refusal> {
    let (answer, to) = opened(world, 0)?;
    send(alloc, world, 0, left(0), b"how much?", &[to])?;
    rest(world)?;
    let reply = brought(world, 1, right(0))?;
    send(alloc, world, 1, reply, b"42", &[])?;
    let is_answered = is_closed(world, 1, reply);
    rest(world)?;
    Ok(
        is_answered
            && hears(world, 0, answer, b"42")
            && is_refused(world, 0, answer, Refusal::PeerClosed)
            && is_closed(world, 0, answer),
    )
}

// Opens a pair at node 0 for the news, and sends one portal of it over a first pair.
fn subscribed(alloc: Global, world: &mut World, pair: u64) -> Result<End, Refusal> {
    let (kept, sent) = opened(world, 0)?;
    send(alloc, world, 0, left(pair), b"news come here", &[sent])?;
    Ok(kept)
}

// In a world that `new_world(alloc, 4, 20)` gives.
fn fan_out(alloc: Global, world: &mut World) -> Result<bool, Refusal> {
    for pair in 0..3 {
        let channel = subscribed(alloc, world, pair)?;
        send(alloc, world, 0, channel, b"news", &[])?;
    }
    rest(world)?;
    let mut is_heard = true;
    for node in 1..4u8 {
        let channel = brought(world, node, right(u64::from(node) - 1))?;
        is_heard = is_heard && hears(world, node, channel, b"news");
    }
    Ok(is_heard)
}

// In a world that `new_world(alloc, 4, 20)` gives.
fn handing_a_channel_over(alloc: Global, world: &mut World) -> Result<bool, Refusal> {
    let (client, server) = opened(world, 0)?;
    send(alloc, world, 0, client, b"one", &[])?;
    send(alloc, world, 0, left(0), b"serve this", &[server])?;
    rest(world)?;
    let server = brought(world, 1, right(0))?;
    let is_first = hears(world, 1, server, b"one");
    send(alloc, world, 0, client, b"two", &[])?;
    send(alloc, world, 1, left(3), b"you go on", &[server])?;
    send(alloc, world, 0, client, b"three", &[])?;
    rest(world)?;
    let server = brought(world, 2, right(3))?;
    let is_next = hears(world, 2, server, b"two");
    Ok(is_first && is_next && hears(world, 2, server, b"three"))
}

// Whether what a get answers is a credit, or nothing that has come.
fn is_credit(reply: &Reply) -> Result<bool, Refusal> {
    match reply {
        Reply::Got(..) => Ok(true),
        Reply::Refused(Refusal::Empty) => Ok(false),
        Reply::Refused(why) => Err(*why),
        _ => Err(Refusal::Stranger),
    }
}

// Sends a text for a credit, and tells whether there was one. Each parcel that comes from the receiver is a credit.
fn send_for_credit(
    alloc: Global,
    world: &mut World,
    at: End,
    text: &[u8],
) -> Result<bool, Refusal> {
    let reply = get(world, 0, at);
    let is_given = is_credit(&reply)?;
    if is_given {
        send(alloc, world, 0, at, text, &[])?;
    }
    Ok(is_given)
}

// In a world that `new_world(alloc, 2, 1)` gives.
fn back_pressure_by_credits(alloc: Global, world: &mut World) -> Result<bool, Refusal> {
    send(alloc, world, 1, right(0), b"credit", &[])?;
    send(alloc, world, 1, right(0), b"credit", &[])?;
    rest(world)?;
    let is_first = send_for_credit(alloc, world, left(0), b"item 1")?;
    let is_second = send_for_credit(alloc, world, left(0), b"item 2")?;
    let is_too_early = send_for_credit(alloc, world, left(0), b"item 3")?;
    rest(world)?;
    let is_heard = hears(world, 1, right(0), b"item 1");
    send(alloc, world, 1, right(0), b"credit", &[])?;
    rest(world)?;
    let is_third = send_for_credit(alloc, world, left(0), b"item 3")?;
    Ok(is_first && is_second && !is_too_early && is_heard && is_third)
}

// In a world that `new_world(alloc, 2, 8)` gives.
fn shutting_down(alloc: Global, world: &mut World) -> Result<bool, Refusal> {
    let (ends, reads) = opened(world, 0)?;
    send(alloc, world, 0, left(0), b"take it", &[reads])?;
    rest(world)?;
    let reads = brought(world, 1, right(0))?;
    send(alloc, world, 0, ends, b"last word", &[])?;
    let is_ended = is_closed(world, 0, ends);
    rest(world)?;
    let is_heard = hears(world, 1, reads, b"last word");
    let is_told = is_refused(world, 1, reads, Refusal::PeerClosed);
    let too_late = send(alloc, world, 1, reads, b"too late", &[]);
    Ok(
        is_ended
            && is_heard
            && is_told
            && too_late == Err(Refusal::PeerClosed)
            && is_closed(world, 1, reads),
    )
}

/// A recipe.
#[derive(Clone, Copy)]
enum Recipe {
    RequestAndReply,
    FanOut,
    HandingOver,
    BackPressure,
    ShuttingDown,
}

// The world that a recipe is followed in.
fn world_for(alloc: Global, recipe: Recipe) -> Result<World, Refusal> {
    match recipe {
        Recipe::RequestAndReply | Recipe::ShuttingDown => new_world(alloc, 2, 8),
        Recipe::FanOut | Recipe::HandingOver => new_world(alloc, 4, 20),
        Recipe::BackPressure => new_world(alloc, 2, 1),
    }
}

// Whether a recipe gives what it should. (It borrows its world: a function that has several ways out and drops a world at each is dear to prove.)
fn follow(alloc: Global, world: &mut World, recipe: Recipe) -> Result<bool, Refusal> {
    match recipe {
        Recipe::RequestAndReply => request_and_reply(alloc, world),
        Recipe::FanOut => fan_out(alloc, world),
        Recipe::HandingOver => handing_a_channel_over(alloc, world),
        Recipe::BackPressure => back_pressure_by_credits(alloc, world),
        Recipe::ShuttingDown => shutting_down(alloc, world),
    }
}

fn followed(alloc: Global, recipe: Recipe) -> Result<bool, Refusal> {
    let mut world = world_for(alloc, recipe)?;
    follow(alloc, &mut world, recipe)
}

#[test]
fn a_request_brings_the_portal_for_its_answer(rt: HostRuntime) {
    well(&rt, followed(rt.alloc(), Recipe::RequestAndReply));
}

#[test]
fn news_come_to_three_nodes(rt: HostRuntime) {
    well(&rt, followed(rt.alloc(), Recipe::FanOut));
}

#[test]
fn a_channel_is_handed_over_in_mid_talk(rt: HostRuntime) {
    well(&rt, followed(rt.alloc(), Recipe::HandingOver));
}

#[test]
fn a_sender_waits_for_credits(rt: HostRuntime) {
    well(&rt, followed(rt.alloc(), Recipe::BackPressure));
}

#[test]
fn who_reads_to_the_end_has_the_last_word(rt: HostRuntime) {
    well(&rt, followed(rt.alloc(), Recipe::ShuttingDown));
}
