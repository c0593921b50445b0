//! The calls that C makes; `include/ipcz_portals.h` says what each is for, and what C must uphold.
//!
//! A handle that has no world is answered `NOT_CREATED`, 0 or `false`. C passes nothing for `alloc`.
ghost use Rattle.std.specs.Prelude.{◌≡◌, ◌-◌, None, IsSome, true, false, length, option_map, unwrap_or};
ghost use Rattle.std.specs.Option.{IsNone};
ghost use Rattle.ipcz_base.specs.Refusals.{code_of};
ghost use Rattle.ipcz_world.specs.Holding.{shown_word, holder_of};
ghost use Rattle.ipcz_c.specs.Named.{named};
ghost use Rattle.ipcz_c.specs.Statuses.{not_created, already_created};
ghost use Rattle.ipcz_c.specs.Told.{room_of, fits, TellsSizes};
ghost use Rattle.ipcz_c.specs.Looks.{HasArrivedIn, Looks};
ghost use Rattle.ipcz_c.specs.Ready.{FindsReady};
ghost use Rattle.ipcz_c.specs.Calls.{IsRefused, is_within, AddsWords, Retries, Creates, Opens, Puts, sizes_next, Gets, LacksRoom, Closes, TakesTurn, TellsTurn, Settles, read_off, written};

use crate::handle::Handle;
use crate::making::{are_within, boxed_world, lists_of};
use crate::portal::{Portal, Seen};
use crate::status::{ALREADY_CREATED, NOT_CREATED, TOO_SMALL, refused, status};
use crate::tell::{
    lacking, tell_acted, tell_arrived, tell_got, tell_opened, tell_put, tell_ready, tell_seen,
    tell_settled, tell_sizes,
};
use ipcz_base::{Profile, Refusal};
use ipcz_world::Step;
use std::alloc::Global;

/// Makes a world of so many nodes and words.
#[unsafe(no_mangle)]
pub extern "C" fn ipcz_create(alloc: Global, nodes: u8, words: u32, out: &mut Handle) -> u32
    ensures made { IsNone out.old.held.world → is_within nodes words ≡ true → Creates nodes words result out.new.held.world }
    ensures many { IsNone out.old.held.world → is_within nodes words ≡ false →
        IsRefused (code_of Refusal.TooMany) out.old.held.world result out.new.held.world }
    ensures held { IsSome out.old.held.world → IsRefused already_created out.old.held.world result out.new.held.world }
{
    if out.has_world {
        return ALREADY_CREATED;
    }
    if !are_within(nodes, words) {
        return refused(Refusal::TooMany);
    }
    match boxed_world(alloc, nodes, words) {
        Ok(world) => {
            out.give(world);
            0
        }
        Err(why) => refused(why),
    }
}

/// Gives the world up, with all that its nodes keep; the handle has none then.
#[unsafe(no_mangle)]
pub extern "C" fn ipcz_destroy(alloc: Global, of: &mut Handle)
    ensures { of.new.held.world ≡ None }
{
    if of.has_world {
        drop(of.take(alloc));
    }
}

/// Opens a new pair of portals on a node.
#[unsafe(no_mangle)]
pub extern "C" fn ipcz_open(
    alloc: Global,
    of: &mut Handle,
    node: u8,
    first: &mut Portal,
    second: &mut Portal,
) -> u32
    ensures did { IsSome of.old.held.world →
        Opens of.old.held.world node result first.old second.old first.new second.new of.new.held.world }
    ensures none { IsNone of.old.held.world → IsRefused not_created of.old.held.world result of.new.held.world
        × (first.new ≡ first.old) × (second.new ≡ second.old) }
{
    if !of.has_world {
        return NOT_CREATED;
    }
    let reply = of.step(alloc, &Step::Open(node));
    tell_opened(&reply, first, second);
    status(&reply)
}

/// Puts a parcel of printed bytes at a portal of a node: these bytes, and these portals of the node.
#[unsafe(no_mangle)]
pub extern "C" fn ipcz_put_parcel(
    alloc: Global,
    of: &mut Handle,
    node: u8,
    at: Portal,
    bytes: &[u8],
    portals: &[Portal],
    number: &mut u64,
) -> u32
    ensures did { IsSome of.old.held.world →
        Puts Profile.Printed of.old.held.world node at bytes.now portals.now result number.old number.new of.new.held.world }
    ensures none { IsNone of.old.held.world → IsRefused not_created of.old.held.world result of.new.held.world × (number.new ≡ number.old) }
{
    put_as(
        alloc,
        Profile::Printed,
        of,
        node,
        at,
        bytes,
        portals,
        number,
    )
}

/// Puts a parcel of up to 65,536 bytes of any value.
#[unsafe(no_mangle)]
pub extern "C" fn ipcz_put_wide_parcel(
    alloc: Global,
    of: &mut Handle,
    node: u8,
    at: Portal,
    bytes: &[u8],
    portals: &[Portal],
    number: &mut u64,
) -> u32
    ensures did { IsSome of.old.held.world →
        Puts Profile.Wide of.old.held.world node at bytes.now portals.now result number.old number.new of.new.held.world }
    ensures none { IsNone of.old.held.world → IsRefused not_created of.old.held.world result of.new.held.world × (number.new ≡ number.old) }
{
    put_as(alloc, Profile::Wide, of, node, at, bytes, portals, number)
}

// Puts a parcel of a profile.
fn put_as(
    alloc: Global,
    profile: Profile,
    of: &mut Handle,
    node: u8,
    at: Portal,
    bytes: &[u8],
    portals: &[Portal],
    number: &mut u64,
) -> u32
    ensures did { IsSome of.old.held.world →
        Puts profile of.old.held.world node at bytes.now portals.now result number.old number.new of.new.held.world }
    ensures none { IsNone of.old.held.world → IsRefused not_created of.old.held.world result of.new.held.world × (number.new ≡ number.old) }
{
    if !of.has_world {
        return NOT_CREATED;
    }
    match lists_of(alloc, bytes, portals) {
        Ok((bytes, ends)) => {
            let reply = of.put(alloc, profile, node, at.end(), bytes, ends);
            tell_put(&reply, number);
            status(&reply)
        }
        Err(_) => refused(Refusal::OutOfMemory),
    }
}

/// Whether a get at a portal of a node would give a parcel; then its sizes are written. Nothing is taken.
#[unsafe(no_mangle)]
#[tactic(auto, unfolding(crate::specs::Calls::sizes_next, crate::specs::Told::TellsSizes))]
pub extern "C" fn ipcz_next_sizes(
    alloc: Global,
    of: &mut Handle,
    node: u8,
    at: Portal,
    size: &mut usize,
    count: &mut usize,
) -> bool
    ensures told { TellsSizes (sizes_next of.old.held.world node (named at)) result size.old count.old size.new count.new }
    ensures same { of.new.held.world ≡ of.old.held.world }
{
    if !of.has_world {
        return false;
    }
    let next = of.next_sizes(alloc, node, at.end());
    tell_sizes(next, size, count)
}

/// What gets at a portal of a node would answer, one after the other. Nothing is taken.
#[unsafe(no_mangle)]
pub extern "C" fn ipcz_look(
    alloc: Global,
    of: &mut Handle,
    node: u8,
    at: Portal,
    seen: &mut Seen,
) -> u32
    ensures did { IsSome of.old.held.world → Looks of.old.held.world node at result seen.old seen.new }
    ensures same { of.new.held.world ≡ of.old.held.world }
    ensures none { IsNone of.old.held.world → (result ≡ not_created) × (seen.new ≡ seen.old) }
{
    if !of.has_world {
        return NOT_CREATED;
    }
    let answer = of.look(alloc, node, at.end());
    tell_seen(answer, seen)
}

/// Whether a portal of a node has arrived, so that it leaves at most one proxy in its route if it travels on now.
#[unsafe(no_mangle)]
pub extern "C" fn ipcz_has_arrived(
    alloc: Global,
    of: &mut Handle,
    node: u8,
    at: Portal,
    arrived: &mut bool,
) -> u32
    ensures did { HasArrivedIn of.old.held.world node at result arrived.old arrived.new }
    ensures same { of.new.held.world ≡ of.old.held.world }
    ensures none { IsNone of.old.held.world → (result ≡ not_created) × (arrived.new ≡ arrived.old) }
{
    if !of.has_world {
        return NOT_CREATED;
    }
    let answer = of.has_arrived(alloc, node, at.end());
    tell_arrived(answer, arrived)
}

/// The next portal of a node, from a serial on, at which a get wouldn't be `Empty`, and from which serial to ask for the one behind it.
#[unsafe(no_mangle)]
pub extern "C" fn ipcz_next_ready(
    alloc: Global,
    of: &mut Handle,
    node: u8,
    from: &mut u64,
    at: &mut Portal,
) -> u32
    ensures did { IsSome of.old.held.world → FindsReady of.old.held.world node result from.old from.new at.old at.new }
    ensures same { of.new.held.world ≡ of.old.held.world }
    ensures none { IsNone of.old.held.world → (result ≡ not_created) × (from.new ≡ from.old) × (at.new ≡ at.old) }
{
    if !of.has_world {
        return NOT_CREATED;
    }
    let answer = of.ready_from(alloc, node, *from);
    tell_ready(answer, from, at)
}

/// Gets the next parcel at a portal of a node.
#[unsafe(no_mangle)]
pub extern "C" fn ipcz_get_parcel(
    alloc: Global,
    of: &mut Handle,
    node: u8,
    at: Portal,
    bytes: &mut [u8],
    size: &mut usize,
    portals: &mut [Portal],
    count: &mut usize,
    number: &mut u64,
) -> u32
    ensures did { IsSome of.old.held.world →
        fits (sizes_next of.old.held.world node (named at)) (length bytes.old) (length portals.old) ≡ true →
        Gets of.old.held.world node at result
        (room_of bytes.old size.old portals.old count.old number.old)
        (room_of bytes.new size.new portals.new count.new number.new) of.new.held.world }
    ensures small { IsSome of.old.held.world →
        fits (sizes_next of.old.held.world node (named at)) (length bytes.old) (length portals.old) ≡ false →
        LacksRoom of.old.held.world (sizes_next of.old.held.world node (named at)) result
        (room_of bytes.old size.old portals.old count.old number.old)
        (room_of bytes.new size.new portals.new count.new number.new) of.new.held.world }
    ensures none { IsNone of.old.held.world → IsRefused not_created of.old.held.world result of.new.held.world
        × (room_of bytes.new size.new portals.new count.new number.new ≡ room_of bytes.old size.old portals.old count.old number.old) }
{
    if !of.has_world {
        return NOT_CREATED;
    }
    let end = at.end();
    let next = of.next_sizes(alloc, node, end);
    if let Some(sizes) = lacking(next, bytes.len(), portals.len()) {
        *size = sizes.bytes;
        *count = sizes.ends;
        return TOO_SMALL;
    }
    let reply = of.get(alloc, node, end);
    tell_got(&reply, bytes, size, portals, count, number);
    status(&reply)
}

/// Closes a portal of a node.
#[unsafe(no_mangle)]
pub extern "C" fn ipcz_close(alloc: Global, of: &mut Handle, node: u8, at: Portal) -> u32
    ensures did { IsSome of.old.held.world → Closes of.old.held.world node at result of.new.held.world }
    ensures none { IsNone of.old.held.world → IsRefused not_created of.old.held.world result of.new.held.world }
{
    if !of.has_world {
        return NOT_CREATED;
    }
    let reply = of.step(alloc, &Step::Close { node, at: at.end() });
    status(&reply)
}

/// Takes the first possible act of a node, if it has one.
#[unsafe(no_mangle)]
pub extern "C" fn ipcz_turn(alloc: Global, of: &mut Handle, node: u8) -> u32
    ensures did { IsSome of.old.held.world → TakesTurn of.old.held.world node result of.new.held.world }
    ensures none { IsNone of.old.held.world → IsRefused not_created of.old.held.world result of.new.held.world }
{
    if !of.has_world {
        return NOT_CREATED;
    }
    let reply = of.step(alloc, &Step::Turn(node));
    status(&reply)
}

/// Takes the first possible act of a node, and tells whether it had one.
#[unsafe(no_mangle)]
pub extern "C" fn ipcz_act(alloc: Global, of: &mut Handle, node: u8, acted: &mut bool) -> u32
    ensures did { IsSome of.old.held.world → TellsTurn of.old.held.world node result acted.old acted.new of.new.held.world }
    ensures none { IsNone of.old.held.world → IsRefused not_created of.old.held.world result of.new.held.world × (acted.new ≡ acted.old) }
{
    if !of.has_world {
        return NOT_CREATED;
    }
    let turned = of.step(alloc, &Step::Turn(node));
    tell_acted(&turned, acted);
    status(&turned)
}

/// Lets the nodes take turns until none has an act, or so many were taken.
#[unsafe(no_mangle)]
pub extern "C" fn ipcz_settle_counting(
    alloc: Global,
    of: &mut Handle,
    limit: u64,
    acts: &mut u64,
    quiet: &mut bool,
) -> u32
    ensures did { IsSome of.old.held.world →
        Settles of.old.held.world limit result acts.old quiet.old acts.new quiet.new of.new.held.world }
    ensures none { IsNone of.old.held.world → IsRefused not_created of.old.held.world result of.new.held.world
        × (acts.new ≡ acts.old) × (quiet.new ≡ quiet.old) }
{
    if !of.has_world {
        return NOT_CREATED;
    }
    let answer = of.settle(alloc, limit);
    tell_settled(limit, &answer, acts, quiet)
}

/// How many link words were claimed.
#[unsafe(no_mangle)]
pub extern "C" fn ipcz_claimed(alloc: Global, of: &mut Handle) -> u64
    ensures claimed { result ≡ unwrap_or (option_map (λ w. w.claimed) of.old.held.world) 0 }
    ensures same { of.new.held.world ≡ of.old.held.world }
{
    if !of.has_world {
        return 0;
    }
    let world = of.take(alloc);
    let claimed = world.claimed();
    of.give(world);
    claimed
}

/// How many link words are left.
#[unsafe(no_mangle)]
pub extern "C" fn ipcz_words_left(alloc: Global, of: &mut Handle) -> u64
    ensures left { result ≡ unwrap_or (option_map (λ w. w.size - w.claimed) of.old.held.world) 0 }
    ensures same { of.new.held.world ≡ of.old.held.world }
{
    if !of.has_world {
        return 0;
    }
    let world = of.take(alloc);
    let left = world.words_left();
    of.give(world);
    left
}

/// Makes so many link words more.
#[unsafe(no_mangle)]
pub extern "C" fn ipcz_add_words(alloc: Global, of: &mut Handle, count: u64) -> u32
    ensures did { IsSome of.old.held.world → AddsWords of.old.held.world count result of.new.held.world }
    ensures none { IsNone of.old.held.world → IsRefused not_created of.old.held.world result of.new.held.world }
{
    if !of.has_world {
        return NOT_CREATED;
    }
    let mut world = of.take(alloc);
    let added = world.add_words(count);
    of.give(world);
    match added {
        Ok(()) => 0,
        Err(why) => refused(why),
    }
}

/// Lets each proxy that found no link word ask again, and tells how many there were.
#[unsafe(no_mangle)]
pub extern "C" fn ipcz_retry(alloc: Global, of: &mut Handle) -> u64
    ensures did { Retries of.old.held.world result of.new.held.world }
    ensures none { IsNone of.old.held.world → (result ≡ 0) × (of.new.held.world ≡ of.old.held.world) }
{
    if !of.has_world {
        return 0;
    }
    let mut world = of.take(alloc);
    let asked = world.retry();
    of.give(world);
    asked
}

/// Whether a link word was claimed; then its number is written.
#[unsafe(no_mangle)]
pub extern "C" fn ipcz_word(alloc: Global, of: &mut Handle, i: u64, word: &mut u64) -> bool
    ensures word { written result word.new ≡ read_off of.old.held.world (λ w. shown_word w i) }
    ensures none { result ≡ false → word.new ≡ word.old }
    ensures same { of.new.held.world ≡ of.old.held.world }
{
    if !of.has_world {
        return false;
    }
    let world = of.take(alloc);
    let shown = world.word(i);
    of.give(world);
    match shown {
        Some(n) => {
            *word = n;
            true
        }
        None => false,
    }
}

/// Whether the callers of a node hold a portal; then the node is written.
#[unsafe(no_mangle)]
pub extern "C" fn ipcz_holder(alloc: Global, of: &mut Handle, portal: Portal, node: &mut u8) -> bool
    ensures holder { written result node.new ≡ read_off of.old.held.world (λ w. holder_of w (named portal)) }
    ensures none { result ≡ false → node.new ≡ node.old }
    ensures same { of.new.held.world ≡ of.old.held.world }
{
    if !of.has_world {
        return false;
    }
    let world = of.take(alloc);
    let holder = world.holder_of(portal.end());
    of.give(world);
    match holder {
        Some(n) => {
            *node = n;
            true
        }
        None => false,
    }
}
