//! Calls on a world that carry the promise: `Keeps` ties the world to accounts, and each call hands it on with what the plain machine says of its
//! reply (specs/Promise). Where a call finds the room that it wants it does what it does with ample memory, and so isn't refused `OutOfMemory` (`full`).

ghost use Rattle.std.specs.Prelude.{◌≡◌, ◌≤◌, ◌+◌, ℕ, true, false, None, Ok, IfOk, IfErr, IfSome, IsOk, OnOk};
ghost use Rattle.ipcz_base.specs.declared.end.End.{End as EndRecord};
ghost use Rattle.ipcz_world.specs.Lawful.{IsWithinLimits};
ghost use Rattle.ipcz_world.specs.Owed.{IsWet};
ghost use Rattle.ipcz_world.specs.Retries.{LetAskTold};
ghost use Rattle.ipcz_node.specs.RoomyNodes.{TakesMore};
ghost use Rattle.ipcz_world.specs.RoomyWorlds.{HasRoomToStep, roomy_at};
ghost use Rattle.ipcz_world.specs.Settling.{IsQuiet};
ghost use Rattle.ipcz_world.specs.Steps.{Gives, first_step, put_reply, put_step};
ghost use Rattle.ipcz_promise.specs.Promise.{Account, HasClosedDropped, IsDelivered, IsInOrder, May, MayRun, MaySettle, holds, more_words, start};
ghost use Rattle.ipcz_promise.specs.Accounting.{Keeps};
ghost use Rattle.ipcz_promise.specs.CallRuns.{HasTheorem};
ghost use Rattle.ipcz_promise.specs.Readiness.{HasNothing, HasSomething};

use ipcz_base::{Bytes, End, Ends, Profile, Refusal};
use ipcz_node::PutRefused;
use ipcz_world::{Reply, Settled, Step, World};
use std::alloc::Global;

/// A world at the start, whose accounts are `start`: between each two nodes there is one pair, and each of its portals is held at its own node.
///
/// `nodes` is 1 to 64; `words`, how many pairs and links there can be in all, is from `nodes * (nodes - 1) / 2` to 2^32 - 1. Its only refusal is
/// `OutOfMemory`.
///
/// `new_world(alloc, 2, 8)` has the pair 0: node 0 holds its portal `A`, node 1 its portal `B`.
pub fn new_world(alloc: Global, nodes: u8, words: u32) -> Result<World, Refusal>
    requires limits { IsWithinLimits nodes words }
    ensures promise { IfOk result (λ w. Keeps w.world (start nodes words)) }
    ensures why { IfErr result (λ e. e ≡ Refusal.OutOfMemory) }
{
    World::new(alloc, nodes, words)
}

/// Takes a step and gives its reply, which is one of those that the machine allows. A refusal changes nothing.
///
/// `step(&mut world, &Step::Get { node: 1, at })` is `get(&mut world, 1, at)`. A step keeps its own lists: a put by it copies them, and
/// is refused `OutOfMemory`, if there is no room for that, before all else but a node that isn't there.
pub fn step(world: &mut World, step: &Step) -> Reply
    ensures promise { (a : Account) → Keeps world.old.world a → (c : Account) × May a step.now result c × Keeps world.new.world c }
    ensures full { HasRoomToStep world.old step.now → Gives (first_step world.old.world step.now) result world.new.world }
{
    world.step(step)
}

/// Opens a new pair, both of whose portals the node's callers then hold: the reply is `Opened` with the portal of side A and that of side B.
///
/// Refused `Stranger` if there is no such node, then `NoWord` if all words are used up, `NumbersEnd` if the node's serials are, and
/// `OutOfMemory`.
///
/// In the world `new_world(alloc, 2, 8)` the first `open(&mut world, 0)` makes the pair 1.
pub fn open(world: &mut World, node: u8) -> Reply
    ensures promise { (a : Account) → Keeps world.old.world a → (c : Account) × May a (Step.Open node) result c × Keeps world.new.world c }
    ensures full { HasRoomToStep world.old (Step.Open node) → Gives (first_step world.old.world (Step.Open node)) result world.new.world }
{
    step(world, &Step::Open(node))
}

/// Puts a parcel of printed bytes, with portals in it, at a portal, and gives its number: how many were put there before. The caller doesn't hold
/// the portals in the parcel any more.
///
/// Refused as `first_refusal` finds: `Stranger` if the node's callers don't hold the portal, `TooMany` for more than 256 bytes or 8 portals,
/// `BadData` for a byte that isn't printed (32 to 126), `SelfAttach` and `PeerAttach` if the portal or its peer is in the parcel, `Stranger` if
/// they don't hold each of those, or one stands there twice. Then `PeerClosed`, once the portal's node has heard that the peer is closed;
/// `NumbersEnd` after 2^64 - 3 parcels; and `OutOfMemory`. A refused put gives both lists back.
///
/// At a portal at which nothing was put yet, `put(&mut world, 0, at, bytes, ends)` gives `Ok(0)`.
pub fn put(
    world: &mut World,
    node: u8,
    at: End,
    bytes: Bytes,
    ends: Ends,
) -> Result<u64, PutRefused>
    ensures promise { (a : Account) → Keeps world.old.world a →
        (c : Account) × May a (Step.Put node at bytes ends) (put_reply result) c × Keeps world.new.world c }
    ensures back { IfErr result (λ e. (e.bytes ≡ bytes) × (e.ends ≡ ends)) }
    ensures full { TakesMore (roomy_at world.old node) at → Gives (put_step Profile.Printed world.old.world node at (record { bytes = bytes; ends = ends })) (put_reply result) world.new.world }
{
    world.put(node, at, bytes, ends)
}

/// Puts a parcel as [`put`] does, but of any bytes, up to 65536 of them: it is never refused `BadData`.
pub fn put_wide(
    world: &mut World,
    node: u8,
    at: End,
    bytes: Bytes,
    ends: Ends,
) -> Result<u64, PutRefused>
    ensures promise { (a : Account) → Keeps world.old.world a →
        (c : Account) × May a (Step.PutWide node at bytes ends) (put_reply result) c × Keeps world.new.world c }
    ensures back { IfErr result (λ e. (e.bytes ≡ bytes) × (e.ends ≡ ends)) }
    ensures full { TakesMore (roomy_at world.old node) at → Gives (put_step Profile.Wide world.old.world node at (record { bytes = bytes; ends = ends })) (put_reply result) world.new.world }
{
    world.put_as(Profile::Wide, node, at, bytes, ends)
}

/// Gets the next parcel at a portal: the reply is `Got` with its number and the parcel. The caller then holds the portals in it.
///
/// Refused `Stranger` if the node's callers don't hold the portal; `PeerClosed` if the peer is closed and all that it put was got; and `Empty`
/// if none has come yet. If nothing waits, as after a settle that answered `Settled` ([`is_quiet`]), `Empty` says that all was got and that the
/// peer isn't closed; and a get leaves it so that nothing waits.
///
/// After `put(&mut world, 0, left, bytes, ends)` and a settle, `get(&mut world, 1, right)` gives `Got` with number 0 and those lists, if `right` is the
/// peer of `left`.
pub fn get(world: &mut World, node: u8, at: End) -> Reply
    ensures promise { (a : Account) → Keeps world.old.world a → (c : Account) × May a (Step.Get node at) result c × Keeps world.new.world c }
    ensures delivered { (a : Account) → Keeps world.old.world a → IsQuiet world.old.world → result ≡ Reply.Refused Refusal.Empty → IsDelivered a at }
    ensures quiet { IsQuiet world.old.world → IsQuiet world.new.world }
{
    world.get(node, at)
}

/// Closes a portal for good: the reply is `Closed` with how many parcels were put there. Its peer still gets those, and then `PeerClosed`.
///
/// Refused `Stranger` if the node's callers don't hold the portal, and `OutOfMemory`.
///
/// At a portal at which one parcel was put `close(&mut world, 0, at)` gives `Closed` with number 1.
pub fn close(world: &mut World, node: u8, at: End) -> Reply
    ensures promise { (a : Account) → Keeps world.old.world a → (c : Account) × May a (Step.Close node at) result c × Keeps world.new.world c }
    ensures full { HasRoomToStep world.old (Step.Close node at) → Gives (first_step world.old.world (Step.Close node at)) result world.new.world }
{
    step(world, &Step::Close { node, at })
}

/// Lets a node take one act: the reply is `Turned` with what it was seen to do, which may be that it is idle.
///
/// Refused `Stranger` if there is no such node, `NumbersEnd` if its serials are used up, and `OutOfMemory`.
///
/// In the world `new_world(alloc, 2, 8)` each `turn(&mut world, 0)` gives `Turned(Idle)`: nothing waits there.
pub fn turn(world: &mut World, node: u8) -> Reply
    ensures promise { (a : Account) → Keeps world.old.world a → (c : Account) × May a (Step.Turn node) result c × Keeps world.new.world c }
    ensures full { HasRoomToStep world.old (Step.Turn node) → Gives (first_step world.old.world (Step.Turn node)) result world.new.world }
{
    step(world, &Step::Turn(node))
}

/// Takes each of these steps, in their order, and gives their replies. A step that is refused has a reply like any other, and the steps after it are
/// taken.
///
/// Refused `OutOfMemory` if there is no room for the replies: then no step is taken.
pub fn run(world: &mut World, alloc: Global, steps: &[Step]) -> Result<Vec<Reply>, Refusal>
    ensures promise { IfOk result (λ replies. (a : Account) → Keeps world.old.world a → (c : Account) × MayRun a steps.now replies.items c × Keeps world.new.world c) }
    ensures kept { IfErr result (λ e. (e ≡ Refusal.OutOfMemory) × (world.new.world ≡ world.old.world)) }
{
    world.run(alloc, steps)
}

/// Lets the nodes take turns, `limit` of them at most, until nothing waits: `Settled` with how many turns that took, or `Unsettled` if all were
/// taken and something still waits. After `Settled` a get tells by `Empty` that all was got ([`get`]); and each portal in a parcel that a closed
/// portal never got is closed.
///
/// Refused `NumbersEnd` or `OutOfMemory` as the first turn that is refused: the turns before it stand, and that one changes nothing.
///
/// In the world `new_world(alloc, 2, 8)` nothing waits: `settle(&mut world, 0)` gives `Settled { after: 0 }`.
pub fn settle(world: &mut World, limit: u64) -> Result<Settled, Refusal>
    ensures promise { (a : Account) → Keeps world.old.world a → (c : Account) × MaySettle a limit result c × Keeps world.new.world c }
    ensures quiet { (turns : ℕ) → result ≡ Ok (Settled.Settled turns) → IsQuiet world.new.world }
    ensures closes { (turns : ℕ) → result ≡ Ok (Settled.Settled turns) → (a : Account) → Keeps world.new.world a → HasClosedDropped a }
{
    world.settle(limit)
}

/// The node whose callers hold a portal, if some do.
///
/// In the world `new_world(alloc, 2, 8)` the holder of the portal `B` of pair 0 is node 1; that of a portal of pair 1 is none.
pub fn holder_of(world: &World, portal: End) -> Option<u8>
    ensures promise { (a : Account) → Keeps world.now.world a → result ≡ a.holder portal }
{
    world.holder_of(portal)
}

/// The first portal, from a serial on, that a node's callers hold and at which something has come: a get there isn't refused `Empty`. With it stands
/// the serial at which it was found; ask from 0 on for the first, and from the serial behind that for the next one. So all such portals come, each once, as
/// long as nothing else is called meanwhile (`World::ready_from`). None if there is no further one: from 0 on each get at what they hold is `Empty`. It walks
/// over no router where nothing has come, takes no memory and is never refused; for a node that isn't there it is none.
///
/// In the world `new_world(alloc, 2, 8)` `ready_from(&world, 1, 0)` is none; where a parcel has come at the portal `right` of node 1, it is `right` with its serial.
pub fn ready_from(world: &World, node: u8, serial: u64) -> Option<(u64, End)>
    ensures ready { (a : Account) → Keeps world.now.world a → IfSome result (λ x. (holds a node x.1 ≡ true) × HasSomething world.now.world node x.1) }
    ensures reached { IfSome result (λ x. serial ≤ x.0) }
    ensures none { (a : Account) → Keeps world.now.world a → serial ≡ 0 → result ≡ None → (at : EndRecord) → holds a node at ≡ true → HasNothing world.now.world node at }
{
    world.ready_from(node, serial)
}

/// Whether nothing waits: then each node's turn is `Idle`, a settle takes none, and each portal in a parcel that a closed portal never got is
/// closed.
///
/// So it is in a new world and after a settle that answered `Settled`; after a put it is not.
pub fn is_quiet(world: &World) -> bool
    ensures quiet { result ≡ true → IsQuiet world.now.world }
    ensures busy { result ≡ false → IsQuiet world.now.world → ⊥ }
    ensures closes { result ≡ true → (a : Account) → Keeps world.now.world a → HasClosedDropped a }
{
    world.is_quiet()
}

/// How many words are left of those that the world was made with and those that were added ([`add_words`]): each pair takes one, and nodes take
/// more for themselves. If it is 0, an open is refused `NoWord`.
///
/// In the world `new_world(alloc, 2, 8)` it is 7, since one pair is there; and 6 after an open.
pub fn words_left(world: &World) -> u64
    ensures promise { (a : Account) → Keeps world.now.world a → world.now.world.claimed + result ≡ a.words }
{
    world.words_left()
}

/// Makes so many words more. Nothing else of the accounts changes, and no word is taken: [`words_left`] answers so many more. If nothing waits,
/// nothing waits behind it.
///
/// `count` is how many, of 8 bytes each. Refused `OutOfMemory`, also if there would be more than 2^64 - 1 words in all: then nothing changes. To add
/// none is never refused.
///
/// In a world with no words left, after `add_words(&mut world, 1000)?` an open takes the first of 1,000.
pub fn add_words(world: &mut World, count: u64) -> Result<(), Refusal>
    ensures promise { OnOk result ((a : Account) → Keeps world.old.world a → Keeps world.new.world (more_words a count)) }
    ensures claimed { world.new.world.claimed ≡ world.old.world.claimed }
    ensures quiet { IsQuiet world.old.world → IsQuiet world.new.world }
    ensures none { count ≡ 0 → IsOk result }
    ensures kept { IfErr result (λ e. (e ≡ Refusal.OutOfMemory) × (world.new.world ≡ world.old.world)) }
{
    world.add_words(count)
}

/// Lets each proxy ask again that was told that no word is left for it, and answers how many there were, of all nodes; if there were more than
/// 2^64 - 1, it answers 2^64 - 1. The accounts stay as they are, and no word is taken before a node's next turns. If one was let ask something waits,
/// so a settle is due; if none was, nothing has changed.
///
/// It is never refused, and takes no memory. A proxy asks once by itself, so who adds words calls this behind it.
///
/// In the world `new_world(alloc, 2, 8)` `retry(&mut world)` is 0; where one proxy has found no word, it is 1 after `add_words(&mut world, 1)?`.
pub fn retry(world: &mut World) -> u64
    ensures promise { (a : Account) → Keeps world.old.world a → Keeps world.new.world a }
    ensures asked { LetAskTold world.old.world result world.new.world }
    ensures wet { IsWet world.new.world }
    ensures claimed { world.new.world.claimed ≡ world.old.world.claimed }
    ensures still { result ≡ 0 → world.new.world ≡ world.old.world }
{
    world.retry()
}

/// Makes a world, as [`new_world`] does, takes these steps in it, as [`run`] does, and gives their replies and the world. Nothing else has to be believed
/// of them than the machine's run from `start`. The theorem (specs/Theorem of `ipcz_world`) holds of them, too.
///
/// Refused `OutOfMemory` only.
pub fn play(
    alloc: Global,
    nodes: u8,
    words: u32,
    steps: &[Step],
) -> Result<(Vec<Reply>, World), Refusal>
    requires limits { IsWithinLimits nodes words }
    ensures promise { IfOk result (λ played. (c : Account) × MayRun (start nodes words) steps.now played.0.items c × IsInOrder c × Keeps played.1.world c) }
    ensures theorem { IfOk result (λ played. HasTheorem steps.now played.0.items played.1.world) }
    ensures why { IfErr result (λ e. e ≡ Refusal.OutOfMemory) }
{
    let mut world = World::new(alloc, nodes, words)?;
    let replies = world.run(alloc, steps)?;
    Ok((replies, world))
}
