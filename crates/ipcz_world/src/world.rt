//! Worlds, as callers have them: each call keeps the law.
ghost use Rattle.std.specs.Prelude.{◌≡◌, ◌≢◌, ◌<◌, ◌≤◌, ◌+◌, ℕ, true, false, IfOk, IfErr, IfSome, IsOk, OnErr, OnOk, map, None};
ghost use Rattle.ipcz_node.specs.Finding.{IsNextReady};
ghost use Rattle.ipcz_node.specs.Looking.{IsLook};
ghost use Rattle.ipcz_node.specs.Node.{holds_end};
ghost use Rattle.ipcz_node.specs.RoomyNodes.{TakesMore};
ghost use Rattle.ipcz_world.specs.Arrived.{AreOutOfRoute, arrival_in};
ghost use Rattle.ipcz_base.specs.declared.link_end.LinkEnd.{LinkEnd};
ghost use Rattle.ipcz_word.specs.Layout.{word_of_bits};
ghost use Rattle.ipcz_world.specs.Asking.{can_act, hand_at, IsActed, WhyNotTaken};
ghost use Rattle.ipcz_world.specs.Books.{Books, no_books};
ghost use Rattle.ipcz_world.specs.FastPath.{IsCarried, IsLone, IsLoneSender};
ghost use Rattle.ipcz_world.specs.Coding.{IsTable};
ghost use Rattle.ipcz_world.specs.HeldEnds.{grown};
ghost use Rattle.ipcz_world.specs.Holding.{holder_of, routers_at, shown_word};
ghost use Rattle.ipcz_world.specs.Lawful.{IsWithinLimits, Lawful};
ghost use Rattle.ipcz_world.specs.Lawfulness.{IsLawful, IsPlainReply, KeepsLawful, StaysLawful};
ghost use Rattle.ipcz_world.specs.Listing.{ArePossible, possible_acts};
ghost use Rattle.ipcz_world.specs.Owed.{IsWet};
ghost use Rattle.ipcz_world.specs.Parts.{world_of_parts};
ghost use Rattle.ipcz_world.specs.Retries.{AllMayAsk, LetAskTold};
ghost use Rattle.ipcz_world.specs.RoomyWorlds.{HasRoomToAct, HasRoomToStep, roomy_at};
ghost use Rattle.ipcz_world.specs.Routes.{Routes, first_routes};
ghost use Rattle.ipcz_world.specs.Steps.{Gives, GivesOrNoMemory, StepAny, StepFirst, first_step, next_sizes, put_of, put_reply, put_step};
ghost use Rattle.ipcz_world.specs.FirstRuns.{AreSteps, KeepsLaw};
ghost use Rattle.ipcz_world.specs.Turns.{after_act, next_at};
ghost use Rattle.ipcz_world.specs.World.{new_world, node_at};
ghost use Rattle.ipcz_world.specs.Settling.{IsQuiet, TakesTurn};
ghost use Rattle.ipcz_world.specs.SettleBounds.{CarryNone, IsLawfulSettle, IsLawfulRefusal, plain_limit};
ghost use Rattle.ipcz_world.specs.SettleLimit.{settle_limit};
ghost use Rattle.ipcz_world.specs.Tallies.{Tells};
ghost use Rattle.ipcz_world.specs.Visiting.{AreIdle, IsPlace, Walk};

use crate::mail::Mail;
use crate::state::State;
use crate::step::{NotTaken, Reply, Settled, Step};
use ipcz_base::{Bytes, End, Ends, PortalStatus, Profile, Refusal, Sizes};
use ipcz_node::{Act, Happened, NodeState, PutRefused};
use std::alloc::{AllocError, Global};
use std::marker::Model;

/// Nodes with the link words that they share and the mailboxes between them (docs/PROTOCOL.md, "Nodes" and "Turns").
///
/// The type keeps that there are books and routes with which the world is lawful: no caller ever has to prove it.
///
/// Contracts see the world with the **room** of its nodes: how much more each of their lists takes before it has to grow. A step, a put or an
/// act that finds the room it wants is never refused `OutOfMemory`, and a turn takes its first act then, with nothing in its stead (`full`).
#[derive(Drop)]
pub struct World {
    state: State,
}

impl Model for World {
    ghost use Rattle.std.specs.FinMap.{code};
    ghost use Rattle.std.specs.Coded.{codes};
    ghost use Rattle.ipcz_world.specs.RoomyWorlds.{RoomyWorld};
    ghost use Rattle.ipcz_world.specs.Lawfulness.{IsLawful};

    ghost Value = { RoomyWorld };

    ghost coded = { Prim.hlevel (codes, code) };

    ghost view = { λ a. a.state };

    ghost invariant = { λ a. IsLawful a.state.world };
}

impl World {
    /// The world of so many nodes and link words at the start (docs/PROTOCOL.md, "Nodes"): each two nodes have their first pair, numbered
    /// in the order of their nodes, whose two terminals share one link; its word is open and claimed, the other words are empty. Each
    /// mailbox is empty.
    ///
    /// `nodes` is 1 to 64; `words` is from the number of first pairs, `nodes * (nodes - 1) / 2`, to 2^32 - 1. Each open and each bypass
    /// claims a word for good; [`World::add_words`] makes more. For each word 8 bytes of address space are reserved here, which are first
    /// touched when the word is claimed. So `World::new(alloc, 2, 1 << 24)` reserves 128 MiB and touches a page of them, and that world answers
    /// no `NoWord` before its callers and proxies have claimed the other 16,777,215 words.
    ///
    /// Refused `OutOfMemory` if there is no memory for it, and for nothing else: also of a system that doesn't reserve more than its memory.
    pub fn new(alloc: Global, nodes: u8, words: u32) -> Result<World, Refusal>
        requires limits { IsWithinLimits nodes words }
        ensures world { IfOk result (λ s. s.world ≡ new_world nodes words) }
        ensures lawful { IfOk result (λ s. Lawful s.world no_books (first_routes nodes)) }
        ensures why { IfErr result (λ e. e ≡ Refusal.OutOfMemory) }
    {
        let state = State::new(alloc, nodes, words)?;
        Ok(World { state })
    }

    /// The world of these nodes, mailboxes and link words, each by number, with so many words claimed: what nodes on a table of their own
    /// come back to. The caller proves that it is lawful with some books and routes, and that the words' numbers are those of link words. It is
    /// never refused, and takes no memory.
    ///
    /// So `finish` of `ipcz_cell` gives `World::of_parts(nodes, mail, words, claimed)` of the nodes that it takes out of their cells.
    pub fn of_parts(nodes: Vec<NodeState>, mail: Vec<Mail>, words: Vec<u64>, claimed: u64) -> World
        requires words { IsTable words.items claimed }
        requires lawful { IsLawful (world_of_parts (map (λ k. k.node) nodes.items) mail.items (map word_of_bits words.items) claimed) }
        ensures { result.world ≡ world_of_parts (map (λ k. k.node) nodes.items) mail.items (map word_of_bits words.items) claimed }
    {
        let state = State::of_parts(nodes, mail, words, claimed);
        World { state }
    }

    /// What the type keeps: there are books and routes with which the world is lawful (docs/THEOREM.md). It does nothing, and is there for
    /// what a caller has to prove: after `world.keeps_the_law();` the proof of the caller's function has that fact of the world. It is never
    /// refused.
    pub fn keeps_the_law(&self)
        ensures { IsLawful self.now.world }
    {
        let _state = &self.state;
    }

    /// How many link words were claimed: one for each first pair, one for each open, and one for each link that a proxy claimed to be bypassed by. It is at most as
    /// many as the world was made with, and is never refused.
    ///
    /// In the world `World::new(alloc, 3, 8)` it is 3.
    pub fn claimed(&self) -> u64
        ensures { result ≡ self.now.world.claimed }
    {
        self.state.claimed()
    }

    /// How many link words are left: those that no open and no bypass has claimed. If it is 0, an open is refused `NoWord`, and a proxy that
    /// finds no word stays until [`World::retry`].
    ///
    /// `World::new(alloc, 2, 8)` has one first pair, whose word is claimed: it has 7 left, and 6 after an open.
    pub fn words_left(&self) -> u64
        ensures { self.now.world.claimed + result ≡ self.now.world.size }
    {
        self.state.words_left()
    }

    /// Makes so many link words more, none of them claimed: what a world that lasts takes from time to time, in place of all its words at once.
    /// The numbers of the new words follow those that there are, and nothing else of the world changes. A proxy that has found no word
    /// before stays as it is until [`World::retry`].
    ///
    /// For each word that isn't claimed yet 8 bytes are reserved. Where there is no room for the new ones the list of all words is moved into
    /// one that has, so to add many words at a time is cheaper than few. Refused `OutOfMemory`, also if there would be more than 2^64 - 1 words;
    /// then the world is as it was. To add none is never refused.
    ///
    /// In a world with no words left, `world.add_words(1000)?` makes `world.words_left()` 1,000. A program that lasts asks before each open:
    /// `if world.words_left() < 64 { world.add_words(1000)?; }`.
    pub fn add_words(&mut self, count: u64) -> Result<(), Refusal>
        ensures more { OnOk result (self.new.world ≡ grown self.old.world count) }
        ensures none { count ≡ 0 → IsOk result }
        ensures lawful { OnOk result (StaysLawful self.old.world self.new.world) }
        ensures err { OnErr result (self.new.world ≡ self.old.world) }
        ensures why { IfErr result (λ e. e ≡ Refusal.OutOfMemory) }
    {
        self.state.add_words(count)
    }

    /// Lets each proxy ask again that was told that no word is left for its bypass, and answers how many there were, of all nodes; if there
    /// were more than 2^64 - 1, it answers 2^64 - 1. A proxy that was told so doesn't ask again by itself, and stays where it is, in the way of
    /// its pair's parcels. So who adds words calls this behind it, and then settles: those that find a word are bypassed and leave.
    ///
    /// It looks at each node once, and at the routers only of a node of which some may wait. It takes no memory, and is never refused. It may be
    /// called at any time: where no word is left those that ask are told so again, each at the cost of two turns. It is no step of a script, and
    /// no step calls it.
    ///
    /// In a new world `world.retry()` is 0. Where three proxies have found no word, `world.add_words(3)?` and then `world.retry()`, which is 3,
    /// let all three go at the next settle.
    pub fn retry(&mut self) -> u64
        ensures each { AllMayAsk self.old.world self.new.world }
        ensures asked { LetAskTold self.old.world result self.new.world }
        ensures wet { IsWet self.new.world }
        ensures lawful { StaysLawful self.old.world self.new.world }
    {
        self.state.retry()
    }

    /// Whether nothing waits: no message is in an outbox, a mailbox or a hand, no close is pending and no router is flagged. Then each node's
    /// turn is `Idle`, and a settle takes no act; else some node has an act.
    ///
    /// So it is in a new world, and after a settle that answered `Settled`; after a put it is not.
    pub fn is_quiet(&self) -> bool
        ensures quiet { result ≡ true → IsQuiet self.now.world }
        ensures busy { result ≡ false → IsQuiet self.now.world → ⊥ }
    {
        self.state.last_busy(0).is_none()
    }

    /// The number of a link word, below 32768 (docs/PROTOCOL.md, "Link words"); none exactly from the claim count on. It is never refused.
    ///
    /// In the world `World::new(alloc, 2, 8)` `world.word(0)` is `Some(3)`, stable at both sides, and `world.word(1)` is none.
    #[tactic(auto, unfolding(crate::specs::World::word_at))]
    pub fn word(&self, i: u64) -> Option<u64>
        ensures { result ≡ shown_word self.now.world i }
    {
        self.state.word(i)
    }

    /// The node whose callers hold the end, if some do. In a world of trusted nodes there is one at most. An end that is closed, that travels in
    /// a parcel, or of a pair that was never opened is held by none. It is never refused.
    ///
    /// In the world `World::new(alloc, 2, 8)` the holder of the end of side B of pair 0 is `Some(1)`, and that of an end of pair 1 is none.
    pub fn holder_of(&self, end: End) -> Option<u8>
        ensures { result ≡ holder_of self.now.world end }
    {
        self.state.holder_of(end)
    }

    /// How many routers a node has, the terminals of its open ends among them; none if it isn't one of the world's. It is never refused.
    ///
    /// In the world `World::new(alloc, 3, 8)` `world.routers(2)` is `Some(2)`, and `world.routers(3)` is none.
    pub fn routers(&self, node: u8) -> Option<usize>
        ensures { result ≡ routers_at self.now.world node }
    {
        self.state.routers(node)
    }

    /// Takes a step and answers it (docs/PROTOCOL.md, "Turns"). A turn takes the node's first possible act. A put by a step copies its lists.
    ///
    /// Each step is refused `Stranger` first, if the node isn't one of the world's. Then:
    ///
    /// An open is refused `NoWord` if each link word is claimed, `NumbersEnd` if too few serials are left at the node for two routers, and
    /// `OutOfMemory`.
    ///
    /// A put is refused `OutOfMemory` if the copies of its lists find no memory, and then as [`World::put_as`] says.
    ///
    /// A get is refused `Stranger` if the node's callers don't hold the end, `Empty` if the next parcel hasn't come, and `PeerClosed` if the
    /// peer is closed and all that was put there was got. It takes no memory.
    ///
    /// A close is refused `Stranger` if the node's callers don't hold the end, and `OutOfMemory`.
    ///
    /// A turn is refused `NumbersEnd` if its act would make more routers than there are serials left at the node, and `OutOfMemory` if its act
    /// wants memory and finds none; but a router that finds none to begin its bypass, or to retire, gives its lock back instead.
    ///
    /// Only a put by a step asks for memory in any case, for the copies of its lists. Each other step that finds room for what it wants does what it
    /// does with ample memory (`full`).
    ///
    /// A refusal changes nothing. In the world `World::new(alloc, 2, 8)` the step `Open(0)` is answered `Opened` with the ends of pair 1, and
    /// `Turn(0)`, where nothing waits, `Turned(Idle)`.
    pub fn step(&mut self, step: &Step) -> Reply
        ensures step { StepFirst self.old.world step.now result self.new.world }
        ensures lawful { KeepsLawful self.old.world step.now result self.new.world }
        ensures plain { IsPlainReply self.old.world step.now result }
        ensures full { HasRoomToStep self.old step.now → Gives (first_step self.old.world step.now) result self.new.world }
    {
        self.state.step(step)
    }

    /// The node that sent the message in a node's hand, if it has one there: what `Act::Hand` has to name (docs/PROTOCOL.md, "Turns"). A node
    /// that isn't one of the world's has none. It is never refused.
    ///
    /// In the world `World::new(alloc, 2, 8)` `world.hand(0)` is none, and after a look of node 0 at node 1's mailbox it is `Some(1)`.
    pub fn hand(&self, node: u8) -> Option<u8>
        ensures { result ≡ hand_at self.now.world node }
    {
        self.state.hand(node)
    }

    /// Whether a node may take this act now: in whatever order, where a step's turn takes the first possible one (docs/PROTOCOL.md, "Turns").
    /// A node handles the message in its hand before it looks for another, a router rests only if it can do nothing else, and a node is idle
    /// only if it has no act; each other act that is possible may come next. A node that isn't one of the world's may take none. It is never
    /// refused, and takes no memory.
    ///
    /// In the world `World::new(alloc, 2, 8)` `world.can_act(0, Act::Idle)` is true, and `world.can_act(0, Act::Look(1))` is false.
    pub fn can_act(&self, node: u8, act: Act) -> bool
        ensures { result ≡ can_act self.now.world node act }
    {
        self.state.can_act(node, act)
    }

    /// Lets a node take this act, whichever of its possible ones it is, and tells what it was seen to do. So another order than that of
    /// [`World::step`] becomes a run; the theorem holds of any.
    ///
    /// `NotTaken::NotPossible` if [`World::can_act`] answers false. `NotTaken::Refused` with `NumbersEnd` if the act would make more routers
    /// than there are serials left at the node, and with `OutOfMemory` if it wants memory and finds none; nothing stands in for it then, but
    /// who asks may ask for the unlock in place of a begin or a retire. An act that isn't taken changes nothing.
    ///
    /// In the world `World::new(alloc, 2, 8)` `world.act(0, Act::Idle)` is `Ok(Happened::Idle)`.
    pub fn act(&mut self, node: u8, act: Act) -> Result<Happened, NotTaken>
        ensures acted { IfOk result (λ event. IsActed self.old.world node act event self.new.world) }
        ensures step { IfOk result (λ event. StepAny self.old.world (Step.Turn node) (Reply.Turned event) self.new.world) }
        ensures lawful { IfOk result (λ event. KeepsLawful self.old.world (Step.Turn node) (Reply.Turned event) self.new.world) }
        ensures plain { IfOk result (λ event. IsPlainReply self.old.world (Step.Turn node) (Reply.Turned event)) }
        ensures why { IfErr result (λ why. WhyNotTaken self.old.world node act why) }
        ensures full { HasRoomToAct self.old node act → IfErr result (λ why. why ≢ NotTaken.Refused Refusal.OutOfMemory) }
        ensures err { OnErr result (self.new.world ≡ self.old.world) }
    {
        self.state.act(node, act)
    }

    /// The acts that a node may take now, each once: those of which [`World::can_act`] says so. They come in the order in which turns try them:
    /// the message in hand, looks and posts by the other node's number, the end that is closed next, the routers by their serials, each with its
    /// acts in the order of their table, and idle. Some act is among them, if the node is one of the world's; else there is none. Idle is among
    /// them if the node has nothing to do; a router that can do nothing may rest, also if it rests already, which changes nothing.
    ///
    /// It changes nothing, and looks at each router of the node. Refused if there is no memory for the list.
    ///
    /// In the world `World::new(alloc, 2, 8)` `world.possible_acts(alloc, 0)` has `Act::Router(0, RouterAct::Rest)` and `Act::Idle`.
    pub fn possible_acts(&self, alloc: Global, node: u8) -> Result<Vec<Act>, AllocError>
        ensures possible { IfOk result (λ acts. ArePossible self.now.world node acts.items) }
        ensures order { IfOk result (λ acts. acts.items ≡ possible_acts self.now.world node) }
    {
        self.state.possible_acts(alloc, node)
    }

    /// Puts a parcel at an end that the node's callers hold, and answers its number: how many were put there before. It has 0 to 65,536 bytes of
    /// any value, and 0 to 8 ends, which the callers don't hold any more. Its lists aren't copied.
    ///
    /// Refused as [`World::put_as`] of `Profile::Wide`, and so never `BadData`. A refused put changes nothing, and gives both lists back.
    ///
    /// Ends that travel in a circle, each through a pair whose end another carries, may travel for ever: see [`World::settle`].
    ///
    /// At an end at which nothing was put yet, `world.put_wide(0, at, bytes, ends)` is `Ok(0)`.
    pub fn put_wide(
        &mut self,
        node: u8,
        at: End,
        bytes: Bytes,
        ends: Ends,
    ) -> Result<u64, PutRefused>
        ensures step { StepFirst self.old.world (Step.PutWide node at bytes ends) (put_reply result) self.new.world }
        ensures order { GivesOrNoMemory self.old.world (put_step Profile.Wide self.old.world node at (record { bytes = bytes; ends = ends })) (put_reply result) self.new.world }
        ensures back { IfErr result (λ e. (e.bytes ≡ bytes) × (e.ends ≡ ends)) }
        ensures lawful { KeepsLawful self.old.world (Step.PutWide node at bytes ends) (put_reply result) self.new.world }
        ensures plain { IsPlainReply self.old.world (Step.PutWide node at bytes ends) (put_reply result) }
        ensures full { TakesMore (roomy_at self.old node) at → Gives (put_step Profile.Wide self.old.world node at (record { bytes = bytes; ends = ends })) (put_reply result) self.new.world }
    {
        self.put_as(Profile::Wide, node, at, bytes, ends)
    }

    /// Puts a parcel as [`World::put_wide`] does, but a printed one, as scripts put: it has 0 to 256 bytes, each from 32 to 126.
    ///
    /// Refused as [`World::put_as`] of `Profile::Printed`, and so `TooMany` from 257 bytes on and `BadData` for any other byte. A refused put
    /// changes nothing, and gives both lists back.
    ///
    /// Of the byte 7, `world.put(0, at, bytes, ends)` is refused `BadData`, where a `put_wide` takes it.
    pub fn put(&mut self, node: u8, at: End, bytes: Bytes, ends: Ends) -> Result<u64, PutRefused>
        ensures step { StepFirst self.old.world (Step.Put node at bytes ends) (put_reply result) self.new.world }
        ensures order { GivesOrNoMemory self.old.world (put_step Profile.Printed self.old.world node at (record { bytes = bytes; ends = ends })) (put_reply result) self.new.world }
        ensures back { IfErr result (λ e. (e.bytes ≡ bytes) × (e.ends ≡ ends)) }
        ensures lawful { KeepsLawful self.old.world (Step.Put node at bytes ends) (put_reply result) self.new.world }
        ensures plain { IsPlainReply self.old.world (Step.Put node at bytes ends) (put_reply result) }
        ensures full { TakesMore (roomy_at self.old node) at → Gives (put_step Profile.Printed self.old.world node at (record { bytes = bytes; ends = ends })) (put_reply result) self.new.world }
    {
        self.put_as(Profile::Printed, node, at, bytes, ends)
    }

    /// Puts a parcel of a profile at an end and answers its number, as the step `Put` does, or `PutWide`, without a copy of its lists.
    ///
    /// Refused by the first of these that holds: `Stranger` if the node isn't one of the world's, or its callers don't hold the end; `TooMany` if
    /// the parcel has more than 8 ends, or more than 256 bytes, or, of `Profile::Wide`, more than 65,536; `BadData` if it is of
    /// `Profile::Printed` and a byte isn't from 32 to 126; `SelfAttach` if it carries the end at which it is put; `PeerAttach` if it carries the
    /// peer of that end; `Stranger` if it carries an end that the callers don't hold, or one twice; `PeerClosed` if the node has heard that the
    /// peer is closed; `NumbersEnd` if no number is left for a parcel at this end, after 2^64 - 3 of them; and `OutOfMemory` if the terminal's
    /// queue has to grow and finds no memory. A refused put changes nothing, and gives both lists back.
    ///
    /// At an end at which one parcel was put, `world.put_as(Profile::Wide, 0, at, bytes, ends)` is `Ok(1)`.
    pub fn put_as(
        &mut self,
        profile: Profile,
        node: u8,
        at: End,
        bytes: Bytes,
        ends: Ends,
    ) -> Result<u64, PutRefused>
        ensures step { StepFirst self.old.world (put_of profile node at bytes ends) (put_reply result) self.new.world }
        ensures order { GivesOrNoMemory self.old.world (put_step profile self.old.world node at (record { bytes = bytes; ends = ends })) (put_reply result) self.new.world }
        ensures back { IfErr result (λ e. (e.bytes ≡ bytes) × (e.ends ≡ ends)) }
        ensures lawful { KeepsLawful self.old.world (put_of profile node at bytes ends) (put_reply result) self.new.world }
        ensures plain { IsPlainReply self.old.world (put_of profile node at bytes ends) (put_reply result) }
        ensures full { TakesMore (roomy_at self.old node) at → Gives (put_step profile self.old.world node at (record { bytes = bytes; ends = ends })) (put_reply result) self.new.world }
    {
        self.state.put_given(profile, node, at, bytes, ends)
    }

    /// Gets the next parcel at an end, as the step `Get` does: the reply is `Got` with its number and the parcel, whose ends the node's callers
    /// then hold. It takes no memory.
    ///
    /// Refused `Stranger` if the node isn't one of the world's, or its callers don't hold the end; `Empty` if the next parcel hasn't come, as it
    /// can't before the nodes have acted; `PeerClosed` if the peer is closed and all that was put there was got. A refusal changes nothing.
    ///
    /// After `world.put_wide(0, left, bytes, ends)` and a settle, `world.get(1, right)` is `Got(0, parcel)`, if `right` is the peer of `left`.
    pub fn get(&mut self, node: u8, at: End) -> Reply
        ensures step { StepFirst self.old.world (Step.Get node at) result self.new.world }
        ensures lawful { KeepsLawful self.old.world (Step.Get node at) result self.new.world }
        ensures plain { IsPlainReply self.old.world (Step.Get node at) result }
    {
        self.state.get_given(node, at)
    }

    /// How many bytes and ends the parcel has that a get at this end of a node would give; none if the get would be refused. Nothing is
    /// taken. It is never refused, and takes no memory.
    ///
    /// Where a parcel of five bytes and no end is the next, `world.next_sizes(1, right)` is `Some(Sizes { bytes: 5, ends: 0 })`.
    pub fn next_sizes(&self, node: u8, at: End) -> Option<Sizes>
        ensures { result ≡ next_sizes self.now.world node at }
    {
        self.state.next_sizes(node, at)
    }

    /// What gets at this end of a node would answer, one after the other: the number and the sizes of the next parcel, how many parcels wait,
    /// and whether the peer has closed behind them. None if the node isn't one of the world's, or its callers don't hold the end, where a get
    /// would be refused `Stranger`. Nothing is taken. It is never refused, and takes no memory. It looks at each parcel that waits.
    ///
    /// Where two parcels of five bytes have come and been left there, and the peer has closed, `world.look(1, right)` is
    /// `Some(PortalStatus { next: 0, sizes: Some(Sizes { bytes: 5, ends: 0 }), waiting: 2, peer_closed: true })`.
    pub fn look(&self, node: u8, at: End) -> Option<PortalStatus>
        ensures here { node < self.now.world.count → IsLook (node_at self.now.world node) at result }
        ensures away { self.now.world.count ≤ node → result ≡ None }
    {
        self.state.status(node, at)
    }

    /// The first end, from a serial on, that a node's callers hold and where a get isn't `Empty`: a parcel has come there, or the peer has closed and
    /// all that was put was got. With it stands the serial of the router at which it was found; ask from the serial behind that for the next one.
    /// So from 0 on all such ends come, each once, as long as the node takes no turn and no call meanwhile. None if there is no further one, or the
    /// node isn't one of the world's. It walks over no router where nothing has come, is never refused, and takes no memory.
    ///
    /// Where a parcel has come at `right` alone, `world.ready_from(1, 0)` is `Some((serial, right))`, and `world.ready_from(1, serial + 1)` is none.
    pub fn ready_from(&self, node: u8, serial: u64) -> Option<(u64, End)>
        ensures here { node < self.now.world.count → IsNextReady (node_at self.now.world node) serial result }
        ensures away { self.now.world.count ≤ node → result ≡ None }
    {
        self.state.ready_from(node, serial)
    }

    /// Whether this end of a node has arrived: the link of its terminal toward the peer is central, the terminal has marked its side of it
    /// stable, and gives up no earlier link any more (docs/PROTOCOL.md, "Turns"). None if the node isn't one of the world's, or its callers don't
    /// hold the end. It is never refused, takes no memory and changes nothing.
    ///
    /// An end of a pair that was opened here has arrived at once. One that came in a parcel has arrived when all the proxies that it left
    /// behind are out of its route: each of them only passes on what is on its way, and then leaves, for which it needs no link word and no
    /// lock. If the end travels on before, each proxy that is still in the route is bypassed only after the one before it; if it travels on
    /// only when it has arrived, it never has more than one proxy in the route. It is no promise about the peer, which may be on its own way,
    /// and whose proxies may stand. What is put and got is the same whether a portal has arrived or not.
    ///
    /// Where a portal has just come from another node, `world.has_arrived(1, at)` is `Some(false)`, and after a settle `Some(true)`, if no proxy is
    /// left without a word.
    pub fn has_arrived(&self, node: u8, at: End) -> Option<bool>
        ensures answer { result ≡ arrival_in self.now.world node at }
        ensures stranger { result ≡ None → node < self.now.world.count → holds_end (node_at self.now.world node) at ≡ false }
        ensures behind { result ≡ Some true → AreOutOfRoute self.now.world at }
    {
        self.state.has_arrived(node, at)
    }

    /// Takes each of these steps, in their order, and gives their replies. Refused `OutOfMemory` if there is no room for the replies:
    /// then no step is taken. A step that is refused, as [`World::step`] says, is a reply like any other, and the steps after it are taken.
    ///
    /// So `world.run(alloc, &[Step::Turn(0), Step::Turn(9)])` gives `Turned(Idle)` and `Refused(Stranger)`, where nothing waits.
    pub fn run(&mut self, alloc: Global, steps: &[Step]) -> Result<Vec<Reply>, Refusal>
        ensures run { IfOk result (λ replies. AreSteps self.old.world steps.now replies.items self.new.world) }
        ensures lawful { IfOk result (λ replies. KeepsLaw self.old.world steps.now replies.items self.new.world) }
        ensures why { IfErr result (λ e. e ≡ Refusal.OutOfMemory) }
        ensures err { OnErr result (self.new.world ≡ self.old.world) }
    {
        let Ok(mut replies) = Vec::with_capacity(alloc, steps.len()) else {
            return Err(Refusal::OutOfMemory);
        };
        for step in steps {
            replies.push_reserved(self.step(step));
        }
        Ok(replies)
    }

    /// How many acts are enough to settle, if no parcel that wasn't got carries portals; none if this is no number of 64 bits. It is read
    /// off the world: 6 for each number that has still to pass a router, 17 for each terminal and 61 for each proxy, 38 for each message
    /// that waits to be posted and 37 for each in a mailbox, and 3 for each close that is pending. For each end of a router's pair two numbers are counted in addition to those that
    /// were put: its mark's and Gone's.
    ///
    /// A settle with this limit, or a higher one, is settled or refused, unless begins or retires found no memory: each of those takes
    /// two acts more (docs/THEOREM.md). If parcels carry portals this may be too few. It looks at each router for each router, takes no memory,
    /// and is never refused.
    ///
    /// It is what to settle with: `if let Some(limit) = world.settle_limit() { world.settle(limit)?; }`.
    pub fn settle_limit(&self) -> Option<u64>
        ensures limit { Tells result (settle_limit self.now.world) }
        ensures enough { IfSome result (λ limit. (b : Books) → (g : Routes) → Lawful self.now.world b g → CarryNone b → plain_limit b self.now.world ≤ limit) }
    {
        self.state.settle_limit()
    }

    /// Lets the nodes take turns, one node after the other in passes over them, until no node has an act; at most `limit` acts are taken.
    /// Settled, with how many acts were taken, if nothing waits any more; `Unsettled` if `limit` acts were taken and a node still has
    /// one. A node that is idle takes no turn. A limit of the world's rank, and two more for each begin or retire that finds no
    /// memory, is enough (docs/THEOREM.md). The turns that were taken keep the law, as steps with what each was seen to do.
    ///
    /// If parcels that nobody has got carry each other's portals in a circle, these may follow each other from node to node for ever: then no
    /// limit is enough. It can't come to that where each portal travels only through pairs of a lower number than its own (docs/C.md, "Circles").
    ///
    /// Refused as the first turn that is refused, of the next node that has an act: `NumbersEnd` if its act would make more routers than there
    /// are serials left at the node, and `OutOfMemory` if its act wants memory and finds none. The turns before it stand, and that one
    /// changes nothing.
    ///
    /// In the world `World::new(alloc, 2, 8)` nothing waits, and `world.settle(0)` is `Ok(Settled { after: 0 })`.
    pub fn settle(&mut self, limit: u64) -> Result<Settled, Refusal>
        ensures settles { IfOk result (λ answer. IsLawfulSettle limit self.old.world self.new.world answer) }
        ensures refused { IfErr result (λ why. IsLawfulRefusal limit self.old.world self.new.world why) }
    {
        let (alone, behind) = self.carry(limit);
        if alone == 6 {
            return Ok(Settled::Settled { after: 6 });
        }
        let (carried, start) = if alone > 0 {
            (alone, behind)
        } else {
            self.carry_several(limit)
        };
        let mut from = start;
        for acts in carried..limit {
            let Some((node, act)) = self.state.next_busy(from) else {
                return Ok(Settled::Settled { after: acts });
            };
            from = self.state.next_node(node);
            match self.take_turn(node, act) {
                Ok(()) => {}
                Err(why) => return Err(why),
            }
        }
        match self.state.last_busy(from) {
            None => Ok(Settled::Settled { after: limit }),
            Some(_) => Ok(Settled::Unsettled),
        }
    }

    // Carries a lone parcel all its way, if that is all that the world has to do and six acts may be taken; else nothing is done. It gives how
    // many acts that was, and the node that is visited next. After six acts no node has an act.
    #[inline(always)]
    fn carry(&mut self, most: u64) -> (u64, u8)
        ensures walk { Walk self.old.world self.new.world result.0 result.1 }
        ensures place { IsPlace self.new.world result.1 }
        ensures within { result.0 ≤ most }
        ensures idle { result.0 ≡ 6 → AreIdle self.new.world 0 self.new.world.count }
        ensures carried { 6 ≤ most → (n serial : ℕ) → (link : LinkEnd) → IsLone self.old.world n serial link → IsCarried self.old.world self.new.world result.0 }
        ensures none { result.0 ≡ 0 → self.new.world ≡ self.old.world }
        ensures lawful { IsLawful self.new.world }
    {
        self.state.carry(most)
    }

    // Carries parcels one by one, if the first act of the only node that isn't quiet is to send one and six acts may be taken; else nothing is
    // done. It gives how many acts that was, and the node that is visited next.
    #[inline(always)]
    fn carry_several(&mut self, most: u64) -> (u64, u8)
        ensures walk { Walk self.old.world self.new.world result.0 result.1 }
        ensures place { IsPlace self.new.world result.1 }
        ensures within { result.0 ≤ most }
        ensures begun { 6 ≤ most → (n serial : ℕ) → (link : LinkEnd) → IsLoneSender self.old.world n serial link → 3 ≤ result.0 }
        ensures lawful { IsLawful self.new.world }
    {
        self.state.carry_several(most)
    }

    // Takes the turn of a node whose first possible act is given.
    fn take_turn(&mut self, node: u8, act: Act) -> Result<(), Refusal>
        requires node { node < self.old.world.count }
        requires first { act ≡ next_at self.old.world node }
        ensures turned { OnOk result (TakesTurn self.old.world node self.new.world) }
        ensures refused { IfErr result (λ why. StepFirst self.old.world (Step.Turn node) (Reply.Refused why) self.new.world) }
        ensures full { HasRoomToAct self.old node act → OnOk result (self.new.world ≡ after_act self.old.world node act) × IfErr result (λ why. why ≢ Refusal.OutOfMemory) }
    {
        self.state.take_first(node, act)
    }
}
