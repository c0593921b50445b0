//! The state of a world. What it does stands in the modules below.
ghost use Rattle.std.specs.Prelude.{◌≡◌, ◌<◌, ◌≤◌, ◌+◌, IfOk, IfErr, IsOk, OnOk, OnErr, length, map};
ghost use Rattle.ipcz_word.specs.Layout.{word_of_bits};
ghost use Rattle.ipcz_world.specs.Coding.{claimed_word, table_of, AreUnclaimedEmpty, IsTable};
ghost use Rattle.ipcz_world.specs.HeldEnds.{grown};
ghost use Rattle.ipcz_world.specs.Holding.{holder_of, routers_at};
ghost use Rattle.ipcz_world.specs.Lawful.{IsWithinLimits};
ghost use Rattle.ipcz_world.specs.Parts.{world_of_parts};
ghost use Rattle.ipcz_world.specs.Owed.{IsWet};
ghost use Rattle.ipcz_world.specs.Retries.{LetAskAt, LetAskTold};
ghost use Rattle.ipcz_world.specs.RoomyWorlds.{HasRoomToAct, HasRoomToStep};
ghost use Rattle.ipcz_world.specs.Steps.{Gives, StepFirst, first_step};
ghost use Rattle.ipcz_world.specs.Taking.{IsRegular, node_of};
ghost use Rattle.ipcz_world.specs.Turns.{next_at};
ghost use Rattle.ipcz_world.specs.World.{new_world};

pub(crate) mod asking;
pub(crate) mod calls;
pub(crate) mod fast_path;
pub(crate) mod limits;
pub(crate) mod listing;
pub(crate) mod settling;
pub(crate) mod turns;

use crate::link_words::LinkWords;
use crate::mail::Mail;
use crate::mailboxes::Mailboxes;
use crate::nodes::Nodes;
use crate::step::{Reply, Step};
use ipcz_base::{End, Profile, Refusal};
use ipcz_node::{NodeState, first_pair_count};
use std::alloc::Global;
use std::marker::Model;

/// The parts of a world: its nodes, the link words and the mailboxes. A `World` keeps that they are lawful; here each call says what it
/// needs of them.
#[derive(Drop)]
pub(crate) struct State {
    nodes: Nodes,
    words: LinkWords,
    mail: Mailboxes,
    count: u8,
    alloc: Global,
}

impl Model for State {
    ghost use Rattle.std.specs.Prelude.{length};
    ghost use Rattle.std.specs.FinMap.{code};
    ghost use Rattle.std.specs.Coded.{codes};
    ghost use Rattle.ipcz_world.specs.RoomyWorlds.{RoomyWorld};

    ghost Value = { RoomyWorld };

    ghost coded = { Prim.hlevel (codes, code) };

    ghost view = { λ a. record {
      world = record {
        nodes = a.nodes.nodes;
        words = a.words.words;
        claimed = a.words.claimed;
        size = length a.words.words;
        count = a.count;
        mail = a.mail;
      };
      rooms = a.nodes.rooms;
    } };
}

impl State {
    /// The world of so many nodes and words at the start.
    #[tactic(auto, unfolding(crate::specs::World::new_world))]
    pub(crate) fn new(alloc: Global, nodes: u8, words: u32) -> Result<State, Refusal>
        requires { IsWithinLimits nodes words }
        ensures world { IfOk result (λ s. s.world ≡ new_world nodes words) }
        ensures why { IfErr result (λ e. e ≡ Refusal.OutOfMemory) }
    {
        let boxes = usize::from(nodes) * usize::from(nodes);
        let Ok(words) = LinkWords::new(alloc, first_pair_count(nodes), words) else {
            return Err(Refusal::OutOfMemory);
        };
        let Ok(mail) = Mailboxes::new(alloc, boxes) else {
            return Err(Refusal::OutOfMemory);
        };
        Ok(State {
            nodes: Nodes::new(alloc, nodes)?,
            words,
            mail,
            count: nodes,
            alloc,
        })
    }

    /// The world of these parts.
    pub(crate) fn of_parts(
        nodes: Vec<NodeState>,
        mail: Vec<Mail>,
        words: Vec<u64>,
        claimed: u64,
    ) -> State
        requires words { IsTable words.items claimed }
        requires empty { AreUnclaimedEmpty (map word_of_bits words.items) claimed }
        requires nodes { length nodes.items ≤ 255 }
        requires mail { length mail.items ≤ 4096 }
        ensures { result.world ≡ world_of_parts (map (λ k. k.node) nodes.items) mail.items (map word_of_bits words.items) claimed }
    {
        let alloc = *nodes.allocator();
        let count = nodes.len() as u8;
        State {
            nodes: Nodes::of(nodes),
            words: LinkWords::of(words, claimed),
            mail: Mailboxes::of(mail),
            count,
            alloc,
        }
    }

    /// How many words were claimed.
    pub(crate) fn claimed(&self) -> u64
        ensures { result ≡ self.now.world.claimed }
    {
        self.words.claimed()
    }

    /// How many words are left to claim.
    pub(crate) fn words_left(&self) -> u64
        ensures { self.now.world.claimed + result ≡ self.now.world.size }
    {
        self.words.left()
    }

    /// So many link words more, none of them claimed.
    pub(crate) fn add_words(&mut self, count: u64) -> Result<(), Refusal>
        ensures more { OnOk result (self.new.world ≡ grown self.old.world count) }
        ensures none { count ≡ 0 → IsOk result }
        ensures err { OnErr result (self.new.world ≡ self.old.world) }
        ensures why { IfErr result (λ e. e ≡ Refusal.OutOfMemory) }
    {
        match self.words.add(count) {
            Ok(()) => Ok(()),
            Err(_) => Err(Refusal::OutOfMemory),
        }
    }

    /// Lets the dry routers of each node ask for a word again, and answers how many there were, or 2^64 - 1 if there were more.
    pub(crate) fn retry(&mut self) -> u64
        requires { length self.old.world.nodes ≡ self.old.world.count }
        ensures asked { LetAskTold self.old.world result self.new.world }
        ensures wet { IsWet self.new.world }
    {
        let mut told: u64 = 0;
        for n in 0..self.count {
            told = told.saturating_add(self.retry_at(n));
        }
        told
    }

    // Lets those of one node.
    fn retry_at(&mut self, n: u8) -> u64
        requires { n < length self.old.world.nodes }
        ensures { LetAskAt self.old.world n result self.new.world }
    {
        self.nodes.node_mut(n).let_all_ask()
    }

    /// The number of a claimed word.
    pub(crate) fn word(&self, i: u64) -> Option<u64>
        ensures { result ≡ claimed_word (table_of self.now.world) i }
    {
        self.words.word(i)
    }

    /// The first node whose callers hold the end, if some do.
    #[tactic(auto, unfolding(crate::specs::World::node_at))]
    pub(crate) fn holder_of(&self, end: End) -> Option<u8>
        requires { IsRegular self.now.world }
        ensures { result ≡ holder_of self.now.world end }
    {
        for n in 0..self.count {
            if self.nodes.node(n).holds(end) {
                return Some(n);
            }
        }
        None
    }

    /// How many routers a node has, if it is there.
    #[tactic(auto, unfolding(crate::specs::World::node_at))]
    pub(crate) fn routers(&self, node: u8) -> Option<usize>
        requires { IsRegular self.now.world }
        ensures { result ≡ routers_at self.now.world node }
    {
        if node < self.count {
            Some(self.nodes.node(node).router_count())
        } else {
            None
        }
    }

    /// Takes a step; one for a node that isn't there is refused.
    pub(crate) fn step(&mut self, step: &Step) -> Reply
        requires { IsRegular self.old.world }
        ensures stepped { StepFirst self.old.world step.now result self.new.world }
        ensures full { HasRoomToStep self.old step.now → Gives (first_step self.old.world step.now) result self.new.world }
    {
        if node_of(step) >= self.count {
            return Reply::Refused(Refusal::Stranger);
        }
        self.step_here(step)
    }

    // Takes a step for a node that is there.
    #[tactic(auto, unfolding(crate::specs::Taking::node_of))]
    fn step_here(&mut self, step: &Step) -> Reply
        requires regular { IsRegular self.old.world }
        requires node { node_of step.now < self.old.world.count }
        ensures stepped { StepFirst self.old.world step.now result self.new.world }
        ensures full { HasRoomToStep self.old step.now → Gives (first_step self.old.world step.now) result self.new.world }
    {
        match step {
            Step::Open(node) => self.open(*node),
            Step::Put {
                node,
                at,
                bytes,
                ends,
            } => self.put(Profile::Printed, *node, *at, bytes, ends),
            Step::PutWide {
                node,
                at,
                bytes,
                ends,
            } => self.put(Profile::Wide, *node, *at, bytes, ends),
            Step::Get { node, at } => self.get(*node, *at),
            Step::Close { node, at } => self.close(*node, *at),
            Step::Turn(node) => self.turn(*node),
        }
    }

    // Takes the turn of a node that is there.
    fn turn(&mut self, n: u8) -> Reply
        requires regular { IsRegular self.old.world }
        requires node { n < self.old.world.count }
        ensures stepped { StepFirst self.old.world (Step.Turn n) result self.new.world }
        ensures full { HasRoomToAct self.old n (next_at self.old.world n) → Gives (first_step self.old.world (Step.Turn n)) result self.new.world }
    {
        let act = self.next(n);
        match self.take_first(n, act) {
            Ok(event) => Reply::Turned(event),
            Err(why) => Reply::Refused(why),
        }
    }
}

// The node that a step is for.
#[tactic(auto, unfolding(crate::specs::Taking::node_of))]
fn node_of(step: &Step) -> u8
    ensures { result ≡ node_of step.now }
{
    match step {
        Step::Open(node) | Step::Turn(node) => *node,
        Step::Put { node, .. }
        | Step::PutWide { node, .. }
        | Step::Get { node, .. }
        | Step::Close { node, .. } => *node,
    }
}
