//! The world that a script runs in, with its names.
ghost use Rattle.std.specs.Prelude.{◌≡◌, false, OnErr, OnOk, IfErr, IfOk};
ghost use Rattle.ipcz_script.specs.ScriptLimits.{HasScriptLimits};
ghost use Rattle.ipcz_world.specs.Asking.{hand_at, IsActed, WhyNotTaken};
ghost use Rattle.ipcz_world.specs.Listing.{ArePossible, possible_acts};
ghost use Rattle.ipcz_world.specs.Steps.{first_step};
ghost use Rattle.ipcz_script.specs.Sessions.{AreTurns, Is, Runs, SettlesTo, TurnsTo, bind, answer_to};
ghost use Rattle.ipcz_script.specs.Sessions.{is_idle_reply, is_turn, is_want, new_session, replied_close, replied_get, replied_open};
ghost use Rattle.ipcz_script.specs.Sessions.{replied_put, with_world};
ghost use Rattle.ipcz_world.specs.Holding.{shown_words};

use crate::command::Command;
use crate::labels::Labels;
use crate::said::Said;
use crate::text::Text;
use crate::titles::Titles;
use ipcz_base::{Bytes, End, Refusal, Sequence};
use ipcz_node::{Act, Happened};
use ipcz_world::{NotTaken, Reply, Settled, Step, World};
use std::alloc::{AllocError, Global};
use std::marker::Model;

/// The world that a script runs in, with the ends that its names are bound to and the names that its ends have
/// (docs/SCRIPTS.md, "The script").
#[derive(Drop)]
pub struct Session {
    world: World,
    labels: Labels,
    alloc: Global,
}

impl Model for Session {
    ghost use Rattle.std.specs.FinMap.{code};
    ghost use Rattle.std.specs.Coded.{codes};
    ghost use Rattle.ipcz_script.specs.Sessions as value;

    ghost Value = { value.Session };

    ghost coded = { Prim.hlevel (codes, code) };

    ghost view = { λ a. record { world = a.world.world; names = a.labels.names; titles = a.labels.titles } };
}

impl Session {
    /// The opening world of so many nodes and link words, in which the names of the first pairs are bound.
    pub fn new(alloc: Global, nodes: u8, words: u32) -> Result<Self, AllocError>
        requires within { HasScriptLimits nodes words }
        ensures session { IfOk result (λ session. session ≡ new_session nodes words) }
    {
        let Ok(world) = World::new(alloc, nodes, words) else {
            return Err(AllocError);
        };
        let labels = Labels::first(alloc, nodes)?;
        Ok(Session {
            world,
            labels,
            alloc,
        })
    }

    /// The names that ends have.
    pub fn titles(&self) -> &Titles
        ensures titles { result.now ≡ self.now.titles }
    {
        self.labels.titles()
    }

    // Binds a name to an end.
    fn bind(&mut self, name: &str, end: End) -> Result<(), AllocError>
        ensures { OnOk result (self.new ≡ bind self.old name.now end) }
    {
        self.labels.bind(name, end)
    }

    // A step that is no turn; want of memory is no reply.
    fn step(&mut self, step: Step) -> Result<Reply, AllocError>
        requires { is_turn step ≡ false }
        ensures reply { IfOk result (λ reply. reply ≡ (first_step self.old.world step).reply) }
        ensures session { OnOk result (self.new ≡ with_world self.old (first_step self.old.world step).world) }
    {
        let reply = self.world.step(&step);
        if is_want(&reply) {
            return Err(AllocError);
        }
        Ok(reply)
    }

    #[tactic(auto, unfolding(crate::specs::Sessions::answer_to, crate::specs::Sessions::name_pair))]
    fn open(&mut self, node: u8, first: &str, second: &str) -> Result<Said, AllocError>
        ensures { IfOk result (λ said. Is (replied_open self.old first.now second.now (first_step self.old.world (Step.Open node)))
            said self.new) }
    {
        let reply = self.step(Step::Open(node))?;
        if let Reply::Opened(a, b) = reply {
            self.bind(first, a)?;
            self.bind(second, b)?;
            return Ok(Said::Opened);
        }
        answer_to(self.alloc, reply)
    }

    #[tactic(auto, unfolding(crate::specs::Sessions::if_known, crate::specs::Sessions::if_held))]
    fn put(&mut self, at: &str, text: &str, attached: &[Text]) -> Result<Said, AllocError>
        ensures { IfOk result (λ said. Is (replied_put self.old at.now text.now attached.now) said self.new) }
    {
        let Some(end) = self.labels.end_of(at) else {
            return Ok(Said::UnknownName);
        };
        let Some(ends) = self.labels.ends_of(attached)? else {
            return Ok(Said::UnknownName);
        };
        let Some(node) = self.world.holder_of(end) else {
            return Ok(Said::Away);
        };
        let bytes = Bytes::from_slice(self.alloc, text.as_bytes())?;
        let reply = self.step(Step::Put {
            node,
            at: end,
            bytes,
            ends,
        })?;
        answer_to(self.alloc, reply)
    }

    #[tactic(auto, unfolding(crate::specs::Sessions::if_known, crate::specs::Sessions::if_held))]
    fn get(&mut self, at: &str) -> Result<Said, AllocError>
        ensures { IfOk result (λ said. Is (replied_get self.old at.now) said self.new) }
    {
        let Some(end) = self.labels.end_of(at) else {
            return Ok(Said::UnknownName);
        };
        let Some(node) = self.world.holder_of(end) else {
            return Ok(Said::Away);
        };
        let reply = self.step(Step::Get { node, at: end })?;
        answer_to(self.alloc, reply)
    }

    #[tactic(auto, unfolding(crate::specs::Sessions::if_known, crate::specs::Sessions::if_held))]
    fn close(&mut self, at: &str) -> Result<Said, AllocError>
        ensures { IfOk result (λ said. Is (replied_close self.old at.now) said self.new) }
    {
        let Some(end) = self.labels.end_of(at) else {
            return Ok(Said::UnknownName);
        };
        let Some(node) = self.world.holder_of(end) else {
            return Ok(Said::Away);
        };
        let reply = self.step(Step::Close { node, at: end })?;
        answer_to(self.alloc, reply)
    }

    // Lets a node take so many turns, ended at the first that is idle.
    fn turn(&mut self, node: u8, count: u32) -> Result<Said, AllocError>
        ensures turns { IfOk result (λ said. TurnsTo count node self.old.world said self.new.world) }
        ensures session { OnOk result (self.new ≡ with_world self.old self.new.world) }
    {
        let turns = take_turns(self.alloc, &mut self.world, node, count)?;
        Ok(Said::Turned(Sequence::from_vec(turns)))
    }

    fn settle(&mut self, limit: u32) -> Result<Said, AllocError>
        ensures settles { IfOk result (λ said. SettlesTo limit self.old.world said self.new.world) }
        ensures session { OnOk result (self.new ≡ with_world self.old self.new.world) }
    {
        match self.world.settle(u64::from(limit)) {
            Ok(Settled::Settled { .. }) => Ok(Said::Settled),
            Ok(Settled::Unsettled) => Ok(Said::Unsettled),
            Err(Refusal::NumbersEnd) => Ok(Said::Unsettled),
            Err(_) => Err(AllocError),
        }
    }

    fn show(&self) -> Result<Said, AllocError>
        ensures { IfOk result (λ said. said ≡ Said.Words (shown_words self.now.world)) }
    {
        let mut words = Vec::new(self.alloc);
        for i in 0..self.world.claimed() {
            let Some(word) = self.world.word(i) else {
                unreachable!()
            };
            words.push(word)?;
        }
        Ok(Said::Words(Sequence::from_vec(words)))
    }

    /// The node that sent the message in a node's hand, as `World::hand` tells it.
    pub fn hand(&self, node: u8) -> Option<u8>
        ensures { result ≡ hand_at self.now.world node }
    {
        self.world.hand(node)
    }

    /// The acts that a node may take, each once, as `World::possible_acts` lists them.
    pub fn possible_acts(&self, node: u8) -> Result<Vec<Act>, AllocError>
        ensures possible { IfOk result (λ acts. ArePossible self.now.world node acts.items) }
        ensures order { IfOk result (λ acts. acts.items ≡ possible_acts self.now.world node) }
    {
        self.world.possible_acts(self.alloc, node)
    }

    /// Lets a node take this act, as `World::act` does, where a turn command takes the first possible one. What names are bound to stays.
    pub fn act(&mut self, node: u8, act: Act) -> Result<Happened, NotTaken>
        ensures acted { IfOk result (λ event. IsActed self.old.world node act event self.new.world) }
        ensures why { IfErr result (λ why. WhyNotTaken self.old.world node act why) }
        ensures session { self.new ≡ with_world self.old self.new.world }
        ensures err { OnErr result (self.new ≡ self.old) }
    {
        self.world.act(node, act)
    }

    /// Runs a command and gives its answer. If no memory is found, the run is over, and the session is of no more use.
    pub fn run(&mut self, command: &Command) -> Result<Said, AllocError>
        ensures runs { IfOk result (λ said. Runs self.old command.now said self.new) }
    {
        match command {
            Command::Open {
                node,
                first,
                second,
            } => self.open(*node, first.as_str(), second.as_str()),
            Command::Put { at, data, ends } => {
                self.put(at.as_str(), data.as_str(), ends.as_slice())
            }
            Command::Get { at } => self.get(at.as_str()),
            Command::Close { at } => self.close(at.as_str()),
            Command::Turn { node, count } => self.turn(*node, *count),
            Command::Settle { limit } => self.settle(*limit),
            Command::Show => self.show(),
        }
    }
}

/// Whether a reply says that no memory was found.
#[tactic(auto, unfolding(crate::specs::Sessions::is_want))]
pub fn is_want(reply: &Reply) -> bool
    ensures { result ≡ is_want reply.now }
{
    matches!(reply, Reply::Refused(Refusal::OutOfMemory))
}

/// Whether a reply is that of an idle turn.
#[tactic(auto, unfolding(crate::specs::Sessions::is_idle_reply))]
pub fn is_idle(reply: &Reply) -> bool
    ensures { result ≡ is_idle_reply reply.now }
{
    matches!(reply, Reply::Turned(Happened::Idle))
}

/// What a command is answered if a step replies this.
#[tactic(auto, unfolding(crate::specs::Sessions::answer_to))]
pub fn answer_to(alloc: Global, reply: Reply) -> Result<Said, AllocError>
    ensures { IfOk result (λ said. said ≡ answer_to reply) }
{
    match reply {
        Reply::Opened(_, _) => Ok(Said::Opened),
        Reply::Put(number) => Ok(Said::Put(number)),
        Reply::Got(number, parcel) => Ok(Said::Got(number, parcel)),
        Reply::Closed(number) => Ok(Said::Closed(number)),
        Reply::Turned(event) => {
            let mut turns = Vec::new(alloc);
            turns.push(Reply::Turned(event))?;
            Ok(Said::Turned(Sequence::from_vec(turns)))
        }
        Reply::Refused(why) => Ok(Said::Refused(why)),
    }
}

// Lets a node take so many turns, ended at the first that is idle, and gives the replies.
fn take_turns(
    alloc: Global,
    world: &mut World,
    node: u8,
    count: u32,
) -> Result<Vec<Reply>, AllocError>
    ensures { IfOk result (λ turns. AreTurns count node world.old.world turns.items world.new.world) }
{
    let mut turns = Vec::new(alloc);
    let mut left = count;
    while left > 0 {
        let reply = world.step(&Step::Turn(node));
        if is_want(&reply) {
            return Err(AllocError);
        }
        let idle = is_idle(&reply);
        turns.push(reply)?;
        if idle {
            return Ok(turns);
        }
        left -= 1;
    }
    Ok(turns)
}
