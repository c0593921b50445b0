//! The acts that are taken in a run whose order is drawn.

ghost use Rattle.std.specs.Prelude.{◌≡◌, ◌++◌, ◌∷◌, [], IfOk, OnOk};
ghost use Rattle.std.specs.List.{filter};
ghost use Rattle.ipcz_events.specs.Drawing.{busy_nodes, choices, has_nothing, is_busy, is_no_rest};
ghost use Rattle.ipcz_events.specs.Rules.{ActHasBits};
ghost use Rattle.ipcz_events.specs.Runs.{DrawsAct, Picks, Steps, Takes};

use crate::draw::draw;
use crate::who::Who;
use ipcz_base::Refusal;
use ipcz_node::{Act, Happened};
use ipcz_router::act::RouterAct;
use ipcz_script::Session;
use ipcz_world::NotTaken;
use std::alloc::{AllocError, Global};

/// A session, and the state of what is drawn.
#[derive(Drop)]
pub(crate) struct Run {
    pub(crate) session: Session,
    pub(crate) state: u64,
}

// Whether an act is no rest of a router.
#[tactic(auto, unfolding(crate::specs::Drawing::is_no_rest))]
fn is_no_rest(act: Act) -> bool
    ensures { result ≡ is_no_rest act }
{
    !matches!(act, Act::Router(_, RouterAct::Rest))
}

// Those of these acts that are no rests.
fn but_rests(alloc: Global, acts: &[Act]) -> Result<Vec<Act>, AllocError>
    ensures { IfOk result (λ others. others.items ≡ filter is_no_rest acts.now) }
{
    let mut others = Vec::new(alloc);
    for act in acts {
        if is_no_rest(*act) {
            others.push(*act)?;
        }
    }
    Ok(others)
}

// The acts of a node among which a turn draws.
fn choices(alloc: Global, session: &Session, node: u8) -> Result<Vec<Act>, AllocError>
    ensures { IfOk result (λ acts. acts.items ≡ choices session.now.world node) }
{
    let possible = session.possible_acts(node)?;
    let others = but_rests(alloc, possible.as_slice())?;
    if others.is_empty() {
        return Ok(possible);
    }
    Ok(others)
}

// Whether a node has nothing to do.
#[tactic(auto, unfolding(ipcz_world::specs::Turns::is_idle))]
fn has_nothing(session: &Session, node: u8) -> Result<bool, AllocError>
    ensures { IfOk result (λ nothing. nothing ≡ has_nothing session.now.world node) }
{
    let possible = session.possible_acts(node)?;
    Ok(possible.iter().any(|act| matches!(*act, Act::Idle)))
}

// Adds a node if it has something to do.
fn push_if_busy(session: &Session, node: u8, busy: &mut Vec<u8>) -> Result<(), AllocError>
    ensures { OnOk result (busy.new.items ≡ busy.old.items ++ filter (is_busy session.now.world) (node ∷ [])) }
{
    if !has_nothing(session, node)? {
        busy.push(node)?;
    }
    Ok(())
}

// The nodes that have something to do.
fn busy_nodes(alloc: Global, session: &Session, nodes: u8) -> Result<Vec<u8>, AllocError>
    ensures { IfOk result (λ busy. busy.items ≡ busy_nodes session.now.world nodes) }
{
    let mut busy = Vec::new(alloc);
    for node in 0..nodes {
        push_if_busy(session, node, &mut busy)?;
    }
    Ok(busy)
}

// The same act, whose numbers have the size of their type.
fn with_bits(act: Act) -> Act
    ensures same { result ≡ act }
    ensures bits { ActHasBits result }
{
    match act {
        Act::Hand(sender) => Act::Hand(sender),
        Act::Look(sender) => Act::Look(sender),
        Act::Post(to) => Act::Post(to),
        Act::Close(end) => Act::Close(end),
        Act::Router(serial, act) => Act::Router(serial, act),
        Act::Idle => Act::Idle,
    }
}

impl Run {
    // The node that acts next, if one does.
    fn picked(&mut self, alloc: Global, who: Who) -> Result<Option<u8>, AllocError>
        ensures { IfOk result (λ node. Picks who self.old node self.new) }
    {
        let nodes = match who {
            Who::Node(node) => return Ok(Some(node)),
            Who::AnyOf(nodes) => nodes,
        };
        let busy = busy_nodes(alloc, &self.session, nodes)?;
        match draw(&mut self.state, busy.len()) {
            Some(number) => Ok(Some(busy[number])),
            None => Ok(None),
        }
    }

    // The act that is drawn of a node, if one is.
    fn drawn_act(&mut self, alloc: Global, node: u8) -> Result<Option<Act>, AllocError>
        ensures { IfOk result (λ act. DrawsAct self.old node act self.new) }
    {
        let acts = choices(alloc, &self.session, node)?;
        match draw(&mut self.state, acts.len()) {
            Some(number) => Ok(Some(with_bits(acts[number]))),
            None => Ok(None),
        }
    }

    /// Lets a node take an act, if it can, and gives what it was seen to do.
    pub(crate) fn take(&mut self, node: u8, act: Act) -> Result<Option<Happened>, AllocError>
        ensures { IfOk result (λ event. Takes self.old node act event self.new) }
    {
        match self.session.act(node, act) {
            Ok(event) => Ok(Some(event)),
            Err(NotTaken::NotPossible | NotTaken::Refused(Refusal::NumbersEnd)) => Ok(None),
            Err(NotTaken::Refused(_)) => Err(AllocError),
        }
    }

    /// Takes the next act that is drawn, and gives its node and what that was seen to do; nothing if no node acts any more.
    pub(crate) fn next_act(
        &mut self,
        alloc: Global,
        who: Who,
    ) -> Result<Option<(u8, Happened)>, AllocError>
        ensures { IfOk result (λ seen. Steps who self.old seen self.new) }
    {
        let Some(node) = self.picked(alloc, who)? else {
            return Ok(None);
        };
        let Some(act) = self.drawn_act(alloc, node)? else {
            return Ok(None);
        };
        match self.take(node, act)? {
            Some(event) => Ok(Some((node, event))),
            None => Ok(None),
        }
    }
}
