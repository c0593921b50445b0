//! What the moves of a row are made on.
use crate::met::Wrong;
use crate::moves::Ask;
use ipcz_base::End;
use ipcz_node::Happened;
use ipcz_world::Reply;

/// Nodes that take steps. A step that is refused memory leaves all as it was, and is taken again.
pub trait Subject {
    /// Takes a step; its answer.
    fn take(&mut self, ask: Ask) -> Result<Reply, Wrong>;

    /// Takes one act of a settle, if there is a call for it: how many acts it took, 0 if all is quiet. Without one the nodes settle by
    /// turns.
    fn settle_once(&mut self) -> Result<Option<u64>, Wrong>;

    /// How many link words were claimed.
    fn claimed(&mut self) -> u64;

    /// The number of a claimed word.
    fn word(&mut self, i: u64) -> Option<u64>;

    /// The node whose callers hold an end.
    fn holder_of(&mut self, end: End) -> Option<u8>;
}

// A turn of each node; how many of them did something.
fn pass<S: Subject>(subject: &mut S, nodes: u8) -> Result<u64, Wrong> {
    let mut acts: u64 = 0;
    for node in 0..nodes {
        match subject.take(Ask::Turn(node))? {
            Reply::Turned(Happened::Idle) => {}
            Reply::Turned(_) => acts = acts.saturating_add(1),
            _ => return Err(Wrong::Answer),
        }
    }
    Ok(acts)
}

// Lets the nodes act, once or in a pass over them; how many acts they took.
fn act<S: Subject>(subject: &mut S, nodes: u8) -> Result<u64, Wrong> {
    match subject.settle_once()? {
        Some(acts) => Ok(acts),
        None => pass(subject, nodes),
    }
}

/// Lets the nodes act until none has an act, with at most so many acts.
pub fn settle<S: Subject>(subject: &mut S, nodes: u8, limit: u64) -> Result<(), Wrong> {
    let mut acts: u64 = 0;
    for _ in 0..=limit {
        let done = act(subject, nodes)?;
        acts = acts.saturating_add(done);
        if done == 0 && acts <= limit {
            return Ok(());
        }
    }
    Err(Wrong::Answer)
}
