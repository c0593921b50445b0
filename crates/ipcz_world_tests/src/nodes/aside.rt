//! A step that is to change nothing, made in the middle of a run: the node is as one that went without it, then and after each
//! step that follows.

use super::alike::are_alike;
use super::letters::Letter;
use super::{Step, Trial};
use ipcz_base::Message;
use std::alloc::Global;
use std::process::Abort;

/// Steps of a node of two whose serials are counted from the first one on.
pub(super) struct Run {
    pub node: u8,
    pub first: u64,
    pub steps: &'static [Step],
}

/// A step made after so many of a run, and why it is to change nothing.
pub(super) struct Aside {
    pub why: &'static str,
    pub after: usize,
    pub step: Step,
}

impl Aside {
    // The message that is a stray from then on, if there is one.
    fn stray(&self) -> Option<Letter> {
        match self.step {
            Step::Deliver(_, letter, false) | Step::DeliverWhere(_, _, letter, false) => Some(
                letter,
            ),
            _ => None,
        }
    }
}

// Whether a list has just a stray, or nothing if there is to be none.
fn is_alone(stray: Option<Letter>, strays: &[Message]) -> bool {
    match stray {
        None => strays.is_empty(),
        Some(letter) => match strays.first() {
            Some(message) => strays.len() == 1 && letter.is(message),
            None => false,
        },
    }
}

// A node that goes without a step aside, and one that goes with it.
#[derive(Drop)]
struct Twins {
    plain: Trial,
    tried: Trial,
}

impl Twins {
    fn new(alloc: Global, run: &Run) -> Option<Twins> {
        Some(Twins {
            plain: Trial::new_from(alloc, run.node, 2, run.first)?,
            tried: Trial::new_from(alloc, run.node, 2, run.first)?,
        })
    }

    // Whether the nodes are alike, if the one has no stray, and the other at most the one that it is to have.
    fn are_alike(&self, stray: Option<Letter>) -> bool {
        are_alike(&self.plain.node, &self.tried.node)
            && self.plain.node.strays().is_empty()
            && is_alone(stray, self.tried.node.strays())
    }

    // Whether the step aside gives what it says, and changes nothing.
    fn goes_aside(&mut self, aside: &Aside) -> bool {
        self.tried.goes(&aside.step) && self.are_alike(aside.stray())
    }

    // Whether a step gives what it says on both nodes, which are alike then.
    fn goes_on(&mut self, step: &Step, stray: Option<Letter>) -> bool {
        self.plain.goes(step) && self.tried.goes(step) && self.are_alike(stray)
    }

    // Whether the step at a place goes as without the step aside, which is made right before it at its own place.
    fn goes(&mut self, at: usize, step: &Step, aside: &Aside) -> bool {
        if at < aside.after {
            return self.goes_on(step, None);
        }
        (at > aside.after || self.goes_aside(aside)) && self.goes_on(step, aside.stray())
    }

    // The place of the first step of a run that doesn't go as without the step aside.
    fn first_wrong(&mut self, run: &Run, aside: &Aside) -> Option<usize> {
        for (i, step) in run.steps.iter().enumerate() {
            if !self.goes(i, step, aside) {
                return Some(i);
            }
        }
        if aside.after < run.steps.len() {
            None
        } else {
            Some(run.steps.len())
        }
    }
}

// The same, on new nodes.
fn first_wrong(alloc: Global, run: &Run, aside: &Aside) -> Option<usize> {
    match Twins::new(alloc, run) {
        Some(mut twins) => twins.first_wrong(run, aside),
        None => Some(0),
    }
}

// The first of the steps aside with which a run doesn't go as without it: why it is to change nothing, and the place of the
// first step that goes otherwise.
fn first_wrong_of(alloc: Global, run: &Run, asides: &[Aside]) -> Option<(&'static str, usize)> {
    for aside in asides {
        if let Some(place) = first_wrong(alloc, run, aside) {
            return Some((aside.why, place));
        }
    }
    None
}

/// With each of the steps aside the run has to go as without it.
pub(super) fn all_go_aside(rt: &impl Abort, alloc: Global, run: &Run, asides: &[Aside]) {
    assert_eq!(rt; first_wrong_of(alloc, run, asides), None);
}
