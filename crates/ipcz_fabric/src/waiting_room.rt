//! The waiting room of a node: who sleeps there until something comes, and at which end. It stands behind the node's lock.
ghost use Rattle.std.specs.Prelude.{◌≡◌, ◌<◌, ◌≤◌, Some, IfNone, IfSome, ℕ, length, slice_get, slice_index_or, slice_set};
ghost use Rattle.ipcz_fabric.specs.declared.chair.Chair.TheVariants as kinds;
ghost use Rattle.ipcz_fabric.specs.Waiting.{woken_chair, taken_in, taken_of};

use crate::chair::Chair;
use crate::chair_bells::ChairBells;
use crate::comings::Comings;
use ipcz_base::End;
use std::marker::Model;

/// How many chairs there are.
pub(crate) const CHAIRS: usize = 64;

/// The chairs of a node, and how many of them are taken.
#[derive(Drop)]
pub(crate) struct WaitingRoom {
    chairs: [Chair; 64],
    taken: usize,
}

impl Model for WaitingRoom {
    ghost use Rattle.std.specs.Prelude.{◌≡◌, List};
    ghost use Rattle.std.specs.Coded.{codes};
    ghost use Rattle.ipcz_fabric.specs.declared.chair.Chair.{Chair};
    ghost use Rattle.ipcz_fabric.specs.Waiting.{taken_in};

    ghost Value = { List Chair };

    ghost coded = { Prim.hlevel codes };

    ghost view = { λ a. a.chairs };

    ghost invariant = { λ a. a.taken ≡ taken_in a.chairs };
}

// How many of a chair are taken.
fn taken_of(chair: Chair) -> usize
    ensures { result ≡ taken_of chair }
{
    match chair {
        Chair::Free => 0,
        Chair::Waits(_) | Chair::Woken => 1,
    }
}

// How many of some chairs are taken.
fn taken_in(chairs: &[Chair]) -> usize
    ensures count { result ≡ taken_in chairs.now }
    ensures few { result ≤ length chairs.now }
{
    match chairs {
        [] => 0,
        [chair, rest @ ..] => taken_of(*chair) + taken_in(rest),
    }
}

// The place of a free chair, if there is one.
fn free_place(chairs: &[Chair; 64]) -> Option<usize>
    ensures free { IfSome result (λ place. slice_get chairs.now place ≡ Some kinds.Free) }
    ensures within { IfSome result (λ place. place < 64) }
{
    for place in 0..CHAIRS {
        if let Chair::Free = chairs[place] {
            return Some(place);
        }
    }
    None
}

impl WaitingRoom {
    /// A room in which nobody sits.
    pub(crate) fn new() -> WaitingRoom
        ensures { taken_in result ≡ 0 }
    {
        let chairs = [Chair::Free; 64];
        WaitingRoom {
            taken: taken_in(&chairs),
            chairs,
        }
    }

    /// How many chairs are taken.
    pub(crate) fn taken(&self) -> usize
        ensures { result ≡ taken_in self.now }
    {
        self.taken
    }

    // Makes a chair this.
    fn set(&mut self, place: usize, chair: Chair)
        requires { place < 64 }
        ensures { self.new ≡ slice_set self.old place chair }
    {
        self.chairs[place] = chair;
        self.taken = taken_in(&self.chairs);
    }

    /// Takes a free chair for who waits at an end, if there is one: its place.
    pub(crate) fn sit(&mut self, at: End) -> Option<usize>
        ensures none { IfNone result (self.new ≡ self.old) }
        ensures free { IfSome result (λ place. slice_get self.old place ≡ Some kinds.Free) }
        ensures taken { IfSome result (λ place. self.new ≡ slice_set self.old place (kinds.Waits at)) }
    {
        let place = free_place(&self.chairs)?;
        self.set(place, Chair::Waits(at));
        Some(place)
    }

    /// Leaves the chair of a place. There is none from place 64 on, and then nothing is done.
    pub(crate) fn leave(&mut self, place: usize)
        ensures { place < 64 → self.new ≡ slice_set self.old place kinds.Free }
    {
        if place < CHAIRS {
            self.set(place, Chair::Free);
        }
    }

    /// Wakes each who waits at an end where something has come, or each who waits, if `all`.
    #[cold]
    #[inline(never)]
    pub(crate) fn wake<C: Comings>(&mut self, comings: &C, all: bool, bells: &ChairBells, node: u8)
        ensures { (k : ℕ) → slice_index_or self.new k kinds.Free ≡ woken_chair (C.comes comings.now) all (slice_index_or self.old k kinds.Free) }
    {
        wake_each(&mut self.chairs, comings, all, bells, node);
        self.taken = taken_in(&self.chairs);
    }
}

// Wakes who waits on a chair, if something has come at its end, or if `all`.
fn wake_one<C: Comings>(
    chair: &mut Chair,
    comings: &C,
    all: bool,
    bells: &ChairBells,
    node: u8,
    place: usize,
)
    ensures { chair.new ≡ woken_chair (C.comes comings.now) all chair.old }
{
    if let Chair::Waits(at) = *chair {
        if all || comings.has_come(at) {
            *chair = Chair::Woken;
            bells.wake(node, place);
        }
    }
}

// The same of each of these chairs.
fn wake_each<C: Comings>(
    chairs: &mut [Chair; 64],
    comings: &C,
    all: bool,
    bells: &ChairBells,
    node: u8,
)
    ensures { (k : ℕ) → slice_index_or chairs.new k kinds.Free ≡ woken_chair (C.comes comings.now) all (slice_index_or chairs.old k kinds.Free) }
{
    for (place, chair) in chairs.iter_mut().enumerate() {
        wake_one(chair, comings, all, bells, node, place);
    }
}
