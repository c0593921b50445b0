//! What C holds of a world, and the calls of the world through it.
ghost use Rattle.std.specs.Prelude.{◌≡◌, Some, None, IsSome, IfSome};
ghost use Rattle.std.specs.Option.{is_some};
ghost use Rattle.ipcz_world.specs.declared.step.Step.TheVariants as steps;
ghost use Rattle.ipcz_world.specs.Steps.{put_of, sizes_given};
ghost use Rattle.ipcz_world.specs.Arrived.{arrival_in};
ghost use Rattle.ipcz_c.specs.Looks.{IsLookIn};
ghost use Rattle.ipcz_c.specs.Ready.{IsReadyIn};
ghost use Rattle.ipcz_c.specs.Calls.{Steps, Keeps, RepliesPlainly, sizes_next, SettlesTo};

use crate::parts::Parts;
use crate::pointer::WorldPointer;
use ipcz_base::{Bytes, End, Ends, PortalStatus, Profile, Refusal, Sizes};
use ipcz_world::{Reply, Settled, Step, World};
use std::alloc::Global;
use std::mem;

/// A world that C holds, or none: `ipcz_world` of the header, which tells C to write all zeros before the first call and nothing later.
///
/// The flag says whether the pointer has a world, so that each call can test it.
#[repr(C)]
#[derive(Drop)]
pub struct Handle {
    pub held: WorldPointer,
    pub has_world: bool,
    pub ghost told: { has_world ≡ is_some held.world },
}

impl Handle {
    pub(crate) fn empty(alloc: Global) -> Handle
        ensures { result.held.world ≡ None }
    {
        Handle {
            held: WorldPointer::to_nothing(alloc),
            has_world: false,
        }
    }

    // The world of a handle that has one; it has none then.
    pub(crate) fn take(&mut self, alloc: Global) -> Box<World, Global>
        requires { IsSome self.old.held.world }
        ensures world { self.old.held.world ≡ Some result.value.world }
        ensures none { self.new.held.world ≡ None }
    {
        let empty = Handle::empty(alloc);
        let full = mem::replace(self, empty);
        let parts = full.held.into_parts();
        parts.into_box()
    }

    // Gives the handle a world.
    pub(crate) fn give(&mut self, world: Box<World, Global>)
        ensures { self.new.held.world ≡ Some world.value.world }
    {
        *self = Handle {
            held: WorldPointer::of_parts(Parts::of(world)),
            has_world: true,
        };
    }

    // Takes a step of the world of a handle that has one.
    pub(crate) fn step(&mut self, alloc: Global, step: &Step) -> Reply
        requires { IsSome self.old.held.world }
        ensures step { Steps self.old.held.world step.now result self.new.held.world }
        ensures lawful { Keeps self.old.held.world step.now result self.new.held.world }
        ensures plain { RepliesPlainly self.old.held.world step.now result }
    {
        let mut world = self.take(alloc);
        let reply = world.step(step);
        self.give(world);
        reply
    }

    // Puts a parcel of a profile into the world of a handle that has one.
    pub(crate) fn put(
        &mut self,
        alloc: Global,
        profile: Profile,
        node: u8,
        at: End,
        bytes: Bytes,
        ends: Ends,
    ) -> Reply
        requires { IsSome self.old.held.world }
        ensures step { Steps self.old.held.world (put_of profile node at bytes ends) result self.new.held.world }
        ensures lawful { Keeps self.old.held.world (put_of profile node at bytes ends) result self.new.held.world }
        ensures plain { RepliesPlainly self.old.held.world (put_of profile node at bytes ends) result }
    {
        let mut world = self.take(alloc);
        let reply = Reply::of_put(world.put_as(profile, node, at, bytes, ends));
        self.give(world);
        reply
    }

    // Gets a parcel out of the world of a handle that has one.
    pub(crate) fn get(&mut self, alloc: Global, node: u8, at: End) -> Reply
        requires { IsSome self.old.held.world }
        ensures step { Steps self.old.held.world (steps.Get node at) result self.new.held.world }
        ensures lawful { Keeps self.old.held.world (steps.Get node at) result self.new.held.world }
        ensures plain { RepliesPlainly self.old.held.world (steps.Get node at) result }
        ensures sizes { sizes_given result ≡ sizes_next self.old.held.world node at }
    {
        let mut world = self.take(alloc);
        let reply = world.get(node, at);
        self.give(world);
        reply
    }

    // The sizes of the parcel that a get out of the world of a handle that has one would give.
    #[tactic(auto, unfolding(crate::specs::Calls::sizes_next))]
    pub(crate) fn next_sizes(&mut self, alloc: Global, node: u8, at: End) -> Option<Sizes>
        requires { IsSome self.old.held.world }
        ensures sizes { result ≡ sizes_next self.old.held.world node at }
        ensures same { self.new.held.world ≡ self.old.held.world }
    {
        let world = self.take(alloc);
        let sizes = world.next_sizes(node, at);
        self.give(world);
        sizes
    }

    // What gets out of the world of a handle that has one would answer.
    pub(crate) fn look(&mut self, alloc: Global, node: u8, at: End) -> Option<PortalStatus>
        requires { IsSome self.old.held.world }
        ensures look { IsLookIn self.old.held.world node at result }
        ensures same { self.new.held.world ≡ self.old.held.world }
    {
        let world = self.take(alloc);
        let answer = world.look(node, at);
        self.give(world);
        answer
    }

    // Whether a portal of the world of a handle that has one has arrived.
    pub(crate) fn has_arrived(&mut self, alloc: Global, node: u8, at: End) -> Option<bool>
        requires { IsSome self.old.held.world }
        ensures arrived { IfSome self.old.held.world (λ w. result ≡ arrival_in w node at) }
        ensures same { self.new.held.world ≡ self.old.held.world }
    {
        let world = self.take(alloc);
        let answer = world.has_arrived(node, at);
        self.give(world);
        answer
    }

    // The next end of a node, out of the world of a handle that has one, at which something has come.
    pub(crate) fn ready_from(&mut self, alloc: Global, node: u8, serial: u64) -> Option<(u64, End)>
        requires { IsSome self.old.held.world }
        ensures ready { IsReadyIn self.old.held.world node serial result }
        ensures same { self.new.held.world ≡ self.old.held.world }
    {
        let world = self.take(alloc);
        let answer = world.ready_from(node, serial);
        self.give(world);
        answer
    }

    // Lets the world of a handle that has one settle.
    pub(crate) fn settle(&mut self, alloc: Global, limit: u64) -> Result<Settled, Refusal>
        requires { IsSome self.old.held.world }
        ensures { SettlesTo self.old.held.world limit result self.new.held.world }
    {
        let mut world = self.take(alloc);
        let answer = world.settle(limit);
        self.give(world);
        answer
    }
}
