//! A world behind a pointer, as a box keeps it, in a struct that C can hold.
ghost use Rattle.std.specs.Prelude.{◌≡◌, Option, List, Some, None, IsSome};
ghost use Rattle.ipcz_node.specs.RoomyNodes.{NodeRoom};
ghost use Rattle.ipcz_world.specs.World as worlds;
ghost use Rattle.ipcz_c.specs.Held.{held_coded, pointer_owns, rooms_coded};

use crate::parts::Parts;
use ipcz_world::World;
use std::alloc::Global;
use std::marker::Model;
use std::ptr;

/// A pointer to a world that it owns; or to nothing, and then its number says nothing.
#[repr(C)]
#[derive(Drop)]
pub struct WorldPointer {
    ptr: *mut u8,
    alloc: Global,
    pub ghost world: { Option worlds.World } by { held_coded },
    pub ghost rooms: { List NodeRoom } by { rooms_coded },
}

impl Model for WorldPointer {
    ghost also_owns = { λ p. pointer_owns p.alloc p.ptr p.world p.rooms };
}

unsafe impl Send for WorldPointer {}

impl WorldPointer {
    fn none(ptr: *mut u8, alloc: Global) -> WorldPointer
        ensures { result.world ≡ None }
    {
        WorldPointer { ptr, alloc }
    }

    pub(crate) fn of_parts(parts: Parts<World, Global>) -> WorldPointer
        ensures { result.world ≡ Some parts.value.world }
    {
        let Parts { ptr, alloc } = parts;
        WorldPointer {
            ptr: ptr as *mut u8,
            alloc,
        }
    }

    pub(crate) fn into_parts(self) -> Parts<World, Global>
        requires { IsSome self.world }
        ensures { self.world ≡ Some result.value.world }
    {
        let WorldPointer { ptr, alloc } = self;
        Parts {
            ptr: ptr as *mut World,
            alloc,
        }
    }
}

impl WorldPointer {
    pub(crate) fn to_nothing(alloc: Global) -> WorldPointer
        ensures { result.world ≡ None }
    {
        let at = ptr::null_mut();
        WorldPointer::none(at, alloc)
    }
}
