//! A node's cell behind a pointer, as a box keeps it, in a struct that C can hold.
ghost use Rattle.std.specs.Prelude.{◌≡◌, Option, Some, None, IsSome};
ghost use Rattle.ipcz_c.specs.HeldCells.{HeldCell, IsOnly, table_of, cell_coded, cell_owns};

use crate::member::Member;
use crate::parts::Parts;
use ipcz_cell::FabricName;
use std::alloc::Global;
use std::marker::Model;
use std::ptr;

/// A pointer to a node's cell that it owns, of whatever table; or to nothing, and then its number says nothing.
#[repr(C)]
#[derive(Drop)]
pub struct CellPointer {
    ptr: *mut u8,
    alloc: Global,
    pub ghost cell: { Option HeldCell } by { cell_coded },
}

impl Model for CellPointer {
    ghost also_owns = { λ p. cell_owns p.alloc p.ptr p.cell };
}

unsafe impl Send for CellPointer {}

impl CellPointer {
    fn none(ptr: *mut u8, alloc: Global) -> CellPointer
        ensures { result.cell ≡ None }
    {
        CellPointer { ptr, alloc }
    }

    // The name F is forgotten: the pointer tells in a clause alone which table it is.
    pub(crate) fn of_parts<F: FabricName>(parts: Parts<Member<F>, Global>) -> CellPointer
        requires { IsOnly F }
        ensures { result.cell ≡ Some (record { table = F.table; cell = parts.value }) }
    {
        let Parts { ptr, alloc } = parts;
        CellPointer {
            ptr: ptr as *mut u8,
            alloc,
        }
    }

    // The name F is given again, which names the same table.
    pub(crate) fn into_parts<F: FabricName>(self) -> Parts<Member<F>, Global>
        requires held { IsSome self.cell }
        requires named { table_of self.cell ≡ F.table }
        requires only { IsOnly F }
        ensures { self.cell ≡ Some (record { table = F.table; cell = result.value }) }
    {
        let CellPointer { ptr, alloc } = self;
        Parts {
            ptr: ptr as *mut Member<F>,
            alloc,
        }
    }
}

impl CellPointer {
    pub(crate) fn to_nothing(alloc: Global) -> CellPointer
        ensures { result.cell ≡ None }
    {
        let at = ptr::null_mut();
        CellPointer::none(at, alloc)
    }
}
