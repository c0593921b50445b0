//! Portals as C names them.
ghost use Rattle.std.specs.Prelude.{◌≡◌, IfOk};
ghost use Rattle.ipcz_c.specs.Named.{named, ends_of};

use ipcz_base::{End, Ends, Side};
use std::alloc::{AllocError, Global};

/// A portal, by the end that it is: its pair, and whether it is of side B. `ipcz_portal` of the header.
#[repr(C)]
#[derive(Clone, Copy)]
pub struct Portal {
    pub pair: u64,
    pub side_b: bool,
}

/// What a look at a portal tells: the number of the next parcel, how many parcels wait, how many bytes and portals the next one has (0 and 0
/// if none waits), and whether the peer has closed behind them. `ipcz_portal_status` of the header.
#[repr(C)]
#[derive(Clone, Copy)]
pub struct Seen {
    pub next: u64,
    pub waiting: u64,
    pub size: usize,
    pub count: usize,
    pub peer_closed: bool,
}

impl Portal {
    pub(crate) fn end(self) -> End
        ensures { result ≡ named self }
    {
        End {
            pair: self.pair,
            side: if self.side_b { Side::B } else { Side::A },
        }
    }
}

pub(crate) fn portal_of(end: End) -> Portal
    ensures { named result ≡ end }
{
    Portal {
        pair: end.pair,
        side_b: matches!(end.side, Side::B),
    }
}

// The ends of these portals, in their order.
pub(crate) fn ends_of(alloc: Global, portals: &[Portal]) -> Result<Ends, AllocError>
    ensures { IfOk result (λ ends. ends ≡ ends_of portals.now) }
{
    let mut ends = Vec::with_capacity(alloc, portals.len())?;
    for portal in portals {
        ends.push(portal.end())?;
    }
    Ok(Ends::from_vec(ends))
}
