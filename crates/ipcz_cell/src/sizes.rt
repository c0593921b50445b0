//! How large the parcel is that a get would give, how many wait, and at which ends one does; and whether an end has arrived.
ghost use Rattle.std.specs.Prelude.{◌≡◌, ◌+◌, ◌<◌, ◌^◌, IfSome};
ghost use Rattle.ipcz_node.specs.Arriving.{arrival_of};
ghost use Rattle.ipcz_node.specs.Calls.{finds_something, get_refusal, next_sizes};
ghost use Rattle.ipcz_node.specs.Finding.{IsNextReady};
ghost use Rattle.ipcz_node.specs.Looking.{IsLook};

use crate::cell::NodeCell;
use crate::fabric::FabricName;
use ipcz_base::{End, PortalStatus, Sizes};

impl<F: FabricName> NodeCell<F> {
    /// How many bytes and ends the parcel has that a get at this end would give; none if it would be refused. It takes no memory.
    ///
    /// It is never refused.
    ///
    /// Where a parcel of five bytes and no end has come, `cell.next_sizes(at)` is `Some(Sizes { bytes: 5, ends: 0 })`.
    pub fn next_sizes(&self, at: End) -> Option<Sizes>
        ensures { result ≡ next_sizes self.now.part.state at }
    {
        self.state.next_sizes(at)
    }

    /// What gets at this end would answer, one after the other: the number and the sizes of the next parcel, how many parcels wait, and
    /// whether the peer has closed behind them. None if the node's callers don't hold the end, where a get would be refused `Stranger`.
    /// Nothing is taken. It is never refused, and takes no memory. It looks at each parcel that waits.
    ///
    /// Where two parcels of five bytes have come and been left there, `cell.look(at)` is
    /// `Some(PortalStatus { next: 0, sizes: Some(Sizes { bytes: 5, ends: 0 }), waiting: 2, peer_closed: false })`.
    pub fn look(&self, at: End) -> Option<PortalStatus>
        ensures { IsLook self.now.part.state at result }
    {
        self.state.status(at)
    }

    /// The first end, from a serial on, that the node's callers hold and where a get isn't `Empty`: a parcel has come there, or the peer has closed and
    /// all that was put was got. With it stands the serial of the router at which it was found; ask from the serial behind that for the next one.
    /// So from 0 on all such ends come, each once, as long as the cell is called for nothing else meanwhile. None if there is no further one. It walks
    /// over no router where nothing has come, is never refused, and takes no memory.
    ///
    /// Where a parcel has come at `at` alone, `cell.ready_from(0)` is `Some((serial, at))`, and `cell.ready_from(serial + 1)` is none.
    pub fn ready_from(&self, serial: u64) -> Option<(u64, End)>
        ensures next { IsNextReady self.now.part.state serial result }
        ensures below { IfSome result (λ x. x.0 + 1 < 2 ^ 64) }
    {
        self.state.ready_from(serial)
    }

    /// Whether a get at this end would find something: a parcel, or that the peer has closed. An end that the node's callers don't hold finds nothing.
    /// It is never refused, takes no memory, and takes as long where a thousand parcels wait as where one does.
    ///
    /// Where nothing has come yet, `cell.has_come(at)` is false; where a parcel has, it is true until that is got.
    pub fn has_come(&self, at: End) -> bool
        ensures { result ≡ finds_something (get_refusal self.now.part.state at) }
    {
        self.state.has_come(at)
    }

    /// Whether this end has arrived, so that it leaves at most one proxy in its route if it travels on now: what `World::has_arrived` says, of
    /// this node. None if the node's callers don't hold the end. It is never refused, takes no memory and touches no word.
    ///
    /// An end of a pair that was opened here has arrived at once. Where one has just come from another node, `cell.has_arrived(at)` is `Some(false)`,
    /// and `Some(true)` once the nodes that it came by have bypassed its proxies.
    pub fn has_arrived(&self, at: End) -> Option<bool>
        ensures { result ≡ arrival_of self.now.part.state at }
    {
        self.state.has_arrived(at)
    }
}
