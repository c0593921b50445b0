//! A node's cell with a share of its fabric: all that a caller needs of one node, and nothing of another.
ghost use Rattle.std.specs.Prelude.{◌≡◌, Some, IfOk};
ghost use Rattle.ipcz_base.specs.Items.{sizes_of};
ghost use Rattle.ipcz_node.specs.Calls.{next_sizes};
ghost use Rattle.ipcz_node.specs.Arriving.{arrival_of};
ghost use Rattle.ipcz_node.specs.Finding.{IsNextReady};
ghost use Rattle.ipcz_node.specs.Looking.{IsLook};
ghost use Rattle.ipcz_node.specs.Node.{holds_end};
ghost use Rattle.ipcz_cell.specs.Opens.{OpensPair, FindsQuiet, ShowsWord};
ghost use Rattle.ipcz_cell.specs.Retries.{Retries};
ghost use Rattle.ipcz_cell.specs.TurnChains.{RunsTouching};
ghost use Rattle.ipcz_c.specs.CellSteps.{PutsAt, GetsAt, ClosesAt, CountsClaimed};

use ipcz_base::{Bytes, End, Ends, Parcel, PortalStatus, Profile, Refusal, Sizes};
use ipcz_cell::{Fabric, FabricName, NodeCell, NodeSet, Retry};
use std::alloc::Global;
use std::marker::Model;
use std::sync::Arc;

/// A node's cell at the table that F names, with a share of that table's fabric. Contracts see it as its cell.
#[derive(Drop)]
pub struct Member<F: FabricName> {
    fabric: Arc<Fabric<F>, Global>,
    cell: NodeCell<F>,
}

impl<F: FabricName> Model for Member<F> {
    ghost use Rattle.std.specs.FinMap.{code};
    ghost use Rattle.std.specs.FinSet as sets;
    ghost use Rattle.std.specs.Coded.{codes};
    ghost use Rattle.ipcz_cell.specs.CellStates.{CellState};

    ghost Value = { CellState };

    ghost coded = { Prim.hlevel (codes, code, sets.code) };

    ghost view = { λ m. m.cell };
}

impl<F: FabricName> Member<F> {
    pub(crate) fn new(fabric: Arc<Fabric<F>, Global>, cell: NodeCell<F>) -> Member<F>
        ensures { result ≡ cell }
    {
        Member { fabric, cell }
    }

    pub(crate) fn put(
        &mut self,
        profile: Profile,
        at: End,
        bytes: Bytes,
        ends: Ends,
    ) -> Result<u64, Refusal>
        ensures { PutsAt profile at bytes ends self.old result self.new }
    {
        match self.cell.put_as(&self.fabric, profile, at, bytes, ends) {
            Ok(number) => Ok(number),
            Err(refused) => Err(refused.why),
        }
    }

    pub(crate) fn get(&mut self, at: End) -> Result<(u64, Parcel), Refusal>
        ensures got { GetsAt at self.old result self.new }
        ensures sizes { IfOk result (λ g. next_sizes self.old.part.state at ≡ Some (sizes_of g.1)) }
    {
        self.cell.get(&self.fabric, at)
    }

    pub(crate) fn next_sizes(&self, at: End) -> Option<Sizes>
        ensures { result ≡ next_sizes self.now.part.state at }
    {
        self.cell.next_sizes(at)
    }

    pub(crate) fn look(&self, at: End) -> Option<PortalStatus>
        ensures { IsLook self.now.part.state at result }
    {
        self.cell.look(at)
    }

    pub(crate) fn ready_from(&self, serial: u64) -> Option<(u64, End)>
        ensures { IsNextReady self.now.part.state serial result }
    {
        self.cell.ready_from(serial)
    }

    pub(crate) fn has_arrived(&self, at: End) -> Option<bool>
        ensures { result ≡ arrival_of self.now.part.state at }
    {
        self.cell.has_arrived(at)
    }

    pub(crate) fn close(&mut self, at: End) -> Result<u64, Refusal>
        ensures { ClosesAt at self.old result self.new }
    {
        self.cell.close(&self.fabric, at)
    }

    pub(crate) fn open(&mut self) -> Result<(End, End), Refusal>
        ensures { OpensPair F.table self.old self.new result }
    {
        self.cell.open_pair(&self.fabric)
    }

    pub(crate) fn acts(&mut self, limit: u64, touched: &mut NodeSet) -> Result<u64, Refusal>
        ensures { RunsTouching F.table limit self.old result touched.old touched.new self.new }
    {
        self.cell.acts_touching(&self.fabric, limit, touched)
    }

    pub(crate) fn quiet(&mut self) -> bool
        ensures { FindsQuiet F.table self.old result self.new }
    {
        self.cell.quiet(&self.fabric)
    }

    pub(crate) fn retry(&mut self) -> Retry
        ensures { Retries F.table self.old result self.new }
    {
        self.cell.retry(&self.fabric)
    }

    pub(crate) fn claimed(&mut self) -> u64
        ensures { CountsClaimed F.table.size self.old result self.new }
    {
        self.cell.claimed(&self.fabric)
    }

    pub(crate) fn word(&mut self, i: u64) -> Option<u64>
        ensures { ShowsWord F.table i self.old result self.new }
    {
        self.cell.word(&self.fabric, i)
    }

    pub(crate) fn holds(&self, end: End) -> bool
        ensures { result ≡ holds_end self.now.part.state end }
    {
        self.cell.holds(end)
    }

    pub(crate) fn node(&self) -> u8
        ensures { result ≡ self.now.part.node }
    {
        self.cell.node()
    }
}
