//! What C holds of a node's cell, and the calls of the cell through it, under whatever name its table gets for the call.
ghost use Rattle.std.specs.Prelude.{◌≡◌, Some, None, IsSome, IfSome, IfOk};
ghost use Rattle.std.specs.Option.{is_some};
ghost use Rattle.ipcz_base.specs.Items.{sizes_of};
ghost use Rattle.ipcz_node.specs.Node.{holds_end};
ghost use Rattle.ipcz_cell.specs.Opens.{OpensPair, FindsQuiet, ShowsWord};
ghost use Rattle.ipcz_cell.specs.Retries.{Retries};
ghost use Rattle.ipcz_cell.specs.TurnChains.{RunsTouching};
ghost use Rattle.ipcz_c.specs.CellSteps.{PutsAt, GetsAt, ClosesAt, CountsClaimed};
ghost use Rattle.ipcz_node.specs.Arriving.{arrival_of};
ghost use Rattle.ipcz_c.specs.Looks.{IsLookOf};
ghost use Rattle.ipcz_c.specs.Ready.{IsReadyOf};
ghost use Rattle.ipcz_c.specs.HeldCells.{HeldCell, IsOnly, table_of, Moves, cell_sizes};

use crate::cell_pointer::CellPointer;
use crate::member::Member;
use crate::parts::Parts;
use ipcz_base::{Bytes, End, Ends, Parcel, PortalStatus, Profile, Refusal, Sizes};
use ipcz_cell::{FabricName, NodeSet, Retry};
use std::alloc::Global;
use std::mem;

/// A node's cell that C holds, or none: `ipcz_cell` of the header, which tells C to write all zeros before the first call and nothing later.
///
/// The flag says whether the pointer has a cell, so that each call can test it.
#[repr(C)]
#[derive(Drop)]
pub struct CellHandle {
    pub held: CellPointer,
    pub has_cell: bool,
    pub ghost told: { has_cell ≡ is_some held.cell },
}

impl CellHandle {
    pub(crate) fn empty(alloc: Global) -> CellHandle
        ensures { result.held.cell ≡ None }
    {
        CellHandle {
            held: CellPointer::to_nothing(alloc),
            has_cell: false,
        }
    }

    // The cell of a handle that has one, under a name of its table; the handle has none then.
    fn take<F: FabricName>(&mut self, alloc: Global) -> Box<Member<F>, Global>
        requires held { IsSome self.old.held.cell }
        requires named { table_of self.old.held.cell ≡ F.table }
        requires only { IsOnly F }
        ensures cell { self.old.held.cell ≡ Some (record { table = F.table; cell = result.value }) }
        ensures none { self.new.held.cell ≡ None }
    {
        let empty = CellHandle::empty(alloc);
        let full = mem::replace(self, empty);
        let parts = full.held.into_parts::<F>();
        parts.into_box()
    }

    // A handle of a cell, whose table's name is forgotten.
    pub(crate) fn of<F: FabricName>(member: Box<Member<F>, Global>) -> CellHandle
        requires { IsOnly F }
        ensures { result.held.cell ≡ Some (record { table = F.table; cell = member.value }) }
    {
        CellHandle {
            held: CellPointer::of_parts(Parts::of(member)),
            has_cell: true,
        }
    }

    // Gives the handle a cell.
    fn give<F: FabricName>(&mut self, member: Box<Member<F>, Global>)
        requires { IsOnly F }
        ensures { self.new.held.cell ≡ Some (record { table = F.table; cell = member.value }) }
    {
        *self = CellHandle::of(member);
    }

    // Gives the cell up, with all that its node keeps.
    pub(crate) fn give_up<F: FabricName>(&mut self, alloc: Global)
        requires held { IsSome self.old.held.cell }
        requires named { table_of self.old.held.cell ≡ F.table }
        requires only { IsOnly F }
        ensures { self.new.held.cell ≡ None }
    {
        drop(self.take::<F>(alloc));
    }

    pub(crate) fn put<F: FabricName>(
        &mut self,
        alloc: Global,
        profile: Profile,
        at: End,
        bytes: Bytes,
        ends: Ends,
    ) -> Result<u64, Refusal>
        requires held { IsSome self.old.held.cell }
        requires named { table_of self.old.held.cell ≡ F.table }
        requires only { IsOnly F }
        ensures { Moves (λ t c d. PutsAt profile at bytes ends c result d) self.old.held.cell self.new.held.cell }
    {
        let mut member = self.take::<F>(alloc);
        let answer = member.put(profile, at, bytes, ends);
        self.give(member);
        answer
    }

    #[tactic(auto, unfolding(crate::specs::HeldCells::cell_sizes))]
    pub(crate) fn get<F: FabricName>(
        &mut self,
        alloc: Global,
        at: End,
    ) -> Result<(u64, Parcel), Refusal>
        requires held { IsSome self.old.held.cell }
        requires named { table_of self.old.held.cell ≡ F.table }
        requires only { IsOnly F }
        ensures got { Moves (λ t c d. GetsAt at c result d) self.old.held.cell self.new.held.cell }
        ensures sizes { IfOk result (λ g. cell_sizes self.old.held.cell at ≡ Some (sizes_of g.1)) }
    {
        let mut member = self.take::<F>(alloc);
        let answer = member.get(at);
        self.give(member);
        answer
    }

    // The sizes of the parcel that a get would give.
    #[tactic(auto, unfolding(crate::specs::HeldCells::cell_sizes))]
    pub(crate) fn next_sizes<F: FabricName>(&mut self, alloc: Global, at: End) -> Option<Sizes>
        requires held { IsSome self.old.held.cell }
        requires named { table_of self.old.held.cell ≡ F.table }
        requires only { IsOnly F }
        ensures sizes { result ≡ cell_sizes self.old.held.cell at }
        ensures same { self.new.held.cell ≡ self.old.held.cell }
    {
        let member = self.take::<F>(alloc);
        let sizes = member.next_sizes(at);
        self.give(member);
        sizes
    }

    // What gets would answer.
    pub(crate) fn look<F: FabricName>(&mut self, alloc: Global, at: End) -> Option<PortalStatus>
        requires held { IsSome self.old.held.cell }
        requires named { table_of self.old.held.cell ≡ F.table }
        requires only { IsOnly F }
        ensures look { IsLookOf self.old.held.cell at result }
        ensures same { self.new.held.cell ≡ self.old.held.cell }
    {
        let member = self.take::<F>(alloc);
        let answer = member.look(at);
        self.give(member);
        answer
    }

    // The next end at which something has come.
    pub(crate) fn ready_from<F: FabricName>(
        &mut self,
        alloc: Global,
        serial: u64,
    ) -> Option<(u64, End)>
        requires held { IsSome self.old.held.cell }
        requires named { table_of self.old.held.cell ≡ F.table }
        requires only { IsOnly F }
        ensures ready { IsReadyOf self.old.held.cell serial result }
        ensures same { self.new.held.cell ≡ self.old.held.cell }
    {
        let member = self.take::<F>(alloc);
        let answer = member.ready_from(serial);
        self.give(member);
        answer
    }

    // Whether a portal has arrived.
    pub(crate) fn has_arrived<F: FabricName>(&mut self, alloc: Global, at: End) -> Option<bool>
        requires held { IsSome self.old.held.cell }
        requires named { table_of self.old.held.cell ≡ F.table }
        requires only { IsOnly F }
        ensures arrived { IfSome self.old.held.cell (λ c. result ≡ arrival_of c.cell.part.state at) }
        ensures same { self.new.held.cell ≡ self.old.held.cell }
    {
        let member = self.take::<F>(alloc);
        let answer = member.has_arrived(at);
        self.give(member);
        answer
    }

    pub(crate) fn close<F: FabricName>(&mut self, alloc: Global, at: End) -> Result<u64, Refusal>
        requires held { IsSome self.old.held.cell }
        requires named { table_of self.old.held.cell ≡ F.table }
        requires only { IsOnly F }
        ensures { Moves (λ t c d. ClosesAt at c result d) self.old.held.cell self.new.held.cell }
    {
        let mut member = self.take::<F>(alloc);
        let answer = member.close(at);
        self.give(member);
        answer
    }

    pub(crate) fn open<F: FabricName>(&mut self, alloc: Global) -> Result<(End, End), Refusal>
        requires held { IsSome self.old.held.cell }
        requires named { table_of self.old.held.cell ≡ F.table }
        requires only { IsOnly F }
        ensures { Moves (λ t c d. OpensPair t c d result) self.old.held.cell self.new.held.cell }
    {
        let mut member = self.take::<F>(alloc);
        let answer = member.open();
        self.give(member);
        answer
    }

    pub(crate) fn acts<F: FabricName>(
        &mut self,
        alloc: Global,
        limit: u64,
        touched: &mut NodeSet,
    ) -> Result<u64, Refusal>
        requires held { IsSome self.old.held.cell }
        requires named { table_of self.old.held.cell ≡ F.table }
        requires only { IsOnly F }
        ensures { Moves (λ t c d. RunsTouching t limit c result touched.old touched.new d) self.old.held.cell self.new.held.cell }
    {
        let mut member = self.take::<F>(alloc);
        let answer = member.acts(limit, touched);
        self.give(member);
        answer
    }

    pub(crate) fn quiet<F: FabricName>(&mut self, alloc: Global) -> bool
        requires held { IsSome self.old.held.cell }
        requires named { table_of self.old.held.cell ≡ F.table }
        requires only { IsOnly F }
        ensures { Moves (λ t c d. FindsQuiet t c result d) self.old.held.cell self.new.held.cell }
    {
        let mut member = self.take::<F>(alloc);
        let answer = member.quiet();
        self.give(member);
        answer
    }

    pub(crate) fn retry<F: FabricName>(&mut self, alloc: Global) -> Retry
        requires held { IsSome self.old.held.cell }
        requires named { table_of self.old.held.cell ≡ F.table }
        requires only { IsOnly F }
        ensures { Moves (λ t c d. Retries t c result d) self.old.held.cell self.new.held.cell }
    {
        let mut member = self.take::<F>(alloc);
        let answer = member.retry();
        self.give(member);
        answer
    }

    pub(crate) fn claimed<F: FabricName>(&mut self, alloc: Global) -> u64
        requires held { IsSome self.old.held.cell }
        requires named { table_of self.old.held.cell ≡ F.table }
        requires only { IsOnly F }
        ensures { Moves (λ t c d. CountsClaimed t.size c result d) self.old.held.cell self.new.held.cell }
    {
        let mut member = self.take::<F>(alloc);
        let answer = member.claimed();
        self.give(member);
        answer
    }

    pub(crate) fn word<F: FabricName>(&mut self, alloc: Global, i: u64) -> Option<u64>
        requires held { IsSome self.old.held.cell }
        requires named { table_of self.old.held.cell ≡ F.table }
        requires only { IsOnly F }
        ensures { Moves (λ t c d. ShowsWord t i c result d) self.old.held.cell self.new.held.cell }
    {
        let mut member = self.take::<F>(alloc);
        let answer = member.word(i);
        self.give(member);
        answer
    }

    pub(crate) fn holds<F: FabricName>(&mut self, alloc: Global, end: End) -> bool
        requires held { IsSome self.old.held.cell }
        requires named { table_of self.old.held.cell ≡ F.table }
        requires only { IsOnly F }
        ensures told { (c : HeldCell) → self.old.held.cell ≡ Some c → result ≡ holds_end c.cell.part.state end }
        ensures same { self.new.held.cell ≡ self.old.held.cell }
    {
        let member = self.take::<F>(alloc);
        let answer = member.holds(end);
        self.give(member);
        answer
    }

    pub(crate) fn node<F: FabricName>(&mut self, alloc: Global) -> u8
        requires held { IsSome self.old.held.cell }
        requires named { table_of self.old.held.cell ≡ F.table }
        requires only { IsOnly F }
        ensures told { (c : HeldCell) → self.old.held.cell ≡ Some c → result ≡ c.cell.part.node }
        ensures same { self.new.held.cell ≡ self.old.held.cell }
    {
        let member = self.take::<F>(alloc);
        let answer = member.node();
        self.give(member);
        answer
    }
}
