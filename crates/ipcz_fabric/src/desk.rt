//! Desks: what lies behind a node's lock. It is the node's cell, whose history tells how its state was reached.
ghost use Rattle.std.specs.Prelude.{◌≡◌, ◌<◌, ◌≤◌, ℕ, IfSome, IsOk, Result, Ok, Err, true, false, MatchResult, None, Some, is_some, length, slice_index_or, unwrap_or, OnOk, IfOk, IfErr};
ghost use Rattle.ipcz_node.specs.Calls.{put_refusal, put_number, get_refusal, got_at, close_refusal, next_sizes};
ghost use Rattle.ipcz_node.specs.Arriving.{arrival_of};
ghost use Rattle.ipcz_node.specs.Finding.{IsNextReady};
ghost use Rattle.ipcz_node.specs.Looking.{IsLook};
ghost use Rattle.ipcz_node.specs.RoomyNodes.{TakesMore};
ghost use Rattle.ipcz_rule.specs.declared.history.Call.TheVariants as calls;
ghost use Rattle.ipcz_rule.specs.Histories.{at_node, entry_of, noted};
ghost use Rattle.ipcz_rule.specs.Steps.{put_part, close_part};
ghost use Rattle.ipcz_cell.specs.Callers.{IsWritten};
ghost use Rattle.ipcz_cell.specs.CellStates.{CellState, roomy};
ghost use Rattle.ipcz_cell.specs.Cells.{IsSoundCell};
ghost use Rattle.ipcz_cell.specs.Opens.{OpensPair};
ghost use Rattle.ipcz_cell.specs.Parts.{got_part};
ghost use Rattle.ipcz_cell.specs.Retries.{Retries};
ghost use Rattle.ipcz_cell.specs.TurnChains.{RunsTurns};
ghost use Rattle.ipcz_cell.specs.TurnEnds.{Turns};
ghost use Rattle.ipcz_fabric.specs.Places.{IsCellOf, IsRefusedInOrder};
ghost use Rattle.ipcz_fabric.specs.PortalSets.{in_round};
ghost use Rattle.ipcz_fabric.specs.Portals.{ends_of, has_ends, wants_list};
ghost use Rattle.ipcz_fabric.specs.Replays.{Extends, IsNotedCell, Leaves, LeavesPart, PutsAt, entered};
ghost use Rattle.ipcz_fabric.specs.Readiness.{EachBefore, FindsHere, FindsNoneHere, IsThere};
ghost use Rattle.ipcz_fabric.specs.Stopping.{IsStop, TellsStop, answer_of, refusal_of, stop_in};
ghost use Rattle.ipcz_fabric.specs.declared.chair.Chair.TheVariants as kinds;
ghost use Rattle.ipcz_fabric.specs.Waiting.{woken_chair, is_answered};

use crate::chair_bells::ChairBells;
use crate::hub::Hub;
use crate::missed::{Missed, is_empty, missed_at, stop_of};
use crate::portal::{Portal, PortalPutRefused};
use crate::portal_set::PortalSet;
use crate::rest::Rest;
use crate::waiting_room::WaitingRoom;
use ipcz_base::{Bytes, End, Parcel, PortalStatus, Profile, Refusal, Sizes};
use ipcz_cell::{CallName, CallerSeat, Fabric, FabricName, NodeCell, Retry};
use ipcz_node::Happened;
use std::marker::{Brand, Model};

/// A node's cell. What its callers call it answers, and then it is written down as theirs. Beside it stands why the last turn has stopped the node, if
/// it has.
#[derive(Drop)]
pub(crate) struct Desk<F: FabricName> {
    cell: NodeCell<F>,
    stop: Option<Refusal>,
    room: WaitingRoom,
}

impl<F: FabricName> Model for Desk<F> {
    ghost use Rattle.std.specs.FinMap.{code};
    ghost use Rattle.std.specs.FinSet as sets;
    ghost use Rattle.std.specs.Coded.{codes};
    ghost use Rattle.ipcz_cell.specs.CellStates.{CellState};
    ghost use Rattle.ipcz_fabric.specs.Replays.{IsReached};
    ghost use Rattle.ipcz_fabric.specs.Stopping.{stop_in};
    ghost use Rattle.std.specs.Prelude.{◌≡◌};

    ghost Value = { CellState };

    ghost coded = { Prim.hlevel (codes, code, sets.code) };

    ghost view = { λ d. d.cell };

    ghost invariant = { λ d. IsReached F.table d.cell.part × (d.stop ≡ stop_in d.cell.part.history) };
}

/// Which call a put is, by what it is answered.
pub(crate) trait PutName {
    ghost use Rattle.std.specs.Prelude.{ℕ, Result};
    ghost use Rattle.ipcz_base.specs.declared.refusal.Refusal.{Refusal as Why};
    ghost use Rattle.ipcz_rule.specs.declared.history.Call.{Call};

    ghost puts: { Result ℕ Why → Call };
}

impl PutName for Brand {
    ghost use Rattle.ipcz_rule.specs.declared.history.Call.TheVariants as calls;
    ghost use Rattle.ipcz_rule.specs.declared.retry.Retry.TheVariants.{NoneWaits};

    ghost puts = { λ answer. calls.Retried NoneWaits };
}

// Writes a call into the history of a cell's node, as one of this caller. Which call it is each use picks, by what was asked and answered.
fn note_as<F: FabricName, C: CallName, Q, A>(
    cell: &mut NodeCell<F>,
    fabric: &Fabric<F>,
    me: &mut CallerSeat<F>,
    asked: &Q,
    answer: &A,
)
    ensures part { cell.new.part ≡ noted (entry_of cell.old.part.node me.old.id C.call) cell.old.part }
    ensures seen { cell.new.seen ≡ cell.old.seen }
    ensures me { IsWritten (entry_of cell.old.part.node me.old.id C.call) cell.new.part.history me.old me.new }
{
    let _asked = asked;
    let _answer = answer;
    cell.note::<C>(fabric, me);
}

// What a put was answered.
fn told<F: FabricName>(put: &Result<u64, PortalPutRefused<F>>) -> Result<u64, Refusal>
    ensures { MatchResult put.now (λ n. result ≡ Ok n) (λ e. result ≡ Err e.why) }
{
    match put {
        Ok(n) => Ok(*n),
        Err(refused) => Err(refused.why),
    }
}

// Wakes those who wait at an end where something has come, or all, if the node is stopped. If nobody sits there, nothing is looked at.
#[inline(always)]
#[tactic(auto, using(crate::proofs::Chairs::none_woken))]
fn wake_waiting<F: FabricName>(
    room: &mut WaitingRoom,
    cell: &NodeCell<F>,
    stop: Option<Refusal>,
    bells: &ChairBells,
)
    ensures { (k : ℕ) → slice_index_or room.new k kinds.Free ≡ woken_chair (is_answered cell.now.part.state) (is_some stop) (slice_index_or room.old k kinds.Free) }
{
    if room.taken() > 0 {
        room.wake(cell, stop.is_some(), bells, cell.node());
    }
}

// The same behind a turn, if it has handled a message or was refused.
#[inline(always)]
fn wake_after<F: FabricName>(
    answer: &Result<Happened, Refusal>,
    room: &mut WaitingRoom,
    cell: &NodeCell<F>,
    stop: Option<Refusal>,
    bells: &ChairBells,
) {
    if matches!(answer, Ok(Happened::Hand { .. }) | Err(_)) {
        wake_waiting(room, cell, stop, bells);
    }
}

// Takes a place for a sleep at an end.
fn rest_at<F: FabricName>(room: &mut WaitingRoom, hub: &Hub<F>, node: u8, at: End) -> Rest {
    match room.sit(at) {
        Some(place) => Rest::Chair {
            place,
            number: hub.chairs().watch(node, place),
        },
        None => Rest::Crowd(hub.fabric().news().watch(node)),
    }
}

// Leaves the place of a sleep, if there was one, and takes one for the next at an end, if there is to be one.
fn move_on<F: FabricName>(
    room: &mut WaitingRoom,
    hub: &Hub<F>,
    node: u8,
    at: End,
    slept: Option<Rest>,
    is_to_sleep: bool,
) -> Option<Rest> {
    if let Some(Rest::Chair { place, .. }) = slept {
        room.leave(place);
    }
    let rest = if is_to_sleep {
        Some(rest_at(room, hub, node, at))
    } else {
        None
    };
    hub.chairs().tell_taken(node, room.taken());
    rest
}

// Puts a parcel at a portal of a cell's node, and writes it down, as the call that P names.
fn put_noted<F: FabricName, P: PutName>(
    cell: &mut NodeCell<F>,
    hub: &Hub<F>,
    me: &mut CallerSeat<F>,
    portal: &Portal<F>,
    profile: Profile,
    bytes: Bytes,
    portals: Vec<Portal<F>>,
) -> Result<u64, PortalPutRefused<F>>
    ensures allowed { OnOk result (put_refusal profile cell.old.part.state portal.now.end bytes (ends_of portals.items) ≡ None) }
    ensures number { IfOk result (λ n. n ≡ put_number cell.old.part.state portal.now.end) }
    ensures why { IfErr result
        (λ e. IsRefusedInOrder (wants_list (ends_of portals.items))
        (put_refusal profile cell.old.part.state portal.now.end bytes (ends_of portals.items)) e.why) }
    ensures full { wants_list (ends_of portals.items) ≡ false →
        put_refusal profile cell.old.part.state portal.now.end bytes (ends_of portals.items) ≡ None → TakesMore (roomy cell.old) portal.now.end → IsOk result }
    ensures back { IfErr result (λ e. (e.bytes ≡ bytes) × (e.portals.items ≡ portals.items)) }
    ensures left { MatchResult result
        (λ n. LeavesPart me.old.id (P.puts (Ok n)) (put_part portal.now.end bytes (ends_of portals.items) cell.old.part) cell.old cell.new)
        (λ e. LeavesPart me.old.id (P.puts (Err e.why)) cell.old.part cell.old cell.new) }
    ensures noted { (told : Result ℕ Refusal) × MatchResult result (λ n. told ≡ Ok n) (λ e. told ≡ Err e.why) × (done : CellState) ×
        PutsAt profile portal.now.end bytes (ends_of portals.items) told cell.old.part done.part ×
        IsNotedCell (entry_of done.part.node me.old.id (P.puts told)) done cell.new ×
        IsWritten (entry_of done.part.node me.old.id (P.puts told)) cell.new.part.history me.old me.new }
{
    let put = portal.put_here(cell, hub, profile, bytes, portals);
    let answer = told(&put);
    note_as::<F, Brand, _, _>(cell, hub.fabric(), me, &(), &answer);
    put
}

impl<F: FabricName> Desk<F> {
    // A desk with a cell, where it is written down in which state the node comes behind its lock.
    pub(crate) fn new(fabric: &Fabric<F>, cell: NodeCell<F>) -> Desk<F>
        ensures { (by : ℕ) × (result.part ≡ entered by cell.part) }
    {
        let mut cell = cell;
        let mut me = fabric.caller();
        note_as::<F, Brand, _, _>(&mut cell, fabric, &mut me, &(), &());
        Desk {
            cell,
            stop: None,
            room: WaitingRoom::new(),
        }
    }

    // The cell.
    pub(crate) fn into_cell(self) -> NodeCell<F>
        ensures { result ≡ self }
    {
        self.cell
    }

    // The number of the node.
    pub(crate) fn node(&self) -> u8
        ensures node { result ≡ self.now.part.node }
        ensures inside { result < F.table.count }
        ensures sound { IsSoundCell F.table self.now }
    {
        self.cell.node()
    }

    // How many bytes and ends the parcel has that a get at this end would give.
    pub(crate) fn next_sizes(&self, at: End) -> Option<Sizes>
        ensures { result ≡ next_sizes self.now.part.state at }
    {
        self.cell.next_sizes(at)
    }

    // What gets at this end would answer.
    pub(crate) fn look(&self, at: End) -> Option<PortalStatus>
        ensures { IsLook self.now.part.state at result }
    {
        self.cell.look(at)
    }

    // The next held end from a router's serial on where a get isn't Empty.
    pub(crate) fn ready_from(&self, serial: u64) -> Option<(u64, End)>
        ensures { IsNextReady self.now.part.state serial result }
    {
        self.cell.ready_from(serial)
    }

    // Counted in a round that begins at a place: the number of the first portal of the node where a get finds something, if it is below a limit; the limit
    // if there is none.
    pub(crate) fn first_ready(&self, portals: &PortalSet<F>, begin: usize, limit: usize) -> usize
        requires { begin ≤ length portals.now }
        ensures most { result ≤ limit }
        ensures found { result < limit → IsThere (in_round portals.now begin) result (FindsHere self.now) }
        ensures none { EachBefore (in_round portals.now begin) result (FindsNoneHere self.now) }
    {
        let node = self.cell.node();
        let mut first = limit;
        let mut from = 0;
        while let Some((serial, end)) = self.cell.ready_from(from) {
            if self.cell.has_come(end) {
                first = portals.nth_below(first, begin, node, end);
            }
            from = serial + 1;
        }
        first
    }

    // Why the last turn has stopped the node, if it has.
    pub(crate) fn stop(&self) -> Option<Refusal>
        ensures { IfSome result IsStop }
    {
        self.stop
    }

    // Whether this end has arrived.
    pub(crate) fn has_arrived(&self, at: End) -> Option<bool>
        ensures { result ≡ arrival_of self.now.part.state at }
    {
        self.cell.has_arrived(at)
    }

    // Takes one turn of the node.
    pub(crate) fn turn(&mut self, hub: &Hub<F>, me: &mut CallerSeat<F>) -> Result<Happened, Refusal>
        requires { IsCellOf F.table self.old.part.node self.old }
        ensures did { Leaves me.old.id (calls.Turned result) (λ done. Turns F.table self.old result done) self.new }
        ensures here { self.new.part.node ≡ self.old.part.node }
        ensures extends { Extends F.table self.old.part.node (calls.Turned result) me.old me.new }
    {
        let fabric = hub.fabric();
        let answer = self.cell.turn(fabric);
        note_as::<F, Brand, _, _>(&mut self.cell, fabric, me, &(), &answer);
        self.stop = stop_of(&answer);
        wake_after(&answer, &mut self.room, &self.cell, self.stop, hub.chairs());
        answer
    }

    // Takes turns of the node, one after the other.
    pub(crate) fn acts(
        &mut self,
        hub: &Hub<F>,
        me: &mut CallerSeat<F>,
        limit: u64,
    ) -> Result<u64, Refusal>
        requires { IsCellOf F.table self.old.part.node self.old }
        ensures did { Leaves me.old.id (calls.Acted limit result) (λ done. RunsTurns F.table limit self.old result done) self.new }
        ensures extends { Extends F.table self.old.part.node (calls.Acted limit result) me.old me.new }
    {
        let fabric = hub.fabric();
        let answer = self.cell.acts(fabric, limit);
        note_as::<F, Brand, _, _>(&mut self.cell, fabric, me, &limit, &answer);
        self.stop = stop_of(&answer);
        wake_waiting(&mut self.room, &self.cell, self.stop, hub.chairs());
        answer
    }

    // Lets a proxy of the node ask again for its slot.
    pub(crate) fn retry(&mut self, fabric: &Fabric<F>, me: &mut CallerSeat<F>) -> Retry
        requires { IsCellOf F.table self.old.part.node self.old }
        ensures did { Leaves me.old.id (calls.Retried result) (λ done. Retries F.table self.old result done) self.new }
        ensures extends { Extends F.table self.old.part.node (calls.Retried result) me.old me.new }
    {
        let answer = self.cell.retry(fabric);
        note_as::<F, Brand, _, _>(&mut self.cell, fabric, me, &(), &answer);
        answer
    }

    // Opens a pair at the node.
    pub(crate) fn open_pair(
        &mut self,
        fabric: &Fabric<F>,
        me: &mut CallerSeat<F>,
    ) -> Result<(End, End), Refusal>
        requires { IsCellOf F.table self.old.part.node self.old }
        ensures did { Leaves me.old.id (calls.Opened result) (λ done. OpensPair F.table self.old done result) self.new }
        ensures extends { Extends F.table self.old.part.node (calls.Opened result) me.old me.new }
    {
        let answer = self.cell.open_pair(fabric);
        note_as::<F, Brand, _, _>(&mut self.cell, fabric, me, &(), &answer);
        answer
    }

    // Puts a parcel at a portal of the node.
    pub(crate) fn put_as(
        &mut self,
        hub: &Hub<F>,
        me: &mut CallerSeat<F>,
        portal: &Portal<F>,
        profile: Profile,
        bytes: Bytes,
        portals: Vec<Portal<F>>,
    ) -> Result<u64, PortalPutRefused<F>>
        ensures allowed { OnOk result (put_refusal profile self.old.part.state portal.now.end bytes (ends_of portals.items) ≡ None) }
        ensures number { IfOk result (λ n. n ≡ put_number self.old.part.state portal.now.end) }
        ensures why { IfErr result
            (λ e. IsRefusedInOrder (wants_list (ends_of portals.items))
            (put_refusal profile self.old.part.state portal.now.end bytes (ends_of portals.items)) e.why) }
        ensures full { wants_list (ends_of portals.items) ≡ false →
            put_refusal profile self.old.part.state portal.now.end bytes (ends_of portals.items) ≡ None → TakesMore (roomy self.old) portal.now.end → IsOk result }
        ensures back { IfErr result (λ e. (e.bytes ≡ bytes) × (e.portals.items ≡ portals.items)) }
        ensures left { MatchResult result
            (λ n. LeavesPart me.old.id (calls.Put profile portal.now.end bytes (ends_of portals.items) (Ok n))
            (put_part portal.now.end bytes (ends_of portals.items) self.old.part) self.old self.new)
            (λ e. LeavesPart me.old.id (calls.Put profile portal.now.end bytes (ends_of portals.items) (Err e.why)) self.old.part self.old self.new) }
        ensures extends { MatchResult result
            (λ n. Extends F.table self.old.part.node (calls.Put profile portal.now.end bytes (ends_of portals.items) (Ok n)) me.old me.new)
            (λ e. Extends F.table self.old.part.node (calls.Put profile portal.now.end bytes (ends_of portals.items) (Err e.why)) me.old me.new) }
    {
        put_noted::<F, Brand>(&mut self.cell, hub, me, portal, profile, bytes, portals)
    }

    // Takes the next parcel at an end, where there is room for its portals.
    pub(crate) fn get(
        &mut self,
        fabric: &Fabric<F>,
        me: &mut CallerSeat<F>,
        at: End,
    ) -> Result<(u64, Parcel), Refusal>
        ensures allowed { OnOk result (get_refusal self.old.part.state at ≡ None) }
        ensures parcel { IfOk result (λ g. got_at self.old.part.state at ≡ Some g) }
        ensures why { IfErr result (λ e. get_refusal self.old.part.state at ≡ Some e) }
        ensures left { MatchResult result
            (λ _. LeavesPart me.old.id (calls.Got at result) (got_part at self.old.part) self.old self.new)
            (λ _. LeavesPart me.old.id (calls.Got at result) self.old.part self.old self.new) }
        ensures extends { Extends F.table self.old.part.node (calls.Got at result) me.old me.new }
    {
        let got = self.cell.get(fabric, at);
        note_as::<F, Brand, _, _>(&mut self.cell, fabric, me, &at, &got);
        got
    }

    // Refuses a get at an end, where there is no room for its portals.
    pub(crate) fn refuse_get(&mut self, fabric: &Fabric<F>, me: &mut CallerSeat<F>, at: End)
        requires { has_ends (next_sizes self.old.part.state at) ≡ true }
        ensures left { LeavesPart me.old.id (calls.Got at (Err Refusal.OutOfMemory)) self.old.part self.old self.new }
        ensures extends { Extends F.table self.old.part.node (calls.Got at (Err Refusal.OutOfMemory)) me.old me.new }
    {
        note_as::<F, Brand, _, _>(&mut self.cell, fabric, me, &at, &());
    }

    // Takes the next parcel at an end, without room for its portals. If there is none, it tells whether the node is stopped.
    pub(crate) fn take(
        &mut self,
        fabric: &Fabric<F>,
        me: &mut CallerSeat<F>,
        at: End,
    ) -> Result<(u64, Parcel), Missed>
        ensures allowed { OnOk result (get_refusal self.old.part.state at ≡ None) }
        ensures parcel { IfOk result (λ g. got_at self.old.part.state at ≡ Some g) }
        ensures why { IfErr result (λ e. get_refusal self.old.part.state at ≡ Some (refusal_of e)) }
        ensures left { MatchResult result
            (λ _. LeavesPart me.old.id (calls.Taken at (answer_of result)) (got_part at self.old.part) self.old self.new)
            (λ _. LeavesPart me.old.id (calls.Taken at (answer_of result)) self.old.part self.old self.new) }
        ensures extends { Extends F.table self.old.part.node (calls.Taken at (answer_of result)) me.old me.new }
        ensures stop { IfErr result (TellsStop (stop_in (at_node self.old.part.node me.new.seen))) }
    {
        let answer = self.cell.get(fabric, at);
        note_as::<F, Brand, _, _>(&mut self.cell, fabric, me, &at, &answer);
        missed_at(answer, self.stop)
    }

    // Takes the next parcel at an end, as `take`, behind a sleep, if there was one. If there is none and the get is to sleep, it tells where.
    pub(crate) fn take_or_sit(
        &mut self,
        hub: &Hub<F>,
        me: &mut CallerSeat<F>,
        at: End,
        slept: Option<Rest>,
        may_sleep: bool,
    ) -> (Result<(u64, Parcel), Missed>, Option<Rest>)
        ensures allowed { OnOk result.0 (get_refusal self.old.part.state at ≡ None) }
        ensures parcel { IfOk result.0 (λ g. got_at self.old.part.state at ≡ Some g) }
        ensures why { IfErr result.0 (λ e. get_refusal self.old.part.state at ≡ Some (refusal_of e)) }
        ensures extends { Extends F.table self.old.part.node (calls.Taken at (answer_of result.0)) me.old me.new }
        ensures stop { IfErr result.0 (TellsStop (stop_in (at_node self.old.part.node me.new.seen))) }
    {
        let taken = self.take(hub.fabric(), me, at);
        let is_to_sleep = may_sleep && is_empty(&taken);
        let node = self.cell.node();
        let rest = move_on(&mut self.room, hub, node, at, slept, is_to_sleep);
        (taken, rest)
    }

    // Closes an end.
    pub(crate) fn close(
        &mut self,
        fabric: &Fabric<F>,
        me: &mut CallerSeat<F>,
        at: End,
    ) -> Result<u64, Refusal>
        ensures allowed { OnOk result (close_refusal self.old.part.state at ≡ None) }
        ensures number { IfOk result (λ n. n ≡ put_number self.old.part.state at) }
        ensures why { IfErr result (λ e. e ≡ unwrap_or (close_refusal self.old.part.state at) Refusal.OutOfMemory) }
        ensures full { close_refusal self.old.part.state at ≡ None → TakesMore (roomy self.old) at → IsOk result }
        ensures left { MatchResult result
            (λ _. LeavesPart me.old.id (calls.Closed at result) (close_part at self.old.part) self.old self.new)
            (λ _. LeavesPart me.old.id (calls.Closed at result) self.old.part self.old self.new) }
        ensures extends { Extends F.table self.old.part.node (calls.Closed at result) me.old me.new }
    {
        let answer = self.cell.close(fabric, at);
        note_as::<F, Brand, _, _>(&mut self.cell, fabric, me, &at, &answer);
        answer
    }
}
