//! Cells: a node's state with its seat at the table. Here are its puts, gets and closes, and the acts that take no link word and no mailbox.
ghost use Rattle.std.specs.Prelude.{◌≡◌, ◌<◌, ◌+◌, true, false, if◌then◌else◌, [], ◌∷◌, Some, None, OnOk, OnErr, IfOk, IfErr, IsOk, unwrap_or};
ghost use Rattle.ipcz_node.specs.Calls.{put_refusal, put_number, get_refusal, got_at, close_refusal};
ghost use Rattle.ipcz_node.specs.RoomyNodes.{IsReadyFor, IsPossibleAct, TakesMore};
ghost use Rattle.ipcz_node.specs.Acts.{act_lacks_serials};
ghost use Rattle.ipcz_node.specs.Preparing.{act_grows};
ghost use Rattle.ipcz_node.specs.Events.{event_of};
ghost use Rattle.ipcz_cell.specs.CellStates.{part_in, change_part, roomy};
ghost use Rattle.ipcz_cell.specs.Cells.{AreSound, IsSeated};
ghost use Rattle.ipcz_cell.specs.Seats.{mine_of, Keeps, HasNoSlots, SlotsStay};
ghost use Rattle.ipcz_rule.specs.Steps.{put_part, close_part, act_part};
ghost use Rattle.ipcz_world.specs.Wordless.{is_wordless};
ghost use Rattle.ipcz_cell.specs.Parts.{got_part};
ghost use Rattle.ipcz_rule.specs.Steps.{is_touch_act};
ghost use Rattle.ipcz_cell.specs.Claims.{CanClaim};
ghost use Rattle.ipcz_cell.specs.GivenUp.{GivesUp};
ghost use Rattle.ipcz_cell.specs.Outcomes.{IsPicked, touched};

use crate::fabric::{Fabric, FabricName};
use crate::letting::{GivenUp, act_step, given_up};
use crate::node_list::NodeList;
use crate::plays::{Outcome, load_step};
use crate::seat::TableSeat;
use ipcz_base::{Bytes, End, Ends, Message, Parcel, Profile, Refusal};
use ipcz_node::{Act, Happened, NodeState, PutRefused, Told};
use ipcz_router::act::{Answer, RouterAct};
use std::marker::{Brand, Model, PhantomData};

/// A node's state with its seat at the table that F names.
#[derive(Drop)]
pub struct NodeCell<F: FabricName> {
    pub(crate) state: NodeState,
    pub(crate) message: Option<Message>,
    pub(crate) probed: NodeList,
    // The senders whose slot the seat has: of the message in hand, and of what is left of batches. The newest is the last.
    pub(crate) held: NodeList,
    pub(crate) seat: TableSeat,
    pub(crate) of: PhantomData<F>,
}

impl<F: FabricName> Model for NodeCell<F> {
    ghost use Rattle.std.specs.FinMap.{code};
    ghost use Rattle.std.specs.FinSet as sets;
    ghost use Rattle.std.specs.Coded.{codes};
    ghost use Rattle.ipcz_cell.specs.CellStates.{CellState, part_in};

    ghost Value = { CellState };

    ghost coded = { Prim.hlevel (codes, code, sets.code) };

    ghost use Rattle.ipcz_cell.specs.Cells.{IsCell};
    ghost use Rattle.ipcz_cell.specs.Seats.{mine_of, HasNoSlots};

    ghost view = { λ c. record { part = part_in c.seat.me.0.view; seen = c.seat.me.0.view.seen; room = c.state.room; looked = c.seat.me.0.looked } };

    ghost invariant = { λ c. IsCell F.table c.state.node c.message c.probed c.held c.seat.table_id (mine_of c.seat.me) × HasNoSlots c.seat.me.0 };
}

/// A step on the node's inbox, which it leaves as it is.
pub(crate) fn touch<F: FabricName, X: Outcome>(
    seat: &mut TableSeat,
    fabric: &Fabric<F>,
    node: u8,
) -> u64
    requires own { seat.old.table_id ≡ F.table.id }
    requires node { node < F.table.count }
    requires may { Keeps F.table.reuses F.table.count F.table.size F.table.id.slots seat.old.id (mine_of seat.old.me) (F.table.size + 1 + node) (λ n. n)
        (X.tells (mine_of seat.old.me)) }
    ensures table { seat.new.table_id ≡ seat.old.table_id }
    ensures done { X.tells (mine_of seat.old.me) result (mine_of seat.new.me) }
    ensures sound { AreSound F.table.count F.table.size seat.new.me.0.view }
    ensures slots { SlotsStay seat.old.me seat.new.me }
{
    let _words = fabric.words;
    load_step::<F, X>(seat, fabric, 1 + node as usize)
}

// A claim that finds no slot, as a step on the node's inbox: the proxy is dry. X is what it tells.
pub(crate) fn dry_here<F: FabricName, X: Outcome>(
    seat: &mut TableSeat,
    fabric: &Fabric<F>,
    node: u8,
    serial: u64,
)
    requires picked { IsPicked X.tells (touched (act_part (Act.Router serial RouterAct.Claim) Answer.NoWord)) }
    requires own { seat.old.table_id ≡ F.table.id }
    requires whole { seat.old.me.0.view.parts ≡ part_in seat.old.me.0.view ∷ [] }
    requires node { node < F.table.count }
    requires can { CanClaim (part_in seat.old.me.0.view).state serial }
    ensures table { seat.new.table_id ≡ seat.old.table_id }
    ensures done { (mine_of seat.new.me) ≡ (change_part (act_part (Act.Router serial RouterAct.Claim) Answer.NoWord) seat.old.me.0.view, seat.old.me.1) }
    ensures sound { AreSound F.table.count F.table.size seat.new.me.0.view }
    ensures slots { SlotsStay seat.old.me seat.new.me }
{
    let _serial = serial;
    touch::<F, X>(seat, fabric, node);
}

// A put, as a step on the node's inbox. X is what it tells.
fn put_here<F: FabricName, X: Outcome>(
    state: &mut NodeState,
    seat: &mut TableSeat,
    fabric: &Fabric<F>,
    profile: Profile,
    at: End,
    bytes: Bytes,
    ends: Ends,
) -> Result<u64, PutRefused>
    requires picked { IsPicked X.tells (touched (put_part at bytes ends)) }
    requires seated { IsSeated F.table state.old.node seat.old.table_id (mine_of seat.old.me) }
    ensures allowed { OnOk result (put_refusal profile state.old.node at bytes ends ≡ None) }
    ensures number { IfOk result (λ n. n ≡ put_number state.old.node at) }
    ensures why { IfErr result (λ e. e.why ≡ unwrap_or (put_refusal profile state.old.node at bytes ends) Refusal.OutOfMemory) }
    ensures full { put_refusal profile state.old.node at bytes ends ≡ None → TakesMore state.old at → IsOk result }
    ensures back { IfErr result (λ e. (e.bytes ≡ bytes) × (e.ends ≡ ends)) }
    ensures seated { IsSeated F.table state.new.node seat.new.table_id (mine_of seat.new.me) }
    ensures slots { SlotsStay seat.old.me seat.new.me }
    ensures done { OnOk result ((mine_of seat.new.me) ≡ (change_part (put_part at bytes ends) seat.old.me.0.view, seat.old.me.1)) }
    ensures err { OnErr result ((state.new.node ≡ state.old.node) × ((mine_of seat.new.me) ≡ (mine_of seat.old.me))) }
{
    let node = state.number();
    let n = state.put_as(profile, at, bytes, ends)?;
    touch::<F, X>(seat, fabric, node);
    Ok(n)
}

// A get, as a step on the node's inbox. X is what it tells.
fn get_here<F: FabricName, X: Outcome>(
    state: &mut NodeState,
    seat: &mut TableSeat,
    fabric: &Fabric<F>,
    at: End,
) -> Result<(u64, Parcel), Refusal>
    requires picked { IsPicked X.tells (touched (got_part at)) }
    requires seated { IsSeated F.table state.old.node seat.old.table_id (mine_of seat.old.me) }
    ensures allowed { OnOk result (get_refusal state.old.node at ≡ None) }
    ensures parcel { IfOk result (λ g. got_at state.old.node at ≡ Some g) }
    ensures why { IfErr result (λ e. get_refusal state.old.node at ≡ Some e) }
    ensures seated { IsSeated F.table state.new.node seat.new.table_id (mine_of seat.new.me) }
    ensures slots { SlotsStay seat.old.me seat.new.me }
    ensures done { OnOk result ((mine_of seat.new.me) ≡ (change_part (got_part at) seat.old.me.0.view, seat.old.me.1)) }
    ensures err { OnErr result ((state.new.node ≡ state.old.node) × ((mine_of seat.new.me) ≡ (mine_of seat.old.me))) }
{
    let node = state.number();
    let got = state.get(at)?;
    touch::<F, X>(seat, fabric, node);
    Ok(got)
}

// A caller's close, as a step on the node's inbox. X is what it tells.
fn close_here<F: FabricName, X: Outcome>(
    state: &mut NodeState,
    seat: &mut TableSeat,
    fabric: &Fabric<F>,
    at: End,
) -> Result<u64, Refusal>
    requires picked { IsPicked X.tells (touched (close_part at)) }
    requires seated { IsSeated F.table state.old.node seat.old.table_id (mine_of seat.old.me) }
    ensures allowed { OnOk result (close_refusal state.old.node at ≡ None) }
    ensures number { IfOk result (λ n. n ≡ put_number state.old.node at) }
    ensures why { IfErr result (λ e. e ≡ unwrap_or (close_refusal state.old.node at) Refusal.OutOfMemory) }
    ensures full { close_refusal state.old.node at ≡ None → TakesMore state.old at → IsOk result }
    ensures seated { IsSeated F.table state.new.node seat.new.table_id (mine_of seat.new.me) }
    ensures slots { SlotsStay seat.old.me seat.new.me }
    ensures done { OnOk result ((mine_of seat.new.me) ≡ (change_part (close_part at) seat.old.me.0.view, seat.old.me.1)) }
    ensures err { OnErr result ((state.new.node ≡ state.old.node) × ((mine_of seat.new.me) ≡ (mine_of seat.old.me))) }
{
    let node = state.number();
    let n = state.close(at)?;
    touch::<F, X>(seat, fabric, node);
    Ok(n)
}

// An act that touches no word, as a step on the node's inbox, or on the let-go word of what it gives up. X is what it tells.
fn act_here<F: FabricName, X: Outcome>(
    state: &mut NodeState,
    seat: &mut TableSeat,
    fabric: &Fabric<F>,
    act: Act,
) -> Happened
    requires picked { IsPicked X.tells (touched (act_part act Answer.Plain)) }
    requires seated { IsSeated F.table state.old.node seat.old.table_id (mine_of seat.old.me) }
    requires touch { is_touch_act act ≡ true }
    requires possible { IsPossibleAct state.old.node act }
    requires serials { act_lacks_serials state.old.node act ≡ false }
    requires ready { IsReadyFor state.old act }
    requires none { HasNoSlots seat.old.me.0 }
    ensures event { result ≡ event_of state.old.node act Answer.Plain }
    ensures seated { IsSeated F.table state.new.node seat.new.table_id (mine_of seat.new.me) }
    ensures slots { SlotsStay seat.old.me seat.new.me }
    ensures done { (mine_of seat.new.me) ≡ (change_part (act_part act Answer.Plain) seat.old.me.0.view, seat.old.me.1) }
{
    let node = state.number();
    let given = given_up(state, fabric, act);
    let (event, _) = state.commit(act, Answer::Plain);
    act_step::<F, X>(seat, fabric, node, act, given);
    event
}

// An act of a router that touches no word, made ready and done, as such a step. X is what the step tells, and T says whether what happened
// is told.
fn plain_here<F: FabricName, X: Outcome, T: Told>(
    state: &mut NodeState,
    seat: &mut TableSeat,
    fabric: &Fabric<F>,
    serial: u64,
    act: RouterAct,
    given: GivenUp,
) -> Result<T, Refusal>
    requires given { GivesUp F.table.reuses state.old.node (Act.Router serial act) given }
    requires picked { IsPicked X.tells (touched (act_part (Act.Router serial act) Answer.Plain)) }
    requires seated { IsSeated F.table state.old.node seat.old.table_id (mine_of seat.old.me) }
    requires touch { is_wordless act ≡ true }
    requires possible { IsPossibleAct state.old.node (Act.Router serial act) }
    requires none { HasNoSlots seat.old.me.0 }
    ensures event { IfOk result (λ told. T.tells (event_of state.old.node (Act.Router serial act) Answer.Plain) told) }
    ensures why { IfErr result
        (λ e. e ≡ (if act_lacks_serials state.old.node (Act.Router serial act) then Refusal.NumbersEnd else Refusal.OutOfMemory)) }
    ensures grows { act_grows state.old.node (Act.Router serial act) ≡ false → IsOk result }
    ensures full { IsReadyFor state.old (Act.Router serial act) → IsOk result }
    ensures seated { IsSeated F.table state.new.node seat.new.table_id (mine_of seat.new.me) }
    ensures slots { SlotsStay seat.old.me seat.new.me }
    ensures done { OnOk result
        ((mine_of seat.new.me) ≡ (change_part (act_part (Act.Router serial act) Answer.Plain) seat.old.me.0.view, seat.old.me.1)) }
    ensures err { OnErr result ((state.new.node ≡ state.old.node) × ((mine_of seat.new.me) ≡ (mine_of seat.old.me))) }
{
    let node = state.number();
    let done = state.act_plainly(serial, act);
    if done.is_ok() {
        act_step::<F, X>(seat, fabric, node, Act::Router(serial, act), given);
    }
    done
}

impl<F: FabricName> NodeCell<F> {
    /// Puts a parcel at an end that callers of this node hold, and answers its number: how many were put there before. It has 0 to 65,536 bytes
    /// of any value, and 0 to 8 ends, which the callers don't hold any more. Its lists aren't copied.
    ///
    /// Refused as [`NodeCell::put_as`] of `Profile::Wide`, and so never `BadData`. A refused put changes nothing, and gives both lists back.
    ///
    /// At an end at which nothing was put yet, `cell.put_wide(fabric, at, bytes, ends)` is `Ok(0)`.
    pub fn put_wide(
        &mut self,
        fabric: &Fabric<F>,
        at: End,
        bytes: Bytes,
        ends: Ends,
    ) -> Result<u64, PutRefused>
        ensures allowed { OnOk result (put_refusal Profile.Wide self.old.part.state at bytes ends ≡ None) }
        ensures number { IfOk result (λ n. n ≡ put_number self.old.part.state at) }
        ensures ok { OnOk result (self.new.part ≡ put_part at bytes ends self.old.part) }
        ensures why { IfErr result (λ e. e.why ≡ unwrap_or (put_refusal Profile.Wide self.old.part.state at bytes ends) Refusal.OutOfMemory) }
        ensures full { put_refusal Profile.Wide self.old.part.state at bytes ends ≡ None → TakesMore (roomy self.old) at → IsOk result }
        ensures err { IfErr result (λ e. (e.bytes ≡ bytes) × (e.ends ≡ ends) × (self.new.part ≡ self.old.part)) }
        ensures seen { self.new.seen ≡ self.old.seen }
    {
        self.put_as(fabric, Profile::Wide, at, bytes, ends)
    }

    /// Puts a parcel as [`NodeCell::put_wide`] does, but a printed one, as scripts put: it has 0 to 256 bytes, each from 32 to 126.
    ///
    /// Refused as [`NodeCell::put_as`] of `Profile::Printed`, and so `TooMany` from 257 bytes on and `BadData` for any other byte. A refused
    /// put changes nothing, and gives both lists back.
    ///
    /// Of the byte 7, `cell.put(fabric, at, bytes, ends)` is refused `BadData`, where a `put_wide` takes it.
    pub fn put(
        &mut self,
        fabric: &Fabric<F>,
        at: End,
        bytes: Bytes,
        ends: Ends,
    ) -> Result<u64, PutRefused>
        ensures allowed { OnOk result (put_refusal Profile.Printed self.old.part.state at bytes ends ≡ None) }
        ensures number { IfOk result (λ n. n ≡ put_number self.old.part.state at) }
        ensures ok { OnOk result (self.new.part ≡ put_part at bytes ends self.old.part) }
        ensures why { IfErr result (λ e. e.why ≡ unwrap_or (put_refusal Profile.Printed self.old.part.state at bytes ends) Refusal.OutOfMemory) }
        ensures full { put_refusal Profile.Printed self.old.part.state at bytes ends ≡ None → TakesMore (roomy self.old) at → IsOk result }
        ensures err { IfErr result (λ e. (e.bytes ≡ bytes) × (e.ends ≡ ends) × (self.new.part ≡ self.old.part)) }
        ensures seen { self.new.seen ≡ self.old.seen }
    {
        self.put_as(fabric, Profile::Printed, at, bytes, ends)
    }

    /// Puts a parcel of a profile at an end that callers of this node hold, and answers its number.
    ///
    /// Refused by the first of these that holds: `Stranger` if the node's callers don't hold the end; `TooMany` if the parcel has more than 8
    /// ends, or more than 256 bytes, or, of `Profile::Wide`, more than 65,536; `BadData` if it is of `Profile::Printed` and a byte isn't from
    /// 32 to 126; `SelfAttach` if it carries the end at which it is put; `PeerAttach` if it carries the peer of that end; `Stranger` if it
    /// carries an end that the callers don't hold, or one twice; `PeerClosed` if the node has heard that the peer is closed; `NumbersEnd`
    /// if no number is left for a parcel at this end, after 2^64 - 3 of them; and `OutOfMemory` if the terminal's queue has no room for it
    /// and finds no memory to grow. A refused put changes nothing, and gives both lists back.
    ///
    /// At an end at which one parcel was put, `cell.put_as(fabric, Profile::Wide, at, bytes, ends)` is `Ok(1)`.
    pub fn put_as(
        &mut self,
        fabric: &Fabric<F>,
        profile: Profile,
        at: End,
        bytes: Bytes,
        ends: Ends,
    ) -> Result<u64, PutRefused>
        ensures allowed { OnOk result (put_refusal profile self.old.part.state at bytes ends ≡ None) }
        ensures number { IfOk result (λ n. n ≡ put_number self.old.part.state at) }
        ensures ok { OnOk result (self.new.part ≡ put_part at bytes ends self.old.part) }
        ensures why { IfErr result (λ e. e.why ≡ unwrap_or (put_refusal profile self.old.part.state at bytes ends) Refusal.OutOfMemory) }
        ensures full { put_refusal profile self.old.part.state at bytes ends ≡ None → TakesMore (roomy self.old) at → IsOk result }
        ensures err { IfErr result (λ e. (e.bytes ≡ bytes) × (e.ends ≡ ends) × (self.new.part ≡ self.old.part)) }
        ensures seen { self.new.seen ≡ self.old.seen }
    {
        put_here::<F, Brand>(
            &mut self.state,
            &mut self.seat,
            fabric,
            profile,
            at,
            bytes,
            ends,
        )
    }

    /// Takes the next parcel at an end that callers of this node hold, and gives its number and the parcel, whose ends the callers then hold. It
    /// takes no memory.
    ///
    /// Refused `Stranger` if the node's callers don't hold the end, `Empty` if the next parcel hasn't come, as it can't before the nodes have
    /// acted, and `PeerClosed` if the peer is closed and all that was put there was got. A refusal changes nothing.
    ///
    /// Where the first parcel has come, `cell.get(fabric, at)` is `Ok((0, parcel))`.
    pub fn get(&mut self, fabric: &Fabric<F>, at: End) -> Result<(u64, Parcel), Refusal>
        ensures allowed { OnOk result (get_refusal self.old.part.state at ≡ None) }
        ensures parcel { IfOk result (λ g. got_at self.old.part.state at ≡ Some g) }
        ensures ok { OnOk result (self.new.part ≡ got_part at self.old.part) }
        ensures why { IfErr result (λ e. get_refusal self.old.part.state at ≡ Some e) }
        ensures err { OnErr result (self.new.part ≡ self.old.part) }
        ensures seen { self.new.seen ≡ self.old.seen }
    {
        get_here::<F, Brand>(&mut self.state, &mut self.seat, fabric, at)
    }

    /// Closes an end that callers of this node hold for good, and answers how many parcels were put there. Its peer still gets those, and then
    /// `PeerClosed`.
    ///
    /// Refused `Stranger` if the node's callers don't hold the end, and `OutOfMemory` if the terminal's queue has no room for the mark that tells
    /// its peer and finds no memory to grow. A refusal changes nothing.
    ///
    /// At an end at which one parcel was put, `cell.close(fabric, at)` is `Ok(1)`.
    pub fn close(&mut self, fabric: &Fabric<F>, at: End) -> Result<u64, Refusal>
        ensures allowed { OnOk result (close_refusal self.old.part.state at ≡ None) }
        ensures number { IfOk result (λ n. n ≡ put_number self.old.part.state at) }
        ensures ok { OnOk result (self.new.part ≡ close_part at self.old.part) }
        ensures why { IfErr result (λ e. e ≡ unwrap_or (close_refusal self.old.part.state at) Refusal.OutOfMemory) }
        ensures full { close_refusal self.old.part.state at ≡ None → TakesMore (roomy self.old) at → IsOk result }
        ensures err { OnErr result (self.new.part ≡ self.old.part) }
        ensures seen { self.new.seen ≡ self.old.seen }
    {
        close_here::<F, Brand>(&mut self.state, &mut self.seat, fabric, at)
    }

    /// Makes all the room that an act wants, so that it can be done without a refusal.
    ///
    /// Refused `NumbersEnd` if the act would make more routers than there are serials left at the node, and `OutOfMemory` if there is no room for
    /// it and none is found. An act that makes nothing grow is never refused, nor is one that the node is ready for, as after a `prepare` of it.
    /// Nothing but room has changed either way.
    ///
    /// So `cell.prepare(&act)?` stands before `cell.touch_act(fabric, act)`, where `act` is what `cell.act(fabric)` gave.
    pub fn prepare(&mut self, act: &Act) -> Result<(), Refusal>
        ensures part { self.new.part ≡ self.old.part }
        ensures seen { self.new.seen ≡ self.old.seen }
        ensures ready { OnOk result (IsReadyFor (roomy self.new) act.now) }
        ensures allowed { OnOk result (act_lacks_serials self.old.part.state act.now ≡ false) }
        ensures why { IfErr result
            (λ e. e ≡ (if act_lacks_serials self.old.part.state act.now then Refusal.NumbersEnd else Refusal.OutOfMemory)) }
        ensures grows { act_grows self.old.part.state act.now ≡ false → IsOk result }
        ensures full { IsReadyFor (roomy self.old) act.now → IsOk result }
    {
        self.state.prepare(act)
    }

    /// Does a possible act that touches no word and no mailbox, for which `prepare` made room, and tells what it did. It takes no memory, and
    /// is never refused.
    ///
    /// So a close that is pending, `Act::Close(end)`, is done by `cell.touch_act(fabric, act)`.
    pub fn touch_act(&mut self, fabric: &Fabric<F>, act: Act) -> Happened
        requires touch { is_touch_act act ≡ true }
        requires possible { IsPossibleAct self.old.part.state act }
        requires serials { act_lacks_serials self.old.part.state act ≡ false }
        requires ready { IsReadyFor (roomy self.old) act }
        ensures event { result ≡ event_of self.old.part.state act Answer.Plain }
        ensures part { self.new.part ≡ act_part act Answer.Plain self.old.part }
        ensures seen { self.new.seen ≡ self.old.seen }
    {
        act_here::<F, Brand>(&mut self.state, &mut self.seat, fabric, act)
    }

    // Makes room for a possible act of a router that touches no word, and does it. T says whether what happened is told.
    pub(crate) fn act_plainly<T: Told>(
        &mut self,
        fabric: &Fabric<F>,
        serial: u64,
        act: RouterAct,
    ) -> Result<T, Refusal>
        requires touch { is_wordless act ≡ true }
        requires possible { IsPossibleAct self.old.part.state (Act.Router serial act) }
        ensures event { IfOk result (λ told. T.tells (event_of self.old.part.state (Act.Router serial act) Answer.Plain) told) }
        ensures ok { OnOk result (self.new.part ≡ act_part (Act.Router serial act) Answer.Plain self.old.part) }
        ensures why { IfErr result
            (λ e. e ≡ (if act_lacks_serials self.old.part.state (Act.Router serial act) then Refusal.NumbersEnd else Refusal.OutOfMemory)) }
        ensures grows { act_grows self.old.part.state (Act.Router serial act) ≡ false → IsOk result }
        ensures full { IsReadyFor (roomy self.old) (Act.Router serial act) → IsOk result }
        ensures err { OnErr result (self.new.part ≡ self.old.part) }
        ensures seen { self.new.seen ≡ self.old.seen }
    {
        let given = given_up(&self.state, fabric, Act::Router(serial, act));
        self.act_giving(fabric, serial, act, given)
    }

    // The same, where it is known what the act gives up.
    #[inline(always)]
    pub(crate) fn act_giving<T: Told>(
        &mut self,
        fabric: &Fabric<F>,
        serial: u64,
        act: RouterAct,
        given: GivenUp,
    ) -> Result<T, Refusal>
        requires given { GivesUp F.table.reuses self.old.part.state (Act.Router serial act) given }
        requires touch { is_wordless act ≡ true }
        requires possible { IsPossibleAct self.old.part.state (Act.Router serial act) }
        ensures event { IfOk result (λ told. T.tells (event_of self.old.part.state (Act.Router serial act) Answer.Plain) told) }
        ensures ok { OnOk result (self.new.part ≡ act_part (Act.Router serial act) Answer.Plain self.old.part) }
        ensures why { IfErr result
            (λ e. e ≡ (if act_lacks_serials self.old.part.state (Act.Router serial act) then Refusal.NumbersEnd else Refusal.OutOfMemory)) }
        ensures grows { act_grows self.old.part.state (Act.Router serial act) ≡ false → IsOk result }
        ensures full { IsReadyFor (roomy self.old) (Act.Router serial act) → IsOk result }
        ensures err { OnErr result (self.new.part ≡ self.old.part) }
        ensures seen { self.new.seen ≡ self.old.seen }
    {
        plain_here::<F, Brand, T>(&mut self.state, &mut self.seat, fabric, serial, act, given)
    }
}
