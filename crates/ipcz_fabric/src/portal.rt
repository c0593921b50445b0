//! Portals: ends that callers own. A portal can't be copied, and travels in parcels.
ghost use Rattle.std.specs.Prelude.{◌≡◌, ◌≤◌, ◌<◌, ◌+◌, ◌++◌, None, Ok, Err, MatchResult, All, OnOk, OnErr, IfOk, IfErr, IsOk, false, length, take, unwrap_or, vec_len, vec_capacity};
ghost use Rattle.ipcz_node.specs.Calls.{put_refusal, put_number, close_refusal};
ghost use Rattle.ipcz_node.specs.RoomyNodes.{TakesMore};
ghost use Rattle.ipcz_rule.specs.declared.history.Call.TheVariants as calls;
ghost use Rattle.ipcz_rule.specs.Steps.{put_part, close_part};
ghost use Rattle.ipcz_cell.specs.CellStates.{roomy};
ghost use Rattle.ipcz_fabric.specs.Places.{IsRefusedInOrder};
ghost use Rattle.ipcz_fabric.specs.Portals.{ends_of, portals_at, parcel_refusal, wants_list};
ghost use Rattle.ipcz_fabric.specs.Portals.{IsPut, IsPutRefusal, IsRefusedPut, IsGot, IsGotHere, IsGetRefusal, IsRefusedGetHere, IsRefusedGet};
ghost use Rattle.ipcz_fabric.specs.Stopping.{IsMissed, IsMissing};
ghost use Rattle.ipcz_fabric.specs.Portals.{HasArrivedOrNot, IsSeen};
ghost use Rattle.ipcz_fabric.specs.Portals.{IsClosed, IsCloseRefusal, IsRefusedClose};
ghost use Rattle.ipcz_fabric.specs.Replays.{Extends, GetsParcel, LeavesParcel, LeavesPart};

use crate::desk::Desk;
use crate::hub::Hub;
use crate::missed::Missed;
use crate::portals::Arrival;
use ipcz_base::{Bytes, End, Ends, Parcel, PortalStatus, Profile, Refusal};
use ipcz_cell::{CallerSeat, FabricName, NodeCell};
use std::alloc::{AllocError, Global};
use std::marker::{Model, PhantomData};
use std::sync::Wait;
use std::time::{Clock, Duration};

// How many portals a parcel can have: no put takes more.
pub(crate) const MOST_PORTALS: usize = 8;

/// An end that callers of a node hold, of the table that F names. It isn't `Clone`: what has the portal has the end.
///
/// One that is dropped unclosed leaves its end open: nobody can put or get there any more, and its peer isn't told, so that a
/// `get_timeout` there sleeps until its time is over. Give it to `close` if it isn't needed any more.
#[derive(Drop)]
pub struct Portal<F: FabricName> {
    node: u8,
    end: End,
    of: PhantomData<F>,
}

impl<F: FabricName> Model for Portal<F> {
    ghost use Rattle.std.specs.Prelude.{◌<◌};
    ghost use Rattle.std.specs.Coded.{codes};
    ghost use Rattle.ipcz_fabric.specs.Portals.{PortalValue};

    ghost Value = { PortalValue };

    ghost coded = { Prim.hlevel codes };

    ghost view = { λ p. record { node = p.node; end = p.end } };

    ghost invariant = { λ p. p.node < F.table.count };
}

/// What a get at a portal gives: a parcel, with its number. Its ends are portals of the node where it was got.
#[derive(Drop)]
pub struct Got<F: FabricName> {
    pub n: u64,
    pub bytes: Bytes,
    pub portals: Vec<Portal<F>>,
}

/// A put at a portal that was refused: why, and what was to be put.
#[derive(Drop)]
pub struct PortalPutRefused<F: FabricName> {
    pub why: Refusal,
    pub bytes: Bytes,
    pub portals: Vec<Portal<F>>,
}

// The ends of these portals.
fn ends_of<F: FabricName>(alloc: Global, portals: &[Portal<F>]) -> Result<Ends, AllocError>
    ensures ends { IfOk result (λ ends. ends ≡ ends_of portals.now) }
    ensures none { length portals.now ≡ 0 → IsOk result }
{
    let mut ends = Vec::with_capacity(alloc, portals.len())?;
    for portal in portals {
        ends.push(portal.end)?;
    }
    Ok(Ends::from_vec(ends))
}

// Adds the portals of these ends at a node, but no more than are left to add.
pub(crate) fn add_portals<F: FabricName>(
    node: u8,
    ends: &[End],
    left: usize,
    portals: &mut Vec<Portal<F>>,
)
    requires node { node < F.table.count }
    requires room { vec_len portals.old + left ≤ vec_capacity portals.old }
    ensures { portals.new.items ≡ portals.old.items ++ portals_at node (take left ends.now) }
{
    if left == 0 {
        return;
    }
    if let [end, rest @ ..] = ends {
        portals.push_reserved(Portal::new(node, *end));
        add_portals(node, rest, left - 1, portals);
    }
}

// A parcel that was got at a node: its ends are portals in this room.
fn with_portals<F: FabricName>(node: u8, n: u64, parcel: Parcel, room: Vec<Portal<F>>) -> Got<F>
    requires node { node < F.table.count }
    requires room { length parcel.ends ≤ vec_capacity room }
    requires empty { vec_len room ≡ 0 }
    ensures number { result.n ≡ n }
    ensures bytes { result.bytes ≡ parcel.bytes }
    ensures portals { result.portals.items ≡ portals_at node (take 8 parcel.ends) }
{
    let mut portals = room;
    let ends = parcel.ends.as_slice();
    let count = ends.len();
    let most = if count < MOST_PORTALS {
        count
    } else {
        MOST_PORTALS
    };
    add_portals(node, ends, most, &mut portals);
    Got {
        n,
        bytes: parcel.bytes,
        portals,
    }
}

impl<F: FabricName> Portal<F> {
    // The portal of an end that callers of a node hold.
    pub(crate) fn new(node: u8, end: End) -> Portal<F>
        requires { node < F.table.count }
        ensures { result ≡ record { node = node; end = end } }
    {
        Portal {
            node,
            end,
            of: PhantomData,
        }
    }

    /// The number of the node whose callers hold the end. It is below the number of nodes, and is never refused.
    ///
    /// Of the first portal that `Hub::new` gives, `portal.node()` is 0.
    pub fn node(&self) -> u8
        ensures { result ≡ self.now.node }
    {
        self.node
    }

    /// The end: its pair and its side, a name that may be copied and compared. It is never refused.
    ///
    /// Of the first portal that `Hub::new` gives of two nodes, `portal.end()` is side A of pair 0.
    pub fn end(&self) -> End
        ensures { result ≡ self.now.end }
    {
        self.end
    }

    // Puts a parcel at the end, whose node's cell this is. Room for the list of ends is taken first.
    pub(crate) fn put_here(
        &self,
        cell: &mut NodeCell<F>,
        hub: &Hub<F>,
        profile: Profile,
        bytes: Bytes,
        portals: Vec<Portal<F>>,
    ) -> Result<u64, PortalPutRefused<F>>
        ensures allowed { OnOk result (put_refusal profile cell.old.part.state self.now.end bytes (ends_of portals.items) ≡ None) }
        ensures number { IfOk result (λ n. n ≡ put_number cell.old.part.state self.now.end) }
        ensures ok { OnOk result (cell.new.part ≡ put_part self.now.end bytes (ends_of portals.items) cell.old.part) }
        ensures why { IfErr result
            (λ e. IsRefusedInOrder (wants_list (ends_of portals.items))
            (put_refusal profile cell.old.part.state self.now.end bytes (ends_of portals.items)) e.why) }
        ensures full { wants_list (ends_of portals.items) ≡ false →
            put_refusal profile cell.old.part.state self.now.end bytes (ends_of portals.items) ≡ None → TakesMore (roomy cell.old) self.now.end → IsOk result }
        ensures back { IfErr result (λ e. (e.bytes ≡ bytes) × (e.portals.items ≡ portals.items)) }
        ensures err { OnErr result (cell.new.part ≡ cell.old.part) }
        ensures seen { cell.new.seen ≡ cell.old.seen }
    {
        let Ok(ends) = ends_of(hub.allocator(), portals.as_slice()) else {
            return Err(PortalPutRefused {
                why: Refusal::OutOfMemory,
                bytes,
                portals,
            });
        };
        let end = self.end;
        let put = cell.put_as(hub.fabric(), profile, end, bytes, ends);
        match put {
            Ok(n) => Ok(n),
            Err(refused) => Err(PortalPutRefused {
                why: refused.why,
                bytes: refused.bytes,
                portals,
            }),
        }
    }

    // The node, which is one of the table's.
    pub(crate) fn place(&self) -> u8
        ensures node { result ≡ self.now.node }
        ensures inside { result < F.table.count }
    {
        let place = self.node;
        place
    }

    // Takes the next parcel at the end, whose node's desk this is. Room for its portals is taken first, if it has some.
    pub(crate) fn get_here(
        &self,
        desk: &mut Desk<F>,
        hub: &Hub<F>,
        me: &mut CallerSeat<F>,
    ) -> Result<Got<F>, Refusal>
        ensures got { IfOk result (λ g. IsGotHere desk.old self.now.node self.now.end g.n g.bytes g.portals.items) }
        ensures why { IfErr result (IsRefusedGetHere desk.old self.now.end) }
        ensures left { MatchResult result
            (λ g. LeavesParcel self.now.node self.now.end g.n g.bytes g.portals.items me.old.id desk.old desk.new)
            (λ why. LeavesPart me.old.id (calls.Got self.now.end (Err why)) desk.old.part desk.old desk.new) }
        ensures extends { MatchResult result
            (λ g. GetsParcel F.table desk.old.part.node self.now.node self.now.end g.n g.bytes g.portals.items me.old me.new)
            (λ why. Extends F.table desk.old.part.node (calls.Got self.now.end (Err why)) me.old me.new) }
    {
        let count = match desk.next_sizes(self.end) {
            Some(sizes) => sizes.ends,
            None => 0,
        };
        let Ok(room) = Vec::with_capacity(hub.allocator(), count) else {
            desk.refuse_get(hub.fabric(), me, self.end);
            return Err(Refusal::OutOfMemory);
        };
        let (n, parcel) = desk.get(hub.fabric(), me, self.end)?;
        Ok(with_portals(self.node, n, parcel, room))
    }

    // Closes the end, whose node's desk this is.
    pub(crate) fn close_here(
        self,
        desk: &mut Desk<F>,
        hub: &Hub<F>,
        me: &mut CallerSeat<F>,
    ) -> Result<u64, (Refusal, Portal<F>)>
        ensures allowed { OnOk result (close_refusal desk.old.part.state self.end ≡ None) }
        ensures number { IfOk result (λ n. n ≡ put_number desk.old.part.state self.end) }
        ensures why { IfErr result (λ e. e.0 ≡ unwrap_or (close_refusal desk.old.part.state self.end) Refusal.OutOfMemory) }
        ensures full { close_refusal desk.old.part.state self.end ≡ None → TakesMore (roomy desk.old) self.end → IsOk result }
        ensures back { IfErr result (λ e. e.1 ≡ self) }
        ensures left { MatchResult result
            (λ n. LeavesPart me.old.id (calls.Closed self.end (Ok n)) (close_part self.end desk.old.part) desk.old desk.new)
            (λ e. LeavesPart me.old.id (calls.Closed self.end (Err e.0)) desk.old.part desk.old desk.new) }
        ensures extends { MatchResult result
            (λ n. Extends F.table desk.old.part.node (calls.Closed self.end (Ok n)) me.old me.new)
            (λ e. Extends F.table desk.old.part.node (calls.Closed self.end (Err e.0)) me.old me.new) }
    {
        match desk.close(hub.fabric(), me, self.end) {
            Ok(number) => Ok(number),
            Err(why) => Err((why, self)),
        }
    }

    /// Puts a parcel, under the lock of the portal's node, and answers its number: how many were put at this portal before. It has 0 to 65,536
    /// bytes of any value, and 0 to 8 portals, which are used up.
    ///
    /// Refused as [`Portal::put_as`] of `Profile::Wide`, and so never `BadData`. A refused put gives bytes and portals back.
    ///
    /// At a portal at which nothing was put yet, `portal.put_wide(rt, hub, bytes, portals)` is `Ok(0)`.
    pub fn put_wide<R: Wait>(
        &self,
        rt: &R,
        hub: &Hub<F>,
        bytes: Bytes,
        portals: Vec<Portal<F>>,
    ) -> Result<u64, PortalPutRefused<F>>
        ensures number { IfOk result (IsPut Profile.Wide F.table self.now.node self.now.end bytes (ends_of portals.items)) }
        ensures fits { OnOk result (parcel_refusal Profile.Wide self.now.end bytes (ends_of portals.items) ≡ None) }
        ensures why { IfErr result (λ e. IsPutRefusal Profile.Wide self.now.end bytes (ends_of portals.items) e.why) }
        ensures refused { IfErr result
            (λ e. IsRefusedPut Profile.Wide F.table self.now.node self.now.end bytes (ends_of portals.items) e.why) }
        ensures back { IfErr result (λ e. (e.bytes ≡ bytes) × (e.portals.items ≡ portals.items)) }
    {
        self.put_as(rt, hub, Profile::Wide, bytes, portals)
    }

    /// Puts a parcel as [`Portal::put_wide`] does, but a printed one, as scripts put: it has 0 to 256 bytes, each from 32 to 126.
    ///
    /// Refused as [`Portal::put_as`] of `Profile::Printed`, and so `TooMany` from 257 bytes on and `BadData` for any other byte. A refused put
    /// gives bytes and portals back.
    ///
    /// Of the byte 7, `portal.put(rt, hub, bytes, portals)` is refused `BadData`, where a `put_wide` takes it.
    pub fn put<R: Wait>(
        &self,
        rt: &R,
        hub: &Hub<F>,
        bytes: Bytes,
        portals: Vec<Portal<F>>,
    ) -> Result<u64, PortalPutRefused<F>>
        ensures number { IfOk result (IsPut Profile.Printed F.table self.now.node self.now.end bytes (ends_of portals.items)) }
        ensures fits { OnOk result (parcel_refusal Profile.Printed self.now.end bytes (ends_of portals.items) ≡ None) }
        ensures why { IfErr result (λ e. IsPutRefusal Profile.Printed self.now.end bytes (ends_of portals.items) e.why) }
        ensures refused { IfErr result
            (λ e. IsRefusedPut Profile.Printed F.table self.now.node self.now.end bytes (ends_of portals.items) e.why) }
        ensures back { IfErr result (λ e. (e.bytes ≡ bytes) × (e.portals.items ≡ portals.items)) }
    {
        self.put_as(rt, hub, Profile::Printed, bytes, portals)
    }

    /// Puts a parcel of a profile, under the lock of the portal's node, and answers its number: its bytes, and portals, which are used up. What
    /// else holds of it is what `NodeCell::put_as` says, of the cell as the call found it.
    ///
    /// Refused by the first of these that holds: `OutOfMemory` if the list of its portals' ends finds no memory; `Stranger` if the node's callers
    /// don't hold this portal's end; `TooMany` if the parcel has more than 8 portals, or more than 256 bytes, or, of `Profile::Wide`, more
    /// than 65,536; `BadData` if it is of `Profile::Printed` and a byte isn't from 32 to 126; `SelfAttach` if it carries a portal of this
    /// portal's end; `PeerAttach` if it carries the peer of this portal; `Stranger` if it carries a portal whose end the node's callers don't
    /// hold, as one of another node, or one end twice; `PeerClosed` if the node has heard that the peer is closed; `NumbersEnd` if no
    /// number is left for a parcel at this portal, after 2^64 - 3 of them; and `OutOfMemory` if the queue has to grow and finds no
    /// memory. A refused put gives bytes and portals back.
    ///
    /// At a portal at which one parcel was put, `portal.put_as(rt, hub, Profile::Wide, bytes, portals)` is `Ok(1)`.
    pub fn put_as<R: Wait>(
        &self,
        rt: &R,
        hub: &Hub<F>,
        profile: Profile,
        bytes: Bytes,
        portals: Vec<Portal<F>>,
    ) -> Result<u64, PortalPutRefused<F>>
        ensures number { IfOk result (IsPut profile F.table self.now.node self.now.end bytes (ends_of portals.items)) }
        ensures fits { OnOk result (parcel_refusal profile self.now.end bytes (ends_of portals.items) ≡ None) }
        ensures why { IfErr result (λ e. IsPutRefusal profile self.now.end bytes (ends_of portals.items) e.why) }
        ensures refused { IfErr result
            (λ e. IsRefusedPut profile F.table self.now.node self.now.end bytes (ends_of portals.items) e.why) }
        ensures back { IfErr result (λ e. (e.bytes ≡ bytes) × (e.portals.items ≡ portals.items)) }
    {
        hub.caller().put_as(rt, hub, self, profile, bytes, portals)
    }

    /// What gets at this portal would answer, one after the other, under the lock of the portal's node: the number and the sizes of the next
    /// parcel, how many parcels wait, and whether the peer has closed behind them. None if the node's callers don't hold the portal's end,
    /// where a get would be refused `Stranger`. Nothing is taken, and it is no call in the node's history. It is never refused, and takes no
    /// memory. It looks at each parcel that waits.
    ///
    /// Where two parcels of five bytes have come and been left there, `portal.look(rt, &hub)` is
    /// `Some(PortalStatus { next: 0, sizes: Some(Sizes { bytes: 5, ends: 0 }), waiting: 2, peer_closed: false })`.
    pub fn look<R: Wait>(&self, rt: &R, hub: &Hub<F>) -> Option<PortalStatus>
        ensures { IsSeen F.table self.now.node self.now.end result }
    {
        let desk = hub.lock(rt, self.place());
        desk.look(self.end)
    }

    /// Whether this portal has arrived where it is held, under the lock of the portal's node, so that it leaves at most one proxy in its route
    /// if it travels on now: what `World::has_arrived` says, of this node. None if the node's callers don't hold the portal's end. It is no call
    /// in the node's history, is never refused, and takes no memory.
    ///
    /// A portal of a pair that was opened here has arrived at once. Where one has just come from another node, `portal.has_arrived(rt, &hub)` is
    /// `Some(false)`, and `Some(true)` once the nodes that it came by have bypassed its proxies.
    pub fn has_arrived<R: Wait>(&self, rt: &R, hub: &Hub<F>) -> Option<bool>
        ensures { HasArrivedOrNot F.table self.now.node self.now.end result }
    {
        let desk = hub.lock(rt, self.place());
        desk.has_arrived(self.end)
    }

    /// Takes the next parcel, under the lock of the portal's node. What else holds of it is what `NodeCell::get` says, of the cell as the
    /// call found it.
    ///
    /// If the parcel has portals room for them is taken first, so that no parcel is lost: `OutOfMemory` is answered only if there is none for
    /// them. Else it is refused `Stranger` if the node's callers don't hold the portal's end, `Empty` if the next parcel hasn't come, and
    /// `PeerClosed` if the peer is closed and all that was put there was got; such a get takes no memory.
    ///
    /// Where the first parcel has come, `portal.get(rt, hub)` is `Ok(got)`, and `got.n` is 0.
    pub fn get<R: Wait>(&self, rt: &R, hub: &Hub<F>) -> Result<Got<F>, Refusal>
        ensures got { IfOk result (λ g. IsGot F.table self.now.node self.now.end g.n g.bytes g.portals.items) }
        ensures here { IfOk result (λ g. All (λ p. p.node ≡ self.now.node) g.portals.items) }
        ensures few { IfOk result (λ g. vec_len g.portals ≤ 8) }
        ensures why { IfErr result IsGetRefusal }
        ensures refused { IfErr result (IsRefusedGet F.table self.now.node self.now.end) }
    {
        hub.caller().get(rt, hub, self)
    }

    /// Takes the next parcel, as `get`, and sleeps while there is none, for no longer than `limit` in all; `Duration::MAX` is without end.
    /// Workers have to take the turns of the nodes meanwhile.
    ///
    /// It takes no memory, and is never refused `OutOfMemory`: its portals are made as they are taken out. [`Missed::Refused`] with `Stranger` if the
    /// node's callers don't hold the portal's end, `PeerClosed` if the peer is closed and all that was put there was got, and `Empty` if a last
    /// try, at the end of its time, has found no parcel. A clock that can't be read ends the wait. [`Missed::Stopped`] if nothing has come and the
    /// last turn of the node was refused `OutOfMemory` or `NumbersEnd`: workers of the node end then, so that nobody serves it until somebody takes
    /// its turns again, and the wait ends at once. Of other nodes, from which the parcel is to come, it isn't told.
    ///
    /// So `portal.get_timeout(rt, hub, Duration::from_secs(1))` waits for a second at most.
    pub fn get_timeout<R: Wait + Clock>(
        &self,
        rt: &R,
        hub: &Hub<F>,
        limit: Duration,
    ) -> Result<Arrival<F>, Missed>
        ensures got { IfOk result (λ a. IsGot F.table self.now.node self.now.end a.n a.bytes a.portals) }
        ensures here { IfOk result (λ a. All (λ p. p.node ≡ self.now.node) a.portals) }
        ensures few { IfOk result (λ a. length a.portals ≤ 8) }
        ensures why { IfErr result IsMissing }
        ensures refused { IfErr result (IsMissed F.table self.now.node self.now.end) }
    {
        hub.caller().get_timeout(rt, hub, self, limit)
    }

    /// Closes the end, under the lock of the portal's node, and answers the number of the mark that its peer is to get.
    ///
    /// Refused `Stranger` if callers of the node don't hold the end any more, and `OutOfMemory` if the queue has to grow and finds no memory. A
    /// refused close gives the portal back.
    ///
    /// At a portal at which one parcel was put, `portal.close(rt, hub)` is `Ok(1)`.
    pub fn close<R: Wait>(self, rt: &R, hub: &Hub<F>) -> Result<u64, (Refusal, Portal<F>)>
        ensures number { IfOk result (IsClosed F.table self.node self.end) }
        ensures back { IfErr result (λ e. e.1 ≡ self) }
        ensures why { IfErr result (λ e. IsCloseRefusal e.0) }
        ensures refused { IfErr result (λ e. IsRefusedClose F.table self.node self.end e.0) }
    {
        hub.caller().close(rt, hub, self)
    }
}
