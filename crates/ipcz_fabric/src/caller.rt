//! Callers: each knows what its calls were answered, and the beginnings of the nodes' histories in which they stand.
ghost use Rattle.std.specs.Prelude.{◌≡◌, ◌<◌, ◌≤◌, ℕ, None, Ok, Err, MatchResult, All, IfOk, IfErr, OnOk, length, vec_len};
ghost use Rattle.ipcz_rule.specs.declared.history.Call.TheVariants as calls;
ghost use Rattle.ipcz_fabric.specs.Places.{IsCellOf};
ghost use Rattle.ipcz_fabric.specs.Hubs.{AreTurnAnswers, ArePair, ExtendsByOpen, ExtendsByRetry, ExtendsByTurn, IsAskingAnswer, IsOpenAnswer, IsOpenRefusal, IsRetryAnswer};
ghost use Rattle.ipcz_fabric.specs.Hubs.{IsTurnAnswer, IsTurnRefusal, LeavesOpened};
ghost use Rattle.ipcz_fabric.specs.Portals.{ends_of, parcel_refusal};
ghost use Rattle.ipcz_fabric.specs.Portals.{IsPut, IsPutRefusal, IsRefusedPut, IsGot, IsGetRefusal, IsRefusedGet};
ghost use Rattle.ipcz_fabric.specs.Portals.{IsTaken, IsClosed, IsCloseRefusal, IsRefusedClose};
ghost use Rattle.ipcz_fabric.specs.Replays.{Extends, ExtendsInTurn, GetsParcel};
ghost use Rattle.ipcz_fabric.specs.Selecting.{WaitsForParcel, tries};
ghost use Rattle.ipcz_fabric.specs.Stopping.{IsMissed, IsMissing, TellsStop, answer_of, refusal_of, stop_in};
ghost use Rattle.ipcz_rule.specs.Histories.{at_node};

use crate::deadline::{Deadline, Patience};
use crate::desk::Desk;
use crate::hub::{Hub, turn_asking_here};
use crate::missed::{Missed, is_empty, stop_of};
use crate::portal::{Got, Portal, PortalPutRefused};
use crate::portals::{Arrival, arrival_of};
use crate::rest::{Rest, sleep_at};
use ipcz_base::{Bytes, Parcel, Profile, Refusal};
use ipcz_cell::{CallerSeat, Fabric, FabricName, Retry};
use ipcz_node::Happened;
use std::marker::Model;
use std::sync::Wait;
use std::time::{Clock, Duration};

/// Who calls the nodes of a hub, as a thread of its own. To a contract it is the beginning of all calls that it has seen, and its own calls, in the
/// order in which it made them.
///
/// The clause `extends` of each method says: the call stands at the end of what the caller has seen then, and all that it had seen before stands
/// before it; of the caller's own calls just those stand there that it made, each once and in order; and if those at the call's node are done one
/// after the other, from the state in which the node came behind its lock, each is answered as it was. So all callers of a node speak of one order of
/// its calls. It takes no memory.
#[derive(Drop)]
pub struct Caller<F: FabricName> {
    seat: CallerSeat<F>,
}

impl<F: FabricName> Model for Caller<F> {
    ghost use Rattle.std.specs.FinMap.{code};
    ghost use Rattle.std.specs.FinSet as sets;
    ghost use Rattle.std.specs.Coded.{codes};
    ghost use Rattle.ipcz_rule.specs.declared.history.CallerView.{CallerView};

    ghost Value = { CallerView };

    ghost coded = { Prim.hlevel (codes, code, sets.code) };

    ghost view = { λ c. c.seat };
}

// Opens a pair at a desk's node, and gives its portals, of side A and of side B.
fn open_here<F: FabricName>(
    desk: &mut Desk<F>,
    fabric: &Fabric<F>,
    me: &mut CallerSeat<F>,
    node: u8,
) -> Result<(Portal<F>, Portal<F>), Refusal>
    requires { IsCellOf F.table node desk.old }
    ensures opens { LeavesOpened F.table node me.old.id desk.old result desk.new }
    ensures extends { ExtendsByOpen F.table node result me.old me.new }
{
    match desk.open_pair(fabric, me) {
        Ok((a, b)) => Ok((Portal::new(node, a), Portal::new(node, b))),
        Err(why) => Err(why),
    }
}

// Wakes all that sleep for a node whose turn was refused so that it is stopped: they are told.
fn wake_if_stopped<A, F: FabricName>(hub: &Hub<F>, node: u8, answer: &Result<A, Refusal>) {
    if stop_of(answer).is_some() {
        hub.notify_all(node);
    }
}

impl<F: FabricName> Caller<F> {
    // The caller of a seat.
    pub(crate) fn new(seat: CallerSeat<F>) -> Caller<F>
        ensures { result ≡ seat }
    {
        Caller { seat }
    }

    /// Opens a pair at a node, as [`Hub::open_pair`].
    ///
    /// Refused as that, and then it is a call all the same; but at a node that isn't there it is none, and the caller stays as it was.
    ///
    /// So `let (a, b) = me.open_pair(rt, &hub, 0)?;` gives two portals of node 0, each other's peers.
    pub fn open_pair<R: Wait>(
        &mut self,
        rt: &R,
        hub: &Hub<F>,
        node: u8,
    ) -> Result<(Portal<F>, Portal<F>), Refusal>
        ensures here { IfOk result (λ p. (p.0.node ≡ node) × (p.1.node ≡ node)) }
        ensures pair { IfOk result (ArePair F.table.size node) }
        ensures stranger { F.table.count ≤ node → result ≡ Err Refusal.Stranger }
        ensures why { node < F.table.count → IfErr result IsOpenRefusal }
        ensures answer { node < F.table.count → IsOpenAnswer F.table node result }
        ensures extends { node < F.table.count → ExtendsByOpen F.table node result self.old self.new }
        ensures none { F.table.count ≤ node → self.new ≡ self.old }
    {
        if node >= hub.nodes() {
            return Err(Refusal::Stranger);
        }
        open_here(&mut hub.lock(rt, node), hub.fabric(), &mut self.seat, node)
    }

    /// Takes one turn of a node, as [`Hub::turn`].
    ///
    /// Refused as that, and then it is a call all the same; but at a node that isn't there it is none, and the caller stays as it was.
    ///
    /// Where nothing waits, `me.turn(rt, &hub, 0)` is `Ok(Happened::Idle)`.
    pub fn turn<R: Wait>(&mut self, rt: &R, hub: &Hub<F>, node: u8) -> Result<Happened, Refusal>
        ensures stranger { F.table.count ≤ node → result ≡ Err Refusal.Stranger }
        ensures why { node < F.table.count → IfErr result IsTurnRefusal }
        ensures answer { node < F.table.count → IsTurnAnswer F.table node result }
        ensures extends { node < F.table.count → Extends F.table node (calls.Turned result) self.old self.new }
        ensures none { F.table.count ≤ node → self.new ≡ self.old }
    {
        if node < hub.nodes() {
            let answer = hub.lock(rt, node).turn(hub, &mut self.seat);
            wake_if_stopped(hub, node, &answer);
            return answer;
        }
        Err(Refusal::Stranger)
    }

    /// Takes turns of a node one after the other, under one hold of its lock, as [`Hub::acts`]. They are one call.
    ///
    /// Refused as that, and then it is a call all the same; but at a node that isn't there it is none, and the caller stays as it was.
    ///
    /// Where nothing waits, `me.acts(rt, &hub, 0, 100)` is `Ok(0)`.
    pub fn acts<R: Wait>(
        &mut self,
        rt: &R,
        hub: &Hub<F>,
        node: u8,
        limit: u64,
    ) -> Result<u64, Refusal>
        ensures stranger { F.table.count ≤ node → result ≡ Err Refusal.Stranger }
        ensures few { IfOk result (λ n. n ≤ limit) }
        ensures why { node < F.table.count → IfErr result IsTurnRefusal }
        ensures answer { node < F.table.count → AreTurnAnswers F.table node limit result }
        ensures extends { node < F.table.count → Extends F.table node (calls.Acted limit result) self.old self.new }
        ensures none { F.table.count ≤ node → self.new ≡ self.old }
    {
        if node >= hub.nodes() {
            return Err(Refusal::Stranger);
        }
        let answer = hub.lock(rt, node).acts(hub, &mut self.seat, limit);
        wake_if_stopped(hub, node, &answer);
        answer
    }

    /// Lets a proxy of a node ask again for the slot of its bypass, as [`Hub::retry`].
    ///
    /// Refused `Stranger` if there is no node of that number, and then the caller stays as it was.
    ///
    /// Where no router of node 0 was told that there is no slot, `me.retry(rt, &hub, 0)` is `Ok(Retry::NoneWaits)`.
    pub fn retry<R: Wait>(&mut self, rt: &R, hub: &Hub<F>, node: u8) -> Result<Retry, Refusal>
        ensures stranger { F.table.count ≤ node → result ≡ Err Refusal.Stranger }
        ensures answer { node < F.table.count → IsRetryAnswer F.table node result }
        ensures extends { node < F.table.count → ExtendsByRetry F.table node result self.old self.new }
        ensures none { F.table.count ≤ node → self.new ≡ self.old }
    {
        if node >= hub.nodes() {
            return Err(Refusal::Stranger);
        }
        Ok(hub.lock(rt, node).retry(hub.fabric(), &mut self.seat))
    }

    // Takes one turn of a node, as `turn`; behind an idle one a proxy that waits for a slot asks again, as `retry`, under the same hold of the lock.
    // Whether one does.
    pub(crate) fn turn_asking<R: Wait>(
        &mut self,
        rt: &R,
        hub: &Hub<F>,
        node: u8,
    ) -> (Result<Happened, Refusal>, bool)
        ensures stranger { F.table.count ≤ node → result.0 ≡ Err Refusal.Stranger }
        ensures answer { node < F.table.count → IsTurnAnswer F.table node result.0 }
        ensures asking { node < F.table.count → IsAskingAnswer F.table node result.0 result.1 }
        ensures extends { node < F.table.count → ExtendsByTurn F.table node result.0 self.old self.new }
        ensures none { F.table.count ≤ node → self.new ≡ self.old }
    {
        if node >= hub.nodes() {
            return (Err(Refusal::Stranger), false);
        }
        let (answer, asks_again) = turn_asking_here(&mut hub.lock(rt, node), hub, &mut self.seat);
        wake_if_stopped(hub, node, &answer);
        (answer, asks_again)
    }

    /// Puts a parcel of a profile at a portal, as [`Portal::put_as`].
    ///
    /// Refused as that, and then it is a call all the same. A refused put gives bytes and portals back.
    ///
    /// At a portal at which one parcel was put, `me.put_as(rt, &hub, &portal, Profile::Wide, bytes, portals)` is `Ok(1)`.
    pub fn put_as<R: Wait>(
        &mut self,
        rt: &R,
        hub: &Hub<F>,
        portal: &Portal<F>,
        profile: Profile,
        bytes: Bytes,
        portals: Vec<Portal<F>>,
    ) -> Result<u64, PortalPutRefused<F>>
        ensures number { IfOk result (IsPut profile F.table portal.now.node portal.now.end bytes (ends_of portals.items)) }
        ensures fits { OnOk result (parcel_refusal profile portal.now.end bytes (ends_of portals.items) ≡ None) }
        ensures why { IfErr result (λ e. IsPutRefusal profile portal.now.end bytes (ends_of portals.items) e.why) }
        ensures refused { IfErr result
            (λ e. IsRefusedPut profile F.table portal.now.node portal.now.end bytes (ends_of portals.items) e.why) }
        ensures back { IfErr result (λ e. (e.bytes ≡ bytes) × (e.portals.items ≡ portals.items)) }
        ensures extends { MatchResult result
            (λ n. Extends F.table portal.now.node (calls.Put profile portal.now.end bytes (ends_of portals.items) (Ok n)) self.old self.new)
            (λ e. Extends F.table portal.now.node (calls.Put profile portal.now.end bytes (ends_of portals.items) (Err e.why)) self.old self.new) }
    {
        let node = portal.place();
        let put = hub
            .lock(rt, node)
            .put_as(hub, &mut self.seat, portal, profile, bytes, portals);
        hub.fabric().bells().ring(node);
        put
    }

    /// Puts a parcel of any bytes at a portal, as [`Portal::put_wide`].
    ///
    /// Refused as [`Caller::put_as`] of `Profile::Wide`.
    ///
    /// At a portal at which nothing was put yet, `me.put_wide(rt, &hub, &portal, bytes, portals)` is `Ok(0)`.
    pub fn put_wide<R: Wait>(
        &mut self,
        rt: &R,
        hub: &Hub<F>,
        portal: &Portal<F>,
        bytes: Bytes,
        portals: Vec<Portal<F>>,
    ) -> Result<u64, PortalPutRefused<F>>
        ensures number { IfOk result (IsPut Profile.Wide F.table portal.now.node portal.now.end bytes (ends_of portals.items)) }
        ensures fits { OnOk result (parcel_refusal Profile.Wide portal.now.end bytes (ends_of portals.items) ≡ None) }
        ensures why { IfErr result (λ e. IsPutRefusal Profile.Wide portal.now.end bytes (ends_of portals.items) e.why) }
        ensures refused { IfErr result
            (λ e. IsRefusedPut Profile.Wide F.table portal.now.node portal.now.end bytes (ends_of portals.items) e.why) }
        ensures back { IfErr result (λ e. (e.bytes ≡ bytes) × (e.portals.items ≡ portals.items)) }
        ensures extends { MatchResult result
            (λ n. Extends F.table portal.now.node (calls.Put Profile.Wide portal.now.end bytes (ends_of portals.items) (Ok n)) self.old self.new)
            (λ e. Extends F.table portal.now.node (calls.Put Profile.Wide portal.now.end bytes (ends_of portals.items) (Err e.why)) self.old self.new) }
    {
        self.put_as(rt, hub, portal, Profile::Wide, bytes, portals)
    }

    /// Puts a printed parcel at a portal, as [`Portal::put`].
    ///
    /// Refused as [`Caller::put_as`] of `Profile::Printed`.
    ///
    /// Of the byte 7, `me.put(rt, &hub, &portal, bytes, portals)` is refused `BadData`.
    pub fn put<R: Wait>(
        &mut self,
        rt: &R,
        hub: &Hub<F>,
        portal: &Portal<F>,
        bytes: Bytes,
        portals: Vec<Portal<F>>,
    ) -> Result<u64, PortalPutRefused<F>>
        ensures number { IfOk result (IsPut Profile.Printed F.table portal.now.node portal.now.end bytes (ends_of portals.items)) }
        ensures fits { OnOk result (parcel_refusal Profile.Printed portal.now.end bytes (ends_of portals.items) ≡ None) }
        ensures why { IfErr result (λ e. IsPutRefusal Profile.Printed portal.now.end bytes (ends_of portals.items) e.why) }
        ensures refused { IfErr result
            (λ e. IsRefusedPut Profile.Printed F.table portal.now.node portal.now.end bytes (ends_of portals.items) e.why) }
        ensures back { IfErr result (λ e. (e.bytes ≡ bytes) × (e.portals.items ≡ portals.items)) }
        ensures extends { MatchResult result
            (λ n. Extends F.table portal.now.node (calls.Put Profile.Printed portal.now.end bytes (ends_of portals.items) (Ok n)) self.old self.new)
            (λ e. Extends F.table portal.now.node (calls.Put Profile.Printed portal.now.end bytes (ends_of portals.items) (Err e.why)) self.old self.new) }
    {
        self.put_as(rt, hub, portal, Profile::Printed, bytes, portals)
    }

    /// Takes the next parcel at a portal, as [`Portal::get`].
    ///
    /// Refused as that, and then it is a call all the same.
    ///
    /// Where the first parcel has come, `me.get(rt, &hub, &portal)` is `Ok(got)`, and `got.n` is 0.
    pub fn get<R: Wait>(
        &mut self,
        rt: &R,
        hub: &Hub<F>,
        portal: &Portal<F>,
    ) -> Result<Got<F>, Refusal>
        ensures got { IfOk result (λ g. IsGot F.table portal.now.node portal.now.end g.n g.bytes g.portals.items) }
        ensures here { IfOk result (λ g. All (λ p. p.node ≡ portal.now.node) g.portals.items) }
        ensures few { IfOk result (λ g. vec_len g.portals ≤ 8) }
        ensures why { IfErr result IsGetRefusal }
        ensures refused { IfErr result (IsRefusedGet F.table portal.now.node portal.now.end) }
        ensures extends { MatchResult result
            (λ g. GetsParcel F.table portal.now.node portal.now.node portal.now.end g.n g.bytes g.portals.items self.old self.new)
            (λ why. Extends F.table portal.now.node (calls.Got portal.now.end (Err why)) self.old self.new) }
    {
        portal.get_here(&mut hub.lock(rt, portal.place()), hub, &mut self.seat)
    }

    // Takes the next parcel, under the lock of the portal's node. It takes no memory.
    pub(crate) fn take<R: Wait>(
        &mut self,
        rt: &R,
        hub: &Hub<F>,
        portal: &Portal<F>,
    ) -> Result<(u64, Parcel), Missed>
        ensures taken { IfOk result (IsTaken F.table portal.now.node portal.now.end) }
        ensures refused { IfErr result (IsMissed F.table portal.now.node portal.now.end) }
        ensures extends { Extends F.table portal.now.node (calls.Taken portal.now.end (answer_of result)) self.old self.new }
        ensures stop { IfErr result (TellsStop (stop_in (at_node portal.now.node self.new.seen))) }
    {
        let node = portal.place();
        hub.lock(rt, node)
            .take(hub.fabric(), &mut self.seat, portal.end())
    }

    // Takes the next parcel, as `take`, behind a sleep, if there was one. If there is none and it may sleep, it tells where: a place is taken under the
    // same hold of the lock, so that no parcel is missed between the two.
    fn take_or_sit<R: Wait>(
        &mut self,
        rt: &R,
        hub: &Hub<F>,
        portal: &Portal<F>,
        slept: Option<Rest>,
        may_sleep: bool,
    ) -> (Result<(u64, Parcel), Missed>, Option<Rest>)
        ensures taken { IfOk result.0 (IsTaken F.table portal.now.node portal.now.end) }
        ensures refused { IfErr result.0 (IsMissed F.table portal.now.node portal.now.end) }
        ensures extends { Extends F.table portal.now.node (calls.Taken portal.now.end (answer_of result.0)) self.old self.new }
        ensures stop { IfErr result.0 (TellsStop (stop_in (at_node portal.now.node self.new.seen))) }
    {
        let node = portal.place();
        hub.lock(rt, node)
            .take_or_sit(hub, &mut self.seat, portal.end(), slept, may_sleep)
    }

    // Takes the next parcel, and sleeps while there is none, as long as there is patience.
    fn take_patiently<R: Wait, P: Patience>(
        &mut self,
        rt: &R,
        hub: &Hub<F>,
        portal: &Portal<F>,
        patience: &P,
    ) -> Result<(u64, Parcel), Missed>
        ensures taken { IfOk result (IsTaken F.table portal.now.node portal.now.end) }
        ensures refused { IfErr result (IsMissed F.table portal.now.node portal.now.end) }
        ensures over { result ≡ Err (Missed.Refused Refusal.Empty) → P.over }
        ensures extends { (vain : ℕ) × ExtendsInTurn F.table (tries vain portal.now (answer_of result)) self.old self.new }
        ensures stop { IfErr result (TellsStop (stop_in (at_node portal.now.node self.new.seen))) }
    {
        let node = portal.node();
        let mut slept = None;
        for _try in rt.forever() {
            let left = patience.left();
            let (taken, rest) = self.take_or_sit(rt, hub, portal, slept, !left.is_zero());
            if left.is_zero() || !is_empty(&taken) {
                return taken;
            }
            sleep_at(rt, hub, node, rest, left);
            slept = rest;
        }
        unreachable!()
    }

    // Takes the next parcel, and sleeps while there is none, until the time is over.
    fn take_timeout<R: Wait + Clock>(
        &mut self,
        rt: &R,
        hub: &Hub<F>,
        portal: &Portal<F>,
        limit: Duration,
    ) -> Result<(u64, Parcel), Missed>
        ensures taken { IfOk result (IsTaken F.table portal.now.node portal.now.end) }
        ensures refused { IfErr result (IsMissed F.table portal.now.node portal.now.end) }
        ensures extends { (vain : ℕ) × ExtendsInTurn F.table (tries vain portal.now (answer_of result)) self.old self.new }
        ensures stop { IfErr result (TellsStop (stop_in (at_node portal.now.node self.new.seen))) }
    {
        let first = self.take(rt, hub, portal);
        if !is_empty(&first) {
            return first;
        }
        self.take_patiently(rt, hub, portal, &Deadline::new(rt, limit))
    }

    /// Takes the next parcel at a portal, and sleeps while there is none, as [`Portal::get_timeout`]. Each try is a call. If it is told that the node is
    /// stopped, the last turn before the last try was refused so in the node's history, as far as the caller has seen it then.
    ///
    /// Refused as that.
    ///
    /// So `me.get_timeout(rt, &hub, &portal, Duration::from_secs(1))` waits for a second at most.
    pub fn get_timeout<R: Wait + Clock>(
        &mut self,
        rt: &R,
        hub: &Hub<F>,
        portal: &Portal<F>,
        limit: Duration,
    ) -> Result<Arrival<F>, Missed>
        ensures got { IfOk result (λ a. IsGot F.table portal.now.node portal.now.end a.n a.bytes a.portals) }
        ensures here { IfOk result (λ a. All (λ p. p.node ≡ portal.now.node) a.portals) }
        ensures few { IfOk result (λ a. length a.portals ≤ 8) }
        ensures why { IfErr result IsMissing }
        ensures refused { IfErr result (IsMissed F.table portal.now.node portal.now.end) }
        ensures extends { MatchResult result
            (λ a. WaitsForParcel F.table portal.now a.n a.bytes a.portals self.old self.new)
            (λ e. (vain : ℕ) × ExtendsInTurn F.table (tries vain portal.now (Err (refusal_of e))) self.old self.new) }
        ensures stop { IfErr result (TellsStop (stop_in (at_node portal.now.node self.new.seen))) }
    {
        let node = portal.place();
        match self.take_timeout(rt, hub, portal, limit) {
            Ok((n, parcel)) => Ok(arrival_of(node, n, parcel)),
            Err(missed) => Err(missed),
        }
    }

    /// Closes a portal's end, as [`Portal::close`].
    ///
    /// Refused as that, and then it is a call all the same. A refused close gives the portal back.
    ///
    /// At a portal at which one parcel was put, `me.close(rt, &hub, portal)` is `Ok(1)`.
    pub fn close<R: Wait>(
        &mut self,
        rt: &R,
        hub: &Hub<F>,
        portal: Portal<F>,
    ) -> Result<u64, (Refusal, Portal<F>)>
        ensures number { IfOk result (IsClosed F.table portal.node portal.end) }
        ensures back { IfErr result (λ e. e.1 ≡ portal) }
        ensures why { IfErr result (λ e. IsCloseRefusal e.0) }
        ensures refused { IfErr result (λ e. IsRefusedClose F.table portal.node portal.end e.0) }
        ensures extends { MatchResult result
            (λ n. Extends F.table portal.node (calls.Closed portal.end (Ok n)) self.old self.new)
            (λ e. Extends F.table portal.node (calls.Closed portal.end (Err e.0)) self.old self.new) }
    {
        let node = portal.place();
        let closed = portal.close_here(&mut hub.lock(rt, node), hub, &mut self.seat);
        hub.fabric().bells().ring(node);
        closed
    }
}
