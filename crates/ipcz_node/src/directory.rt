//! A node's routers, filed by all that they are looked up by.
ghost use Rattle.std.specs.Prelude.{◌≡◌, ◌+◌, ◌<◌, ◌≤◌, ◌-◌, ◌^◌, Some, true};
ghost use Rattle.std.specs.Prelude.{is_some, OnOk, OnErr, IfErr, IsSomeAnd, option_copied, option_map};
ghost use Rattle.std.specs.FinMap.{get, empty};
ghost use Rattle.ipcz_base.specs.Limits.{last_number, no_number};
ghost use Rattle.ipcz_router.specs.Router.{Router as RouterRecord, IsOpenTerminal, outward_has, router_has, proxy_link, from_descriptor};
ghost use Rattle.ipcz_router.specs.Calls.{has_place_for, accept};
ghost use Rattle.ipcz_router.specs.Calls.{accept_refusal, extend, descriptor_of};
ghost use Rattle.ipcz_router.specs.ActTable.{may_take};
ghost use Rattle.ipcz_router.specs.ActEffects.{IsAnswerOf, IsBelowNoNumber, apply, output_of};
ghost use Rattle.ipcz_node.specs.Node.{is_terminal_of, new_end, first_where};
ghost use Rattle.std.specs.FinMap.{entries};
ghost use Rattle.std.specs.Prelude.{is_none, nat_le, ◌&&◌, IsOk, IfSome};
ghost use Rattle.std.specs.Prelude.{[], ◌∷◌};
ghost use Rattle.ipcz_base.specs.Ends.{end_at};
ghost use Rattle.ipcz_node.specs.Finding.{IsFound, IsNext, is_ready, is_ready_in, is_terminal_in};
ghost use Rattle.ipcz_node.specs.Rooms.{put_filed, link_filed, add_filed, drop_filed, hold_filed, HasQueueRoom, rooms_for};
ghost use Rattle.ipcz_node.specs.Directories.{ends_brought, ends_taken};
ghost use Rattle.ipcz_node.specs.Directories.{keeps_links, passes};
ghost use Rattle.ipcz_node.specs.Indexes.{IsLeast};
ghost use Rattle.std.specs.FinSet as sets;
ghost use Rattle.std.specs.FinMap as map;
ghost use Rattle.ipcz_node.specs.Serials.{map_by, AreRising};

mod calls;
mod dry;
mod fast_path;
mod filing;
mod hearing;
mod passing;
mod ready;
mod room;

use self::filing::{Files, follow};
use self::ready::Ready;
pub(crate) use self::room::count_ends;
use self::room::{ends_taken, flags_wanted, is_outward, make_room, sum};
use crate::flags::Flags;
use crate::held_ends::HeldEnds;
use crate::index::Index;
use crate::link_place::LinkPlace;
use crate::routers::{Routers, is_ready};
use crate::serial_ring::SerialRing;
use ipcz_base::{Descriptor, End, Item, LinkEnd, LinkId, Parcel, Refusal, Side};
use ipcz_router::act::{Answer, Applied, RouterAct};
use ipcz_router::{Filing, Router, Sending};
use std::alloc::{AllocError, Global};
use std::marker::Model;

/// The routers of a node, each of which is found by its serial, by a link that it has, by the end whose open terminal it
/// is, by its flag, and by what a get gives there; and the ends that callers hold (docs/PROTOCOL.md, "Nodes").
///
/// It has room to hold each end that waits in the in queue of a router, so that a get takes no memory, and the end of each
/// router that there is room for: `ends` is no less than how many wait in the queues. It knows when none of its routers is dry.
#[derive(Drop)]
pub struct Directory {
    routers: Routers,
    files: Files,
    ready: Ready,
    held: HeldEnds,
    room: usize,
    more: usize,
    ends: usize,
    some_dry: bool,
}

impl Model for Directory {
    ghost use Rattle.std.specs.Prelude.{◌+◌, ◌-◌};
    ghost use Rattle.std.specs.FinMap.{code};
    ghost use Rattle.std.specs.Coded.{codes};
    ghost use Rattle.ipcz_node.specs.Rooms.{RoomyDirectory};
    ghost use Rattle.ipcz_node.specs.Directories.{AreFiled, HaveRoom, CanHold, MayBeDry, AreReady};

    ghost Value = { RoomyDirectory };

    ghost coded = { Prim.hlevel (codes, code) };

    ghost view = { λ a. record {
      filed = record {
        routers = a.routers.routers;
        held = a.held.ends;
        next = a.routers.next;
        room = a.room;
        links = a.more;
      };
      out_rooms = a.routers.out_rooms;
      in_rooms = a.routers.in_rooms;
      ends = a.ends;
      more_ends = a.held.room - (a.ends + a.room);
    } };

    ghost invariant = { λ a. (AreFiled a.routers.routers a.files.links.members a.files.terminals.members a.files.flagged.members ×
        HaveRoom a.routers.routers a.room a.more a.routers.room a.files.links.room a.files.terminals.room a.files.flagged.room)
        × CanHold a.routers.routers a.ends a.room a.held.room × MayBeDry a.some_dry a.routers.routers
        × AreReady a.routers.routers a.ready.latest a.ready.others a.room };
}

impl Directory {
    /// No routers, and serials from the first one on.
    pub fn new(alloc: Global, first: u64) -> Self
        ensures routers { result.filed.routers ≡ empty }
        ensures next { result.filed.next ≡ first }
        ensures held { result.filed.held ≡ sets.empty }
        ensures ends { result.ends ≡ 0 }
    {
        Directory {
            routers: Routers::new(alloc, first),
            files: Files {
                links: Index::new(alloc),
                terminals: Index::new(alloc),
                flagged: Flags::new(alloc),
            },
            ready: Ready {
                latest: first,
                others: SerialRing::new(alloc),
            },
            held: HeldEnds::new(alloc),
            room: 0,
            more: 0,
            ends: 0,
            some_dry: false,
        }
    }

    /// The serial that the next router gets.
    pub fn next_serial(&self) -> u64
        ensures { result ≡ self.now.filed.next }
    {
        self.routers.next_serial()
    }

    /// The router of a serial, to read.
    pub fn router(&self, serial: u64) -> Option<&Router>
        ensures { option_map (λ r. r.router) (option_copied result) ≡ get self.now.filed.routers serial }
    {
        self.routers.router(serial)
    }

    /// The routers with their serials, which rise.
    pub fn entries(&self) -> &[(u64, Router)]
        ensures routers { map_by (λ x. x.router) result.now ≡ self.now.filed.routers }
        ensures rising { AreRising 0 self.now.filed.next result.now }
    {
        self.routers.entries()
    }

    /// How many routers there are.
    pub fn len(&self) -> usize
        ensures { result ≡ map.len self.now.filed.routers }
    {
        self.routers.len()
    }

    /// Makes room for so many routers and so many links of others more. It asks for none if there is room for both, and no
    /// room that was made is given up.
    pub fn reserve(&mut self, routers: usize, links: usize) -> Result<(), AllocError>
        ensures room { OnOk result (routers ≤ self.new.filed.room) }
        ensures links { OnOk result (links ≤ self.new.filed.links) }
        ensures routers { self.new.filed.routers ≡ self.old.filed.routers }
        ensures held { self.new.filed.held ≡ self.old.filed.held }
        ensures next { self.new.filed.next ≡ self.old.filed.next }
        ensures out_rooms { self.new.out_rooms ≡ self.old.out_rooms }
        ensures in_rooms { self.new.in_rooms ≡ self.old.in_rooms }
        ensures ends { self.new.ends ≡ self.old.ends }
        ensures full { routers ≤ self.old.filed.room → links ≤ self.old.filed.links → IsOk result × (self.new ≡ self.old) }
        ensures kept { (self.old.filed.room ≤ self.new.filed.room) × (self.old.filed.links ≤ self.new.filed.links) }
    {
        if routers <= self.room && links <= self.more {
            return Ok(());
        }
        self.grow(routers.max(self.room), links.max(self.more))
    }

    // Makes room for so many routers and so many links of others, which are no fewer than there is room for.
    fn grow(&mut self, routers: usize, links: usize) -> Result<(), AllocError>
        requires room { self.old.filed.room ≤ routers }
        requires links { self.old.filed.links ≤ links }
        ensures room { OnOk result (routers ≤ self.new.filed.room) }
        ensures links { OnOk result (links ≤ self.new.filed.links) }
        ensures routers { self.new.filed.routers ≡ self.old.filed.routers }
        ensures held { self.new.filed.held ≡ self.old.filed.held }
        ensures next { self.new.filed.next ≡ self.old.filed.next }
        ensures out_rooms { self.new.out_rooms ≡ self.old.out_rooms }
        ensures in_rooms { self.new.in_rooms ≡ self.old.in_rooms }
        ensures ends { self.new.ends ≡ self.old.ends }
        ensures kept { (self.old.filed.room ≤ self.new.filed.room) × (self.old.filed.links ≤ self.new.filed.links) }
    {
        let Some(all) = sum(routers, links) else {
            return Err(AllocError);
        };
        self.routers.reserve(routers)?;
        self.files.links.reserve(all)?;
        self.files.terminals.reserve(routers)?;
        let Some(flags) = flags_wanted(self.routers.len(), routers) else {
            return Err(AllocError);
        };
        self.files.flagged.reserve(flags)?;
        self.ready.others.reserve(flags)?;
        let Some(ends) = sum(self.ends, routers) else {
            return Err(AllocError);
        };
        self.held.reserve(ends)?;
        self.room = routers;
        self.more = links;
        Ok(())
    }

    /// Adds a router that isn't flagged, under the next serial.
    pub fn add_terminal(&mut self, alloc: Global, descriptor: &Descriptor, from: u8)
        requires room { 0 < self.old.filed.room }
        requires serials { self.old.filed.next < 2 ^ 64 - 1 }
        requires numbers { descriptor.now.next_out ≤ last_number }
        ensures { self.new.filed ≡ add_filed self.old.filed (from_descriptor descriptor.now from) }
    {
        let serial = self.routers.next_serial();
        self.files
            .links
            .add(LinkPlace::of(descriptor.link, Side::B), serial);
        self.files.terminals.add(descriptor.end, serial);
        self.routers
            .add(Router::from_descriptor(alloc, descriptor, from));
        self.room -= 1;
    }

    /// Adds the terminal of a new pair's side under the next serial, on the link of the pair's own word and toward the node
    /// `other`, and holds its end. It isn't flagged. It takes no memory.
    pub fn add_end(&mut self, alloc: Global, pair: u64, side: Side, other: u8)
        requires room { 0 < self.old.filed.room }
        requires serials { self.old.filed.next < 2 ^ 64 - 1 }
        ensures { self.new.filed ≡ hold_filed (add_filed self.old.filed (new_end pair side other)) (end_at pair side ∷ []) }
    {
        let serial = self.routers.next_serial();
        let end = End { pair, side };
        let link = LinkEnd {
            link: LinkId::Central(pair),
            side,
            other,
        };
        self.files.links.add(LinkPlace::of(link.link, side), serial);
        self.files.terminals.add(end, serial);
        self.routers.add(Router::terminal(alloc, end, link, 0));
        self.held.insert(end);
        self.room -= 1;
    }

    /// Takes the router of a serial out.
    pub fn remove(&mut self, serial: u64) -> Router
        requires { is_some (get self.old.filed.routers serial) ≡ true }
        ensures router { Some result.router ≡ get self.old.filed.routers serial }
        ensures routers { self.new.filed ≡ drop_filed self.old.filed serial }
    {
        let router = self.routers.remove(serial);
        let was = router.filing();
        let was_ready = is_ready(&router);
        let nowhere = Filing {
            outward: None,
            outward_decaying: None,
            inward: None,
            inward_decaying: None,
            end: was.end,
            is_open: false,
            flagged: false,
        };
        self.files.refile(serial, &was, &nowhere);
        self.ready.drop_ended(serial, was_ready);
        router
    }

    /// Takes the router of a serial out and lets it go. It stands apart, since a function pays at its start for the place of a router that
    /// it may take out.
    #[inline(never)]
    pub fn drop_router(&mut self, serial: u64)
        requires { is_some (get self.old.filed.routers serial) ≡ true }
        ensures { self.new.filed ≡ drop_filed self.old.filed serial }
    {
        let _left = self.remove(serial);
    }

    /// Makes the terminal of the serial a proxy, as `Router::extend_to`.
    pub fn extend(&mut self, serial: u64, link: LinkId, to: u8) -> Descriptor
        requires open { IsSomeAnd (get self.old.filed.routers serial) IsOpenTerminal }
        requires room { 0 < self.old.filed.links }
        ensures router { (r : RouterRecord) → get self.old.filed.routers serial ≡ Some r →
            self.new.filed ≡ link_filed self.old.filed serial (extend r (proxy_link link to)) }
        ensures descriptor { (r : RouterRecord) → get self.old.filed.routers serial ≡ Some r → result ≡ descriptor_of r link }
        ensures next_out { result.next_out ≤ last_number }
        ensures links { self.old.filed.links ≡ self.new.filed.links + 1 }
    {
        let router = self.routers.router_mut(serial);
        let was = router.filing();
        let was_ready = is_ready(router);
        let descriptor = router.extend_to(LinkEnd {
            link,
            side: Side::A,
            other: to,
        });
        let is = router.filing();
        self.files.refile(serial, &was, &is);
        self.ready.drop_ended(serial, was_ready);
        self.more -= 1;
        descriptor
    }

    /// Gives an item to the router of the serial, as `Router::accept`.
    #[tactic(auto, using(crate::proofs::Written::insert_same))]
    pub fn accept(
        &mut self,
        serial: u64,
        link: LinkId,
        side: Side,
        n: u64,
        item: Item,
    ) -> Result<(), (Refusal, Item)>
        requires stands { IsSomeAnd (get self.old.filed.routers serial) (λ r. router_has r link side ≡ true) }
        requires number { n < no_number }
        ensures place { (r : RouterRecord) → get self.old.filed.routers serial ≡ Some r →
            OnOk result (has_place_for r (outward_has r link side) n ≡ true) }
        ensures ok { (r : RouterRecord) → get self.old.filed.routers serial ≡ Some r →
            OnOk result (self.new.filed ≡ put_filed self.old.filed serial (accept r (outward_has r link side) n item)) }
        ensures why { (r : RouterRecord) → get self.old.filed.routers serial ≡ Some r →
            IfErr result (λ e. e.0 ≡ accept_refusal r link side n) }
        ensures ends { (r : RouterRecord) → get self.old.filed.routers serial ≡ Some r →
            OnOk result (self.new.ends ≡ self.old.ends + ends_brought r (outward_has r link side) n item) }
        ensures full { (r : RouterRecord) → get self.old.filed.routers serial ≡ Some r →
            HasQueueRoom (rooms_for self.old.in_rooms self.old.out_rooms (outward_has r link side)) serial →
            ends_brought r (outward_has r link side) n item ≤ self.old.more_ends → IfErr result (λ e. e.0 ≡ Refusal.OutOfMemory → ⊥) }
        ensures err { IfErr result (λ e. (e.1 ≡ item) × (self.new.filed ≡ self.old.filed)) }
        ensures err_ends { OnErr result (self.new.ends ≡ self.old.ends) }
    {
        let ends = self.ends_to_come(serial, link, side, n, &item);
        let Some(all) = make_room(&mut self.held, self.ends, self.room, ends) else {
            return Err((Refusal::OutOfMemory, item));
        };
        let router = self.routers.router_mut(serial);
        let was = router.is_flagged();
        let answer = router.accept(link, side, n, item);
        let is = router.is_flagged();
        follow(&mut self.files.flagged, serial, was, is);
        answer?;
        let is_new = self.ready.is_new(serial, router, n);
        self.ready.note(&self.routers, serial, is_new);
        self.ends = all;
        Ok(())
    }

    // How many ends come into the in queue of the router of the serial with an item.
    fn ends_to_come(&self, serial: u64, link: LinkId, side: Side, n: u64, item: &Item) -> usize
        requires { is_some (get self.now.filed.routers serial) ≡ true }
        ensures { (r : RouterRecord) → get self.now.filed.routers serial ≡ Some r →
            result ≡ ends_brought r (outward_has r link side) n item.now }
    {
        let ends = count_ends(item);
        if ends == 0 {
            return 0;
        }
        let Some(router) = self.routers.router(serial) else {
            unreachable!()
        };
        if is_outward(&router.filing(), link, side) && router.has_place_for(link, side, n) {
            ends
        } else {
            0
        }
    }

    /// Does an act of the router of the serial, as `Router::apply`; a router that leaves is taken out by `remove`.
    #[inline(always)]
    pub fn act(&mut self, serial: u64, act: RouterAct, answer: Answer) -> Applied
        requires possible { IsSomeAnd (get self.old.filed.routers serial) (λ r. may_take r act ≡ true) }
        requires answer { IsAnswerOf act answer }
        ensures router { (r : RouterRecord) → get self.old.filed.routers serial ≡ Some r →
            self.new.filed ≡ put_filed self.old.filed serial (apply r act answer) }
        ensures output { (r : RouterRecord) → get self.old.filed.routers serial ≡ Some r → result ≡ output_of r act }
        ensures number { IsBelowNoNumber result }
        ensures room { (self.new.filed.room ≡ self.old.filed.room) × (self.new.filed.links ≡ self.old.filed.links) }
        ensures ends { self.new.ends ≡ self.old.ends - ends_taken act result }
    {
        if act == RouterAct::FinishOut {
            self.finish_out(serial, answer)
        } else if keeps_links(act) {
            self.act_in_place(serial, act, answer)
        } else {
            self.act_on_links(serial, act, answer)
        }
    }

    // The act that gives up the outward decaying link: nothing else is to be filed but its router's flag.
    #[inline(always)]
    fn finish_out(&mut self, serial: u64, answer: Answer) -> Applied
        requires possible { IsSomeAnd (get self.old.filed.routers serial) (λ r. may_take r RouterAct.FinishOut ≡ true) }
        requires answer { IsAnswerOf RouterAct.FinishOut answer }
        ensures router { (r : RouterRecord) → get self.old.filed.routers serial ≡ Some r →
            self.new.filed ≡ put_filed self.old.filed serial (apply r RouterAct.FinishOut answer) }
        ensures output { (r : RouterRecord) → get self.old.filed.routers serial ≡ Some r → result ≡ output_of r RouterAct.FinishOut }
        ensures number { IsBelowNoNumber result }
        ensures room { (self.new.filed.room ≡ self.old.filed.room) × (self.new.filed.links ≡ self.old.filed.links) }
        ensures ends { self.new.ends ≡ self.old.ends - ends_taken RouterAct.FinishOut result }
    {
        let router = self.routers.router_mut(serial);
        let was = router.filing();
        let applied = router.apply(RouterAct::FinishOut, answer);
        let is = router.filing();
        self.files.unfile(serial, &was.outward_decaying, &was, &is);
        self.ends = self
            .ends
            .saturating_sub(ends_taken(RouterAct::FinishOut, &applied));
        applied
    }

    // An act that keeps the links of its router: only its flag is to be filed.
    #[inline(always)]
    fn act_in_place(&mut self, serial: u64, act: RouterAct, answer: Answer) -> Applied
        requires keeps { keeps_links act ≡ true }
        requires possible { IsSomeAnd (get self.old.filed.routers serial) (λ r. may_take r act ≡ true) }
        requires answer { IsAnswerOf act answer }
        ensures router { (r : RouterRecord) → get self.old.filed.routers serial ≡ Some r →
            self.new.filed ≡ put_filed self.old.filed serial (apply r act answer) }
        ensures output { (r : RouterRecord) → get self.old.filed.routers serial ≡ Some r → result ≡ output_of r act }
        ensures number { IsBelowNoNumber result }
        ensures room { (self.new.filed.room ≡ self.old.filed.room) × (self.new.filed.links ≡ self.old.filed.links) }
        ensures ends { self.new.ends ≡ self.old.ends - ends_taken act result }
    {
        let router = self.routers.router_mut(serial);
        let was = router.is_flagged();
        let applied = router.apply(act, answer);
        let is = router.is_flagged();
        self.some_dry = router.is_dry() | self.some_dry;
        follow(&mut self.files.flagged, serial, was, is);
        let taken = ends_taken(act, &applied);
        self.ends = self.ends.saturating_sub(taken);
        applied
    }

    // An act that may give links up, or let them decay.
    #[inline(always)]
    fn act_on_links(&mut self, serial: u64, act: RouterAct, answer: Answer) -> Applied
        requires possible { IsSomeAnd (get self.old.filed.routers serial) (λ r. may_take r act ≡ true) }
        requires answer { IsAnswerOf act answer }
        ensures router { (r : RouterRecord) → get self.old.filed.routers serial ≡ Some r →
            self.new.filed ≡ put_filed self.old.filed serial (apply r act answer) }
        ensures output { (r : RouterRecord) → get self.old.filed.routers serial ≡ Some r → result ≡ output_of r act }
        ensures number { IsBelowNoNumber result }
        ensures room { (self.new.filed.room ≡ self.old.filed.room) × (self.new.filed.links ≡ self.old.filed.links) }
        ensures ends { self.new.ends ≡ self.old.ends - ends_taken act result }
    {
        let router = self.routers.router_mut(serial);
        let was = router.filing();
        let applied = router.apply(act, answer);
        let is = router.filing();
        self.some_dry = router.is_dry() | self.some_dry;
        self.files.refile(serial, &was, &is);
        self.ends = self.ends.saturating_sub(ends_taken(act, &applied));
        applied
    }

    /// The flagged router of the lowest serial.
    pub fn first_flagged(&self) -> Option<u64>
        ensures { IsFound (λ r. r.flagged) self.now.filed.routers result }
    {
        self.files.flagged.first()
    }

    /// Whether no router is flagged.
    pub fn is_resting(&self) -> bool
        ensures { result ≡ is_none (first_where (λ r. r.flagged) (entries self.now.filed.routers)) }
    {
        self.first_flagged().is_none()
    }

    /// The first router that has the link at the side.
    #[inline(always)]
    pub fn first_on(&self, link: LinkId, side: Side) -> Option<u64>
        ensures { IsFound (λ r. router_has r link side) self.now.filed.routers result }
    {
        self.files.links.first(LinkPlace::of(link, side))
    }

    /// The first open terminal of the end.
    #[inline(always)]
    pub fn terminal_of(&self, end: End) -> Option<u64>
        ensures { IsFound (is_terminal_of end) self.now.filed.routers result }
    {
        self.files.terminals.first(end)
    }

    /// The first open terminal of the end, which is looked for first at a place among those of all ends. It may be any.
    #[inline(always)]
    pub fn terminal_near(&self, end: End, place: usize) -> Option<u64>
        ensures { IsFound (is_terminal_of end) self.now.filed.routers result }
    {
        self.files.terminals.first_near(&end, place)
    }

    /// The first router from a serial on that is the open terminal of an end which callers hold: its serial and that end.
    pub fn held_from(&self, serial: u64) -> Option<(u64, End)>
        ensures { IsNext (get self.now.filed.routers) (is_terminal_in self.now.filed.held) serial result }
    {
        self.routers.first_held(serial, &self.held)
    }

    /// The first router from a serial on that is the open terminal of an end which callers hold, and where a get isn't `Empty`: its serial and that end.
    pub fn ready_from(&self, serial: u64) -> Option<(u64, End)>
        ensures next { IsNext (get self.now.filed.routers) (is_ready_in self.now.filed.held) serial result }
        ensures below { IfSome result (λ x. x.0 + 1 < 2 ^ 64) }
    {
        let _end = self.next_serial();
        let mut from = serial;
        while let Some((ready, end)) = self.next_ready(from) {
            if self.held.has(end) {
                return Some((ready, end));
            }
            from = ready + 1;
        }
        None
    }

    // The first ready router from a serial on: its serial and its end, whether callers hold that or not.
    fn next_ready(&self, from: u64) -> Option<(u64, End)>
        ensures found { IsNext (get self.now.filed.routers) is_ready from result }
        ensures below { IfSome result (λ x. x.0 < self.now.filed.next) }
    {
        let serial = self.ready_serial(from)?;
        Some((serial, self.routers.end_of(serial)))
    }

    // Its serial.
    fn ready_serial(&self, from: u64) -> Option<u64>
        ensures { IsLeast (λ serial. nat_le from serial && passes is_ready self.now.filed.routers serial) result }
    {
        let other = self.ready.others.first_from(from);
        let latest = self.ready.latest;
        if latest < from || !self.routers.is_ready(latest) {
            return other;
        }
        match other {
            Some(serial) if serial < latest => Some(serial),
            Some(_) | None => Some(latest),
        }
    }
}

// Whether an act keeps the links of its router.
#[tactic(auto, unfolding(crate::specs::Directories::keeps_links))]
fn keeps_links(act: RouterAct) -> bool
    ensures { result ≡ keeps_links act }
{
    match act {
        RouterAct::FinishOut | RouterAct::FinishIn | RouterAct::Leave | RouterAct::Begin => false,
        _ => true,
    }
}
