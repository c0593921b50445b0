//! Calls of a node's callers: opens, puts, gets, looks and closes.
ghost use Rattle.std.specs.Prelude.{◌≡◌, ◌+◌, ◌<◌, ◌^◌, [], Some, None, OnOk, OnErr, IfOk, IfErr, IfSome, IsSomeAnd};
ghost use Rattle.std.specs.Prelude.{unwrap_or, is_some, IsOk, not, if◌then◌else◌};
ghost use Rattle.ipcz_base.specs.Ends.{has_end, end_at};
ghost use Rattle.ipcz_base.specs.Limits.{is_printable, most_bytes, takes_bytes};
ghost use Rattle.ipcz_base.specs.declared.side.Side.TheVariants.{A, B};
ghost use Rattle.ipcz_router.specs.Router.{Router as RouterRecord, IsOpenTerminal};
ghost use Rattle.ipcz_router.specs.Calls.{router_put_refusal};
ghost use Rattle.ipcz_node.specs.Node.{router_in, terminal_of, found, holds_end, source_in, word_side};
ghost use Rattle.ipcz_node.specs.Calls.{serials_refusal, open_node, are_held_once, refusal_at, are_too_many, put_refusal, put_node};
ghost use Rattle.ipcz_node.specs.Calls.{put_number, finds_something, get_refusal, got_at, next_sizes, get_node, close_refusal, close_node, close_end};
ghost use Rattle.ipcz_node.specs.Looking.{IsLook};
ghost use Rattle.ipcz_node.specs.Arriving.{arrival_of};
ghost use Rattle.ipcz_node.specs.Acts.{is_quiet, rest_of};
ghost use Rattle.ipcz_node.specs.Finding.{IsNextHeld, IsNextReady};
ghost use Rattle.ipcz_node.specs.RoomyNodes.{CanOpen, RoomIsKept, IsReadyFor, TakesMore};
ghost use Rattle.ipcz_node.specs.declared.act.Act.{Act};

use super::NodeState;
use crate::directory::Directory;
use crate::outboxes::Outboxes;
use crate::spare::Spare;
use ipcz_base::{Bytes, End, Ends, Message, Parcel, PortalStatus, Profile, Refusal, Side, Sizes};
use std::alloc::{AllocError, Global};

/// A put that was refused: why, and what was to be put.
#[derive(Debug, Drop)]
pub struct PutRefused {
    pub why: Refusal,
    pub bytes: Bytes,
    pub ends: Ends,
}

/// Why the put was refused: what was to be put is dropped. So `?` hands a put's refusal on.
impl From<PutRefused> for Refusal {
    ghost from_gives = { λ refused why. why ≡ refused.why };

    fn from(refused: PutRefused) -> Refusal {
        refused.why
    }
}

impl NodeState {
    /// Makes room for a pair: for two routers, and for the ends that callers hold.
    ///
    /// It answers `NumbersEnd` if one of the two serials would be u64::MAX, else `OutOfMemory` if there is no room and none
    /// was found.
    pub fn open_prepare(&mut self) -> Result<(), Refusal>
        ensures node { self.new.node ≡ self.old.node }
        ensures ok { OnOk result (CanOpen self.new) }
        ensures why { IfErr result (λ e. e ≡ unwrap_or (serials_refusal self.old.node) Refusal.OutOfMemory) }
        ensures allowed { OnOk result (serials_refusal self.old.node ≡ None) }
        ensures full { CanOpen self.old → IsOk result }
        ensures kept { RoomIsKept self.old.room self.new.room }
    {
        if self.routers.next_serial() > u64::MAX - 2 {
            return Err(Refusal::NumbersEnd);
        }
        match self.routers.reserve(2, 0) {
            Ok(()) => Ok(()),
            Err(_) => Err(Refusal::OutOfMemory),
        }
    }

    /// Notes the word that was claimed for an open: the open is under way until `open_commit` does it. The node requires nothing of
    /// the word. It is to be a link word that this node has claimed and that nothing else uses.
    pub fn claim_open(&mut self, word: u64)
        requires { self.old.node.opening ≡ None }
        ensures node { self.new.node ≡ record self.old.node { opening = Some word } }
        ensures room { self.new.room ≡ self.old.room }
    {
        self.opening = Some(word);
    }

    /// Opens the pair of a claimed word, for which `open_prepare` made room: the terminal of side A, and then that of side B,
    /// both on the word's link. Callers hold both ends. It takes no memory.
    pub fn open_commit(&mut self, word: u64) -> (End, End)
        requires { CanOpen self.old }
        ensures node { self.new.node ≡ open_node self.old.node word }
        ensures ends { result ≡ (end_at word A, end_at word B) }
    {
        self.routers.add_end(self.alloc, word, Side::A, self.number);
        self.routers.add_end(self.alloc, word, Side::B, self.number);
        self.opening = None;
        (
            End {
                pair: word,
                side: Side::A,
            },
            End {
                pair: word,
                side: Side::B,
            },
        )
    }

    /// Puts a parcel of printed bytes at an end that callers of this node hold, as [`NodeState::put_as`] does of `Profile::Printed`.
    pub fn put(&mut self, at: End, bytes: Bytes, ends: Ends) -> Result<u64, PutRefused>
        ensures allowed { OnOk result (put_refusal Profile.Printed self.old.node at bytes ends ≡ None) }
        ensures number { IfOk result (λ n. n ≡ put_number self.old.node at) }
        ensures ok { OnOk result (self.new.node ≡ put_node self.old.node at (record { bytes = bytes; ends = ends })) }
        ensures why { IfErr result (λ e. e.why ≡ unwrap_or (put_refusal Profile.Printed self.old.node at bytes ends) Refusal.OutOfMemory) }
        ensures full { put_refusal Profile.Printed self.old.node at bytes ends ≡ None → TakesMore self.old at → IsOk result }
        ensures err { IfErr result (λ e. (e.bytes ≡ bytes) × (e.ends ≡ ends) × (self.new.node ≡ self.old.node)) }
    {
        self.put_as(Profile::Printed, at, bytes, ends)
    }

    /// Puts a parcel at an end that callers of this node hold, and answers its number. Its ends are held no more.
    ///
    /// A refused call gives both lists back. It answers, the first of these: `Stranger` if `at` isn't held here, `TooMany`
    /// for more bytes than the profile takes or more than 8 ends, `BadData` for a byte that the profile doesn't take, `SelfAttach` if
    /// `ends` has `at`, `PeerAttach` if it has the other end of that pair, wherever that is, `Stranger` if it has an end that isn't
    /// held here or one that stands twice, `PeerClosed` if the peer's mark has come, `NumbersEnd` if no number is left, and
    /// `OutOfMemory`, if the terminal has no room for an item more and none was found (docs/PROTOCOL.md, "Refusals").
    #[inline(always)]
    #[tactic(auto, unfolding(crate::specs::Node::on_found, crate::specs::Calls::number_at))]
    pub fn put_as(
        &mut self,
        profile: Profile,
        at: End,
        bytes: Bytes,
        ends: Ends,
    ) -> Result<u64, PutRefused>
        ensures allowed { OnOk result (put_refusal profile self.old.node at bytes ends ≡ None) }
        ensures number { IfOk result (λ n. n ≡ put_number self.old.node at) }
        ensures ok { OnOk result (self.new.node ≡ put_node self.old.node at (record { bytes = bytes; ends = ends })) }
        ensures why { IfErr result (λ e. e.why ≡ unwrap_or (put_refusal profile self.old.node at bytes ends) Refusal.OutOfMemory) }
        ensures full { put_refusal profile self.old.node at bytes ends ≡ None → TakesMore self.old at → IsOk result }
        ensures err { IfErr result (λ e. (e.bytes ≡ bytes) × (e.ends ≡ ends) × (self.new.node ≡ self.old.node)) }
    {
        if ends.as_slice().is_empty() {
            return self.put_lone(profile, at, bytes, ends);
        }
        let serial = match self.put_serial(profile, at, bytes.as_slice(), ends.as_slice()) {
            Ok(serial) => serial,
            Err(why) => return Err(PutRefused { why, bytes, ends }),
        };
        if self.routers.reserve_out(serial).is_err() {
            return Err(PutRefused {
                why: Refusal::OutOfMemory,
                bytes,
                ends,
            });
        }
        self.routers.release(ends.as_slice());
        let Ok(n) = self.routers.put(serial, Parcel { bytes, ends }) else {
            unreachable!()
        };
        Ok(n)
    }

    // Puts a parcel without ends. No end is to be held no more, so the terminal finds room as it takes the parcel, and it tells itself if it
    // takes none.
    #[inline(always)]
    #[tactic(auto, unfolding(crate::specs::Node::on_found, crate::specs::Calls::number_at, crate::specs::Calls::refusal_at))]
    fn put_lone(
        &mut self,
        profile: Profile,
        at: End,
        bytes: Bytes,
        ends: Ends,
    ) -> Result<u64, PutRefused>
        requires { ends ≡ [] }
        ensures allowed { OnOk result (put_refusal profile self.old.node at bytes ends ≡ None) }
        ensures number { IfOk result (λ n. n ≡ put_number self.old.node at) }
        ensures ok { OnOk result (self.new.node ≡ put_node self.old.node at (record { bytes = bytes; ends = ends })) }
        ensures why { IfErr result (λ e. e.why ≡ unwrap_or (put_refusal profile self.old.node at bytes ends) Refusal.OutOfMemory) }
        ensures full { put_refusal profile self.old.node at bytes ends ≡ None → TakesMore self.old at → IsOk result }
        ensures err { IfErr result (λ e. (e.bytes ≡ bytes) × (e.ends ≡ ends) × (self.new.node ≡ self.old.node)) }
    {
        let serial = match self.serial_for_bytes(profile, at, bytes.as_slice(), ends.as_slice()) {
            Ok(serial) => serial,
            Err(why) => return Err(PutRefused { why, bytes, ends }),
        };
        match self.routers.put(serial, Parcel { bytes, ends }) {
            Ok(n) => Ok(n),
            Err((why, parcel)) => Err(PutRefused {
                why,
                bytes: parcel.bytes,
                ends: parcel.ends,
            }),
        }
    }

    // The terminal of an end that takes such bytes, whatever it says itself of a parcel without ends.
    #[inline(always)]
    #[tactic(auto, unfolding(crate::specs::Calls::put_refusal, crate::specs::Calls::refusal_at))]
    fn serial_for_bytes(
        &self,
        profile: Profile,
        at: End,
        bytes: &[u8],
        ends: &[End],
    ) -> Result<u64, Refusal>
        requires { ends.now ≡ [] }
        ensures why { IfErr result (λ e. put_refusal profile self.now.node at bytes.now ends.now ≡ Some e) }
        ensures left { IfOk result (λ serial. put_refusal profile self.now.node at bytes.now ends.now
            ≡ refusal_at (terminal_of self.now.node at) router_put_refusal) }
        ensures open { IfOk result (λ serial. IsSomeAnd (router_in self.now.node serial) IsOpenTerminal) }
        ensures found { IfOk result
            (λ serial. IsSomeAnd (router_in self.now.node serial) (λ r. terminal_of self.now.node at ≡ Some (found serial r))) }
    {
        let Some(place) = self.held_place(at) else {
            return Err(Refusal::Stranger);
        };
        if are_too_many(profile, bytes, ends) {
            return Err(Refusal::TooMany);
        }
        if !takes_bytes(profile, bytes) {
            return Err(Refusal::BadData);
        }
        match self.terminal_near(at, place) {
            Some(serial) => Ok(serial),
            None => Err(Refusal::Stranger),
        }
    }

    // Why nothing is put at an end that isn't held here, or no such bytes and so many ends are.
    #[inline(always)]
    fn bytes_refusal(
        &self,
        profile: Profile,
        at: End,
        bytes: &[u8],
        ends: &[End],
    ) -> Option<Refusal>
        ensures { result ≡ (if not (holds_end self.now.node at) then Some Refusal.Stranger
            else if are_too_many profile bytes.now ends.now then Some Refusal.TooMany
            else if not (takes_bytes profile bytes.now) then Some Refusal.BadData
            else None) }
    {
        if !self.holds(at) {
            return Some(Refusal::Stranger);
        }
        if are_too_many(profile, bytes, ends) {
            return Some(Refusal::TooMany);
        }
        if !takes_bytes(profile, bytes) {
            return Some(Refusal::BadData);
        }
        None
    }

    // Where a parcel can be put, memory aside.
    #[tactic(auto, unfolding(crate::specs::Calls::put_refusal))]
    fn put_serial(
        &self,
        profile: Profile,
        at: End,
        bytes: &[u8],
        ends: &[End],
    ) -> Result<u64, Refusal>
        ensures allowed { OnOk result (put_refusal profile self.now.node at bytes.now ends.now ≡ None) }
        ensures why { IfErr result (λ e. put_refusal profile self.now.node at bytes.now ends.now ≡ Some e) }
        ensures open { IfOk result (λ serial. IsSomeAnd (router_in self.now.node serial) IsOpenTerminal) }
        ensures free { IfOk result (λ serial. IsSomeAnd (router_in self.now.node serial) (λ r. router_put_refusal r ≡ None)) }
        ensures found { IfOk result
            (λ serial. IsSomeAnd (router_in self.now.node serial) (λ r. terminal_of self.now.node at ≡ Some (found serial r))) }
    {
        if let Some(why) = self.bytes_refusal(profile, at, bytes, ends) {
            return Err(why);
        }
        if has_end(at, ends) {
            return Err(Refusal::SelfAttach);
        }
        if has_end(at.opposite(), ends) {
            return Err(Refusal::PeerAttach);
        }
        if !self.are_held_once(ends) {
            return Err(Refusal::Stranger);
        }
        self.free_serial(at)
    }

    // The terminal of an end, if it takes a parcel.
    #[tactic(auto, unfolding(crate::specs::Calls::refusal_at))]
    fn free_serial(&self, at: End) -> Result<u64, Refusal>
        ensures allowed { OnOk result (refusal_at (terminal_of self.now.node at) router_put_refusal ≡ None) }
        ensures why { IfErr result (λ e. refusal_at (terminal_of self.now.node at) router_put_refusal ≡ Some e) }
        ensures open { IfOk result (λ serial. IsSomeAnd (router_in self.now.node serial) IsOpenTerminal) }
        ensures free { IfOk result (λ serial. IsSomeAnd (router_in self.now.node serial) (λ r. router_put_refusal r ≡ None)) }
        ensures found { IfOk result
            (λ serial. IsSomeAnd (router_in self.now.node serial) (λ r. terminal_of self.now.node at ≡ Some (found serial r))) }
    {
        let Some(serial) = self.terminal_serial(at) else {
            return Err(Refusal::Stranger);
        };
        match self.put_refusal_at(serial) {
            Some(why) => Err(why),
            None => Ok(serial),
        }
    }

    // Why the router of the serial takes no parcel.
    fn put_refusal_at(&self, serial: u64) -> Option<Refusal>
        requires { IsSomeAnd (router_in self.now.node serial) IsOpenTerminal }
        ensures { (r : RouterRecord) → router_in self.now.node serial ≡ Some r → result ≡ router_put_refusal r }
    {
        match self.routers.router(serial) {
            Some(router) => router.put_refusal(),
            None => unreachable!(),
        }
    }

    // Whether callers hold each of these ends, and none stands twice.
    fn are_held_once(&self, ends: &[End]) -> bool
        ensures { result ≡ are_held_once self.now.node ends.now }
    {
        match ends {
            [] => true,
            [end, rest @ ..] => self.holds(*end)
                && !has_end(*end, rest)
                && self.are_held_once(rest),
        }
    }

    /// Takes the next parcel at an end that callers of this node hold, with its number; its ends are held here from then on.
    /// It takes no memory.
    ///
    /// It answers, the first of these: `Stranger` if `at` isn't held here, `Empty` if the parcel hasn't come, whatever
    /// stands behind it, and `PeerClosed` if the peer's mark is what comes next.
    #[tactic(auto, unfolding(crate::specs::Calls::get_refusal, crate::specs::Calls::refusal_at, crate::specs::Calls::got_at_found, crate::specs::Node::on_found))]
    pub fn get(&mut self, at: End) -> Result<(u64, Parcel), Refusal>
        ensures allowed { OnOk result (get_refusal self.old.node at ≡ None) }
        ensures parcel { IfOk result (λ g. got_at self.old.node at ≡ Some g) }
        ensures ok { OnOk result (self.new.node ≡ get_node self.old.node at) }
        ensures why { IfErr result (λ e. get_refusal self.old.node at ≡ Some e) }
        ensures err { OnErr result (self.new.node ≡ self.old.node) }
    {
        let Some(place) = self.held_place(at) else {
            return Err(Refusal::Stranger);
        };
        let Some(serial) = self.terminal_near(at, place) else {
            return Err(Refusal::Stranger);
        };
        let got = self.routers.get(serial)?;
        Ok(got)
    }

    /// How many bytes and ends the parcel has that a get at this end would give; none if it would be refused. It takes no memory.
    #[tactic(auto, unfolding(crate::specs::Calls::got_at_found, crate::specs::Calls::item_got, ipcz_router::specs::Calls::sizes_found, ipcz_base::specs::Items::sizes_in))]
    pub fn next_sizes(&self, at: End) -> Option<Sizes>
        ensures { result ≡ next_sizes self.now.node at }
    {
        if !self.holds(at) {
            return None;
        }
        match self.terminal_serial(at) {
            Some(serial) => self.routers.next_sizes(serial),
            None => None,
        }
    }

    /// What gets at this end would answer, one after the other; none if they would be refused as a stranger's, since the end isn't held
    /// here. It takes no parcel and no memory. It looks at each parcel that waits.
    pub fn status(&self, at: End) -> Option<PortalStatus>
        ensures { IsLook self.now.node at result }
    {
        if !self.holds(at) {
            return None;
        }
        match self.terminal_serial(at) {
            Some(serial) => Some(self.routers.status(serial)),
            None => None,
        }
    }

    /// Whether this end has arrived: its terminal's link toward the peer is central, the terminal's side of it is marked stable, and
    /// nothing decays there. None if the end isn't held here. It takes no memory.
    pub fn has_arrived(&self, at: End) -> Option<bool>
        ensures { result ≡ arrival_of self.now.node at }
    {
        if !self.holds(at) {
            return None;
        }
        match self.terminal_serial(at) {
            Some(serial) => Some(self.routers.has_arrived(serial)),
            None => None,
        }
    }

    /// Closes an end that callers of this node hold, and answers the number of the mark that its peer is to get. The end is
    /// held no more.
    ///
    /// It answers `Stranger` if `at` isn't held here, else `OutOfMemory` if the terminal has no room for the mark and none
    /// was found.
    #[tactic(auto, unfolding(crate::specs::Calls::close_refusal, crate::specs::Calls::refusal_at, crate::specs::Calls::number_at, crate::specs::Node::on_found))]
    pub fn close(&mut self, at: End) -> Result<u64, Refusal>
        ensures allowed { OnOk result (close_refusal self.old.node at ≡ None) }
        ensures number { IfOk result (λ n. n ≡ put_number self.old.node at) }
        ensures ok { OnOk result (self.new.node ≡ close_node self.old.node at) }
        ensures why { IfErr result (λ e. e ≡ unwrap_or (close_refusal self.old.node at) Refusal.OutOfMemory) }
        ensures full { close_refusal self.old.node at ≡ None → TakesMore self.old at → IsOk result }
        ensures err { OnErr result (self.new.node ≡ self.old.node) }
    {
        if !self.holds(at) {
            return Err(Refusal::Stranger);
        }
        let Some(serial) = self.terminal_serial(at) else {
            return Err(Refusal::Stranger);
        };
        let n = self.routers.close(serial)?;
        self.routers.release(&[at]);
        Ok(n)
    }

    // Closes the end that is to be closed first, for which there is room.
    #[tactic(auto, unfolding(crate::specs::Acts::rest_of, crate::specs::Node::on_found))]
    pub(super) fn close_first(&mut self, end: End)
        requires { IsReadyFor self.old (Act.Close end) }
        ensures { self.new.node ≡ close_end (record self.old.node { pending = rest_of self.old.node.pending }) end }
    {
        if !self.pending.is_empty() {
            self.pending.remove(0);
        }
        if let Some(serial) = self.terminal_serial(end) {
            let Ok(_) = self.routers.close(serial) else {
                unreachable!()
            };
        }
    }

    /// Whether callers of this node hold the end. It takes no memory.
    pub fn holds(&self, end: End) -> bool
        ensures { result ≡ holds_end self.now.node end }
    {
        self.routers.holds(end)
    }

    // Where the end stands among those that callers of this node hold, if they hold it.
    #[inline(always)]
    fn held_place(&self, end: End) -> Option<usize>
        ensures { is_some result ≡ holds_end self.now.node end }
    {
        self.routers.held_place(end)
    }

    /// The first held end from a router's serial on: the lowest serial that isn't below `serial` of a router that is the open
    /// terminal of an end which callers of this node hold, with that end; or none. From 0 on, and then each time from the
    /// serial after the last one, it gives all of them by rising serials. It takes no memory.
    pub fn held_from(&self, serial: u64) -> Option<(u64, End)>
        ensures { IsNextHeld self.now.node serial result }
    {
        self.routers.held_from(serial)
    }

    /// Whether a get at this end would find something: a parcel, or that the peer has closed. It takes no memory.
    #[tactic(auto, unfolding(crate::specs::Calls::get_refusal, crate::specs::Calls::refusal_at, ipcz_router::specs::Calls::item_refusal))]
    pub fn has_come(&self, at: End) -> bool
        ensures { result ≡ finds_something (get_refusal self.now.node at) }
    {
        if !self.holds(at) {
            return false;
        }
        match self.terminal_serial(at) {
            Some(serial) => self.routers.has_come(serial),
            None => false,
        }
    }

    /// The first held end from a router's serial on where a get isn't `Empty`, as [`NodeState::held_from`]: a parcel has come there, or the peer's
    /// mark. From 0 on, and then each time from the serial after the last one, it gives all of them by rising serials. It searches the serials of
    /// the open terminals where something has come, and passes over those whose ends are in a parcel. It takes no memory.
    pub fn ready_from(&self, serial: u64) -> Option<(u64, End)>
        ensures next { IsNextReady self.now.node serial result }
        ensures below { IfSome result (λ x. x.0 + 1 < 2 ^ 64) }
    {
        self.routers.ready_from(serial)
    }

    /// The messages that didn't fit, in the order in which they came. It takes no memory.
    pub fn strays(&self) -> &[Message]
        ensures { result.now ≡ self.now.node.strays }
    {
        self.strays.as_slice()
    }

    /// The word of the outward primary link of the router of the serial, with its side; none if there is no such router,
    /// or the link is not central, or there is none.
    pub fn word_of(&self, serial: u64) -> Option<(u64, Side)>
        ensures { result ≡ word_side self.now.node serial }
    {
        self.routers.word_of(serial)
    }

    /// The node inward of the proxy of the serial, which may send the AcceptBypass of its bypass; none if there is no such
    /// router, or it is a terminal. It takes no memory.
    pub fn source_of(&self, serial: u64) -> Option<u8>
        ensures { result ≡ source_in self.now.node serial }
    {
        self.routers.source_of(serial)
    }

    /// Whether the node has nothing to do until a message comes: no message waits to be posted or is in hand, no end is to be
    /// closed, and no router is flagged. It takes no memory.
    #[tactic(auto, unfolding(crate::specs::Acts::is_quiet))]
    pub fn quiet(&self) -> bool
        ensures { result ≡ is_quiet self.now.node }
    {
        self.outboxes.are_empty()
            && self.pending.is_empty()
            && self.hand.is_none()
            && self.routers.is_resting()
    }
}

// Whether these are too many bytes or ends for a parcel of a profile.
fn are_too_many(profile: Profile, bytes: &[u8], ends: &[End]) -> bool
    ensures { result ≡ are_too_many profile bytes.now ends.now }
{
    bytes.len() > most_bytes(profile) || ends.len() > 8
}

// How many bytes a parcel of a profile may have.
fn most_bytes(profile: Profile) -> usize
    ensures { result ≡ most_bytes profile }
{
    match profile {
        Profile::Printed => 256,
        Profile::Wide => 65536,
    }
}

// Whether a profile takes each of these bytes.
fn takes_bytes(profile: Profile, bytes: &[u8]) -> bool
    ensures { result ≡ takes_bytes profile bytes.now }
{
    match profile {
        Profile::Printed => is_printable(bytes),
        Profile::Wide => true,
    }
}

// Whether each byte is printable. It looks at all of them, without a way out in between.
fn is_printable(bytes: &[u8]) -> bool
    ensures { result ≡ is_printable bytes.now }
{
    let mut all = true;
    for b in bytes {
        all &= (0x20 <= *b) & (*b <= 0x7E);
    }
    all
}

// Whether an end stands in a list.
fn has_end(end: End, ends: &[End]) -> bool
    ensures { result ≡ has_end end ends.now }
{
    match ends {
        [] => false,
        [first, rest @ ..] => *first == end || has_end(end, rest),
    }
}
