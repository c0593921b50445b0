//! What callers do at a node of the world: open, put, get and close.

ghost use Rattle.std.specs.Prelude.{◌≡◌, ◌<◌, ◌≤◌, None, IfOk, IfErr};
ghost use Rattle.ipcz_node.specs.Finding.{IsNextReady};
ghost use Rattle.ipcz_node.specs.Looking.{IsLook};
ghost use Rattle.ipcz_world.specs.Arrived.{arrival_in};
ghost use Rattle.ipcz_world.specs.World.{node_at};
ghost use Rattle.ipcz_world.specs.Steps.{StepFirst};
ghost use Rattle.ipcz_world.specs.Steps.{open_with, open_on, put_of, put_reply, put_step, get_step, next_sizes, close_step, Gives, GivesOrNoMemory, PutGives};
ghost use Rattle.ipcz_node.specs.RoomyNodes.{CanOpen, TakesMore};
ghost use Rattle.ipcz_world.specs.RoomyWorlds.{roomy_at};
ghost use Rattle.ipcz_world.specs.Taking.{IsRegular};

use crate::state::State;
use crate::step::{Reply, Step};
use ipcz_base::{Bytes, End, Ends, PortalStatus, Profile, Refusal, Sizes};
use ipcz_node::PutRefused;
use std::alloc::{AllocError, Global};

impl State {
    /// Opens a pair on a node.
    pub(crate) fn open(&mut self, n: u8) -> Reply
        requires regular { IsRegular self.old.world }
        requires node { n < self.old.world.count }
        ensures opened { GivesOrNoMemory self.old.world (open_on self.old.world n (node_at self.old.world n).opening) result self.new.world }
        ensures full { CanOpen (roomy_at self.old n) → Gives (open_on self.old.world n (node_at self.old.world n).opening) result self.new.world }
    {
        match self.nodes.node(n).opening() {
            Some(word) => self.open_claimed(n, word),
            None => self.open_next(n),
        }
    }

    // Opens a pair on a word that is claimed.
    fn open_claimed(&mut self, n: u8, word: u64) -> Reply
        requires regular { IsRegular self.old.world }
        requires node { n < self.old.world.count }
        requires word { word < self.old.world.claimed }
        ensures opened { GivesOrNoMemory self.old.world (open_with self.old.world self.old.world n word) result self.new.world }
        ensures full { CanOpen (roomy_at self.old n) → Gives (open_with self.old.world self.old.world n word) result self.new.world }
    {
        let node = self.nodes.node_mut(n);
        if let Err(why) = node.open_prepare() {
            return Reply::Refused(why);
        }
        self.words.open(word);
        let (first, second) = node.open_commit(word);
        Reply::Opened(first, second)
    }

    // Opens a pair on the next word, if one is left.
    fn open_next(&mut self, n: u8) -> Reply
        requires regular { IsRegular self.old.world }
        requires node { n < self.old.world.count }
        ensures opened { GivesOrNoMemory self.old.world (open_on self.old.world n None) result self.new.world }
        ensures full { CanOpen (roomy_at self.old n) → Gives (open_on self.old.world n None) result self.new.world }
    {
        if !self.words.has_unclaimed() {
            return Reply::Refused(Refusal::NoWord);
        }
        let node = self.nodes.node_mut(n);
        if let Err(why) = node.open_prepare() {
            return Reply::Refused(why);
        }
        let word = self.words.claim();
        self.words.open(word);
        let (first, second) = node.open_commit(word);
        Reply::Opened(first, second)
    }

    /// Puts a copy of a parcel at an end. Room for its lists is taken first.
    pub(crate) fn put(
        &mut self,
        profile: Profile,
        n: u8,
        at: End,
        bytes: &Bytes,
        ends: &Ends,
    ) -> Reply
        requires regular { IsRegular self.old.world }
        requires node { n < self.old.world.count }
        ensures { PutGives self.old.world n (put_step profile self.old.world n at (record { bytes = bytes.now; ends = ends.now })) result self.new.world }
    {
        let Ok(bytes) = Bytes::from_slice(self.alloc, bytes.as_slice()) else {
            return Reply::Refused(Refusal::OutOfMemory);
        };
        let Ok(ends) = copy_ends(self.alloc, ends) else {
            return Reply::Refused(Refusal::OutOfMemory);
        };
        Reply::of_put(self.put_here(profile, n, at, bytes, ends))
    }

    /// Puts a parcel at an end, as it was given; one for a node that isn't there is refused. A refused one is given back.
    pub(crate) fn put_given(
        &mut self,
        profile: Profile,
        n: u8,
        at: End,
        bytes: Bytes,
        ends: Ends,
    ) -> Result<u64, PutRefused>
        requires { IsRegular self.old.world }
        ensures step { StepFirst self.old.world (put_of profile n at bytes ends) (put_reply result) self.new.world }
        ensures order { GivesOrNoMemory self.old.world (put_step profile self.old.world n at (record { bytes = bytes; ends = ends })) (put_reply result) self.new.world }
        ensures back { IfErr result (λ e. (e.bytes ≡ bytes) × (e.ends ≡ ends)) }
        ensures full { TakesMore (roomy_at self.old n) at → Gives (put_step profile self.old.world n at (record { bytes = bytes; ends = ends })) (put_reply result) self.new.world }
    {
        if n >= self.count {
            let why = Refusal::Stranger;
            return Err(PutRefused { why, bytes, ends });
        }
        self.put_here(profile, n, at, bytes, ends)
    }

    // Puts a parcel at an end of a node that is there.
    fn put_here(
        &mut self,
        profile: Profile,
        n: u8,
        at: End,
        bytes: Bytes,
        ends: Ends,
    ) -> Result<u64, PutRefused>
        requires regular { IsRegular self.old.world }
        requires node { n < self.old.world.count }
        ensures step { GivesOrNoMemory self.old.world (put_step profile self.old.world n at (record { bytes = bytes; ends = ends })) (put_reply result) self.new.world }
        ensures back { IfErr result (λ e. (e.bytes ≡ bytes) × (e.ends ≡ ends)) }
        ensures full { TakesMore (roomy_at self.old n) at → Gives (put_step profile self.old.world n at (record { bytes = bytes; ends = ends })) (put_reply result) self.new.world }
    {
        self.nodes.node_mut(n).put_as(profile, at, bytes, ends)
    }

    /// Gets the next parcel at an end.
    pub(crate) fn get(&mut self, n: u8, at: End) -> Reply
        requires regular { IsRegular self.old.world }
        requires node { n < self.old.world.count }
        ensures { Gives (get_step self.old.world n at) result self.new.world }
    {
        match self.nodes.node_mut(n).get(at) {
            Ok((number, parcel)) => Reply::Got(number, parcel),
            Err(why) => Reply::Refused(why),
        }
    }

    /// Gets the next parcel at an end; one for a node that isn't there is refused.
    pub(crate) fn get_given(&mut self, n: u8, at: End) -> Reply
        requires { IsRegular self.old.world }
        ensures { StepFirst self.old.world (Step.Get n at) result self.new.world }
    {
        if n >= self.count {
            return Reply::Refused(Refusal::Stranger);
        }
        self.get(n, at)
    }

    /// The sizes of the parcel that a get at an end would give.
    pub(crate) fn next_sizes(&self, n: u8, at: End) -> Option<Sizes>
        requires { IsRegular self.now.world }
        ensures { result ≡ next_sizes self.now.world n at }
    {
        if n >= self.count {
            return None;
        }
        self.nodes.node(n).next_sizes(at)
    }

    /// What gets at an end would answer, one after the other; none at a node that isn't there.
    pub(crate) fn status(&self, n: u8, at: End) -> Option<PortalStatus>
        requires { IsRegular self.now.world }
        ensures here { n < self.now.world.count → IsLook (node_at self.now.world n) at result }
        ensures away { self.now.world.count ≤ n → result ≡ None }
    {
        if n >= self.count {
            return None;
        }
        self.nodes.node(n).status(at)
    }

    /// The first held end of a node, from a router's serial on, where a get isn't `Empty`; none at a node that isn't there.
    pub(crate) fn ready_from(&self, n: u8, serial: u64) -> Option<(u64, End)>
        requires { IsRegular self.now.world }
        ensures here { n < self.now.world.count → IsNextReady (node_at self.now.world n) serial result }
        ensures away { self.now.world.count ≤ n → result ≡ None }
    {
        if n >= self.count {
            return None;
        }
        self.nodes.node(n).ready_from(serial)
    }

    /// Whether an end has arrived; none at a node that isn't there.
    pub(crate) fn has_arrived(&self, n: u8, at: End) -> Option<bool>
        requires { IsRegular self.now.world }
        ensures { result ≡ arrival_in self.now.world n at }
    {
        if n >= self.count {
            return None;
        }
        self.nodes.node(n).has_arrived(at)
    }

    /// Closes an end.
    pub(crate) fn close(&mut self, n: u8, at: End) -> Reply
        requires regular { IsRegular self.old.world }
        requires node { n < self.old.world.count }
        ensures closed { GivesOrNoMemory self.old.world (close_step self.old.world n at) result self.new.world }
        ensures full { TakesMore (roomy_at self.old n) at → Gives (close_step self.old.world n at) result self.new.world }
    {
        match self.nodes.node_mut(n).close(at) {
            Ok(number) => Reply::Closed(number),
            Err(why) => Reply::Refused(why),
        }
    }
}

// A copy of a list of ends.
fn copy_ends(alloc: Global, ends: &Ends) -> Result<Ends, AllocError>
    ensures { IfOk result (λ copy. copy ≡ ends.now) }
{
    let mut copy = Vec::new(alloc);
    copy.extend_from_slice(ends.as_slice())?;
    Ok(Ends::from_vec(copy))
}
