//! The files of a directory, and how they follow a router that has changed.
ghost use Rattle.std.specs.Prelude.{ℕ, ◌≡◌, ◌==◌, ◌+◌, ◌<◌, ◌≤◌, ◌&&◌, ◌||◌, not, false, if◌then◌else◌};
ghost use Rattle.std.specs.Ordering.{nat_cmp};
ghost use Rattle.ipcz_base.specs.Links.{has_link};
ghost use Rattle.ipcz_base.specs.Orders.{end_cmp};
ghost use Rattle.ipcz_base.specs.Ends.{same_end};
ghost use Rattle.ipcz_base.specs.declared.end.End.{End as EndRecord};
ghost use Rattle.ipcz_router.specs.Filings.{is_under, gained_by, link_gain};
ghost use Rattle.ipcz_node.specs.LinkPlaces.{place_cmp, link_place};
ghost use Rattle.ipcz_node.specs.Directories.{CanRefile, AreRefiled};
ghost use Rattle.ipcz_node.specs.SortedSets.{has};
ghost use Rattle.ipcz_node.specs.Indexes.{is_filed};

use crate::flags::Flags;
use crate::index::Index;
use crate::link_place::LinkPlace;
use ipcz_base::{End, LinkEnd, LinkId, Side};
use ipcz_router::Filing;

/// Where the routers of a node are filed: by their links, by the ends whose open terminals they are, and by their flags.
#[derive(Drop)]
pub(super) struct Files {
    pub(super) links: Index<LinkPlace>,
    pub(super) terminals: Index<End>,
    pub(super) flagged: Flags,
}

impl Files {
    /// Files what was done with the router of a serial, from where it was filed to where it is to be.
    #[inline(always)]
    pub(super) fn refile(&mut self, serial: u64, was: &Filing, is: &Filing)
        requires { CanRefile self.old.links self.old.terminals self.old.flagged serial was.now is.now }
        ensures { AreRefiled self.old.links self.new.links self.old.terminals self.new.terminals self.old.flagged self.new.flagged
            serial was.now is.now }
    {
        relink(&mut self.links, serial, was, is);
        close_end(&mut self.terminals, serial, was, is);
        follow(&mut self.flagged, serial, was.flagged, is.flagged);
    }

    /// The same, if the router has given up no more than one link and has no other that it hadn't.
    #[inline(always)]
    pub(super) fn unfile(&mut self, serial: u64, gone: &Option<LinkEnd>, was: &Filing, is: &Filing)
        requires can { CanRefile self.old.links self.old.terminals self.old.flagged serial was.now is.now }
        requires gone { (link : LinkId) (side : Side) →
            is_under was.now link side ≡ (is_under is.now link side || has_link gone.now link side) }
        ensures { AreRefiled self.old.links self.new.links self.old.terminals self.new.terminals self.old.flagged self.new.flagged
            serial was.now is.now }
    {
        unlink(&mut self.links, serial, gone, is);
        close_end(&mut self.terminals, serial, was, is);
        follow(&mut self.flagged, serial, was.flagged, is.flagged);
    }
}

// One link only, which is taken away if it isn't kept.
#[inline(always)]
fn unlink(links: &mut Index<LinkPlace>, serial: u64, gone: &Option<LinkEnd>, is: &Filing)
    requires { (link : LinkId) (side : Side) → is_filed place_cmp links.old.members (link_place link side) serial ≡
        (is_under is.now link side || has_link gone.now link side) }
    ensures members { (link : LinkId) (side : Side) (s : ℕ) → is_filed place_cmp links.new.members (link_place link side) s
        ≡ (if serial == s then is_under is.now link side else is_filed place_cmp links.old.members (link_place link side) s) }
    ensures room { links.old.room ≤ links.new.room }
{
    drop_link(links, serial, gone, is);
}

// The terminals only.
#[inline(always)]
fn close_end(terminals: &mut Index<End>, serial: u64, was: &Filing, is: &Filing)
    requires filed { (end : EndRecord) → is_filed end_cmp terminals.old.members end serial ≡ (was.now.is_open && same_end was.now.end end) }
    requires closes { was.now.is_open ≡ false → is.now.is_open ≡ false }
    requires stays { is.now.end ≡ was.now.end }
    ensures members { (end : EndRecord) (s : ℕ) → is_filed end_cmp terminals.new.members end s
        ≡ (if serial == s then is.now.is_open && same_end is.now.end end else is_filed end_cmp terminals.old.members end s) }
    ensures room { terminals.old.room ≤ terminals.new.room }
{
    if was.is_open && !is.is_open {
        terminals.remove(was.end, serial);
    }
}

// The links only: those that are kept stay, so that only new ones want room.
#[inline(always)]
fn relink(links: &mut Index<LinkPlace>, serial: u64, was: &Filing, is: &Filing)
    requires room { link_gain was.now is.now ≤ links.old.room }
    requires filed { (link : LinkId) (side : Side) → is_filed place_cmp links.old.members (link_place link side) serial ≡
        is_under was.now link side }
    ensures members { (link : LinkId) (side : Side) (s : ℕ) → is_filed place_cmp links.new.members (link_place link side) s
        ≡ (if serial == s then is_under is.now link side else is_filed place_cmp links.old.members (link_place link side) s) }
    ensures room { links.old.room ≤ links.new.room + link_gain was.now is.now }
{
    drop_link(links, serial, &was.outward, is);
    drop_link(links, serial, &was.outward_decaying, is);
    drop_link(links, serial, &was.inward, is);
    drop_link(links, serial, &was.inward_decaying, is);
    file_link(links, serial, &is.outward, was);
    file_link(links, serial, &is.outward_decaying, was);
    file_link(links, serial, &is.inward, was);
    file_link(links, serial, &is.inward_decaying, was);
}

// Takes a link away, if the filing hasn't it.
#[inline(always)]
fn drop_link(links: &mut Index<LinkPlace>, serial: u64, old: &Option<LinkEnd>, kept: &Filing)
    ensures members { (link : LinkId) (side : Side) (s : ℕ) → is_filed place_cmp links.new.members (link_place link side) s
        ≡ (not (not (is_under kept.now link side) && (serial == s && has_link old.now link side)) &&
        is_filed place_cmp links.old.members (link_place link side) s) }
    ensures room { links.old.room ≤ links.new.room }
{
    match *old {
        Some(e) => {
            if !kept.is_under(e.link, e.side) {
                links.remove(LinkPlace::of(e.link, e.side), serial);
            }
        }
        None => {}
    }
}

// Files a link, if the filing hadn't it.
#[inline(always)]
fn file_link(links: &mut Index<LinkPlace>, serial: u64, new: &Option<LinkEnd>, was: &Filing)
    requires { gained_by was.now new.now ≤ links.old.room }
    ensures members { (link : LinkId) (side : Side) (s : ℕ) → is_filed place_cmp links.new.members (link_place link side) s
        ≡ ((not (is_under was.now link side) && (serial == s && has_link new.now link side)) ||
        is_filed place_cmp links.old.members (link_place link side) s) }
    ensures room { links.old.room ≤ links.new.room + gained_by was.now new.now }
{
    match *new {
        Some(e) => {
            if !was.is_under(e.link, e.side) {
                links.add(LinkPlace::of(e.link, e.side), serial);
            }
        }
        None => {}
    }
}

// Keeps the set of flagged serials after what was done with the router of a serial. That is all that is to be filed if its links
// stay, and whether it is an open terminal.
#[inline(always)]
pub(super) fn follow(flagged: &mut Flags, serial: u64, was_flagged: bool, is_flagged: bool)
    requires was { has nat_cmp flagged.old.members serial ≡ was_flagged }
    requires room { was_flagged ≡ false → 0 < flagged.old.room }
    ensures members { (s : ℕ) → has nat_cmp flagged.new.members s ≡
        (if serial == s then is_flagged else has nat_cmp flagged.old.members s) }
    ensures room { flagged.old.room + (if was_flagged then 1 else 0) ≤ flagged.new.room + (if is_flagged then 1 else 0) }
{
    match (was_flagged, is_flagged) {
        (false, true) => flagged.insert(serial),
        (true, false) => flagged.remove(serial),
        (true, true) | (false, false) => {}
    }
}
