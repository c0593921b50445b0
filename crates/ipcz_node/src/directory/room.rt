//! Room in the files, made before an act that mustn't fail for want of it.
ghost use Rattle.std.specs.Prelude.{◌≡◌, ◌+◌, ◌<◌, ◌≤◌, ◌^◌, ◌||◌};
ghost use Rattle.ipcz_base.specs.Links.{has_link};
ghost use Rattle.ipcz_node.specs.Directories.{takes_inside, ends_given, ends_taken};
ghost use Rattle.std.specs.Prelude.{length, IfSome, IfNone};
ghost use Rattle.ipcz_base.specs.Items.{ends_in};

use crate::held_ends::HeldEnds;
use ipcz_base::{Item, LinkEnd, LinkId, Side};
use ipcz_router::Filing;
use ipcz_router::act::{Applied, RouterAct};

// Makes room to hold so many ends more than these, and some besides, and tells how many all of the first are.
pub(super) fn make_room(
    held: &mut HeldEnds,
    ends: usize,
    beside: usize,
    more: usize,
) -> Option<usize>
    requires { ends + beside ≤ held.old.room }
    ensures some { IfSome result (λ all. (all ≡ ends + more) × (all + beside ≤ held.new.room)) }
    ensures none { IfNone result (held.old.room < ends + beside + more) }
    ensures ends { held.new.ends ≡ held.old.ends }
    ensures room { held.old.room ≤ held.new.room }
{
    if more <= held.room() - ends - beside {
        return Some(ends + more);
    }
    let all = sum(ends, more)?;
    match held.reserve(sum(all, beside)?) {
        Ok(()) => Some(all),
        Err(_) => None,
    }
}

// How many serials to make room for in the set of the flagged routers, and in that of the ready ones, apart from those that are there: one for
// each router, if routers are made; else each has its room. None if that is no number.
pub(super) fn flags_wanted(len: usize, routers: usize) -> Option<usize>
    ensures some { IfSome result (λ n. 0 < routers → n ≡ len + routers) }
    ensures none { IfNone result (2 ^ 64 ≤ len + routers) }
{
    if routers == 0 {
        Some(0)
    } else {
        sum(len, routers)
    }
}

// The sum of two numbers, if it fits.
pub(super) fn sum(a: usize, b: usize) -> Option<usize>
    ensures some { IfSome result (λ n. n ≡ a + b) }
    ensures none { IfNone result (2 ^ 64 ≤ a + b) }
{
    a.checked_add(b)
}

// How many ends travel with an item.
pub(crate) fn count_ends(item: &Item) -> usize
    ensures { result ≡ length (ends_in item.now) }
{
    match item {
        Item::Parcel(parcel) => parcel.ends.len(),
        Item::Mark | Item::Gone => 0,
    }
}

// How many ends an act takes out of the in queue.
pub(super) fn ends_taken(act: RouterAct, given: &Applied) -> usize
    ensures { result ≡ ends_taken act given.now }
{
    if takes_inside(act) {
        ends_given(given)
    } else {
        0
    }
}

#[tactic(auto, unfolding(crate::specs::Directories::takes_inside))]
fn takes_inside(act: RouterAct) -> bool
    ensures { result ≡ takes_inside act }
{
    match act {
        RouterAct::SendIn | RouterAct::Discard => true,
        _ => false,
    }
}

#[tactic(auto, unfolding(crate::specs::Directories::ends_given))]
fn ends_given(given: &Applied) -> usize
    ensures { result ≡ ends_given given.now }
{
    match given {
        Applied::Sent(_, _, item) | Applied::Discarded(_, item) => count_ends(item),
        Applied::Nothing | Applied::Message(_, _) => 0,
    }
}

// Whether the outward edge has the link at the side.
pub(super) fn is_outward(filing: &Filing, link: LinkId, side: Side) -> bool
    ensures { result ≡ (has_link filing.now.outward link side || has_link filing.now.outward_decaying link side) }
{
    is_link(filing.outward, link, side) || is_link(filing.outward_decaying, link, side)
}

#[tactic(auto, unfolding(ipcz_base::specs::Links::has_link))]
fn is_link(end: Option<LinkEnd>, link: LinkId, side: Side) -> bool
    ensures { result ≡ has_link end link side }
{
    match end {
        Some(end) => end.link == link && end.side == side,
        None => false,
    }
}
