//! The judge's books: of each portal who holds it, what was put, what was got, and what waits.

ghost use Rattle.std.specs.Prelude.{◌≡◌, ◌||◌, ◌++◌, nat_lt, length, slice_get, OnOk};
ghost use Rattle.std.specs.Option.{option_copied};
ghost use Rattle.ipcz_base.specs.Ends.{has_end};
ghost use Rattle.ipcz_base.specs.Limits.{is_printable, most_bytes, most_ends, takes_bytes};
ghost use Rattle.ipcz_promise.specs.Promise.{first_refusal, hold_each, holds};
ghost use Rattle.ipcz_verdict.specs.Desks.{account_of, closing, ClosesDropped, counting_put, ends_in, holding, holding_each, index, IsIndex, portal_at, pushing, taking};

use crate::portal::Portal;
use ipcz_base::{End, Parcel, Profile, Refusal, Side};
use std::alloc::AllocError;

// ---- what the books say

// Where the book of a portal stands among so many; beyond them if there is none.
fn index(count: usize, end: End) -> usize
    ensures { IsIndex count end result }
{
    let half = count / 2 + count % 2;
    if half as u64 <= end.pair {
        return count;
    }
    let pair = end.pair as usize;
    match end.side {
        Side::A => 2 * pair,
        Side::B => 2 * pair + 1,
    }
}

// The book of a portal, if there is one.
fn book(portals: &[Portal], end: End) -> Option<&Portal>
    ensures { option_copied result ≡ slice_get portals.now (index end) }
{
    portals.get(index(portals.len(), end))
}

/// Whether callers of the node hold the portal.
pub(crate) fn holds(portals: &[Portal], node: u8, end: End) -> bool
    ensures { result ≡ holds (account_of portals.now) node end }
{
    match book(portals, end) {
        Some(portal) => portal.holder == Some(node),
        None => false,
    }
}

/// Whether the portal is closed.
pub(crate) fn is_closed(portals: &[Portal], end: End) -> bool
    ensures { result ≡ (portal_at portals.now end).closed }
{
    match book(portals, end) {
        Some(portal) => portal.closed,
        None => false,
    }
}

/// How many parcels were put at the portal.
pub(crate) fn put_count(portals: &[Portal], end: End) -> u64
    ensures { result ≡ (portal_at portals.now end).put }
{
    match book(portals, end) {
        Some(portal) => portal.put,
        None => 0,
    }
}

/// How many parcels were got at the portal.
pub(crate) fn got_count(portals: &[Portal], end: End) -> u64
    ensures { result ≡ (portal_at portals.now end).got }
{
    match book(portals, end) {
        Some(portal) => portal.got,
        None => 0,
    }
}

/// The first parcel that waits for the portal.
pub(crate) fn first_waiting(portals: &[Portal], end: End) -> Option<&Parcel>
    ensures { option_copied result ≡ slice_get (portal_at portals.now end).waiting 0 }
{
    match book(portals, end) {
        Some(portal) => portal.waiting.first(),
        None => None,
    }
}

/// Whether the end is among these.
pub(crate) fn has_end(end: End, ends: &[End]) -> bool
    ensures { result ≡ has_end end ends.now }
{
    match ends {
        [] => false,
        [first, rest @ ..] => *first == end || has_end(end, rest),
    }
}

// Whether callers of the node hold each of these, and none stands twice.
fn hold_each(portals: &[Portal], node: u8, ends: &[End]) -> bool
    ensures { result ≡ hold_each (account_of portals.now) node ends.now }
{
    match ends {
        [] => true,
        [first, rest @ ..] => {
            holds(portals, node, *first) && !has_end(*first, rest) && hold_each(portals, node, rest)
        }
    }
}

// Whether a put has more bytes or portals than a parcel may have.
fn is_too_large(profile: Profile, bytes: &[u8], ends: &[End]) -> bool
    ensures { result ≡ (nat_lt (most_bytes profile) (length bytes.now) || nat_lt most_ends (length ends.now)) }
{
    let most_bytes = match profile {
        Profile::Printed => 256,
        Profile::Wide => 65_536,
    };
    bytes.len() > most_bytes || ends.len() > 8
}

// Whether the profile takes each of these bytes.
fn takes_bytes(profile: Profile, bytes: &[u8]) -> bool
    ensures { result ≡ takes_bytes profile bytes.now }
{
    match profile {
        Profile::Printed => is_printable(bytes),
        Profile::Wide => true,
    }
}

// Whether each byte is printable.
fn is_printable(bytes: &[u8]) -> bool
    ensures { result ≡ is_printable bytes.now }
{
    let mut all = true;
    for b in bytes {
        all &= (0x20 <= *b) & (*b <= 0x7E);
    }
    all
}

/// Why a put is refused whatever its peer does.
pub(crate) fn first_refusal(
    portals: &[Portal],
    profile: Profile,
    node: u8,
    at: End,
    bytes: &[u8],
    ends: &[End],
) -> Option<Refusal>
    ensures { result ≡ first_refusal profile (account_of portals.now) node at bytes.now ends.now }
{
    if !holds(portals, node, at) {
        Some(Refusal::Stranger)
    } else if is_too_large(profile, bytes, ends) {
        Some(Refusal::TooMany)
    } else if !takes_bytes(profile, bytes) {
        Some(Refusal::BadData)
    } else if has_end(at, ends) {
        Some(Refusal::SelfAttach)
    } else if has_end(at.opposite(), ends) {
        Some(Refusal::PeerAttach)
    } else if !hold_each(portals, node, ends) {
        Some(Refusal::Stranger)
    } else {
        None
    }
}

// ---- changes of the books

// Notes who holds the portal.
fn hold(portals: &mut [Portal], end: End, holder: Option<u8>)
    ensures { portals.new ≡ holding portals.old end holder }
{
    let i = index(portals.len(), end);
    if i < portals.len() {
        portals[i].holder = holder;
    }
}

/// Notes who holds these portals.
pub(crate) fn hold_all(portals: &mut [Portal], ends: &[End], holder: Option<u8>)
    ensures { portals.new ≡ holding_each portals.old ends.now holder }
{
    for end in ends {
        hold(portals, *end, holder);
    }
}

/// Notes that one parcel more was put at the portal.
pub(crate) fn count_put(portals: &mut [Portal], end: End) -> Result<(), AllocError>
    ensures { OnOk result (portals.new ≡ counting_put portals.old end) }
{
    let i = index(portals.len(), end);
    if i < portals.len() {
        portals[i].count_put()?;
    }
    Ok(())
}

/// Notes that a parcel waits for the portal, behind all others.
pub(crate) fn push(portals: &mut [Portal], end: End, parcel: Parcel) -> Result<(), AllocError>
    ensures { OnOk result (portals.new ≡ pushing portals.old end parcel) }
{
    let i = index(portals.len(), end);
    if i < portals.len() {
        portals[i].waiting.push(parcel)?;
    }
    Ok(())
}

/// Notes that the first parcel that waits for the portal was got.
pub(crate) fn take(portals: &mut [Portal], end: End) -> Result<(), AllocError>
    ensures { OnOk result (portals.new ≡ taking portals.old end) }
{
    let i = index(portals.len(), end);
    if i < portals.len() {
        portals[i].take()?;
    }
    Ok(())
}

/// Notes that the portal was closed. The portals in what waits for it join those of `dropped`.
pub(crate) fn shut(
    portals: &mut [Portal],
    end: End,
    dropped: &mut Vec<End>,
) -> Result<(), AllocError>
    ensures portals { OnOk result (portals.new ≡ closing portals.old end) }
    ensures dropped { OnOk result (dropped.new.items ≡ dropped.old.items ++ ends_in (portal_at portals.old end).waiting) }
{
    let i = index(portals.len(), end);
    if i < portals.len() {
        portals[i].close(dropped)?;
    }
    Ok(())
}

/// Closes the portals that were dropped, and those that are dropped thereby.
///
/// Each portal is closed once, so the count of the loop never ends; if it did, the answer would be that of want of memory.
pub(crate) fn close_dropped(portals: &mut [Portal], mut dropped: Vec<End>) -> Result<(), AllocError>
    ensures { OnOk result (ClosesDropped portals.old dropped.items portals.new) }
{
    for _ in 0..u64::MAX {
        let Some(end) = dropped.pop() else {
            return Ok(());
        };
        if !is_closed(portals, end) {
            shut(portals, end, &mut dropped)?;
        }
    }
    Err(AllocError)
}
