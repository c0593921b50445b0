//! Calls, judged by the books.

ghost use Rattle.std.specs.Prelude.{◌≡◌, false, option_map, IfOk, OnOk};
ghost use Rattle.ipcz_world.specs.declared.step.Step.TheVariants as Step;
ghost use Rattle.ipcz_world.specs.declared.step.Reply.TheVariants as Reply;
ghost use Rattle.ipcz_verdict.specs.Ledger.{put_step};
ghost use Rattle.ipcz_verdict.specs.Desks.{DecidesCall, may_refuse_close, may_refuse_get, may_refuse_open, may_refuse_put, next_ends, receiving, Sends};

use crate::books;
use crate::portal::Portal;
use ipcz_base::{End, LAST, Parcel, Profile, Refusal};
use std::alloc::{AllocError, Global};

// ---- which refusals may come
/// Whether such a call may be refused so.
pub(crate) fn may_refuse_open(nodes: u8, node: u8, why: Refusal) -> bool
    ensures { result ≡ may_refuse_open nodes node why }
{
    match why {
        Refusal::Stranger => node >= nodes,
        Refusal::NoWord | Refusal::NumbersEnd | Refusal::OutOfMemory => node < nodes,
        _ => false,
    }
}

/// Whether such a call may be refused so.
pub(crate) fn may_refuse_get(portals: &[Portal], node: u8, at: End, why: Refusal) -> bool
    ensures { result ≡ may_refuse_get portals.now node at why }
{
    match why {
        Refusal::Stranger => !books::holds(portals, node, at),
        Refusal::Empty => books::holds(portals, node, at),
        Refusal::PeerClosed => {
            books::holds(portals, node, at)
                && books::is_closed(portals, at.opposite())
                && books::first_waiting(portals, at).is_none()
        }
        _ => false,
    }
}

/// Whether such a call may be refused so.
pub(crate) fn may_refuse_close(portals: &[Portal], node: u8, at: End, why: Refusal) -> bool
    ensures { result ≡ may_refuse_close portals.now node at why }
{
    match why {
        Refusal::Stranger => !books::holds(portals, node, at),
        Refusal::OutOfMemory => books::holds(portals, node, at),
        _ => false,
    }
}

/// Whether such a call may be refused so.
pub(crate) fn may_refuse_put(
    first: Option<Refusal>,
    portals: &[Portal],
    nodes: u8,
    node: u8,
    at: End,
    why: Refusal,
) -> bool
    ensures { result ≡ may_refuse_put first portals.now nodes node at why }
{
    if let Some(first) = first {
        return why.code() == first.code()
            || (why.code() == Refusal::OutOfMemory.code() && node < nodes);
    }
    match why {
        Refusal::PeerClosed => books::is_closed(portals, at.opposite()),
        Refusal::NumbersEnd => books::put_count(portals, at) >= LAST,
        Refusal::OutOfMemory => node < nodes,
        _ => false,
    }
}

// ---- calls that aren't refused

// Puts the parcel, for a portal that may be closed.
fn send(portals: &mut [Portal], at: End, parcel: Parcel) -> Result<(), AllocError>
    ensures { OnOk result (Sends portals.old at parcel portals.new) }
{
    books::count_put(portals, at)?;
    books::hold_all(portals, parcel.ends.as_slice(), None);
    let peer = at.opposite();
    if books::is_closed(portals, peer) {
        books::close_dropped(portals, parcel.ends.into_vec())?;
        return Ok(());
    }
    books::push(portals, peer, parcel)?;
    Ok(())
}

/// A put that was accepted.
pub(crate) fn put(
    portals: &mut [Portal],
    profile: Profile,
    node: u8,
    at: End,
    parcel: Parcel,
    number: u64,
) -> Result<bool, AllocError>
    ensures decided { IfOk result (λ allowed. DecidesCall portals.old (put_step profile node at parcel.bytes parcel.ends) (Reply.Put number) allowed portals.new) }
    ensures kept { IfOk result (λ allowed. allowed ≡ false → portals.new ≡ portals.old) }
{
    let bytes = parcel.bytes.as_slice();
    let ends = parcel.ends.as_slice();
    if books::first_refusal(portals, profile, node, at, bytes, ends).is_some() {
        return Ok(false);
    }
    if books::put_count(portals, at) != number {
        return Ok(false);
    }
    send(portals, at, parcel)?;
    Ok(true)
}

/// A close.
pub(crate) fn close(
    alloc: Global,
    portals: &mut [Portal],
    node: u8,
    at: End,
    number: u64,
) -> Result<bool, AllocError>
    ensures decided { IfOk result (λ allowed. DecidesCall portals.old (Step.Close node at) (Reply.Closed number) allowed portals.new) }
    ensures kept { IfOk result (λ allowed. allowed ≡ false → portals.new ≡ portals.old) }
{
    if !books::holds(portals, node, at) {
        return Ok(false);
    }
    if books::put_count(portals, at) != number {
        return Ok(false);
    }
    let mut dropped = Vec::new(alloc);
    books::shut(portals, at, &mut dropped)?;
    books::close_dropped(portals, dropped)?;
    Ok(true)
}

/// The portals in the parcel that comes next at a portal, if it may be got there with this number and these bytes.
pub(crate) fn next_ends(
    alloc: Global,
    portals: &[Portal],
    node: u8,
    at: End,
    number: u64,
    bytes: &[u8],
) -> Result<Option<Vec<End>>, AllocError>
    ensures { IfOk result (λ ends. option_map (λ v. v.items) ends ≡ next_ends portals.now node at number bytes.now) }
{
    if !books::holds(portals, node, at) || books::got_count(portals, at) != number {
        return Ok(None);
    }
    match books::first_waiting(portals, at) {
        Some(parcel) if parcel.bytes.as_slice() == bytes => {
            Ok(Some(Vec::from_slice(alloc, parcel.ends.as_slice())?))
        }
        _ => Ok(None),
    }
}

/// The parcel that comes next, which has these portals, was got.
pub(crate) fn receive(
    portals: &mut [Portal],
    node: u8,
    at: End,
    ends: &[End],
) -> Result<(), AllocError>
    ensures { OnOk result (portals.new ≡ receiving portals.old node at ends.now) }
{
    books::take(portals, at)?;
    books::hold_all(portals, ends, Some(node));
    Ok(())
}
