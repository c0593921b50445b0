//! Whether two nodes are alike in all that can be read of them, their strays aside.

use super::{A0, A1, B0, B1, CLEAR, JAMMED};
use ipcz_base::Item;
use ipcz_node::{NodeState, Outbox};
use ipcz_router::Router;

fn same_item(one: Option<&Item>, other: Option<&Item>) -> bool {
    match (one, other) {
        (None, None) => true,
        (Some(Item::Mark), Some(Item::Mark)) | (Some(Item::Gone), Some(Item::Gone)) => true,
        (Some(Item::Parcel(parcel)), Some(Item::Parcel(twin))) => {
            parcel.bytes.as_slice() == twin.bytes.as_slice()
                && parcel.ends.as_slice() == twin.ends.as_slice()
        }
        _ => false,
    }
}

fn same_queues(one: &Router, other: &Router) -> bool {
    one.out_number() == other.out_number()
        && one.next_number() == other.next_number()
        && one.in_number() == other.in_number()
        && same_item(one.out_item(), other.out_item())
        && same_item(one.in_item(), other.in_item())
}

fn same_links(one: &Router, other: &Router) -> bool {
    let (filing, twin) = (one.filing(), other.filing());
    filing.outward == twin.outward
        && filing.outward_decaying == twin.outward_decaying
        && filing.inward == twin.inward
        && filing.inward_decaying == twin.inward_decaying
        && filing.end == twin.end
        && filing.is_open == twin.is_open
        && filing.flagged == twin.flagged
}

// The lengths of the links that decay.
fn same_lengths(one: &Router, other: &Router) -> bool {
    let (outward, twin) = (one.outward(), other.outward());
    let same_outward = outward.length_to() == twin.length_to()
        && outward.length_from() == twin.length_from();
    match (one.inward(), other.inward()) {
        (None, None) => same_outward,
        (Some(inward), Some(its_twin)) => {
            same_outward
                && inward.length_to() == its_twin.length_to()
                && inward.length_from() == its_twin.length_from()
        }
        _ => false,
    }
}

fn same_router(one: &Router, other: &Router) -> bool {
    same_links(one, other)
        && same_lengths(one, other)
        && same_queues(one, other)
        && one.next_act() == other.next_act()
        && one.put_refusal() == other.put_refusal()
}

fn same_routers(one: &[(u64, Router)], other: &[(u64, Router)]) -> bool {
    for (entry, twin) in one.iter().zip(other.iter()) {
        if entry.0 != twin.0 || !same_router(&entry.1, &twin.1) {
            return false;
        }
    }
    one.len() == other.len()
}

// Whether as many messages wait for each node.
fn same_outboxes(one: &[Outbox], other: &[Outbox]) -> bool {
    for (outbox, twin) in one.iter().zip(other.iter()) {
        if outbox.len() != twin.len() {
            return false;
        }
    }
    one.len() == other.len()
}

// Whether callers hold the same ends.
fn same_held(one: &NodeState, other: &NodeState) -> bool {
    for end in [A0, B0, A1, B1] {
        if one.holds(end) != other.holds(end) {
            return false;
        }
    }
    for entry in one.routers() {
        if one.held_from(entry.0) != other.held_from(entry.0) {
            return false;
        }
    }
    true
}

/// Whether the nodes are alike, their strays aside.
pub(super) fn are_alike(one: &NodeState, other: &NodeState) -> bool {
    one.hand() == other.hand()
        && one.opening() == other.opening()
        && one.quiet() == other.quiet()
        && one.next(&CLEAR.mail()) == other.next(&CLEAR.mail())
        && one.next(&JAMMED.mail()) == other.next(&JAMMED.mail())
        && one.pending() == other.pending()
        && same_routers(one.routers(), other.routers())
        && same_outboxes(one.outboxes(), other.outboxes())
        && same_held(one, other)
}
