//! Where a get sleeps until something comes at its end.
use crate::hub::Hub;
use ipcz_cell::{FabricName, Ticket};
use std::sync::Wait;
use std::time::Duration;

/// Where a get sleeps at its node, until it is woken.
#[derive(Clone, Copy)]
pub(crate) enum Rest {
    /// On a chair, whose bell was this number when it sat down.
    Chair { place: usize, number: u32 },
    /// Among all that wait for a message to be handled at the node: it has found no chair.
    Crowd(Ticket),
}

/// Sleeps there until the get is woken, for no longer than `limit`. It returns at once if it was woken already, and may also return for no reason.
pub(crate) fn sleep_at<F: FabricName, R: Wait>(
    rt: &R,
    hub: &Hub<F>,
    node: u8,
    rest: Option<Rest>,
    limit: Duration,
) {
    match rest {
        Some(Rest::Chair { place, number }) => hub.chairs().sleep(rt, node, place, number, limit),
        Some(Rest::Crowd(ticket)) => hub.fabric().news().sleep(rt, node, ticket, limit),
        None => {}
    }
}
