//! Reading the first line of a log.
ghost use Rattle.std.specs.Prelude.{◌≡◌, ◌≤◌, IfSome};
ghost use Rattle.serde_json.specs.View.{view};
ghost use Rattle.ipcz_log.specs.Logs.{header_in, logs_in, profile_in};

use crate::answers::{number_in, text_in};
use ipcz_base::Profile;
use serde_json::Value;

/// The first line of a log: how many nodes the implementation has, and what its puts may have in them (docs/JUDGE.md, "The first line").
#[derive(Clone, Copy, Debug, PartialEq, Eq)]
pub struct Header {
    pub nodes: u8,
    pub profile: Profile,
    /// How many logs there are, of which only the order within each is known (docs/JUDGE.md, "Several logs"); if nothing is said, there is one log, in one order.
    pub logs: Option<u8>,
}

// The profile of a log, which is that of any bytes if nothing is said.
fn profile_in(value: &Value) -> Profile
    ensures { result ≡ profile_in (view value.now) }
{
    match text_in(value, "profile") {
        Some(name) if name == "printed" => Profile::Printed,
        _ => Profile::Wide,
    }
}

// How many logs there are, if that is said; none if it is said, and there can't be so many.
fn logs_in(value: &Value) -> Option<Option<u8>>
    ensures { result ≡ logs_in (view value.now) }
{
    match number_in(value, "logs") {
        None => Some(None),
        Some(logs) if 1 <= logs && logs <= 64 => Some(Some(logs as u8)),
        Some(_) => None,
    }
}

/// The header that a value is, if it is one.
pub(crate) fn header_in(value: &Value) -> Option<Header>
    ensures header { result ≡ header_in (view value.now) }
    ensures nodes { IfSome result (λ header. (1 ≤ header.nodes) × (header.nodes ≤ 8)) }
    ensures logs { IfSome result (λ header. IfSome header.logs (λ logs. logs ≤ 64)) }
{
    let logs = logs_in(value)?;
    match number_in(value, "nodes") {
        Some(nodes) if 1 <= nodes && nodes <= 8 => Some(Header {
            nodes: nodes as u8,
            profile: profile_in(value),
            logs,
        }),
        _ => None,
    }
}
