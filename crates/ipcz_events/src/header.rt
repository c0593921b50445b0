//! The first line of a log with events.
ghost use Rattle.std.specs.Prelude.{◌≡◌, IfSome};
ghost use Rattle.serde_json.specs.View.{view};
ghost use Rattle.ipcz_script.specs.ScriptLimits.{HasScriptLimits};
ghost use Rattle.ipcz_events.specs.Reading.{header_in};

use ipcz_node::first_pair_count;
use ipcz_script::number_within;
use serde_json::Value;

/// The first line of a log with events: how many nodes and link words the implementation has (docs/JUDGE.md, "Events").
#[derive(Clone, Copy, Debug, PartialEq, Eq)]
pub struct Header {
    pub nodes: u8,
    pub words: u32,
}

/// The header that a JSON value is, if it is one: `nodes` is 1 to 8, and `words` from the number of first pairs to 4,096. Other members are
/// passed over.
pub fn header_in(value: &Value) -> Option<Header>
    ensures header { result ≡ header_in (view value.now) }
    ensures limits { IfSome result (λ header. HasScriptLimits header.nodes header.words) }
{
    let nodes = number_within(1, 8, value.get("nodes")?)? as u8;
    let words = number_within(first_pair_count(nodes), 4096, value.get("words")?)?;
    Some(Header { nodes, words })
}
