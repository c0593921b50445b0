//! What the values of a command have to be.

ghost use Rattle.std.specs.Prelude.{◌≡◌, ◌<◌, false, is_some};
ghost use Rattle.std.specs.Option.{option_map_or};
ghost use Rattle.std.specs.FinSet.{contains};
ghost use Rattle.std.specs.List.{list_all};
ghost use Rattle.serde_json.specs.View.{view};
ghost use Rattle.serde_json.specs.Find.{as_str};
ghost use Rattle.ipcz_script.specs.ScriptNames.{is_name, is_name_byte, has_angle};
ghost use Rattle.ipcz_script.specs.Shapes.{name_in, new_name_in};
ghost use Rattle.ipcz_report.specs.Judging.{fits, is_plain_name};

use crate::wrong::Wanted;
use ipcz_script::{OpenedNames, number_within, values_of};
use serde_json::Value;

const MAX_COUNT: u32 = 1_000_000;

fn has_name_bytes(text: &str) -> bool
    ensures { result ≡ list_all is_name_byte text.now }
{
    text.bytes()
        .all(|b| b.is_ascii_alphanumeric() || b == b'_' || b == b'>')
}

fn has_angle(text: &str) -> bool
    ensures { result ≡ has_angle text.now }
{
    text.bytes().any(|b| b == b'>')
}

fn is_name(text: &str) -> bool
    ensures { result ≡ is_name text.now }
{
    1 <= text.len() && text.len() <= 16 && has_name_bytes(text)
}

/// Whether a value is the name of a portal.
pub fn is_name_value(value: &Value) -> bool
    ensures name { result ≡ is_some (name_in (view value.now)) }
{
    match value.as_str() {
        Some(text) => is_name(text),
        None => false,
    }
}

fn is_plain_value(value: &Value) -> bool
    ensures { result ≡ option_map_or is_plain_name (as_str (view value.now)) false }
{
    match value.as_str() {
        Some(text) => is_name(text) && !has_angle(text),
        None => false,
    }
}

fn is_fresh_value(opened: &OpenedNames, value: &Value) -> bool
    ensures { result ≡ is_some (new_name_in (contains opened.now) (view value.now)) }
{
    match value.as_str() {
        Some(text) => is_name(text) && !has_angle(text) && !opened.has(text),
        None => false,
    }
}

/// Whether a value is what it has to be, if there are so many nodes and these names were opened before.
pub fn fits(nodes: u8, opened: &OpenedNames, wanted: Wanted, value: &Value) -> bool
    requires some_node { 0 < nodes }
    ensures fits { result ≡ fits nodes (contains opened.now) wanted (view value.now) }
{
    match wanted {
        Wanted::Node => number_within(0, u32::from(nodes - 1), value).is_some(),
        Wanted::Count => number_within(1, MAX_COUNT, value).is_some(),
        Wanted::Limit => number_within(0, MAX_COUNT, value).is_some(),
        Wanted::Name => is_name_value(value),
        Wanted::PlainName => is_plain_value(value),
        Wanted::FreshName => is_fresh_value(opened, value),
        Wanted::Data => value.is_string(),
        Wanted::List => values_of(value).is_some(),
    }
}
