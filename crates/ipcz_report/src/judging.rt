//! What is wrong with a value that is no command.

ghost use Rattle.std.specs.Prelude.{◌≡◌, ◌<◌, ◌-◌, ℕ, Bool, List, [], ◌∷◌, ◌&&◌, length, map, not, is_some, option_map, IfSome, Some, false};
ghost use Rattle.std.specs.FinSet.{contains};
ghost use Rattle.serde_json.specs.Data.{Data};
ghost use Rattle.serde_json.specs.View.{view};
ghost use Rattle.serde_json.specs.Find.{as_str};
ghost use Rattle.ipcz_script.specs.Each.{each_of};
ghost use Rattle.ipcz_script.specs.Shapes.{values_of, name_in, names_in, command_of, command_in, open_in, put_in, get_in, close_in, turn_in, settle_in, show_in};
ghost use Rattle.ipcz_report.specs.Judging.{at, fits, kind_in, kind_of, same_texts, IsWrong, IsWrongWith};

use crate::values::{fits, is_name_value};
use crate::wrong::{Kind, Wanted, Wrong};
use ipcz_script::{OpenedNames, values_of};
use serde_json::Value;

/// The word that a text is.
fn kind_of(word: &str) -> Option<Kind>
    ensures { result ≡ kind_of word.now }
{
    if word == "open" {
        Some(Kind::Open)
    } else if word == "put" {
        Some(Kind::Put)
    } else if word == "get" {
        Some(Kind::Get)
    } else if word == "close" {
        Some(Kind::Close)
    } else if word == "turn" {
        Some(Kind::Turn)
    } else if word == "settle" {
        Some(Kind::Settle)
    } else if word == "show" {
        Some(Kind::Show)
    } else {
        None
    }
}

// ---- the values behind a word

// What is wrong with a value at this place that isn't what is wanted.
fn unfit(place: usize, wanted: Wanted) -> Option<Wrong>
    ensures { result ≡ Some (Wrong.Value place wanted) }
{
    Some(Wrong::Value { place, wanted })
}

// That these are not as many values as stand behind a word.
fn miscounted(kind: Kind, args: &[Value]) -> Option<Wrong>
    ensures { result ≡ Some (Wrong.Number kind (length (map view args.now))) }
{
    Some(Wrong::Number {
        kind,
        count: args.len(),
    })
}

// What is wrong with a value at this place that isn't a new name: the first of its faults.
fn not_fresh(nodes: u8, opened: &OpenedNames, place: usize, value: &Value) -> Option<Wrong>
    requires { 0 < nodes }
    ensures told { is_some result ≡ not (fits nodes (contains opened.now) Wanted.FreshName (view value.now)) }
    ensures so { IfSome result (λ wrong. (wanted : Wanted) × (wrong ≡ Wrong.Value place wanted)
        × (fits nodes (contains opened.now) wanted (view value.now) ≡ false)) }
{
    if fits(nodes, opened, Wanted::FreshName, value) {
        None
    } else if fits(nodes, opened, Wanted::PlainName, value) {
        unfit(place, Wanted::FreshName)
    } else if fits(nodes, opened, Wanted::Name, value) {
        unfit(place, Wanted::PlainName)
    } else {
        unfit(place, Wanted::Name)
    }
}

fn is_same(first: &Value, second: &Value) -> bool
    ensures { result ≡ same_texts (as_str (view first.now)) (as_str (view second.now)) }
{
    match (first.as_str(), second.as_str()) {
        (Some(first), Some(second)) => first == second,
        _ => false,
    }
}

fn open_wrong(nodes: u8, opened: &OpenedNames, args: &[Value]) -> Option<Wrong>
    requires { 0 < nodes }
    ensures told { is_some result ≡ not (is_some (open_in nodes (contains opened.now) (map view args.now))) }
    ensures so { IfSome result (IsWrongWith nodes (contains opened.now) Kind.Open (map view args.now)) }
{
    let [node, first, second] = args else {
        return miscounted(Kind::Open, args);
    };
    if !fits(nodes, opened, Wanted::Node, node) {
        return unfit(1, Wanted::Node);
    }
    if let Some(wrong) = not_fresh(nodes, opened, 2, first) {
        return Some(wrong);
    }
    if let Some(wrong) = not_fresh(nodes, opened, 3, second) {
        return Some(wrong);
    }
    if is_same(first, second) {
        return Some(Wrong::SameNames);
    }
    None
}

// The place of the first value that is no name, counted from 1.
fn first_other(values: &[Value]) -> Option<usize>
    ensures told { is_some result ≡ not (is_some (each_of name_in (map view values.now))) }
    ensures so { IfSome result (λ place. option_map (λ d. is_some (name_in d)) (at (map view values.now) (place - 1)) ≡ Some false) }
{
    for (i, value) in values.iter().enumerate() {
        if !is_name_value(value) {
            return Some(i + 1);
        }
    }
    None
}

// What is wrong with the third value behind `put`.
fn names_wrong(ends: &Value) -> Option<Wrong>
    ensures told { is_some result ≡ not (is_some (names_in (view ends.now))) }
    ensures so { (nodes : ℕ) (taken : List ℕ → Bool) (before : Data) (text : Data) →
        IfSome result (IsWrongWith nodes taken Kind.Put (before ∷ text ∷ view ends.now ∷ [])) }
{
    let Some(values) = values_of(ends) else {
        return unfit(3, Wanted::List);
    };
    match first_other(values) {
        Some(place) => Some(Wrong::Item { place }),
        None => None,
    }
}

// What is wrong with the first two values behind `put`.
fn parcel_wrong(nodes: u8, opened: &OpenedNames, at: &Value, text: &Value) -> Option<Wrong>
    requires { 0 < nodes }
    ensures told { is_some result ≡ not (is_some (name_in (view at.now)) && is_some (as_str (view text.now))) }
    ensures so { (rest : List Data) →
        IfSome result (IsWrongWith nodes (contains opened.now) Kind.Put (view at.now ∷ view text.now ∷ rest)) }
{
    if !fits(nodes, opened, Wanted::Name, at) {
        return unfit(1, Wanted::Name);
    }
    if !fits(nodes, opened, Wanted::Data, text) {
        return unfit(2, Wanted::Data);
    }
    None
}

fn put_wrong(nodes: u8, opened: &OpenedNames, args: &[Value]) -> Option<Wrong>
    requires { 0 < nodes }
    ensures told { is_some result ≡ not (is_some (put_in (map view args.now))) }
    ensures so { IfSome result (IsWrongWith nodes (contains opened.now) Kind.Put (map view args.now)) }
{
    match args {
        [at, text] => parcel_wrong(nodes, opened, at, text),
        [at, text, ends] => match parcel_wrong(nodes, opened, at, text) {
            Some(wrong) => Some(wrong),
            None => names_wrong(ends),
        },
        _ => miscounted(Kind::Put, args),
    }
}

fn get_wrong(nodes: u8, opened: &OpenedNames, args: &[Value]) -> Option<Wrong>
    requires { 0 < nodes }
    ensures told { is_some result ≡ not (is_some (get_in (map view args.now))) }
    ensures so { IfSome result (IsWrongWith nodes (contains opened.now) Kind.Get (map view args.now)) }
{
    let [at] = args else {
        return miscounted(Kind::Get, args);
    };
    if !fits(nodes, opened, Wanted::Name, at) {
        return unfit(1, Wanted::Name);
    }
    None
}

fn close_wrong(nodes: u8, opened: &OpenedNames, args: &[Value]) -> Option<Wrong>
    requires { 0 < nodes }
    ensures told { is_some result ≡ not (is_some (close_in (map view args.now))) }
    ensures so { IfSome result (IsWrongWith nodes (contains opened.now) Kind.Close (map view args.now)) }
{
    let [at] = args else {
        return miscounted(Kind::Close, args);
    };
    if !fits(nodes, opened, Wanted::Name, at) {
        return unfit(1, Wanted::Name);
    }
    None
}

fn turn_wrong(nodes: u8, opened: &OpenedNames, args: &[Value]) -> Option<Wrong>
    requires { 0 < nodes }
    ensures told { is_some result ≡ not (is_some (turn_in nodes (map view args.now))) }
    ensures so { IfSome result (IsWrongWith nodes (contains opened.now) Kind.Turn (map view args.now)) }
{
    let [node, count] = args else {
        return miscounted(Kind::Turn, args);
    };
    if !fits(nodes, opened, Wanted::Node, node) {
        return unfit(1, Wanted::Node);
    }
    if !fits(nodes, opened, Wanted::Count, count) {
        return unfit(2, Wanted::Count);
    }
    None
}

fn settle_wrong(nodes: u8, opened: &OpenedNames, args: &[Value]) -> Option<Wrong>
    requires { 0 < nodes }
    ensures told { is_some result ≡ not (is_some (settle_in (map view args.now))) }
    ensures so { IfSome result (IsWrongWith nodes (contains opened.now) Kind.Settle (map view args.now)) }
{
    let [limit] = args else {
        return miscounted(Kind::Settle, args);
    };
    if !fits(nodes, opened, Wanted::Limit, limit) {
        return unfit(1, Wanted::Limit);
    }
    None
}

fn show_wrong(args: &[Value]) -> Option<Wrong>
    ensures told { is_some result ≡ not (is_some (show_in (map view args.now))) }
    ensures so { (nodes : ℕ) (taken : List ℕ → Bool) → IfSome result (IsWrongWith nodes taken Kind.Show (map view args.now)) }
{
    match args {
        [] => None,
        _ => miscounted(Kind::Show, args),
    }
}

// What is wrong with the values behind a word.
fn args_wrong(nodes: u8, opened: &OpenedNames, kind: Kind, args: &[Value]) -> Option<Wrong>
    requires { 0 < nodes }
    ensures told { is_some result ≡ not (is_some (kind_in nodes (contains opened.now) kind (map view args.now))) }
    ensures so { IfSome result (IsWrongWith nodes (contains opened.now) kind (map view args.now)) }
{
    match kind {
        Kind::Open => open_wrong(nodes, opened, args),
        Kind::Put => put_wrong(nodes, opened, args),
        Kind::Get => get_wrong(nodes, opened, args),
        Kind::Close => close_wrong(nodes, opened, args),
        Kind::Turn => turn_wrong(nodes, opened, args),
        Kind::Settle => settle_wrong(nodes, opened, args),
        Kind::Show => show_wrong(args),
    }
}

// ---- whole commands

// What is wrong with a list that is to be a command.
fn list_wrong(nodes: u8, opened: &OpenedNames, values: &[Value]) -> Option<Wrong>
    requires { 0 < nodes }
    ensures told { is_some result ≡ not (is_some (command_in nodes (contains opened.now) (map view values.now))) }
    ensures so { (d : Data) → values_of d ≡ Some (map view values.now) → IfSome result (IsWrong nodes (contains opened.now) d) }
{
    let [word, args @ ..] = values else {
        return Some(Wrong::NoWord);
    };
    let Some(word) = word.as_str() else {
        return Some(Wrong::NoWord);
    };
    let Some(kind) = kind_of(word) else {
        return Some(Wrong::UnknownWord);
    };
    args_wrong(nodes, opened, kind, args)
}

/// What is wrong with a value that is to be a command, if there are so many nodes and these names were opened before: the first of its
/// faults, and nothing if it is a command.
pub fn wrong_in(nodes: u8, opened: &OpenedNames, value: &Value) -> Option<Wrong>
    requires some_node { 0 < nodes }
    ensures told { is_some result ≡ not (is_some (command_of nodes (contains opened.now) (view value.now))) }
    ensures so { IfSome result (IsWrong nodes (contains opened.now) (view value.now)) }
{
    let Some(values) = values_of(value) else {
        return Some(Wrong::NoList);
    };
    list_wrong(nodes, opened, values)
}
