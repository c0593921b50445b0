//! The portals of a run that settles before its first turn, or takes no more turns than it settles, by the names that its calls use.
//!
//! Such a run tells little or nothing of the routers that its calls are at. But nothing moves before its first settle or turn: up to there each
//! first portal `i>j` is at node i, and an opened one at the node that opened it, which no line tells.

ghost use Rattle.std.specs.Prelude.{◌≡◌, ◌+◌, ◌≤◌, ◌<◌, ◌≢◌, ◌⊎◌, ℕ, List, [], length, true, IfSome, IfNone, IfOk, OnOk};
ghost use Rattle.std.specs.List.{All, AllWithin, Any, HoldsAt};
ghost use Rattle.ipcz_messages.specs.Named.{AllCallsNamed, AllOpensNamed, AreAllNamed, AreDistinct, ArePlaced, IsCallAt, IsCloseOf, IsFirstName, IsFirstOfName, IsNoted};
ghost use Rattle.ipcz_messages.specs.Named.{IsFirstStir, IsOpenOf, IsPlaceOfName, IsTold, KeepsNames, NotesItsClose, is_turn, portals_at, settle_count, stirs};
ghost use Rattle.ipcz_messages.specs.Named.{turn_count, TellsOfRouters};

use crate::calls::{nodes_of_name, portal_of};
use crate::messages::is_settle;
use crate::moves::lines_in_sight;
use ipcz_lines::{Answer, Line, ReadLine};
use std::alloc::{AllocError, Global};

/// At most so many portals are named.
const MOST_NAMED: usize = 32;

/// A portal by its name: the node that it is at up to the first settle or turn, if its name tells that, its place among those of that node or among the
/// opened ones, its first line, and the line that closes it, if there is one.
#[derive(Clone, Copy)]
pub struct NamedPortal<'a> {
    pub name: &'a [u8],
    pub node: Option<u8>,
    pub place: usize,
    pub first: usize,
    pub closed: Option<usize>,
}

// Whether a line is of a turn.
fn is_turn(read: &ReadLine) -> bool
    ensures { result ≡ is_turn read.now.line }
{
    matches!(read.line, Line::Turn { .. })
}

// Whether any of the lines is of a turn.
fn has_turns(lines: &[ReadLine]) -> bool
    ensures some { result ≡ true → Any (λ x. is_turn x.line ≡ true) lines.now }
    ensures all { Any (λ x. is_turn x.line ≡ true) lines.now → result ≡ true }
{
    lines.iter().any(is_turn)
}

// How many of the lines are of turns.
fn turn_count(lines: &[ReadLine]) -> usize
    ensures { result ≡ turn_count lines.now }
{
    lines.iter().filter(|it| is_turn(it)).count()
}

// How many of the lines are settles.
fn settle_count(lines: &[ReadLine]) -> usize
    ensures { result ≡ settle_count lines.now }
{
    lines.iter().filter(|it| is_settle(&it.line)).count()
}

// Whether the lines tell of routers: a turn stands before the first settle, and there are more turns than settles.
fn tells_of_routers(lines: &[ReadLine]) -> bool
    ensures some { result ≡ true → TellsOfRouters lines.now }
    ensures all { TellsOfRouters lines.now → result ≡ true }
{
    let seen = lines_in_sight(lines);
    has_turns(&lines[..seen]) && settle_count(lines) < turn_count(lines)
}

// Whether portals may move at a line: it is a turn or a settle.
fn stirs(read: &ReadLine) -> bool
    ensures { result ≡ stirs read.now.line }
{
    is_turn(read) || is_settle(&read.line)
}

/// How many lines stand before the first turn or settle: up to there each portal is where it was first.
pub fn lines_at_rest(lines: &[ReadLine]) -> usize
    ensures { IsFirstStir lines.now result }
{
    for i in 0..lines.len() {
        if stirs(&lines[i]) {
            return i;
        }
    }
    lines.len()
}

// The node that has a first portal from the start, as 0 has `0>1`, by the portal's name.
fn first_node(name: &[u8]) -> Option<u8>
    ensures named { IfSome result (λ node. (other : ℕ) × IsFirstName 8 name.now node other) }
    ensures other { IfNone result ((node other : ℕ) → IsFirstName 8 name.now node other → ⊥) }
{
    match nodes_of_name(name, 8) {
        Some((node, _)) => Some(node),
        None => None,
    }
}

/// The index of the first portal of a name.
pub fn portal_named(named: &[NamedPortal], name: &[u8]) -> Option<usize>
    ensures few { IfSome result (λ i. i < length named.now) }
    ensures found { IsPlaceOfName name.now named.now result }
{
    named.iter().position(|it| it.name == name)
}

/// How many portals there are of a node, or how many opened ones.
pub fn count_of(named: &[NamedPortal], node: Option<u8>) -> usize
    ensures { result ≡ portals_at node named.now }
{
    named.iter().filter(|it| it.node == node).count()
}

// Notes a portal that is new, if there is room for it.
fn note<'a>(
    named: &mut Vec<NamedPortal<'a>>,
    name: &'a [u8],
    node: Option<u8>,
    line: usize,
) -> Result<(), AllocError>
    ensures noted { OnOk result (IsNoted name.now node line named.old.items named.new.items) }
{
    if named.len() >= MOST_NAMED {
        return Ok(());
    }
    let None = portal_named(named.as_slice(), name) else {
        return Ok(());
    };
    let place = count_of(named.as_slice(), node);
    named.push(NamedPortal {
        name,
        node,
        place,
        first: line,
        closed: None,
    })?;
    Ok(())
}

// The names of the portals that a line opens.
fn opened_by<'a>(line: &Line<'a>) -> Option<(&'a [u8], &'a [u8])>
    ensures opened { IfSome result (λ names. IsOpenOf names.0.now line.now × IsOpenOf names.1.now line.now) }
    ensures both { IfSome result (λ names. (name : List ℕ) → IsOpenOf name line.now → (name ≡ names.0.now) ⊎ (name ≡ names.1.now)) }
    ensures other { IfNone result ((name : List ℕ) → IsOpenOf name line.now → ⊥) }
{
    match line {
        Line::Open {
            first,
            second,
            refusal: None,
        } => Some((first, second)),
        _ => None,
    }
}

/// The name of the portal that a line closes.
pub fn closed_by<'a>(line: &Line<'a>) -> Option<&'a [u8]>
    ensures closed { IfSome result (λ name. IsCloseOf name.now line.now) }
    ensures other { IfNone result ((name : List ℕ) → IsCloseOf name line.now → ⊥) }
{
    match line {
        Line::Close {
            name,
            answer: Answer::Number(_),
        } => Some(name),
        _ => None,
    }
}

// Notes the portals that a line opens.
fn note_opened<'a>(
    named: &mut Vec<NamedPortal<'a>>,
    lines: &[ReadLine<'a>],
    line: usize,
) -> Result<(), AllocError>
    requires { line < length lines.now }
    ensures few { OnOk result (length named.old.items ≤ 32 → length named.new.items ≤ 32) }
    ensures told { OnOk result (All (IsTold lines.now) named.old.items → All (IsTold lines.now) named.new.items) }
    ensures placed { OnOk result (ArePlaced named.old.items → ArePlaced named.new.items) }
    ensures once { OnOk result (AreDistinct named.old.items → AreDistinct named.new.items) }
    ensures closes { OnOk result (All (NotesItsClose lines.now line) named.old.items → All (NotesItsClose lines.now line) named.new.items) }
    ensures kept { OnOk result (KeepsNames named.old.items named.new.items) }
    ensures all { OnOk result (HoldsAt (AllOpensNamed named.new.items) lines.now line) }
{
    if let Some((first, second)) = opened_by(&lines[line].line) {
        note(named, first, None, line)?;
        note(named, second, None, line)?;
    }
    Ok(())
}

// The portal that a line calls and that was there from the start, with its node.
fn called_at_home<'a>(line: &Line<'a>) -> Option<(&'a [u8], u8)>
    ensures called { IfSome result (λ p. IsCallAt p.0.now line.now) }
    ensures home { IfSome result (λ p. (other : ℕ) × IsFirstName 8 p.0.now p.1 other) }
    ensures other { IfNone result ((name : List ℕ) (node other : ℕ) → IsCallAt name line.now → IsFirstName 8 name node other → ⊥) }
{
    let Some(name) = portal_of(line) else {
        return None;
    };
    let Some(node) = first_node(name) else {
        return None;
    };
    Some((name, node))
}

// Notes the portal that a line calls, if it was there from the start.
fn note_called<'a>(
    named: &mut Vec<NamedPortal<'a>>,
    lines: &[ReadLine<'a>],
    line: usize,
) -> Result<(), AllocError>
    requires { line < length lines.now }
    ensures few { OnOk result (length named.old.items ≤ 32 → length named.new.items ≤ 32) }
    ensures told { OnOk result (All (IsTold lines.now) named.old.items → All (IsTold lines.now) named.new.items) }
    ensures placed { OnOk result (ArePlaced named.old.items → ArePlaced named.new.items) }
    ensures once { OnOk result (AreDistinct named.old.items → AreDistinct named.new.items) }
    ensures closes { OnOk result (AllWithin (AllCallsNamed named.old.items) lines.now 0 line → All (NotesItsClose lines.now line) named.old.items → All (NotesItsClose lines.now line) named.new.items) }
    ensures kept { OnOk result (KeepsNames named.old.items named.new.items) }
    ensures all { OnOk result (HoldsAt (AllCallsNamed named.new.items) lines.now line) }
{
    if let Some((name, node)) = called_at_home(&lines[line].line) {
        note(named, name, Some(node), 0)?;
    }
    Ok(())
}

// The index of the portal that a line closes.
fn index_closed(named: &[NamedPortal], line: &Line) -> Option<usize>
    ensures closed { IfSome result (λ i. (name : List ℕ) × IsCloseOf name line.now × IsFirstOfName name named.now i) }
    ensures other { IfNone result ((name : List ℕ) → IsCloseOf name line.now → All (λ p. p.name.now ≢ name) named.now) }
{
    let Some(name) = closed_by(line) else {
        return None;
    };
    portal_named(named, name)
}

// Notes the portal that a line closes.
fn note_closed(named: &mut Vec<NamedPortal>, lines: &[ReadLine], line: usize)
    requires { line < length lines.now }
    ensures few { length named.new.items ≡ length named.old.items }
    ensures told { All (IsTold lines.now) named.old.items → All (IsTold lines.now) named.new.items }
    ensures placed { ArePlaced named.old.items → ArePlaced named.new.items }
    ensures once { AreDistinct named.old.items → AreDistinct named.new.items }
    ensures closes { AreDistinct named.old.items → All (NotesItsClose lines.now line) named.old.items → All (NotesItsClose lines.now (line + 1)) named.new.items }
    ensures kept { KeepsNames named.old.items named.new.items }
{
    if let Some(index) = index_closed(named.as_slice(), &lines[line].line) {
        named[index].closed = Some(line);
    }
}

/// The portals of a run that settles before its first turn, or takes no more turns than it settles, in the order in which its lines name them;
/// of another run none.
pub fn named_portals<'a>(
    alloc: Global,
    lines: &[ReadLine<'a>],
) -> Result<Vec<NamedPortal<'a>>, AllocError>
    ensures few { IfOk result (λ named. length named.items ≤ 32) }
    ensures turned { IfOk result (λ named. TellsOfRouters lines.now → named.items ≡ []) }
    ensures told { IfOk result (λ named. All (IsTold lines.now) named.items) }
    ensures placed { IfOk result (λ named. ArePlaced named.items) }
    ensures once { IfOk result (λ named. AreDistinct named.items) }
    ensures closes { IfOk result (λ named. All (NotesItsClose lines.now (length lines.now)) named.items) }
    ensures all { IfOk result (λ named. (TellsOfRouters lines.now → ⊥) → AreAllNamed lines.now (length lines.now) named.items) }
{
    let mut named = Vec::new(alloc);
    if tells_of_routers(lines) {
        return Ok(named);
    }
    for line in 0..lines.len() {
        note_opened(&mut named, lines, line)?;
        note_called(&mut named, lines, line)?;
        note_closed(&mut named, lines, line);
    }
    Ok(named)
}
