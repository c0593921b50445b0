//! A row, move by move.
use crate::alike::is_wanted;
use crate::met::Wrong;
use crate::moves::{Ask, Move, Row, Want};
use crate::subject::{Subject, settle};

// Takes a step, which is answered as the row says.
fn call<S: Subject>(subject: &mut S, ask: Ask, want: Want) -> Result<(), Wrong> {
    let reply = subject.take(ask)?;
    agree(is_wanted(&reply, want))
}

// Takes turns of a node, which do what the row says.
fn take_turns<S: Subject>(
    subject: &mut S,
    node: u8,
    events: &'static [&'static str],
) -> Result<(), Wrong> {
    for event in events {
        call(subject, Ask::Turn(node), Want::Turned(*event))?;
    }
    Ok(())
}

// Whether the claimed words are these.
fn has_words<S: Subject>(subject: &mut S, words: &[u64]) -> bool {
    for (i, word) in (0u64..).zip(words.iter()) {
        if subject.word(i) != Some(*word) {
            return false;
        }
    }
    subject.claimed() as usize == words.len()
}

// What was found is what the row says.
fn agree(holds: bool) -> Result<(), Wrong> {
    if holds { Ok(()) } else { Err(Wrong::Answer) }
}

// Makes a move.
fn make<S: Subject>(subject: &mut S, nodes: u8, each: Move) -> Result<(), Wrong> {
    match each {
        Move::Call(ask, want) => call(subject, ask, want),
        Move::Turns(node, events) => take_turns(subject, node, events),
        Move::Settle(limit) => settle(subject, nodes, limit),
        Move::Words(words) => agree(has_words(subject, words)),
        Move::Holder(end, node) => agree(subject.holder_of(end) == node),
    }
}

/// Makes the moves of a row: at which it goes wrong, if it does, counted from 1.
pub fn make_moves<S: Subject>(subject: &mut S, row: &Row) -> Result<(), (usize, Wrong)> {
    for (i, each) in row.moves.iter().enumerate() {
        make(subject, row.nodes, *each).map_err(|why| (i + 1, why))?;
    }
    Ok(())
}
