//! Lines that no script of one thread writes.

use ipcz_base::{Refusal, Sequence};
use ipcz_script::{Command, Labels, Said, push_answer};
use ipcz_world::Reply;
use std::alloc::{AllocError, Global};

// What a turn says that is refused.
fn refused(alloc: Global, why: Refusal) -> Result<Said, AllocError> {
    let mut replies = Vec::new(alloc);
    replies.push(Reply::Refused(why))?;
    Ok(Said::Turned(Sequence::from_vec(replies)))
}

// Whether a turn of a node that is refused prints so.
fn prints(labels: &Labels, alloc: Global, node: u8, said: &Said, line: &[u8]) -> bool {
    let mut out = Vec::new(alloc);
    let command = Command::Turn { node, count: 1 };
    push_answer(&mut out, labels.titles(), &command, said).is_ok() && out.as_slice() == line
}

// The same, if it is refused for this.
fn prints_refused(
    labels: &Labels,
    alloc: Global,
    node: u8,
    why: Refusal,
    line: &[u8],
) -> Result<bool, AllocError> {
    let said = refused(alloc, why)?;
    Ok(prints(labels, alloc, node, &said, line))
}

// Whether this is printed of a turn that is refused, with the labels of one node.
fn prints_of_one(alloc: Global, node: u8, why: Refusal, line: &[u8]) -> Result<bool, AllocError> {
    let labels = Labels::first(alloc, 1)?;
    prints_refused(&labels, alloc, node, why, line)
}

// A turn is refused if serials end, or if another thread changed the word: no script of one thread comes that far.
#[test]
fn prints_a_refused_turn(rt: HostRuntime) {
    let end = prints_of_one(rt.alloc(), 0, Refusal::NumbersEnd, b"n0: NumbersEnd\n");
    assert!(rt; end == Ok(true));
    let raced = prints_of_one(rt.alloc(), 7, Refusal::Raced, b"n7: Raced\n");
    assert!(rt; raced == Ok(true));
}
