//! What refusals, ends and links are called, and sequences and bytes as lists.
use ipcz_base::{Bytes, End, LinkId, Refusal, Sequence, Side};
use std::alloc::{AllocError, Global};

static NAMES: [(Refusal, u8, &'static str); 14] = [
    (Refusal::OutOfMemory, 1, "OutOfMemory"),
    (Refusal::Empty, 2, "Empty"),
    (Refusal::PeerClosed, 3, "PeerClosed"),
    (Refusal::NoWord, 4, "NoWord"),
    (Refusal::SelfAttach, 5, "SelfAttach"),
    (Refusal::PeerAttach, 6, "PeerAttach"),
    (Refusal::Stranger, 7, "Stranger"),
    (Refusal::NumbersEnd, 8, "NumbersEnd"),
    (Refusal::BadData, 9, "BadData"),
    (Refusal::TooMany, 10, "TooMany"),
    (Refusal::Raced, 11, "Raced"),
    (Refusal::Occupied, 12, "Occupied"),
    (Refusal::Passed, 13, "Passed"),
    (Refusal::Forged, 14, "Forged"),
];

// The first refusal that hasn't its number and name.
fn first_wrong() -> Option<Refusal> {
    for (refusal, code, name) in NAMES.iter() {
        if refusal.code() != *code || refusal.name() != *name {
            return Some(*refusal);
        }
    }
    None
}

#[test]
fn refusals_have_their_numbers_and_names(rt: HostRuntime) {
    assert_eq!(rt; first_wrong(), None);
}

const A0: End = End {
    pair: 0,
    side: Side::A,
};

// Whether an end prints so.
fn end_prints(alloc: Global, end: End, text: &str) -> Result<bool, AllocError> {
    Ok(end.to_string(alloc)?.as_str() == text)
}

// Whether a link prints so.
fn link_prints(alloc: Global, link: LinkId, text: &str) -> Result<bool, AllocError> {
    Ok(link.to_string(alloc)?.as_str() == text)
}

// Whether ends of both sides, and links of both kinds, print as they should.
fn all_print(alloc: Global) -> Result<bool, AllocError> {
    let end = End {
        pair: 3,
        side: Side::A.opposite(),
    };
    let link = LinkId::Peripheral { node: 0, serial: 1 };
    Ok(
        end_prints(alloc, A0, "0A")?
            && end_prints(alloc, end, "3B")?
            && end_prints(alloc, end.opposite(), "3A")?
            && link_prints(alloc, LinkId::Central(3), "C3")?
            && link_prints(alloc, link, "P0.1")?,
    )
}

#[test]
fn ends_and_links_print(rt: HostRuntime) {
    assert!(rt; all_print(rt.alloc()) == Ok(true));
}

// Whether a list of two bytes is a sequence of them, and is given back.
fn is_given_back(bytes: Vec<u8>) -> bool {
    let sequence = Sequence::from_vec(bytes);
    let is_hi = sequence.as_slice() == b"hi".as_slice();
    let is_two = sequence.len() == 2 && !sequence.is_empty();
    is_hi && is_two && sequence.into_vec().as_slice() == b"hi".as_slice()
}

// Whether that is so of a list that is made, and an empty list is an empty sequence.
fn are_given_back(alloc: Global) -> Result<bool, AllocError> {
    let is_empty = Sequence::from_vec(Vec::<u8>::new(alloc)).is_empty();
    Ok(is_given_back(Vec::from_slice(alloc, b"hi")?) && is_empty)
}

#[test]
fn a_sequence_is_made_from_a_vec_and_given_back(rt: HostRuntime) {
    assert!(rt; are_given_back(rt.alloc()) == Ok(true));
}

// Whether a copy of bytes has them, and gives them back.
fn are_kept(alloc: Global, data: &[u8]) -> Result<bool, AllocError> {
    let bytes = Bytes::from_slice(alloc, data)?;
    let has_them = bytes.as_slice() == data && bytes.len() == data.len();
    let is_empty = bytes.is_empty() == data.is_empty();
    let Ok(list) = bytes.into_vec(alloc) else {
        return Ok(false);
    };
    Ok(has_them && is_empty && Bytes::from_vec(list).as_slice() == data)
}

// Whether that is so of each front of some bytes, of these lengths.
fn all_are_kept(alloc: Global, data: &[u8]) -> Result<bool, AllocError> {
    for count in [0, 1, 15, 16, 17, 18] {
        let (front, _) = data.split_at(count.min(data.len()));
        if front.len() != count || !are_kept(alloc, front)? {
            return Ok(false);
        }
    }
    Ok(Bytes::new().is_empty())
}

#[test]
fn bytes_are_kept_in_the_value_and_beside_it(rt: HostRuntime) {
    assert!(rt; all_are_kept(rt.alloc(), b"abcdefghijklmnopqr") == Ok(true));
}

// Whether bytes print so.
fn bytes_print(alloc: Global, data: &[u8], text: &str) -> Result<bool, AllocError> {
    let bytes = Bytes::from_slice(alloc, data)?;
    let printed = format!(in alloc; "{bytes:?}")?;
    Ok(printed.as_str() == text)
}

#[test]
fn bytes_print_as_numbers(rt: HostRuntime) {
    assert!(rt; bytes_print(rt.alloc(), b"hi", "[104, 105]") == Ok(true));
}
