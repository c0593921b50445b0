//! Edges by lists of calls: a link that decays beside a new one, and what parts the items between them.
use ipcz_base::{LinkEnd, LinkId, Side};
use ipcz_edge::Edge;

/// A call on an edge, with what it answers.
#[derive(Clone, Copy)]
enum Step {
    BeginDecay,
    SetPrimary(LinkEnd),
    SetLengthTo(u64),
    SetLengthFrom(u64),
    Finish(u64, u64, bool),
    CanFinish(u64, u64, bool),
    Decaying(Option<LinkEnd>),
    Decays(bool),
    IsEmpty(bool),
    LengthTo(Option<u64>),
    LengthFrom(Option<u64>),
    /// The link over which the item of a number goes.
    Choose(u64, Option<LinkEnd>),
}

// The ends on side A of central links between two routers of one node.
const OLD: LinkEnd = LinkEnd {
    link: LinkId::Central(0),
    side: Side::A,
    other: 0,
};

const FRESH: LinkEnd = LinkEnd {
    link: LinkId::Central(2),
    side: Side::A,
    other: 0,
};

// Lets the primary link decay, if none decays.
fn begins(edge: &mut Edge) -> bool {
    match edge.decaying() {
        Some(_) => false,
        None => {
            edge.begin_decay();
            true
        }
    }
}

// Sets the primary link, if there is none.
fn is_relinked(edge: &mut Edge, link: LinkEnd) -> bool {
    match edge.primary() {
        Some(_) => false,
        None => {
            edge.set_primary(link);
            true
        }
    }
}

// Sets the length to the other end, if a link decays whose length isn't known.
fn sets_length_to(edge: &mut Edge, length: u64) -> bool {
    match (edge.decaying(), edge.length_to()) {
        (Some(_), None) => {
            edge.set_length_to(length);
            true
        }
        _ => false,
    }
}

// Sets the length from the other end, if a link decays whose length isn't known.
fn sets_length_from(edge: &mut Edge, length: u64) -> bool {
    match (edge.decaying(), edge.length_from()) {
        (Some(_), None) => {
            edge.set_length_from(length);
            true
        }
        _ => false,
    }
}

// Whether a call answers what its step says.
fn answers(edge: &mut Edge, step: Step) -> bool {
    match step {
        Step::BeginDecay => begins(edge),
        Step::SetPrimary(link) => is_relinked(edge, link),
        Step::SetLengthTo(length) => sets_length_to(edge, length),
        Step::SetLengthFrom(length) => sets_length_from(edge, length),
        Step::Finish(sent, received, want) => edge.finish(sent, received) == want,
        _ => is(edge, step),
    }
}

// Whether an edge is as a step says that only looks.
fn is(edge: &Edge, step: Step) -> bool {
    match step {
        Step::CanFinish(sent, received, want) => edge.can_finish(sent, received) == want,
        Step::Decaying(want) => edge.decaying() == want,
        Step::Decays(want) => edge.decays() == want,
        Step::IsEmpty(want) => edge.is_empty() == want,
        Step::LengthTo(want) => edge.length_to() == want,
        Step::LengthFrom(want) => edge.length_from() == want,
        Step::Choose(n, want) => edge.choose(n) == want,
        _ => false,
    }
}

// The first step that doesn't answer what it says, on an edge with the old link.
fn first_wrong(steps: &[Step]) -> Option<usize> {
    let mut edge = Edge::of(OLD);
    for (i, step) in steps.iter().enumerate() {
        if !answers(&mut edge, *step) {
            return Some(i);
        }
    }
    None
}

static PARTED: [Step; 24] = [
    Step::BeginDecay,
    Step::SetPrimary(FRESH),
    Step::Decaying(Some(OLD)),
    Step::LengthTo(None),
    Step::Choose(7, Some(OLD)),
    Step::SetLengthTo(5),
    Step::LengthTo(Some(5)),
    Step::LengthFrom(None),
    Step::Choose(4, Some(OLD)),
    Step::Choose(5, Some(FRESH)),
    Step::CanFinish(5, 9, false),
    Step::Finish(5, 9, false),
    Step::SetLengthFrom(9),
    Step::LengthFrom(Some(9)),
    Step::CanFinish(4, 9, false),
    Step::Finish(4, 9, false),
    Step::CanFinish(5, 8, false),
    Step::Finish(5, 8, false),
    Step::CanFinish(5, 9, true),
    Step::Finish(5, 9, true),
    Step::Choose(4, Some(FRESH)),
    Step::Decaying(None),
    Step::LengthTo(None),
    Step::CanFinish(5, 9, false),
];

#[test]
fn lengths_part_the_items_and_end_the_decay(rt: HostRuntime) {
    assert_eq!(rt; first_wrong(&PARTED), None);
}

static WITHOUT_A_LINK: [Step; 8] = [
    Step::BeginDecay,
    Step::SetLengthTo(0),
    Step::SetLengthFrom(0),
    Step::Finish(0, 0, true),
    Step::IsEmpty(true),
    Step::BeginDecay,
    Step::Decays(false),
    Step::Choose(0, None),
];

#[test]
fn nothing_decays_where_no_primary_link_is(rt: HostRuntime) {
    assert_eq!(rt; first_wrong(&WITHOUT_A_LINK), None);
}
