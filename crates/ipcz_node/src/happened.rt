//! What a turn is seen to do, and how it prints.
ghost use Rattle.std.specs.Prelude.{◌≡◌};
ghost use Rattle.ipcz_node.specs.Hands.{link_asked, side_asked};
ghost use Rattle.ipcz_node.specs.Events.{act_event, dropped_event, kind_of, link_of, retired_event, sent_event, unlock_event, word_event};

use ipcz_base::{End, Ends, LinkEnd, LinkId, Message, Side};
use ipcz_router::act::{Answer, Applied, RouterAct};

/// What kind of message was handled; an item with its number.
#[derive(Clone, Copy, Debug, PartialEq, Eq)]
pub enum Handed {
    Item(u64),
    BypassPeer,
    AcceptBypass,
    StopProxying,
    ProxyWillStop,
    Flush,
}

/// What a turn did, with what the transcript prints of it (docs/PROTOCOL.md, "The transcript").
///
/// What a router did begins with its serial, and what it did to a link word ends with the number of the word after it.
#[derive(Debug, Drop)]
pub enum Happened {
    Hand {
        kind: Handed,
        link: LinkId,
        unfit: bool,
    },
    Look(u8),
    Post(u8),
    Close(End),
    SendOut {
        serial: u64,
        n: u64,
        link: LinkId,
        moved: Ends,
    },
    SendIn {
        serial: u64,
        n: u64,
        link: LinkId,
        moved: Ends,
    },
    Discard(u64, u64),
    /// The discard of Gone, by which a sink leaves.
    DiscardLeave(u64, u64),
    FinishOut(u64, LinkId),
    FinishIn(u64, LinkId),
    Leave(u64),
    Mark(u64, LinkId, u64),
    Wake(u64, LinkId, u64),
    Claim(u64, u64),
    ClaimNoWord(u64),
    Lock(u64, LinkId, u64),
    Wait(u64, LinkId, u64),
    Refused(u64, LinkId, u64),
    Begin(u64, LinkId),
    /// The number of Gone, and the link that it goes over.
    Retire(u64, u64, LinkId),
    Unlock(u64, LinkId, u64),
    Rest(u64),
    Idle,
}

// The link of a link end, or that of word 0 if there is none, which is then never asked for.
#[tactic(auto, unfolding(crate::specs::Events::link_of))]
pub(crate) fn link_of(end: Option<LinkEnd>) -> LinkId
    ensures { result ≡ link_of end }
{
    match end {
        Some(end) => end.link,
        None => LinkId::Central(0),
    }
}

// What an act on a word is seen to do, by its answer.
#[tactic(auto, unfolding(crate::specs::Events::word_event))]
fn word_event(serial: u64, link: LinkId, answer: Answer) -> Happened
    ensures { result ≡ word_event serial link answer }
{
    match answer {
        Answer::Plain => Happened::Idle,
        Answer::Claimed(word) => Happened::Claim(serial, word),
        Answer::NoWord => Happened::ClaimNoWord(serial),
        Answer::Marked(word, _) => Happened::Mark(serial, link, word),
        Answer::Word(word) => Happened::Wake(serial, link, word),
        Answer::Locked(word) => Happened::Lock(serial, link, word),
        Answer::Waiting(word) => Happened::Wait(serial, link, word),
        Answer::Refused(word) => Happened::Refused(serial, link, word),
    }
}

// What an unlock is seen to do, by its answer.
#[tactic(auto, unfolding(crate::specs::Events::unlock_event))]
fn unlock_event(serial: u64, link: LinkId, answer: Answer) -> Happened
    ensures { result ≡ unlock_event serial link answer }
{
    match answer {
        Answer::Word(word) => Happened::Unlock(serial, link, word),
        _ => Happened::Idle,
    }
}

// What a drop of an item is seen to do.
#[tactic(auto, unfolding(crate::specs::Events::dropped_event))]
fn dropped_event(serial: u64, applied: &Applied) -> Happened
    ensures { result ≡ dropped_event serial applied.now }
{
    match applied {
        Applied::Discarded(n, item) if item.is_gone() => Happened::DiscardLeave(serial, *n),
        Applied::Discarded(n, _) => Happened::Discard(serial, *n),
        _ => Happened::Idle,
    }
}

// What a retirement is seen to do: Gone with its number.
#[tactic(auto, unfolding(crate::specs::Events::retired_event))]
fn retired_event(serial: u64, applied: &Applied) -> Happened
    ensures { result ≡ retired_event serial applied.now }
{
    match applied {
        Applied::Sent(link, n, _) => Happened::Retire(serial, *n, link.link),
        _ => Happened::Idle,
    }
}

// What a send outward is seen to do, with the ends that it moved.
#[tactic(auto, unfolding(crate::specs::Events::sent_event))]
fn sent_out_event(serial: u64, applied: &Applied, moved: Ends) -> Happened
    ensures { result ≡ sent_event (λ number link ends. Happened.SendOut serial number link ends) applied.now moved }
{
    match applied {
        Applied::Sent(link, n, _) => Happened::SendOut {
            serial,
            n: *n,
            link: link.link,
            moved,
        },
        _ => Happened::Idle,
    }
}

// What a send inward is seen to do, with the ends that it moved.
#[tactic(auto, unfolding(crate::specs::Events::sent_event))]
fn sent_in_event(serial: u64, applied: &Applied, moved: Ends) -> Happened
    ensures { result ≡ sent_event (λ number link ends. Happened.SendIn serial number link ends) applied.now moved }
{
    match applied {
        Applied::Sent(link, n, _) => Happened::SendIn {
            serial,
            n: *n,
            link: link.link,
            moved,
        },
        _ => Happened::Idle,
    }
}

// What an act is seen to do, by the link that it is about, by what it gave and by the ends that this moved.
#[tactic(auto, unfolding(crate::specs::Events::act_event))]
pub(crate) fn act_event(
    serial: u64,
    link: LinkId,
    act: RouterAct,
    answer: Answer,
    applied: &Applied,
    moved: Ends,
) -> Happened
    ensures { result ≡ act_event serial link act answer applied.now moved }
{
    match act {
        RouterAct::SendOut => sent_out_event(serial, applied, moved),
        RouterAct::SendIn => sent_in_event(serial, applied, moved),
        RouterAct::Discard => dropped_event(serial, applied),
        RouterAct::FinishOut => Happened::FinishOut(serial, link),
        RouterAct::FinishIn => Happened::FinishIn(serial, link),
        RouterAct::Leave => Happened::Leave(serial),
        RouterAct::Mark | RouterAct::Wake | RouterAct::Claim | RouterAct::Lock => {
            word_event(serial, link, answer)
        }
        RouterAct::Begin => Happened::Begin(serial, link),
        RouterAct::Retire => retired_event(serial, applied),
        RouterAct::Unlock => unlock_event(serial, link, answer),
        RouterAct::Rest => Happened::Rest(serial),
    }
}

// What kind of message it is.
#[tactic(auto, unfolding(crate::specs::Events::kind_of))]
pub(crate) fn kind_of(message: &Message) -> Handed
    ensures { result ≡ kind_of message.now }
{
    match message {
        Message::Item { n, .. } => Handed::Item(*n),
        Message::BypassPeer { .. } => Handed::BypassPeer,
        Message::AcceptBypass { .. } => Handed::AcceptBypass,
        Message::StopProxying { .. } => Handed::StopProxying,
        Message::ProxyWillStop { .. } => Handed::ProxyWillStop,
        Message::Flush { .. } => Handed::Flush,
    }
}

// The link that names the router which a message is for.
#[tactic(auto, unfolding(crate::specs::Hands::link_asked))]
pub(crate) fn link_asked(message: &Message) -> LinkId
    ensures { result ≡ link_asked message.now }
{
    match message {
        Message::Item { link, .. } => *link,
        Message::BypassPeer { link, .. } => *link,
        Message::AcceptBypass { old, .. } => LinkId::Central(*old),
        Message::StopProxying { old, .. } => LinkId::Central(*old),
        Message::ProxyWillStop { link, .. } => *link,
        Message::Flush { link, .. } => *link,
    }
}

// The side of that link which a message is for.
#[tactic(auto, unfolding(crate::specs::Hands::side_asked))]
pub(crate) fn side_asked(message: &Message) -> Side
    ensures { result ≡ side_asked message.now }
{
    match message {
        Message::Item { side, .. } => *side,
        Message::BypassPeer { side, .. } => *side,
        Message::AcceptBypass { side, .. } => *side,
        Message::StopProxying { side, .. } => *side,
        Message::ProxyWillStop { side, .. } => *side,
        Message::Flush { side, .. } => *side,
    }
}
