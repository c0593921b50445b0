//! Routers by themselves, between which items are carried by hand, by steps that say what each call gives.
//!
//! Nothing is promised of what stands here: a test's own proof would else work out the routers at each call. So a test is a list of
//! steps.
mod bypass;
mod calls;
mod deeds;
mod retiring;
mod sights;

use self::deeds::{Deed, Given};
use self::sights::Sight;
use ipcz_base::{
    Bytes, Descriptor, End, Item, LinkEnd, LinkId, Message, Parcel, Refusal, Sequence, Side,
};
use ipcz_router::{Router, Sending};
use std::alloc::{AllocError, Global};
use std::process::Abort;

/// What one of the calls of a bypass answers: the node that a message goes to and the message as it prints, or that there is
/// none, or why it is refused.
type Answered = Result<Option<(u8, &'static str)>, Refusal>;

/// A call on a router, which is named by its place, with what it gives.
#[derive(Clone, Copy)]
enum Step {
    /// A terminal, which becomes the last router.
    Terminal(End, LinkEnd, u64),
    /// The terminal that a descriptor says, from a node, which becomes the last router.
    Born(Descriptor, u8),
    /// A terminal moves over a link, with this descriptor; the terminal that it says, from a node, becomes the last router.
    Move(usize, LinkEnd, Descriptor, u8),
    /// Puts a parcel of one byte: its number, or why it is refused; the parcel is then handed back.
    Put(usize, u8, Result<u64, Refusal>),
    /// Gets a parcel of one byte, with its number.
    Get(usize, Result<(u64, u8), Refusal>),
    /// Closes a terminal: the number of its mark.
    Close(usize, Result<u64, Refusal>),
    /// Makes room for a close.
    ReserveClose(usize),
    /// A parcel of one byte comes over a link, or a mark if there is no byte, for the router on this side of it, under this
    /// number.
    Come(usize, LinkId, Side, u64, Option<u8>, Result<(), Refusal>),
    /// Gone comes over a link, for the router on this side of it, under this number, and is taken.
    GoneComes(usize, LinkId, Side, u64),
    /// Does the first possible act, which is this one, and gives this.
    Act(usize, Deed, Given),
    /// Gives the lock back in place of the begin or the retire that comes first; the word after it.
    Unlock(usize, u64),
    /// The first possible act sends an item over this link under this number, to that router, which takes it.
    Carry(usize, Deed, usize, LinkId, u64),
    Rouse(usize),
    /// What can be seen of a router.
    Is(usize, Sight),
    /// A BypassPeer comes.
    BypassPeer(usize, LinkId, Side, [u64; 2], u8, Answered),
    /// An AcceptBypass comes from a node, while the old link's word names this source.
    AcceptBypass(usize, u8, Side, u64, Option<u8>, Answered),
    /// A StopProxying comes, with the number of items from outward and of those that go there.
    StopProxying(usize, Side, [u64; 2], Answered),
    /// A ProxyWillStop comes.
    ProxyWillStop(usize, LinkId, Side, u64, Answered),
}

/// The routers.
#[derive(Drop)]
struct Trial {
    routers: Vec<Router>,
    alloc: Global,
}

// A parcel of one byte and no ends.
fn letter(alloc: Global, byte: u8) -> Result<Parcel, AllocError> {
    Ok(Parcel {
        bytes: Bytes::from_slice(alloc, &[byte])?,
        ends: Sequence::from_vec(Vec::new(alloc)),
    })
}

// An item with this byte, or a mark.
fn item_of(alloc: Global, byte: Option<u8>) -> Result<Item, AllocError> {
    match byte {
        Some(byte) => Ok(Item::Parcel(letter(alloc, byte)?)),
        None => Ok(Item::Mark),
    }
}

// Whether a parcel has this byte only.
fn is_letter(parcel: &Parcel, byte: u8) -> bool {
    parcel.bytes.as_slice() == [byte].as_slice()
}

// Gone comes over a link; whether it is taken.
fn gone_comes(router: &mut Router, link: LinkId, side: Side, n: u64) -> bool {
    n != u64::MAX && router.accept(link, side, n, Item::Gone).is_ok()
}

// Whether an item has this byte, or is a mark.
fn is_item(item: &Item, byte: Option<u8>) -> bool {
    match (item, byte) {
        (Item::Parcel(parcel), Some(byte)) => is_letter(parcel, byte),
        (Item::Mark, None) => true,
        _ => false,
    }
}

// Whether a message prints so.
fn prints(alloc: Global, message: &Message, text: &str) -> Result<bool, AllocError> {
    Ok(format!(in alloc; "{message:?}")?.as_str() == text)
}

// Whether a call of a bypass answers this.
fn answers(
    alloc: Global,
    answer: &Result<Option<Sending>, Refusal>,
    want: Answered,
) -> Result<bool, AllocError> {
    match (answer, want) {
        (Ok(Some(sending)), Ok(Some((node, text)))) => {
            Ok(sending.to == node && prints(alloc, &sending.message, text)?)
        }
        (Ok(None), Ok(None)) => Ok(true),
        (Err(why), Err(wanted)) => Ok(*why == wanted),
        _ => Ok(false),
    }
}

// Puts a parcel at an open terminal; whether this comes of it.
fn puts(
    router: &mut Router,
    alloc: Global,
    byte: u8,
    want: Result<u64, Refusal>,
) -> Result<bool, AllocError> {
    let parcel = letter(alloc, byte)?;
    if !router.is_open_terminal() {
        return Ok(false);
    }
    match router.put(parcel) {
        Ok(n) => Ok(want == Ok(n)),
        Err((why, back)) => Ok(want == Err(why) && is_letter(&back, byte)),
    }
}

// Gets a parcel at an open terminal; whether this comes of it.
fn gets(router: &mut Router, want: Result<(u64, u8), Refusal>) -> bool {
    if !router.is_open_terminal() {
        return false;
    }
    match (router.get(), want) {
        (Ok((n, parcel)), Ok((number, byte))) => n == number && is_letter(&parcel, byte),
        (Err(why), Err(wanted)) => why == wanted,
        _ => false,
    }
}

// Closes an open terminal; whether this comes of it.
fn closes(router: &mut Router, want: Result<u64, Refusal>) -> bool {
    router.is_open_terminal() && router.close() == want
}

// An item comes over a link; whether this comes of it, and the item is handed back if it is refused.
fn comes(
    router: &mut Router,
    alloc: Global,
    (link, side): (LinkId, Side),
    n: u64,
    byte: Option<u8>,
    want: Result<(), Refusal>,
) -> Result<bool, AllocError> {
    let item = item_of(alloc, byte)?;
    if n == u64::MAX {
        return Ok(false);
    }
    match router.accept(link, side, n, item) {
        Ok(()) => Ok(want.is_ok()),
        Err((why, back)) => Ok(want == Err(why) && is_item(&back, byte)),
    }
}

impl Trial {
    fn new(alloc: Global) -> Trial {
        Trial {
            routers: Vec::new(alloc),
            alloc,
        }
    }

    // Makes a terminal, the last router.
    fn add_terminal(&mut self, end: End, link: LinkEnd, first: u64) -> Result<bool, AllocError> {
        if first >= u64::MAX - 1 {
            return Ok(false);
        }
        self.routers
            .push(Router::terminal(self.alloc, end, link, first))?;
        Ok(true)
    }

    // Makes the terminal that a descriptor says, the last router.
    fn add_born(&mut self, descriptor: &Descriptor, from: u8) -> Result<bool, AllocError> {
        if descriptor.next_out >= u64::MAX - 1 {
            return Ok(false);
        }
        self.routers
            .push(Router::from_descriptor(self.alloc, descriptor, from))?;
        Ok(true)
    }

    // Moves an open terminal; whether its descriptor is this one.
    fn extends(&mut self, place: usize, link: LinkEnd, want: &Descriptor) -> bool {
        let Some(router) = self.routers.get_mut(place) else {
            return false;
        };
        router.is_open_terminal() && router.extend_to(link) == *want
    }

    // Sends an item from one router to another; whether it goes over this link under this number, and is taken.
    fn carries(&mut self, from: usize, deed: Deed, to: usize, link: LinkId, n: u64) -> bool {
        let Some(router) = self.routers.get_mut(from) else {
            return false;
        };
        let Some((over, number, item)) = deeds::sent(router, deed) else {
            return false;
        };
        let Some(receiver) = self.routers.get_mut(to) else {
            return false;
        };
        over.link == link
            && number == n
            && n != u64::MAX
            && receiver.accept(link, over.side.opposite(), n, item).is_ok()
    }

    // Whether a step that makes or joins routers gives what it says.
    fn goes(&mut self, step: &Step) -> Result<bool, AllocError> {
        match step {
            Step::Terminal(end, link, first) => self.add_terminal(*end, *link, *first),
            Step::Born(descriptor, from) => self.add_born(descriptor, *from),
            Step::Move(place, link, descriptor, from) => {
                Ok(self.extends(*place, *link, descriptor) && self.add_born(descriptor, *from)?)
            }
            Step::Carry(from, deed, to, link, n) => Ok(self.carries(*from, *deed, *to, *link, *n)),
            _ => self.acts(step),
        }
    }

    // Whether a step of one router gives what it says.
    fn acts(&mut self, step: &Step) -> Result<bool, AllocError> {
        let place = match step {
            Step::Act(place, _, _) | Step::Unlock(place, _) => *place,
            Step::Rouse(place) | Step::Is(place, _) => *place,
            _ => return self.calls(step),
        };
        let alloc = self.alloc;
        let Some(router) = self.routers.get_mut(place) else {
            return Ok(false);
        };
        match step {
            Step::Act(_, deed, given) => deeds::gives(router, alloc, *deed, *given),
            Step::Unlock(_, word) => Ok(deeds::unlocks(router, *word)),
            Step::Is(_, sight) => Ok(sight.is(router)),
            _ => {
                router.rouse();
                Ok(true)
            }
        }
    }

    // Whether a call of a terminal gives what its step says.
    fn calls(&mut self, step: &Step) -> Result<bool, AllocError> {
        let place = match step {
            Step::Put(place, _, _) | Step::Get(place, _) => *place,
            Step::Close(place, _) | Step::ReserveClose(place) => *place,
            Step::Come(place, _, _, _, _, _) | Step::GoneComes(place, _, _, _) => *place,
            _ => return self.hears(step),
        };
        let alloc = self.alloc;
        let Some(router) = self.routers.get_mut(place) else {
            return Ok(false);
        };
        match step {
            Step::Put(_, byte, want) => puts(router, alloc, *byte, *want),
            Step::Get(_, want) => Ok(gets(router, *want)),
            Step::Close(_, want) => Ok(closes(router, *want)),
            Step::Come(_, link, side, n, byte, want) => {
                comes(router, alloc, (*link, *side), *n, *byte, *want)
            }
            Step::GoneComes(_, link, side, n) => Ok(gone_comes(router, *link, *side, *n)),
            _ => Ok(router.reserve_close().is_ok()),
        }
    }

    // Whether a message of a bypass gives what its step says; the old link is that of word 0, the fresh one that of word 2.
    fn hears(&mut self, step: &Step) -> Result<bool, AllocError> {
        let place = match step {
            Step::BypassPeer(place, ..) | Step::AcceptBypass(place, ..) => *place,
            Step::StopProxying(place, ..) | Step::ProxyWillStop(place, ..) => *place,
            _ => return Ok(false),
        };
        let alloc = self.alloc;
        let Some(router) = self.routers.get_mut(place) else {
            return Ok(false);
        };
        match *step {
            Step::BypassPeer(_, link, side, words, target, want) => {
                let [old, fresh] = words;
                let answer = router.bypass_peer(link, side, old, target, fresh);
                answers(alloc, &answer, want)
            }
            Step::AcceptBypass(_, sender, side, length, source, want) => {
                let answer = router.accept_bypass(sender, 0, side, 2, length, source);
                answers(alloc, &answer, want)
            }
            Step::StopProxying(_, side, lengths, want) => {
                let [from, to] = lengths;
                answers(alloc, &router.stop_proxying(0, side, from, to), want)
            }
            Step::ProxyWillStop(_, link, side, length, want) => {
                answers(alloc, &router.proxy_will_stop(link, side, length), want)
            }
            _ => Ok(false),
        }
    }

    // The first step that doesn't give what it says.
    fn first_wrong(&mut self, steps: &[Step]) -> Result<Option<usize>, AllocError> {
        for (i, step) in steps.iter().enumerate() {
            if !self.goes(step)? {
                return Ok(Some(i));
            }
        }
        Ok(None)
    }
}

// The first step that doesn't give what it says, from no routers on.
fn first_wrong(alloc: Global, steps: &[Step]) -> Result<Option<usize>, AllocError> {
    Trial::new(alloc).first_wrong(steps)
}

// Each step has to give what it says, from no routers on. (A test that asserts this itself is several times as dear to prove.)
fn all_go(rt: &impl Abort, alloc: Global, steps: &[Step]) {
    assert_eq!(rt; first_wrong(alloc, steps), Ok(None));
}
