//! A node by itself, whose mail is carried by hand, by steps that say what each call gives.
//!
//! Nothing is promised of what stands here: a test's own proof would else work out the whole node
//! at each call. So a test is a list of steps.
mod alike;
mod aside;
mod bypass;
mod deeds;
mod forged;
mod letters;
mod moves;
mod refusals;
mod retiring;
mod serials;
mod strays;
mod turns;
mod two_nodes;

use self::deeds::Deed;
use self::letters::{Letter, listed};
use ipcz_base::{Bytes, End, LinkId, Message, Parcel, Profile, Refusal, Side};
use ipcz_node::{Act, Happened, MailSeen, NodeState};
use std::alloc::Global;
use std::process::Abort;

const A0: End = End {
    pair: 0,
    side: Side::A,
};

const B0: End = End {
    pair: 0,
    side: Side::B,
};

const A1: End = End {
    pair: 1,
    side: Side::A,
};

const B1: End = End {
    pair: 1,
    side: Side::B,
};

const C0: LinkId = LinkId::Central(0);

const C1: LinkId = LinkId::Central(1);

const C2: LinkId = LinkId::Central(2);

/// What a node has seen of the mailboxes of the first eight nodes. Of the others it has seen none that is full or empty.
#[derive(Clone, Copy)]
struct Sight {
    full: [bool; 8],
    empty: [bool; 8],
}

impl Sight {
    fn mail(self) -> MailSeen {
        MailSeen {
            full: of_all(self.full),
            empty: of_all(self.empty),
        }
    }
}

// What is so of the first eight, and not of the others.
fn of_all(eight: [bool; 8]) -> [bool; 64] {
    let mut all = [false; 64];
    for (place, seen) in all.iter_mut().zip(eight.iter()) {
        *place = *seen;
    }
    all
}

/// No message has come, and each message can be posted.
const CLEAR: Sight = Sight {
    full: [false; 8],
    empty: [true; 8],
};

/// No message has come, and none can be posted.
const JAMMED: Sight = Sight {
    full: [false; 8],
    empty: [false; 8],
};

/// A call on the node, with what it gives.
#[derive(Clone, Copy)]
enum Step {
    /// Opens the pair of a word.
    Open(u64),
    /// Puts a parcel of one byte with these ends: its number, or why it is refused.
    Put(End, &'static [End], Result<u64, Refusal>),
    /// Puts a parcel of so many bytes of this value.
    PutBytes(End, u8, usize, &'static [End], Result<u64, Refusal>),
    /// Puts a wide parcel of so many bytes of this value.
    PutWide(End, u8, usize, &'static [End], Result<u64, Refusal>),
    /// Takes the next parcel of an end: its number, or why there is none.
    Get(End, Result<u64, Refusal>),
    /// Takes the next parcel of an end, with its number, its bytes and its ends.
    GetParcel(End, u64, &'static [u8], &'static [End]),
    /// Closes an end: the number of its mark, or why it is refused.
    Close(End, Result<u64, Refusal>),
    /// Whether callers hold an end.
    Holds(End, bool),
    /// The mailboxes are seen so from now on.
    See(Sight),
    /// The first possible act.
    First(Act),
    /// Does the first possible act, with the answer of the words that is told.
    Turn(Deed),
    /// Gives the lock back in place of the begin or the retire that comes first; the word after it.
    Unlock(u64),
    /// The message that was posted last.
    Posted(Letter),
    /// Delivers a message from a node, which is the source that the old link's word names; whether it
    /// fits.
    Deliver(u8, Letter, bool),
    /// Delivers a message, while the old link's word names this source; from which node, and whether
    /// it fits.
    DeliverWhere(Option<u8>, u8, Letter, bool),
    /// Delivers the message that was posted last to the node itself, if it fits.
    Return,
    /// Asks for the room of a pair, which is refused.
    OpenRefused(Refusal),
    /// Takes a turn, which is refused.
    TurnRefused(Refusal),
    /// Delivers a message from a node, which is refused and handed back.
    DeliverRefused(u8, Letter, Refusal),
    /// The first held end from a router's serial on.
    HeldFrom(u64, Option<(u64, End)>),
    /// How many messages didn't fit.
    Strays(usize),
    /// How many routers there are.
    Routers(usize),
    /// The word and the side that an act of a router is about.
    Word(u64, Option<(u64, Side)>),
    /// The node that a router's lock names as its source.
    Source(u64, Option<u8>),
    /// The message that waits for a node at a place, counted from 0.
    Waits(u8, usize, Option<Letter>),
    /// Whether the node has nothing to do until a message comes.
    Quiet(bool),
}

/// A node, how it sees the mailboxes, and the message that it posted last.
#[derive(Drop)]
struct Trial {
    node: NodeState,
    alloc: Global,
    seen: Sight,
    posted: Option<Message>,
}

// The number of what was got.
fn number_of(got: Result<(u64, Parcel), Refusal>) -> Result<u64, Refusal> {
    match got {
        Ok((number, _)) => Ok(number),
        Err(why) => Err(why),
    }
}

// Whether this was got.
fn is_got(got: Result<(u64, Parcel), Refusal>, number: u64, bytes: &[u8], ends: &[End]) -> bool {
    match got {
        Ok((n, parcel)) => {
            n == number && parcel.bytes.as_slice() == bytes && parcel.ends.as_slice() == ends
        }
        Err(_) => false,
    }
}

// Whether a message fitted, if it was delivered.
fn fitted(answer: Result<Happened, (Refusal, Message)>) -> Option<bool> {
    match answer {
        Ok(Happened::Hand { unfit, .. }) => Some(!unfit),
        _ => None,
    }
}

// Why a message was refused, if it was handed back.
fn handed_back(answer: Result<Happened, (Refusal, Message)>, letter: &Letter) -> Option<Refusal> {
    match answer {
        Err((why, back)) => { if letter.is(&back) { Some(why) } else { None } }
        Ok(_) => None,
    }
}

impl Trial {
    // The node of a number among so many.
    fn new(alloc: Global, number: u8, count: u8) -> Option<Trial> {
        Trial::new_from(alloc, number, count, 0)
    }

    // The same, whose serials are counted from the first one on.
    fn new_from(alloc: Global, number: u8, count: u8, first: u64) -> Option<Trial> {
        if number >= count || count > 8 || first > u64::MAX - (count as u64 - 1) {
            return None;
        }
        let node = if first == 0 {
            NodeState::new(alloc, number, count)
        } else {
            NodeState::new_from(alloc, number, count, first)
        };
        Some(Trial {
            node: node.ok()?,
            alloc,
            seen: CLEAR,
            posted: None,
        })
    }

    // Opens the pair of a word.
    fn open(&mut self, word: u64) -> bool {
        let Ok(()) = self.node.open_prepare() else {
            return false;
        };
        let (first, second) = self.node.open_commit(word);
        first.pair == word && first.side == Side::A && second == first.opposite()
    }

    // Puts a parcel; its number, or why it is refused, and both lists are handed back then.
    fn put(
        &mut self,
        profile: Profile,
        at: End,
        byte: u8,
        count: usize,
        ends: &[End],
    ) -> Option<Result<u64, Refusal>> {
        let bytes = vec![in self.alloc; byte; count].ok()?;
        let copies = listed(self.alloc, ends).ok()?;
        match self
            .node
            .put_as(profile, at, Bytes::from_vec(bytes), copies)
        {
            Ok(number) => Some(Ok(number)),
            Err(refused) => {
                if refused.bytes.len() == count && refused.ends.as_slice() == ends {
                    Some(Err(refused.why))
                } else {
                    None
                }
            }
        }
    }

    // Takes the next parcel of an end; its number.
    fn get(&mut self, at: End) -> Result<u64, Refusal> {
        number_of(self.node.get(at))
    }

    // Takes the next parcel of an end; whether it is this one.
    fn gets(&mut self, at: End, number: u64, bytes: &[u8], ends: &[End]) -> bool {
        is_got(self.node.get(at), number, bytes, ends)
    }

    // Delivers a message, while the word of an old link names this source; whether it fitted, if it
    // was delivered.
    fn deliver(&mut self, from: u8, message: Message, source: Option<u8>) -> Option<bool> {
        if from >= self.node.count() {
            return None;
        }
        fitted(self.node.deliver(from, message, source))
    }

    // Delivers a message that is made; whether it fitted.
    fn deliver_letter(&mut self, from: u8, letter: &Letter, source: Option<u8>) -> Option<bool> {
        let message = letter.message(self.alloc).ok()?;
        self.deliver(from, message, source)
    }

    // Delivers the message that was posted last to the node itself; whether it fitted.
    fn deliver_back(&mut self) -> Option<bool> {
        let message = self.posted.take()?;
        let number = self.node.number();
        self.deliver(number, message, Some(number))
    }

    // Whether the message that was posted last is this one.
    fn has_posted(&self, letter: &Letter) -> bool {
        match &self.posted {
            Some(message) => letter.is(message),
            None => false,
        }
    }

    // Whether the message that waits for a node at a place is this one.
    fn has_waiting(&self, to: u8, place: usize, letter: Option<&Letter>) -> bool {
        let Some(outbox) = self.node.outboxes().get(to as usize) else {
            return false;
        };
        match (outbox.get(place), letter) {
            (Some(message), Some(letter)) => letter.is(message),
            (None, None) => true,
            _ => false,
        }
    }

    // Whether a call of a portal gives what its step says.
    fn calls(&mut self, step: &Step) -> bool {
        match step {
            Step::Open(word) => self.open(*word),
            Step::Put(at, ends, want) => {
                self.put(Profile::Printed, *at, b'a', 1, ends) == Some(*want)
            }
            Step::PutBytes(at, byte, count, ends, want) => {
                self.put(Profile::Printed, *at, *byte, *count, ends) == Some(*want)
            }
            Step::PutWide(at, byte, count, ends, want) => {
                self.put(Profile::Wide, *at, *byte, *count, ends) == Some(*want)
            }
            Step::Get(at, want) => self.get(*at) == *want,
            Step::GetParcel(at, n, bytes, ends) => self.gets(*at, *n, bytes, ends),
            Step::Close(at, want) => self.node.close(*at) == *want,
            Step::Holds(end, want) => self.node.holds(*end) == *want,
            Step::HeldFrom(serial, want) => self.node.held_from(*serial) == *want,
            _ => self.refuses(step),
        }
    }

    // Whether a call is refused as its step says.
    fn refuses(&mut self, step: &Step) -> bool {
        match step {
            Step::OpenRefused(why) => self.node.open_prepare() == Err(*why),
            Step::TurnRefused(why) => self.turn_refusal() == Some(*why),
            Step::DeliverRefused(from, letter, why) => {
                self.deliver_refusal(*from, letter) == Some(*why)
            }
            _ => false,
        }
    }

    // Why a message that is made is refused; it is handed back then.
    fn deliver_refusal(&mut self, from: u8, letter: &Letter) -> Option<Refusal> {
        let message = letter.message(self.alloc).ok()?;
        if from >= self.node.count() {
            return None;
        }
        handed_back(self.node.deliver(from, message, Some(from)), letter)
    }

    // Whether a call gives what its step says.
    fn goes(&mut self, step: &Step) -> bool {
        match step {
            Step::See(seen) => {
                self.seen = *seen;
                true
            }
            Step::First(act) => self.node.next(&self.seen.mail()) == *act,
            Step::Turn(deed) => self.turns(deed),
            Step::Unlock(word) => self.unlocks(*word),
            Step::Posted(letter) => self.has_posted(letter),
            Step::Deliver(from, letter, want) => {
                self.deliver_letter(*from, letter, Some(*from)) == Some(*want)
            }
            Step::DeliverWhere(source, from, letter, want) => {
                self.deliver_letter(*from, letter, *source) == Some(*want)
            }
            Step::Return => self.deliver_back() == Some(true),
            Step::Strays(count) => self.node.strays().len() == *count,
            Step::Routers(count) => self.node.router_count() == *count,
            Step::Quiet(want) => self.node.quiet() == *want,
            Step::Word(serial, want) => self.node.word_of(*serial) == *want,
            Step::Source(serial, want) => self.node.source_of(*serial) == *want,
            Step::Waits(to, place, letter) => self.has_waiting(*to, *place, letter.as_ref()),
            _ => self.calls(step),
        }
    }

    // The first step that doesn't give what it says.
    fn first_wrong(&mut self, steps: &[Step]) -> Option<usize> {
        for (i, step) in steps.iter().enumerate() {
            if !self.goes(step) {
                return Some(i);
            }
        }
        None
    }

    // The first step that doesn't give what it says, by its part and its place there.
    fn first_wrong_of(&mut self, parts: &[&[Step]]) -> Option<(usize, usize)> {
        for (part, steps) in parts.iter().enumerate() {
            if let Some(place) = self.first_wrong(steps) {
                return Some((part, place));
            }
        }
        None
    }
}

// The first step that doesn't give what it says, on a new node of a number among so many, by its
// part and its place there.
fn first_wrong(alloc: Global, number: u8, count: u8, parts: &[&[Step]]) -> Option<(usize, usize)> {
    match Trial::new(alloc, number, count) {
        Some(mut trial) => trial.first_wrong_of(parts),
        None => Some((0, 0)),
    }
}

// Each step has to give what it says, on a new node of a number among so many. (A test that asserts
// this itself is several times as dear to prove.)
fn all_go(rt: &impl Abort, alloc: Global, number: u8, count: u8, parts: &[&[Step]]) {
    assert_eq!(rt; first_wrong(alloc, number, count, parts), None);
}
