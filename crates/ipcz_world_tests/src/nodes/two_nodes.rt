//! Two nodes whose mail and link words are carried by hand, through two bypasses that want one
//! lock.

ghost use Rattle.ipcz_router.specs.ActEffects.{IsAnswerOf};
ghost use Rattle.ipcz_word.specs.Laws.{HasNode};
ghost use Rattle.ipcz_word.specs.Layout.{IsWord};

use super::Step::{Open, Put};
use super::deeds::Deed::{
    self, Begin, Claim, FinishIn, FinishOut, Hand, Idle, Leave, Lock, Look, Mark, Post, Refused,
    Rest, SendOut, Wait, Wake,
};
use super::{A0, A1, B1, C0, C1, C2, Step, Trial};
use ipcz_base::{LinkId, Message, Side};
use ipcz_node::{Act, Handed, Happened, MailSeen, NodeState};
use ipcz_router::act::{Answer, RouterAct};
use ipcz_word::{LockPlan, is_word, mark, source, take_waiting, try_lock, unlock};
use std::alloc::Global;
use std::test::Fail;

// Four link words, of which so many are claimed.
#[derive(Drop)]
struct Words {
    bits: [u64; 4],
    claimed: u64,
}

// The word of a link, and the side that acts on it.
#[derive(Clone, Copy)]
struct WordSide {
    place: u64,
    side: Side,
    word: u64,
}

impl Words {
    // The word of a link; an empty one if the link has none.
    fn at(&self, link: Option<(u64, Side)>) -> WordSide
        ensures { IsWord result.word }
    {
        let (place, side) = link.unwrap_or((0, Side::A));
        let word = match self.bits.get(place as usize) {
            Some(word) => *word,
            None => 0,
        };
        WordSide {
            place,
            side,
            word: if is_word(word) { word } else { 0 },
        }
    }

    // Writes a word, and gives it.
    fn set(&mut self, at: WordSide, word: u64) -> u64 {
        if let Some(place) = self.bits.get_mut(at.place as usize) {
            *place = word;
        }
        word
    }

    // Claims the next word.
    fn claim(&mut self) -> Answer
        ensures { IsAnswerOf RouterAct.Claim result }
    {
        if self.claimed >= 4 {
            return Answer::NoWord;
        }
        self.claimed += 1;
        Answer::Claimed(self.claimed - 1)
    }

    // Tries for the lock, for a bypass whose AcceptBypass this node may send.
    fn lock(&mut self, at: WordSide, source: Option<u8>) -> Answer
        requires { IsWord at.word }
        ensures { IsAnswerOf RouterAct.Lock result }
    {
        match try_lock(at.word, at.side, one_of_all(source)) {
            LockPlan::Lock(word) => Answer::Locked(self.set(at, word)),
            LockPlan::Wait(word) => Answer::Waiting(self.set(at, word)),
            LockPlan::Refused => Answer::Refused(at.word),
        }
    }

    // The node that the word of an old link names.
    fn source(&self, message: &Message) -> Option<u8> {
        let Message::AcceptBypass { old, .. } = message else {
            return None;
        };
        source(self.at(Some((*old, Side::A))).word)
    }

    // What the words answer to an act, by the word of its router's link and the node inward of it.
    fn answer(&mut self, act: RouterAct, link: Option<(u64, Side)>, inward: Option<u8>) -> Answer
        ensures { IsAnswerOf act result }
    {
        let at = self.at(link);
        match act {
            RouterAct::Claim => self.claim(),
            RouterAct::Mark => {
                let waits = take_waiting(at.word, at.side) != at.word;
                Answer::Marked(self.set(at, mark(at.word, at.side)), waits)
            }
            RouterAct::Wake => Answer::Word(self.set(at, take_waiting(at.word, at.side))),
            RouterAct::Lock => self.lock(at, inward),
            RouterAct::Unlock => Answer::Word(self.set(at, unlock(at.word, at.side))),
            _ => Answer::Plain,
        }
    }
}

// The number of a node.
fn one_of_all(number: Option<u8>) -> Option<u8>
    ensures { HasNode result }
{
    match number {
        Some(n) if n < 64 => Some(n),
        _ => None,
    }
}

// Two nodes, with the mailboxes between them by sender and destination.
#[derive(Drop)]
struct Pair {
    first: Option<Trial>,
    second: Option<Trial>,
    mail: Mail,
    words: Words,
}

// The mailboxes between two nodes; a message in hand is still there.
#[derive(Drop)]
struct Mail {
    boxes: [Option<Message>; 4],
}

// The number of the mailbox from one node to another.
fn way(from: u8, to: u8) -> usize {
    from as usize * 2 + to as usize
}

impl Mail {
    // Whether the mailbox from one node to another is full.
    fn is_full(&self, from: u8, to: u8) -> bool {
        match self.boxes.get(way(from, to)) {
            Some(Some(_)) => true,
            _ => false,
        }
    }

    // The mailboxes as a node sees them.
    fn seen(&self, n: u8) -> MailSeen {
        let mut seen = super::JAMMED.mail();
        for other in 0..2u8 {
            seen.full[other as usize] = self.is_full(other, n);
            seen.empty[other as usize] = !self.is_full(n, other);
        }
        seen
    }

    // Takes the message out of a mailbox.
    fn take(&mut self, from: u8, to: u8) -> Option<Message> {
        self.boxes.get_mut(way(from, to))?.take()
    }

    // Puts a message into a mailbox.
    fn put(&mut self, from: u8, to: u8, message: Option<Message>) {
        if let Some(mailbox) = self.boxes.get_mut(way(from, to)) {
            *mailbox = message;
        }
    }
}

// Delivers the message that is in a node's hand.
fn hand(node: &mut NodeState, mail: &mut Mail, words: &Words, from: u8) -> Option<Happened> {
    let message = mail.take(from, node.number())?;
    if from >= node.count() {
        return None;
    }
    let source = words.source(&message);
    node.deliver(from, message, source).ok()
}

// Does the first possible act of a node; what it is seen to do.
fn turn(trial: &mut Option<Trial>, mail: &mut Mail, words: &mut Words) -> Option<Happened> {
    let node = &mut trial.as_mut()?.node;
    let act = node.next(&mail.seen(node.number()));
    node.prepare(&act).ok()?;
    match act {
        Act::Hand(from) => hand(node, mail, words, from),
        Act::Router(serial, of) => {
            let answer = words.answer(of, node.word_of(serial), node.source_of(serial));
            Some(node.commit(act, answer).0)
        }
        Act::Post(to) => {
            let (event, posted) = node.commit(act, Answer::Plain);
            mail.put(node.number(), to, posted);
            Some(event)
        }
        _ => Some(node.commit(act, Answer::Plain).0),
    }
}

// The pair of C1 opens on node 0, and both its ends are to move to node 1.
static START: [Step; 2] = [Open(1), Put(A0, &[A1, B1], Ok(0))];

impl Pair {
    // Two nodes with their first pair on C0, and the word of C1 for a pair that node 0 opens.
    fn new(alloc: Global) -> Pair {
        Pair {
            first: Trial::new(alloc, 0, 2),
            second: Trial::new(alloc, 1, 2),
            mail: Mail {
                boxes: [None, None, None, None],
            },
            words: Words {
                bits: [3, 3, 0, 0],
                claimed: 2,
            },
        }
    }

    // Opens the pair and puts the parcel with its ends; whether that went well.
    fn starts(&mut self) -> bool {
        match &mut self.first {
            Some(trial) => trial.first_wrong(&START).is_none(),
            None => false,
        }
    }

    // Does the first possible act of a node; what it is seen to do.
    fn turn(&mut self, number: u8) -> Option<Happened> {
        if number == 0 {
            turn(&mut self.first, &mut self.mail, &mut self.words)
        } else {
            turn(&mut self.second, &mut self.mail, &mut self.words)
        }
    }

    // Takes a turn of a node; whether it does this.
    fn turns(&mut self, number: u8, deed: &Deed) -> bool {
        match self.turn(number) {
            Some(event) => deed.is(&event),
            None => false,
        }
    }

    // The first turn of a leg that doesn't do what it says; behind the last, if the words are
    // others.
    fn first_wrong(&mut self, leg: &Leg) -> Option<usize> {
        for (i, deed) in leg.deeds.iter().enumerate() {
            if !self.turns(leg.node, deed) {
                return Some(i);
            }
        }
        if self.words.bits == leg.words {
            None
        } else {
            Some(leg.deeds.len())
        }
    }

    // The first turn after the start that doesn't do what it says, by its leg and its place there.
    fn first_wrong_of(&mut self, legs: &[Leg]) -> Option<(usize, usize)> {
        if !self.starts() {
            return Some((0, 0));
        }
        for (i, leg) in legs.iter().enumerate() {
            if let Some(place) = self.first_wrong(leg) {
                return Some((i, place));
            }
        }
        None
    }
}

// The first turn that doesn't do what it says, by its leg and its place there.
fn first_wrong(alloc: Global, legs: &[Leg]) -> Option<(usize, usize)> {
    let mut pair = Pair::new(alloc);
    pair.first_wrong_of(legs)
}

// Turns of a node up to the first idle one, what each is seen to do, and the words after them.
struct Leg {
    node: u8,
    deeds: &'static [Deed],
    words: [u64; 4],
}

const C3: LinkId = LinkId::Central(3);

// The links to the new terminals of 1A and of 1B.
const P0: LinkId = LinkId::Peripheral { node: 0, serial: 0 };

const P1: LinkId = LinkId::Peripheral { node: 0, serial: 1 };

// Both ends of C1 move from node 0 to node 1. The proxy of 1A is bypassed by C2, while that of 1B
// is refused the lock of C1; then that waits for the lock of C2 until 1A's new terminal is stable.
static LEGS: [Leg; 10] = [
    Leg {
        node: 0,
        deeds: &[
            SendOut(0, 0, C0, &[A1, B1]),
            Post(1),
            Rest(0),
            Claim(1, 2),
            Lock(1, C1, 531),
            Begin(1, C1),
            Rest(1),
            Claim(2, 3),
            Refused(2, C1, 531),
            Rest(2),
            Idle,
        ],
        words: [3, 531, 0, 0],
    },
    Leg {
        node: 1,
        deeds: &[Look(0), Hand(Handed::Item(0), C0), Rest(0), Idle],
        words: [3, 531, 0, 0],
    },
    Leg {
        node: 0,
        deeds: &[Post(1), Idle],
        words: [3, 531, 0, 0],
    },
    Leg {
        node: 1,
        deeds: &[
            Look(0),
            Hand(Handed::BypassPeer, P0),
            Post(0),
            Rest(1),
            Idle,
        ],
        words: [3, 531, 0, 0],
    },
    Leg {
        node: 0,
        deeds: &[
            Look(1),
            Hand(Handed::AcceptBypass, C1),
            Post(0),
            Look(0),
            Hand(Handed::StopProxying, C1),
            Post(1),
            FinishOut(1, C1),
            FinishIn(1, P0),
            Leave(1),
            FinishOut(2, C1),
            Mark(2, C2, 2),
            Wait(2, C2, 10),
            Rest(2),
            Idle,
        ],
        words: [3, 531, 10, 0],
    },
    Leg {
        node: 1,
        deeds: &[
            Look(0),
            Hand(Handed::ProxyWillStop, P0),
            FinishOut(1, P0),
            Mark(1, C2, 11),
            Wake(1, C2, 3),
            Post(0),
            Rest(1),
            Idle,
        ],
        words: [3, 531, 3, 0],
    },
    Leg {
        node: 0,
        deeds: &[
            Look(1),
            Hand(Handed::Flush, C2),
            Lock(2, C2, 547),
            Begin(2, C2),
            Post(1),
            Rest(2),
            Idle,
        ],
        words: [3, 531, 547, 0],
    },
    // 1A's terminal is on node 1, where the second bypass ends.
    Leg {
        node: 1,
        deeds: &[
            Look(0),
            Hand(Handed::BypassPeer, P1),
            Post(1),
            Look(1),
            Hand(Handed::AcceptBypass, C2),
            Post(0),
            FinishOut(1, C2),
            Mark(1, C3, 1),
            Rest(1),
            Rest(2),
            Idle,
        ],
        words: [3, 531, 547, 1],
    },
    Leg {
        node: 0,
        deeds: &[
            Look(1),
            Hand(Handed::StopProxying, C2),
            Post(1),
            FinishOut(2, C2),
            FinishIn(2, P1),
            Leave(2),
            Idle,
        ],
        words: [3, 531, 547, 1],
    },
    Leg {
        node: 1,
        deeds: &[
            Look(0),
            Hand(Handed::ProxyWillStop, P1),
            FinishOut(2, P1),
            Mark(2, C3, 3),
            Rest(2),
            Idle,
        ],
        words: [3, 531, 547, 3],
    },
];

#[test]
fn two_proxies_are_bypassed_one_after_the_other(rt: HostRuntime) {
    assert_eq!(rt; first_wrong(rt.alloc(), &LEGS), None);
}
