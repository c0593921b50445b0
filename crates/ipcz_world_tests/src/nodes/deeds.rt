//! What a turn does, and with which answer of the words.

ghost use Rattle.std.specs.Prelude.{IfSome};
ghost use Rattle.ipcz_node.specs.Acts.{Answers};
ghost use Rattle.ipcz_router.specs.ActEffects.{IsAnswerOf};

use super::Trial;
use ipcz_base::{End, LinkId, Message, Refusal};
use ipcz_node::{Act, Handed, Happened, MailSeen, NodeState};
use ipcz_router::act::{Answer, RouterAct};

/// What a turn does. The fields are in the order in which the transcript prints them: the serial of
/// a router comes first, then an item's number, the link and the ends that are moved, and the word
/// after it stands last.
#[derive(Clone, Copy)]
pub(super) enum Deed {
    /// A message that fits, with the link that it names.
    Hand(Handed, LinkId),
    Look(u8),
    Post(u8),
    Close(End),
    SendOut(u64, u64, LinkId, &'static [End]),
    SendIn(u64, u64, LinkId, &'static [End]),
    Discard(u64, u64),
    DiscardLeave(u64, u64),
    FinishOut(u64, LinkId),
    FinishIn(u64, LinkId),
    Leave(u64),
    Mark(u64, LinkId, u64),
    Wake(u64, LinkId, u64),
    Claim(u64, u64),
    ClaimNoWord(u64),
    Lock(u64, LinkId, u64),
    Wait(u64, LinkId, u64),
    Refused(u64, LinkId, u64),
    Begin(u64, LinkId),
    Retire(u64, u64, LinkId),
    Rest(u64),
    Idle,
}

impl Deed {
    /// What the words answer to its act.
    pub(super) fn answer(&self) -> Answer {
        match *self {
            Deed::Claim(_, word) => Answer::Claimed(word),
            Deed::ClaimNoWord(_) => Answer::NoWord,
            Deed::Mark(_, _, word) => Answer::Marked(word, false),
            Deed::Wake(_, _, word) => Answer::Word(word),
            Deed::Lock(_, _, word) => Answer::Locked(word),
            Deed::Wait(_, _, word) => Answer::Waiting(word),
            Deed::Refused(_, _, word) => Answer::Refused(word),
            _ => Answer::Plain,
        }
    }

    /// Whether it happened.
    pub(super) fn is(&self, event: &Happened) -> bool {
        match (self, event) {
            (
                Deed::Hand(kind, on),
                Happened::Hand {
                    kind: of,
                    link,
                    unfit,
                },
            ) => { *kind == *of && *on == *link && !*unfit }
            (Deed::Look(from), Happened::Look(of)) => *from == *of,
            (Deed::Post(to), Happened::Post(of)) => *to == *of,
            (Deed::Close(end), Happened::Close(of)) => *end == *of,
            (Deed::Idle, Happened::Idle) => true,
            _ => self.is_send(event) || self.is_of_router(event) || self.is_of_word(event),
        }
    }

    // Whether it is a send that happened.
    fn is_send(&self, event: &Happened) -> bool {
        match (self, event) {
            (
                Deed::SendOut(of, number, on, ends),
                Happened::SendOut {
                    serial,
                    n,
                    link,
                    moved,
                },
            ) => *of == *serial && *number == *n && *on == *link && moved.as_slice() == *ends,
            (
                Deed::SendIn(of, number, on, ends),
                Happened::SendIn {
                    serial,
                    n,
                    link,
                    moved,
                },
            ) => *of == *serial && *number == *n && *on == *link && moved.as_slice() == *ends,
            _ => false,
        }
    }

    // Whether it happened, of those that touch no word.
    fn is_of_router(&self, event: &Happened) -> bool {
        match (self, event) {
            (Deed::Discard(of, number), Happened::Discard(serial, n)) => {
                *of == *serial && *number == *n
            }
            (Deed::DiscardLeave(of, number), Happened::DiscardLeave(serial, n)) => {
                *of == *serial && *number == *n
            }
            (Deed::Retire(of, number, on), Happened::Retire(serial, n, link)) => {
                *of == *serial && *number == *n && *on == *link
            }
            (Deed::FinishOut(of, on), Happened::FinishOut(serial, link)) => {
                *of == *serial && *on == *link
            }
            (Deed::FinishIn(of, on), Happened::FinishIn(serial, link)) => {
                *of == *serial && *on == *link
            }
            (Deed::Begin(of, on), Happened::Begin(serial, link)) => *of == *serial && *on == *link,
            (Deed::Leave(of), Happened::Leave(serial)) => *of == *serial,
            (Deed::Rest(of), Happened::Rest(serial)) => *of == *serial,
            _ => false,
        }
    }

    // Whether it happened, of those that touch a word.
    fn is_of_word(&self, event: &Happened) -> bool {
        match (self, event) {
            (Deed::Mark(of, on, after), Happened::Mark(serial, link, word)) => {
                *of == *serial && *on == *link && *after == *word
            }
            (Deed::Wake(of, on, after), Happened::Wake(serial, link, word)) => {
                *of == *serial && *on == *link && *after == *word
            }
            (Deed::Lock(of, on, after), Happened::Lock(serial, link, word)) => {
                *of == *serial && *on == *link && *after == *word
            }
            (Deed::Wait(of, on, after), Happened::Wait(serial, link, word)) => {
                *of == *serial && *on == *link && *after == *word
            }
            (Deed::Refused(of, on, after), Happened::Refused(serial, link, word)) => {
                *of == *serial && *on == *link && *after == *word
            }
            (Deed::Claim(of, claimed), Happened::Claim(serial, word)) => {
                *of == *serial && *claimed == *word
            }
            (Deed::ClaimNoWord(of), Happened::ClaimNoWord(serial)) => *of == *serial,
            _ => false,
        }
    }
}

// The answer that is offered, if it is of the act's kind; to an act that touches no word, that
// it touches none.
fn answer_of(act: RouterAct, offered: Answer) -> Option<Answer>
    ensures { IfSome result (λ answer. IsAnswerOf act answer) }
{
    match act {
        RouterAct::Claim => match offered {
            Answer::Claimed(_) | Answer::NoWord => Some(offered),
            _ => None,
        },
        RouterAct::Mark => match offered {
            Answer::Marked(_, _) => Some(offered),
            _ => None,
        },
        RouterAct::Lock => match offered {
            Answer::Locked(_) | Answer::Waiting(_) | Answer::Refused(_) => Some(offered),
            _ => None,
        },
        RouterAct::Wake | RouterAct::Unlock => match offered {
            Answer::Word(_) => Some(offered),
            _ => None,
        },
        _ => Some(Answer::Plain),
    }
}

// The same, for an act of a node.
fn answer_to(act: Act, offered: Answer) -> Option<Answer>
    ensures { IfSome result (λ answer. Answers act answer) }
{
    match act {
        Act::Router(_, act) => answer_of(act, offered),
        _ => Some(Answer::Plain),
    }
}

// Does the first possible act; what it is seen to do, and what it posts. An answer of another kind
// than the act's is refused as `Occupied`.
fn take(
    node: &mut NodeState,
    seen: &MailSeen,
    offered: Answer,
) -> Result<(Happened, Option<Message>), Refusal> {
    let act = node.next(seen);
    let Some(answer) = answer_to(act, offered) else {
        return Err(Refusal::Occupied);
    };
    node.prepare(&act)?;
    Ok(node.commit(act, answer))
}

// In place of a begin or a retire that comes first, the lock is given back; what that is seen to do.
#[tactic(auto, using(ipcz_node::proofs::Choosing::unlock_may, ipcz_node::proofs::Choosing::retire_may))]
fn unlock(node: &mut NodeState, seen: &MailSeen, word: u64) -> Option<Happened> {
    let Act::Router(serial, act) = node.next(seen) else {
        return None;
    };
    if act != RouterAct::Begin && act != RouterAct::Retire {
        return None;
    }
    let unlock = Act::Router(serial, RouterAct::Unlock);
    node.prepare(&unlock).ok()?;
    Some(node.commit(unlock, Answer::Word(word)).0)
}

impl Trial {
    /// Takes a turn; whether it does this.
    pub(super) fn turns(&mut self, deed: &Deed) -> bool {
        let Ok((event, posted)) = take(&mut self.node, &self.seen.mail(), deed.answer()) else {
            return false;
        };
        if posted.is_some() {
            self.posted = posted;
        }
        deed.is(&event)
    }

    /// Why a turn is refused, if it is.
    pub(super) fn turn_refusal(&mut self) -> Option<Refusal> {
        take(&mut self.node, &self.seen.mail(), Answer::Plain).err()
    }

    /// Gives the lock back in place of the begin or the retire that comes first; whether the word
    /// after it is told.
    pub(super) fn unlocks(&mut self, word: u64) -> bool {
        let event = unlock(&mut self.node, &self.seen.mail(), word);
        matches!(event, Some(Happened::Unlock(_, _, after)) if after == word)
    }
}
