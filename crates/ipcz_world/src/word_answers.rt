//! What a link word answers to an act of a router, and the word after it. No world is needed for that.

ghost use Rattle.std.specs.Prelude.{◌≡◌, None};
ghost use Rattle.ipcz_base.specs.Sides.{opposite};
ghost use Rattle.ipcz_word.specs.Layout.{word_of_bits};
ghost use Rattle.ipcz_word.specs.Laws.{HasNode};
ghost use Rattle.ipcz_world.specs.Coding.{IsLinkNumber};
ghost use Rattle.ipcz_word.specs.SideSets.{has};
ghost use Rattle.ipcz_word.specs.Word.{mark, unlock, plan_of, word_by_plan};
ghost use Rattle.ipcz_world.specs.WordAnswers.{word_answer, word_after, try_answer, woken};

use ipcz_base::Side;
use ipcz_router::act::{Answer, RouterAct};
use ipcz_word::LockPlan;

/// What a word answers, and the word after that.
#[derive(Clone, Copy, Debug, PartialEq, Eq)]
pub struct Answered {
    pub answer: Answer,
    pub word: u64,
}

#[tactic(auto, unfolding(crate::specs::WordAnswers::word_answer, crate::specs::WordAnswers::word_after))]
/// What the word of a link answers to an act of a router at this side, and the word after it; a lock writes the source. An act that
/// touches no word is answered `Plain`. Bits 6 and 7 of the word are none, before and after.
pub fn answer_act(word: u64, side: Side, source: Option<u8>, act: RouterAct) -> Answered
    requires word { IsLinkNumber word }
    requires node { HasNode source }
    ensures answer { result.answer ≡ word_answer (word_of_bits word) side source act }
    ensures word { word_of_bits result.word ≡ word_after (word_of_bits word) side source act }
    ensures valid { IsLinkNumber result.word }
{
    match act {
        RouterAct::Mark => answer_mark(word, side),
        RouterAct::Wake => answer_wake(word, side),
        RouterAct::Lock => answer_lock(word, side, source),
        RouterAct::Unlock => answer_unlock(word, side),
        _ => Answered {
            answer: Answer::Plain,
            word,
        },
    }
}

// Whether the side across waits.
fn other_waits(word: u64, side: Side) -> bool
    requires { IsLinkNumber word }
    ensures { result ≡ has (word_of_bits word).waiting (opposite side) }
{
    ipcz_word::take_waiting(word, side) != word
}

// The side becomes stable.
#[tactic(auto, unfolding(crate::specs::WordAnswers::word_answer), using(crate::proofs::code::WordNumbers::spelled, crate::proofs::code::WordNumbers::kept))]
fn answer_mark(word: u64, side: Side) -> Answered
    requires { IsLinkNumber word }
    ensures answer { result.answer ≡ word_answer (word_of_bits word) side None RouterAct.Mark }
    ensures word { word_of_bits result.word ≡ mark (word_of_bits word) side }
    ensures valid { IsLinkNumber result.word }
{
    let marked = ipcz_word::mark(word, side);
    Answered {
        answer: Answer::Marked(marked, other_waits(word, side)),
        word: marked,
    }
}

// The side across waits no more.
#[tactic(auto, unfolding(crate::specs::WordAnswers::word_answer), using(crate::proofs::code::WordNumbers::spelled, crate::proofs::code::WordNumbers::kept))]
fn answer_wake(word: u64, side: Side) -> Answered
    requires { IsLinkNumber word }
    ensures answer { result.answer ≡ word_answer (word_of_bits word) side None RouterAct.Wake }
    ensures word { word_of_bits result.word ≡ woken (word_of_bits word) side }
    ensures valid { IsLinkNumber result.word }
{
    let woken = ipcz_word::take_waiting(word, side);
    Answered {
        answer: Answer::Word(woken),
        word: woken,
    }
}

// The side gives its lock back.
#[tactic(auto, unfolding(crate::specs::WordAnswers::word_answer), using(crate::proofs::code::WordNumbers::spelled, crate::proofs::code::WordNumbers::kept))]
fn answer_unlock(word: u64, side: Side) -> Answered
    requires { IsLinkNumber word }
    ensures answer { result.answer ≡ word_answer (word_of_bits word) side None RouterAct.Unlock }
    ensures word { word_of_bits result.word ≡ unlock (word_of_bits word) side }
    ensures valid { IsLinkNumber result.word }
{
    let unlocked = ipcz_word::unlock(word, side);
    Answered {
        answer: Answer::Word(unlocked),
        word: unlocked,
    }
}

// The side tries for the lock, and names the source with it.
#[tactic(auto, unfolding(crate::specs::WordAnswers::try_answer, ipcz_word::specs::Word::word_by_plan, ipcz_word::specs::Layout::plan_bits, ipcz_word::specs::Word::plan_of), using(crate::proofs::code::WordNumbers::spelled, crate::proofs::code::WordNumbers::kept))]
fn answer_lock(word: u64, side: Side, source: Option<u8>) -> Answered
    requires word { IsLinkNumber word }
    requires node { HasNode source }
    ensures answer { result.answer ≡ try_answer (word_of_bits word) side source (plan_of (word_of_bits word) side) }
    ensures word { word_of_bits result.word ≡ word_by_plan (word_of_bits word) side source (plan_of (word_of_bits word) side) }
    ensures valid { IsLinkNumber result.word }
{
    match ipcz_word::try_lock(word, side, source) {
        LockPlan::Lock(locked) => Answered {
            answer: Answer::Locked(locked),
            word: locked,
        },
        LockPlan::Wait(waiting) => Answered {
            answer: Answer::Waiting(waiting),
            word: waiting,
        },
        LockPlan::Refused => Answered {
            answer: Answer::Refused(word),
            word,
        },
    }
}
