//! A world's link words, laid out as they are claimed.
ghost use Rattle.std.specs.Prelude.{◌≡◌, ◌<◌, ◌≤◌, ◌+◌, ◌++◌, ◌-◌, Some, IfSome, IfOk, IsOk, OnOk, OnErr, length, map, replicate, if◌then◌else◌};
ghost use Rattle.ipcz_word.specs.Layout.{word_of_bits};
ghost use Rattle.ipcz_word.specs.Laws.{HasNode};
ghost use Rattle.ipcz_word.specs.Word.{empty_word, open_word};
ghost use Rattle.ipcz_world.specs.Coding.{claimed_word, has_unclaimed, claim_one, put_word, with_more, is_claim, side_answer, side_after, source_at};
ghost use Rattle.ipcz_world.specs.Coding.{table_answer, table_after, IsTable, AreUnclaimedEmpty};
ghost use Rattle.ipcz_world.specs.World.{word_limit};

use crate::word_answers::answer_act;
use ipcz_base::Side;
use ipcz_router::act::{Answer, RouterAct};
use ipcz_word::{EMPTY_WORD, OPEN_WORD};
use std::alloc::{AllocError, Global};
use std::marker::Model;

/// The link words that the nodes share, and how many of them were claimed (docs/PROTOCOL.md, "Link words").
///
/// Words are laid out in memory as they are claimed. Those that aren't are empty, and touch no memory: room is kept for them, so that a
/// claim never fails for want of it.
#[derive(Drop)]
pub(crate) struct LinkWords {
    bits: Vec<u64>,
    size: u64,
}

impl Model for LinkWords {
    ghost use Rattle.std.specs.Prelude.{vec_capacity};
    ghost use Rattle.std.specs.FinMap.{code};
    ghost use Rattle.std.specs.Coded.{codes};
    ghost use Rattle.ipcz_world.specs.Coding.{WordTable, laid_table, IsLaidOut};

    ghost Value = { WordTable };

    ghost coded = { Prim.hlevel (codes, code) };

    ghost view = { λ a. laid_table a.bits.items a.size };

    ghost invariant = { λ a. IsLaidOut a.bits.items (vec_capacity a.bits) a.size };
}

impl LinkWords {
    /// So many link words. The first ones are those of pairs' first links, and claimed; the others are empty. Room is kept for all of them.
    pub(crate) fn new(alloc: Global, pairs: u32, words: u32) -> Result<LinkWords, AllocError>
        requires pairs { pairs ≤ words }
        requires words { words ≤ word_limit }
        ensures words { IfOk result (λ t. t.words ≡ replicate pairs open_word ++ replicate (words - pairs) empty_word) }
        ensures claimed { IfOk result (λ t. t.claimed ≡ pairs) }
    {
        let mut bits = Vec::with_capacity(alloc, words as usize)?;
        for _pair in 0..pairs {
            bits.push_reserved(OPEN_WORD);
        }
        Ok(LinkWords {
            bits,
            size: words as u64,
        })
    }

    /// These link words, of which so many are claimed; the others are empty.
    pub(crate) fn of(mut bits: Vec<u64>, claimed: u64) -> LinkWords
        requires table { IsTable bits.items claimed }
        requires empty { AreUnclaimedEmpty (map word_of_bits bits.items) claimed }
        ensures words { result.words ≡ map word_of_bits bits.items }
        ensures claimed { result.claimed ≡ claimed }
    {
        let size = bits.as_slice().len() as u64;
        bits.truncate(claimed as usize);
        LinkWords { bits, size }
    }

    /// How many words were claimed.
    pub(crate) fn claimed(&self) -> u64
        ensures { result ≡ self.now.claimed }
    {
        self.bits.as_slice().len() as u64
    }

    /// How many words are left to claim.
    pub(crate) fn left(&self) -> u64
        ensures { self.now.claimed + result ≡ length self.now.words }
    {
        self.size - self.claimed()
    }

    /// So many empty words more, with room kept for them. Refused if there is no room for so many: then the table is as it was.
    pub(crate) fn add(&mut self, count: u64) -> Result<(), AllocError>
        ensures more { OnOk result (self.new ≡ with_more self.old count) }
        ensures none { count ≡ 0 → IsOk result }
        ensures err { OnErr result (self.new ≡ self.old) }
    {
        let Some(size) = self.size.checked_add(count) else {
            return Err(AllocError);
        };
        let unclaimed = size - self.claimed();
        self.bits.reserve(unclaimed as usize)?;
        self.size = size;
        Ok(())
    }

    /// The number of a claimed word.
    pub(crate) fn word(&self, i: u64) -> Option<u64>
        ensures { result ≡ claimed_word self.now i }
    {
        if i < self.claimed() {
            Some(self.bits[i as usize])
        } else {
            None
        }
    }

    /// The node that a claimed word names as the source of a bypass.
    pub(crate) fn source(&self, i: u64) -> Option<u8>
        ensures { result ≡ source_at self.now i }
    {
        if self.claimed() > i {
            ipcz_word::source(self.bits[i as usize])
        } else {
            None
        }
    }

    /// Whether a word is left to claim.
    pub(crate) fn has_unclaimed(&self) -> bool
        ensures { result ≡ has_unclaimed self.now }
    {
        self.claimed() < self.size
    }

    /// Claims the next word and gives its number.
    pub(crate) fn claim(&mut self) -> u64
        requires { self.old.claimed < length self.old.words }
        ensures word { result ≡ self.old.claimed }
        ensures table { self.new ≡ claim_one self.old }
    {
        let word = self.claimed();
        self.bits.push_reserved(EMPTY_WORD);
        word
    }

    /// Makes a claimed word that of a pair's first link.
    pub(crate) fn open(&mut self, i: u64)
        requires { i < self.old.claimed }
        ensures { self.new ≡ put_word self.old i open_word }
    {
        self.bits[i as usize] = OPEN_WORD;
    }

    /// Answers an act of a router whose outward primary link has this word and side, if it is central, and makes of the word what the
    /// act does; a lock names the source.
    pub(crate) fn answer(
        &mut self,
        source: Option<u8>,
        act: RouterAct,
        link: Option<(u64, Side)>,
    ) -> Answer
        requires node { HasNode source }
        requires within { IfSome link (λ l. l.0 < self.old.claimed) }
        ensures answer { result ≡ table_answer self.old source act link }
        ensures table { self.new ≡ table_after self.old source act link }
    {
        if is_claim(act) {
            self.answer_claim()
        } else {
            self.answer_link(source, act, link)
        }
    }

    // Claims a word, if one is left.
    fn answer_claim(&mut self) -> Answer
        ensures answer { result ≡ (if has_unclaimed self.old then Answer.Claimed self.old.claimed else Answer.NoWord) }
        ensures table { self.new ≡ (if has_unclaimed self.old then claim_one self.old else self.old) }
    {
        if self.has_unclaimed() {
            Answer::Claimed(self.claim())
        } else {
            Answer::NoWord
        }
    }

    // Answers an act on the word of a link.
    #[tactic(auto, unfolding(crate::specs::Coding::side_answer, crate::specs::Coding::side_after))]
    fn answer_link(
        &mut self,
        source: Option<u8>,
        act: RouterAct,
        link: Option<(u64, Side)>,
    ) -> Answer
        requires node { HasNode source }
        requires within { IfSome link (λ l. l.0 < self.old.claimed) }
        ensures answer { result ≡ side_answer self.old source act link }
        ensures table { self.new ≡ side_after self.old source act link }
    {
        match link {
            Some((i, side)) => self.answer_word(source, act, i, side),
            None => Answer::Plain,
        }
    }

    // Answers an act on a claimed word.
    #[tactic(auto, unfolding(crate::specs::Coding::side_answer, crate::specs::Coding::side_after))]
    fn answer_word(&mut self, source: Option<u8>, act: RouterAct, i: u64, side: Side) -> Answer
        requires node { HasNode source }
        requires within { i < self.old.claimed }
        ensures answer { result ≡ side_answer self.old source act (Some (i, side)) }
        ensures table { self.new ≡ side_after self.old source act (Some (i, side)) }
    {
        let answered = answer_act(self.bits[i as usize], side, source, act);
        self.bits[i as usize] = answered.word;
        answered.answer
    }
}

// Whether an act claims a word.
#[tactic(auto, unfolding(crate::specs::Coding::is_claim))]
fn is_claim(act: RouterAct) -> bool
    ensures { result ≡ is_claim act }
{
    matches!(act, RouterAct::Claim)
}
