//! What is known of the values of link words: what the last line said that told one.

ghost use Rattle.std.specs.Prelude.{◌≡◌, ◌<◌, None, get_or, length, min, replicate, IfOk};
ghost use Rattle.ipcz_picture.specs.Words.{step_of, values_after, IsFirstValue, Sees, SeesAll, TellsValues};

use ipcz_lines::{Event, Line, ReadLine, RouterEvent, halves, word};
use std::alloc::{AllocError, Global};

/// The value of each word that was told last, as far as one was told.
#[derive(Drop)]
pub struct KnownWords {
    values: Vec<Option<u16>>,
}

/// The word that a line changes, and its value after that.
pub fn step_of(line: &Line) -> Option<(u16, u16)>
    ensures { result ≡ step_of line.now }
{
    match line {
        Line::Turn {
            event: Event::Router {
                event: RouterEvent::Word { word, after, .. },
                ..
            },
            ..
        } => Some((*word, *after)),
        Line::Turn {
            event: Event::Router {
                event: RouterEvent::Claim { word: Some(word) },
                ..
            },
            ..
        } => Some((*word, 0)),
        _ => None,
    }
}

/// The first of some values, if it is one, and those behind it.
pub fn first_value(values: &[u8]) -> (Option<u16>, &[u8])
    requires { 0 < length values.now }
    ensures first { IsFirstValue values.now result.0 result.1.now }
    ensures shorter { length result.1.now < length values.now }
{
    match halves(values, b' ') {
        Some((first, rest)) => (word(first), rest),
        None => (word(values), &[]),
    }
}

impl KnownWords {
    /// Nothing is known of so many words, and of no more than may be.
    pub fn new(alloc: Global, words: usize) -> Result<Self, AllocError>
        ensures { IfOk result (λ known. known.values.items ≡ replicate (min words 4096) None) }
    {
        Ok(KnownWords {
            values: vec![in alloc; None; words.min(4096)]?,
        })
    }

    /// The value of a word that was told last.
    pub fn value_of(&self, word: usize) -> Option<u16>
        ensures { result ≡ get_or self.now.values.items word None }
    {
        self.values.as_slice().get(word).copied().flatten()
    }

    // Takes a word's value for known.
    fn tell(&mut self, word: usize, value: Option<u16>)
        ensures { self.new.values.items ≡ values_after self.old.values.items word value }
    {
        if let Some(known) = self.values.get_mut(word)
            && value.is_some()
        {
            *known = value;
        }
    }

    // Takes the values that a line of words tells for known.
    fn tell_all(&mut self, values: &[u8])
        ensures { TellsValues 0 values.now self.old.values.items self.new.values.items }
    {
        let mut rest = values;
        let mut index = 0usize;
        'telling: while !rest.is_empty() {
            let (value, others) = first_value(rest);
            self.tell(index, value);
            rest = others;
            index += 1;
        }
    }

    /// Takes what a line tells for known.
    pub fn see(&mut self, line: &Line)
        ensures { Sees line.now self.old.values.items self.new.values.items }
    {
        if let Line::Words(values) = line {
            self.tell_all(values);
        } else if let Some((word, value)) = step_of(line) {
            self.tell(word as usize, Some(value));
        }
    }
}

/// What the lines up to one tell of so many words.
pub fn known_before(
    alloc: Global,
    lines: &[ReadLine],
    words: usize,
) -> Result<KnownWords, AllocError>
    ensures { IfOk result (λ known. SeesAll lines.now (replicate (min words 4096) None) known.values.items) }
{
    let mut known = KnownWords::new(alloc, words)?;
    for read in lines {
        known.see(&read.line);
    }
    Ok(known)
}
