//! A search for an order of the lines of several logs in which they are allowed.

ghost use Rattle.std.specs.Prelude.{◌≡◌, ◌⊎◌, ◌<◌, ◌≤◌, ◌+◌, ◌++◌, ◌∷◌, [], ℕ, List, cond, length, IfNone, IfOk, IfSome, OnOk, MatchBool, slice_get};
ghost use Rattle.std.specs.Option.{option_copied};
ghost use Rattle.ipcz_base.specs.declared.profile.Profile.{Profile};
ghost use Rattle.ipcz_verdict.specs.declared.entry.Entry.{Entry};
ghost use Rattle.ipcz_verdict.specs.Desks.{HasAllowed};
ghost use Rattle.ipcz_verdict.specs.Ledger.{IsAllowed};
ghost use Rattle.ipcz_verdict.specs.Searches.{Adds, CanEnd, HasEntries, IsBack, IsOfNext, IsSearch, IsShortened, IsStack, IsStep, IsStuck, IsWith, Moves, left_of, rank_of, taken_lines};
ghost use Rattle.ipcz_verdict.specs.Together.{calls_of, IsFound};

use crate::entry::Entry;
use crate::judge::Judge;
use crate::line::Line;
use crate::queue::Queue;
use ipcz_base::Profile;
use std::alloc::{AllocError, Global};
use std::marker::Model;

// There are so many logs, numbered from 0 on.
const LOGS: usize = 64;

// A line has one of four ranks, and a key below this one: its log, and 64 for each rank.
const KEYS: usize = 256;

/// What a search for an order has found.
#[derive(Clone, Copy, Debug, PartialEq, Eq)]
pub enum Found {
    /// There is an order of all lines that keeps each log's own, and in which they are allowed.
    Order,
    /// There is none. The number is that of a line which couldn't follow the longest order that was found of first lines of each log.
    NoOrder(u64),
    /// So many steps weren't enough to tell.
    Untold,
}

// A line that was taken, and the key from which to go on in its place once all that may follow it was tried.
#[derive(Drop)]
struct Taken {
    entry: Entry,
    next: usize,
}

// A search: the lines that were taken, in this order; the judge that has allowed them; and what each log has left.
#[derive(Drop)]
struct Search {
    judge: Judge,
    order: Vec<Taken>,
    left: Vec<Queue>,
}

// What came of a step.
#[derive(Clone, Copy, Debug, PartialEq, Eq)]
pub(crate) enum Step {
    // The search goes on from this key.
    On(usize),
    // All lines were taken.
    Found,
    // All orders were tried.
    End,
}

// How many lines were taken where most were, and the least number of the lines that were next there.
#[derive(Clone, Copy)]
struct Stuck {
    taken: usize,
    number: u64,
}

// Which lines are tried first: those that change nothing, then those that take no portal from its holder, and closes last.
fn rank_of(line: &Line) -> usize
    ensures { result ≡ rank_of line.now }
{
    match line {
        Line::Opened { .. } | Line::Got { .. } => 1,
        Line::Put { portals, .. } => { if portals.is_empty() { 1 } else { 2 } }
        Line::Closed { .. } => 3,
        _ => 0,
    }
}

// ---- the logs

// The first line that is left of a log.
fn first_left(left: &[Queue], log: usize) -> Option<&Entry>
    ensures { option_copied result ≡ slice_get (left_of left.now log) 0 }
{
    match left.get(log) {
        Some(queue) => queue.first(),
        None => None,
    }
}

// Takes the first line that is left of a log.
fn take_front(left: &mut [Queue], log: usize) -> Option<Entry>
    ensures some { IfSome result (λ entry. (left_of left.old log ≡ entry ∷ left_of left.new log) × IsWith left.old log (left_of left.new log) left.new) }
    ensures none { IfNone result (left_of left.old log ≡ []) }
{
    if log >= left.len() {
        return None;
    }
    left[log].pop()
}

// Puts a line back before those that are left of its log.
fn put_back(left: &mut [Queue], entry: Entry) -> Result<(), AllocError>
    ensures { entry.log < length left.old → OnOk result (IsWith left.old entry.log (entry ∷ left_of left.old entry.log) left.new) }
{
    let log = usize::from(entry.log);
    if log < left.len() {
        left[log].put_back(entry)?;
    }
    Ok(())
}

// Puts a line behind those that are left of its log.
fn push_back(left: &mut [Queue], entry: Entry) -> Result<(), AllocError>
    ensures { entry.log < length left.old → OnOk result (IsWith left.old entry.log (left_of left.old entry.log ++ entry ∷ []) left.new) }
{
    let log = usize::from(entry.log);
    if log < left.len() {
        left[log].push(entry)?;
    }
    Ok(())
}

// One log more, which has no line.
fn add_log(alloc: Global, left: &mut Vec<Queue>) -> Result<(), AllocError>
    ensures { OnOk result (left.new.items ≡ left.old.items ++ [] ∷ []) }
{
    left.push(Queue::new(alloc))?;
    Ok(())
}

// Whether no log has a line left.
fn is_none_left(left: &[Queue]) -> bool
    ensures { MatchBool result ((log : ℕ) → left_of left.now log ≡ []) (((log : ℕ) → left_of left.now log ≡ []) → ⊥) }
{
    for queue in left {
        if queue.first().is_some() {
            return false;
        }
    }
    true
}

// The lesser of a number and that of a line.
fn lesser(least: u64, number: u64) -> u64
    ensures one { (result ≡ least) ⊎ (result ≡ number) }
    ensures first { least ≡ 18446744073709551615 → result ≡ number }
{
    if number < least { number } else { least }
}

// The least number of a line that is the next of its log.
fn least_next(left: &[Queue]) -> u64
    ensures { IsOfNext left.now result }
{
    let mut least = u64::MAX;
    for queue in left {
        if let Some(entry) = queue.first() {
            least = lesser(least, entry.number);
        }
    }
    least
}

// ---- a search

impl Search {
    // Takes the line with this key, if it is the next of its log and allowed now.
    fn try_key(&mut self, key: usize) -> Result<bool, AllocError>
        requires { key < 256 }
        ensures search { (nodes : ℕ) (profile : Profile) (entries : List Entry) → IsSearch nodes profile entries self.old.judge self.old.order.items self.old.left.items key →
            IfOk result (λ took. IsSearch nodes profile entries self.new.judge self.new.order.items self.new.left.items (cond took 0 (key + 1))) }
        ensures adds { (nodes : ℕ) (profile : Profile) (entries : List Entry) → IsSearch nodes profile entries self.old.judge self.old.order.items self.old.left.items key →
            IfOk result (λ took. Adds self.old.order.items self.new.order.items key took) }
    {
        let log = key % LOGS;
        let Some(entry) = first_left(&self.left, log) else {
            return Ok(false);
        };
        if rank_of(&entry.line) != key / LOGS {
            return Ok(false);
        }
        if !self.judge.take(&entry.line)? {
            return Ok(false);
        }
        if let Some(entry) = take_front(&mut self.left, log) {
            self.order.push(Taken {
                entry,
                next: key + 1,
            })?;
        }
        Ok(true)
    }

    // Takes the first line from this key on that is allowed, if there is one.
    fn try_from(&mut self, from: usize) -> Result<bool, AllocError>
        ensures search { (nodes : ℕ) (profile : Profile) (entries : List Entry) → IsSearch nodes profile entries self.old.judge self.old.order.items self.old.left.items from →
            IfOk result (λ took. IsSearch nodes profile entries self.new.judge self.new.order.items self.new.left.items (cond took 0 256)) }
        ensures adds { (nodes : ℕ) (profile : Profile) (entries : List Entry) → IsSearch nodes profile entries self.old.judge self.old.order.items self.old.left.items from →
            IfOk result (λ took. Adds self.old.order.items self.new.order.items from took) }
    {
        for key in from..KEYS {
            if self.try_key(key)? {
                return Ok(true);
            }
        }
        Ok(false)
    }

    // Takes lines back until another may stand in the place of the last of them, and says from which key on. None is such a line if the search is at its end.
    fn take_back(&mut self) -> Result<Option<usize>, AllocError>
        ensures back { (nodes : ℕ) (profile : Profile) (entries : List Entry) → IsStack nodes profile entries self.old.order.items self.old.left.items →
            (CanEnd nodes profile entries (taken_lines self.old.order.items) → ⊥) → IfOk result (λ from. IsBack nodes profile entries self.new.order.items self.new.left.items from) }
        ensures shortened { IfOk result (λ from. IfSome from (λ from. IsShortened self.old.order.items self.new.order.items from)) }
    {
        while let Some(taken) = self.order.pop() {
            let next = taken.next;
            put_back(&mut self.left, taken.entry)?;
            if next < KEYS {
                return Ok(Some(next));
            }
        }
        Ok(None)
    }

    // A judge that has allowed the lines which were taken.
    fn judge_again(&self, alloc: Global, nodes: u8, profile: Profile) -> Result<Judge, AllocError>
        requires some { 0 < nodes }
        requires few { nodes ≤ 8 }
        ensures { IsAllowed nodes profile (calls_of (taken_lines self.now.order.items)) →
            IfOk result (λ judge. HasAllowed judge nodes profile (calls_of (taken_lines self.now.order.items))) }
    {
        let mut judge = Judge::new(alloc, nodes, profile)?;
        for taken in &self.order {
            judge.take(&taken.entry.line)?;
        }
        Ok(judge)
    }

    // Goes on from this key: takes a line, or takes some back if none may be taken.
    fn step(
        &mut self,
        alloc: Global,
        nodes: u8,
        profile: Profile,
        from: usize,
    ) -> Result<Step, AllocError>
        requires some { 0 < nodes }
        requires few { nodes ≤ 8 }
        ensures search { (entries : List Entry) → IsSearch nodes profile entries self.old.judge self.old.order.items self.old.left.items from →
            IfOk result (λ step. IsStep nodes profile entries self.new.judge self.new.order.items self.new.left.items step) }
        ensures moves { (entries : List Entry) → IsSearch nodes profile entries self.old.judge self.old.order.items self.old.left.items from →
            IfOk result (λ step. Moves self.old.order.items from self.new.order.items step) }
    {
        if self.try_from(from)? {
            return Ok(Step::On(0));
        }
        if is_none_left(&self.left) {
            return Ok(Step::Found);
        }
        let Some(next) = self.take_back()? else {
            return Ok(Step::End);
        };
        self.judge = self.judge_again(alloc, nodes, profile)?;
        Ok(Step::On(next))
    }

    // Where the search may be stuck: here, if it never came farther.
    fn stuck(&self, before: Stuck) -> Stuck
        ensures { (nodes : ℕ) (profile : Profile) (entries : List Entry) → IsStack nodes profile entries self.now.order.items self.now.left.items →
            IsStuck nodes profile entries before.number → IsStuck nodes profile entries result.number }
    {
        if self.order.len() <= before.taken {
            return before;
        }
        Stuck {
            taken: self.order.len(),
            number: least_next(&self.left),
        }
    }

    // Looks for an order, in so many steps: a line that is taken, or judged again, is one.
    fn run(
        &mut self,
        alloc: Global,
        nodes: u8,
        profile: Profile,
        mut steps: u64,
    ) -> Result<Found, AllocError>
        requires some { 0 < nodes }
        requires few { nodes ≤ 8 }
        ensures { (entries : List Entry) → IsSearch nodes profile entries self.old.judge self.old.order.items self.old.left.items 0 →
            self.old.order.items ≡ [] → IfOk result (λ found. IsFound nodes profile entries steps found) }
    {
        let mut from = 0;
        let mut stuck = Stuck {
            taken: 0,
            number: least_next(&self.left),
        };
        while steps > 0 {
            stuck = self.stuck(stuck);
            match self.step(alloc, nodes, profile, from)? {
                Step::On(next) => from = next,
                Step::Found => return Ok(Found::Order),
                Step::End => return Ok(Found::NoOrder(stuck.number)),
            }
            steps = steps_left(steps, from, self.order.len());
        }
        Ok(Found::Untold)
    }
}

// How many steps are left after one more: where lines were taken back, each that is left was judged again.
fn steps_left(steps: u64, from: usize, taken: usize) -> u64
    requires { 0 < steps }
    ensures fewer { result < steps }
    ensures one { from ≡ 0 → steps ≡ result + 1 }
    ensures least { steps ≤ result + 1 + taken }
{
    if from == 0 {
        steps - 1
    } else {
        (steps - 1).saturating_sub(taken as u64)
    }
}

/// The lines of several logs, of which only the order within each log is known (docs/JUDGE.md, "Several logs").
#[derive(Drop)]
pub struct Logs {
    queues: Vec<Queue>,
}

impl Model for Logs {
    ghost use Rattle.std.specs.Prelude.{List};
    ghost use Rattle.ipcz_verdict.specs.declared.entry.Entry.{Entry};

    ghost Value = { List (List Entry) };

    ghost view = { λ a. a.queues.items };
}

impl Logs {
    /// 64 logs, none of which has a line.
    pub fn new(alloc: Global) -> Result<Self, AllocError>
        ensures nothing { IfOk result (λ logs. HasEntries logs []) }
    {
        let mut queues = Vec::new(alloc);
        let mut lacking = LOGS;
        while lacking > 0 {
            add_log(alloc, &mut queues)?;
            lacking -= 1;
        }
        Ok(Logs { queues })
    }

    /// One line more, behind the others of its log.
    pub fn push(&mut self, entry: Entry) -> Result<(), AllocError>
        requires { entry.log < 64 }
        ensures more { (entries : List Entry) → HasEntries self.old entries → OnOk result (HasEntries self.new (entries ++ entry ∷ [])) }
    {
        push_back(&mut self.queues, entry)
    }

    /// Whether the lines of these logs are allowed together, by an implementation with so many nodes whose puts have this profile.
    ///
    /// They are if the machine allows them in some order that keeps each log's own (`Found::Order`), and else they aren't (`Found::NoOrder`). A step takes a line,
    /// or takes one again after others were taken back; if `steps` of them weren't enough, nothing is told (`Found::Untold`): then there are so many ways to begin an
    /// order that to come to each of them takes as many. So logs of n lines want n + 1 steps at least, and where lines of several logs may come in either order, to
    /// tell that there is no order takes as many as there are orders.
    ///
    /// Log 0 gets `a` as number 0 at `1>0`, and log 1 puts it at `0>1`: that is `Order`, in 3 steps, also if log 0 was read first. If log 1 puts `b`, it is
    /// `NoOrder` with the number of the get.
    pub fn find_order(
        self,
        alloc: Global,
        nodes: u8,
        profile: Profile,
        steps: u64,
    ) -> Result<Found, AllocError>
        requires some { 0 < nodes }
        requires few { nodes ≤ 8 }
        ensures found { (entries : List Entry) → HasEntries self entries → IfOk result (λ found. IsFound nodes profile entries steps found) }
    {
        let mut search = Search {
            judge: Judge::new(alloc, nodes, profile)?,
            order: Vec::new(alloc),
            left: self.queues,
        };
        search.run(alloc, nodes, profile, steps)
    }
}
