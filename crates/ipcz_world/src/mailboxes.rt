//! A world's mailboxes, one for each way between two nodes.
ghost use Rattle.std.specs.Prelude.{ℕ, ◌≡◌, ◌<◌, ◌≤◌, true, false, Option, Some, is_some, IfOk, OnOk, OnErr, cond, length, replicate, List};
ghost use Rattle.std.specs.Prelude.{option_copied};
ghost use Rattle.ipcz_node.specs.Deliveries.{IsTakenAtOnce};
ghost use Rattle.ipcz_base.specs.Totals.{total_list};
ghost use Rattle.ipcz_world.specs.Tallies.{Tells};
ghost use Rattle.ipcz_base.specs.Indexed.{place_at, put_place};
ghost use Rattle.ipcz_world.specs.Turns.{is_full, is_clear, hand_message};
ghost use Rattle.ipcz_world.specs.SettleLimit.{highest, gone_mailed};
ghost use Rattle.ipcz_world.specs.Mailing.{taken_up, put_down, as_marked, count_full, IsHanded};

use crate::mail::Mail;
use crate::tallies::{gone_message, higher, plus};
use ipcz_base::{Message, Refusal};
use ipcz_node::NodeState;
use std::alloc::{AllocError, Global};
use std::marker::Model;

/// The mailboxes between the nodes, one for each ordered pair of nodes, by number.
///
/// A look moves no message: it sets a flag of its mailbox, where the message stays until it is handed. How many are full is kept, so that
/// if none is, a node's next act is found without a look at each.
#[derive(Drop)]
pub(crate) struct Mailboxes {
    boxes: Vec<Mail>,
    marks: [bool; 4096],
    full: usize,
}

impl Model for Mailboxes {
    ghost use Rattle.std.specs.Prelude.{List};
    ghost use Rattle.std.specs.Coded.{codes};
    ghost use Rattle.ipcz_world.specs.declared.mail.Mail.{Mail};
    ghost use Rattle.ipcz_world.specs.Mailing.{as_they_stand, AreKept};

    ghost Value = { List Mail };

    ghost coded = { Prim.hlevel codes };

    ghost view = { λ a. as_they_stand a.boxes.items a.marks };

    ghost invariant = { λ a. AreKept a.boxes.items a.marks a.full };
}

impl Mailboxes {
    /// So many mailboxes, each empty.
    pub(crate) fn new(alloc: Global, count: usize) -> Result<Mailboxes, AllocError>
        requires { count ≤ 4096 }
        ensures { IfOk result (λ mail. mail ≡ replicate count Mail.Empty) }
    {
        let mut boxes = Vec::new(alloc);
        for _k in 0..count {
            boxes.push(Mail::Empty)?;
        }
        Ok(Mailboxes {
            boxes,
            marks: [false; 4096],
            full: 0,
        })
    }

    /// These mailboxes, by number.
    pub(crate) fn of(boxes: Vec<Mail>) -> Mailboxes
        requires { length boxes.items ≤ 4096 }
        ensures { result ≡ boxes.items }
    {
        let full = count_full(boxes.as_slice());
        Mailboxes {
            boxes,
            marks: [false; 4096],
            full,
        }
    }

    /// Whether any mailbox is full.
    #[inline(always)]
    pub(crate) fn has_full(&self) -> bool
        ensures none { result ≡ false → (k : ℕ) → is_full (place_at Mail.Empty self.now k) ≡ false }
        ensures some { result ≡ true → (k : ℕ) × (is_full (place_at Mail.Empty self.now k) ≡ true) }
    {
        self.full > 0
    }

    /// Whether a mailbox is full.
    pub(crate) fn is_full(&self, k: usize) -> bool
        requires { k < length self.now }
        ensures { result ≡ is_full (place_at Mail.Empty self.now k) }
    {
        !self.marks[k] && is_full(&self.boxes[k])
    }

    /// Whether a mailbox is empty.
    pub(crate) fn is_clear(&self, k: usize) -> bool
        requires { k < length self.now }
        ensures { result ≡ is_clear (place_at Mail.Empty self.now k) }
    {
        is_clear(&self.boxes[k])
    }

    /// How many mailboxes aren't empty.
    pub(crate) fn full_count(&self) -> Option<u64>
        ensures { Tells result (total_list (λ m. cond (is_clear m) 0 1) self.now) }
    {
        let mut sum = Some(0);
        for mail in self.boxes.as_slice() {
            let one = if is_clear(mail) { 0 } else { 1 };
            sum = plus(sum, Some(one));
        }
        sum
    }

    /// The number after the highest one of a Gone in any of them.
    pub(crate) fn gone_most(&self) -> u64
        ensures { result ≡ highest gone_mailed self.now }
    {
        let mut most = 0;
        for mail in self.boxes.as_slice() {
            most = higher(most, gone_mailed(mail));
        }
        most
    }

    /// Leaves a message in an empty mailbox.
    #[inline(always)]
    pub(crate) fn post(&mut self, k: usize, message: Message)
        requires place { k < length self.old }
        requires clear { is_clear (place_at Mail.Empty self.old k) ≡ true }
        ensures { self.new ≡ put_place Mail.Empty self.old k (Mail.Full message) }
    {
        let place = &mut self.boxes[k];
        let Mail::Empty = place else { unreachable!() };
        *place = Mail::Full(message);
        self.marks[k] = false;
        self.full += 1;
    }

    /// Leaves a message that was in hand in its mailbox, which is empty.
    pub(crate) fn put_back(&mut self, k: usize, message: Message)
        requires place { k < length self.old }
        requires clear { is_clear (place_at Mail.Empty self.old k) ≡ true }
        ensures { self.new ≡ put_place Mail.Empty self.old k (Mail.Hand message) }
    {
        self.boxes[k] = Mail::Hand(message);
    }

    /// Takes the message of a full mailbox into the hand.
    pub(crate) fn take_up(&mut self, k: usize)
        requires place { k < length self.old }
        requires full { is_full (place_at Mail.Empty self.old k) ≡ true }
        ensures { self.new ≡ put_place Mail.Empty self.old k (taken_up (place_at Mail.Empty self.old k)) }
    {
        self.marks[k] = true;
        self.full -= 1;
    }

    /// Hands the message in hand in a mailbox to a node, if it is one that the node takes at once, and tells whether it did: the mailbox is
    /// empty then. Else all stays as it is.
    #[inline(always)]
    pub(crate) fn hand_over(
        &mut self,
        k: usize,
        node: &mut NodeState,
        from: u8,
    ) -> Result<bool, Refusal>
        requires { k < length self.old }
        ensures tried { (m : Message) → (source : Option ℕ) → hand_message (place_at Mail.Empty self.old k) ≡ Some m →
            IsTakenAtOnce node.old from m source result node.new }
        ensures mail { IfOk result
            (λ taken. taken ≡ true → self.new ≡ put_place Mail.Empty self.old k (put_down (place_at Mail.Empty self.old k))) }
        ensures left { IfOk result (λ taken. taken ≡ false → (self.new ≡ self.old) × (node.new ≡ node.old)) }
        ensures err { OnErr result ((self.new ≡ self.old) × (node.new.node ≡ node.old.node)) }
    {
        let place = &mut self.boxes[k];
        let taken = match hand_at(place, self.marks[k], node, from) {
            Ok(taken) => taken,
            Err(why) => return Err(why),
        };
        if !taken {
            return Ok(false);
        }
        *place = Mail::Empty;
        Ok(true)
    }

    /// The message in hand in a mailbox, if there is one.
    pub(crate) fn in_hand(&self, k: usize) -> Option<&Message>
        requires { k < length self.now }
        ensures { option_copied result ≡ hand_message (place_at Mail.Empty self.now k) }
    {
        message_in(&self.boxes[k], self.marks[k])
    }

    /// Hands the message in hand in a mailbox to a node, whatever it is: the mailbox is empty then. If the node refuses it, all stays as it is.
    pub(crate) fn hand_any(
        &mut self,
        k: usize,
        node: &mut NodeState,
        from: u8,
        source: Option<u8>,
    ) -> Result<(), Refusal>
        requires place { k < length self.old }
        requires hand { is_some (hand_message (place_at Mail.Empty self.old k)) ≡ true }
        ensures delivered { (m : Message) → hand_message (place_at Mail.Empty self.old k) ≡ Some m →
            IsHanded node.old from m source result node.new }
        ensures mail { OnOk result (self.new ≡ put_place Mail.Empty self.old k (put_down (place_at Mail.Empty self.old k))) }
        ensures err { OnErr result (self.new ≡ self.old) }
    {
        let place = &mut self.boxes[k];
        match hand_any_at(place, self.marks[k], node, from, source) {
            Ok(()) => *place = Mail::Empty,
            Err(why) => return Err(why),
        }
        Ok(())
    }
}

// How many of these are full.
fn count_full(boxes: &[Mail]) -> usize
    requires { length boxes.now ≤ 4096 }
    ensures { result ≡ count_full boxes.now }
{
    let mut sum = 0;
    for mail in boxes {
        if is_full(mail) {
            sum += 1;
        }
    }
    sum
}

// Hands the message in hand in a mailbox, whose flag may be set, to a node, if it is one that the node takes at once, and tells whether it
// did: what is left of the message counts for nothing then. Else all stays as it is.
#[inline(always)]
#[tactic(auto, unfolding(crate::specs::Mailing::as_marked, crate::specs::Mailing::taken_up, crate::specs::Turns::hand_message, crate::specs::Turns::is_full))]
fn hand_at(place: &mut Mail, marked: bool, node: &mut NodeState, from: u8) -> Result<bool, Refusal>
    ensures tried { (m : Message) → (source : Option ℕ) → hand_message (as_marked marked place.old) ≡ Some m →
        IsTakenAtOnce node.old from m source result node.new }
    ensures hand { IfOk result (λ taken. taken ≡ true → is_full (as_marked marked place.old) ≡ false) }
    ensures left { IfOk result (λ taken. taken ≡ false → (place.new ≡ place.old) × (node.new ≡ node.old)) }
    ensures err { OnErr result ((place.new ≡ place.old) × (node.new.node ≡ node.old.node)) }
{
    match place {
        Mail::Empty => Ok(false),
        Mail::Full(message) => {
            if marked {
                node.deliver_at_once(from, message)
            } else {
                Ok(false)
            }
        }
        Mail::Hand(message) => node.deliver_at_once(from, message),
    }
}

// Hands the message in hand in a mailbox, whose flag may be set, to a node, whatever it is: what is left of the message counts for nothing
// then. Else all stays as it is.
#[inline(always)]
#[tactic(auto, unfolding(crate::specs::Mailing::as_marked, crate::specs::Mailing::taken_up, crate::specs::Turns::hand_message, crate::specs::Turns::is_full))]
fn hand_any_at(
    place: &mut Mail,
    marked: bool,
    node: &mut NodeState,
    from: u8,
    source: Option<u8>,
) -> Result<(), Refusal>
    requires { is_some (hand_message (as_marked marked place.old)) ≡ true }
    ensures delivered { (m : Message) → hand_message (as_marked marked place.old) ≡ Some m → IsHanded node.old from m source result node.new }
    ensures hand { is_full (as_marked marked place.old) ≡ false }
    ensures err { OnErr result (place.new ≡ place.old) }
{
    match place {
        Mail::Empty => unreachable!(),
        Mail::Full(message) => {
            if marked {
                node.deliver_in_place(from, message, source)
            } else {
                unreachable!()
            }
        }
        Mail::Hand(message) => node.deliver_in_place(from, message, source),
    }
}

// The message in hand in a mailbox, whose flag may be set.
#[tactic(auto, unfolding(crate::specs::Mailing::as_marked, crate::specs::Mailing::taken_up, crate::specs::Turns::hand_message))]
fn message_in(place: &Mail, marked: bool) -> Option<&Message>
    ensures { option_copied result ≡ hand_message (as_marked marked place.now) }
{
    match place {
        Mail::Empty => None,
        Mail::Full(message) => { if marked { Some(message) } else { None } }
        Mail::Hand(message) => Some(message),
    }
}

// Whether it is full.
#[tactic(auto, unfolding(crate::specs::Turns::is_full))]
fn is_full(mail: &Mail) -> bool
    ensures { result ≡ is_full mail.now }
{
    match mail {
        Mail::Full(_) => true,
        Mail::Empty | Mail::Hand(_) => false,
    }
}

// The number after that of the Gone in it, if it has one.
#[tactic(auto, unfolding(crate::specs::SettleLimit::gone_mailed))]
fn gone_mailed(mail: &Mail) -> u64
    ensures { result ≡ gone_mailed mail.now }
{
    match mail {
        Mail::Empty => 0,
        Mail::Full(message) | Mail::Hand(message) => gone_message(message),
    }
}

// Whether it is empty.
#[tactic(auto, unfolding(crate::specs::Turns::is_clear))]
fn is_clear(mail: &Mail) -> bool
    ensures { result ≡ is_clear mail.now }
{
    match mail {
        Mail::Empty => true,
        Mail::Full(_) | Mail::Hand(_) => false,
    }
}
