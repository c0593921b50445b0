//! A node's outboxes, one for each other node and its own.
ghost use Rattle.std.specs.Prelude.{ℕ, ◌≤◌, ◌≡◌, ◌<◌, ◌++◌, [], ◌∷◌, true, false, if◌then◌else◌, not, nat_eq, length, map, option_to_list, replicate, OnOk, IfOk, IsOk};
ghost use Rattle.ipcz_base.specs.Indexed.{place_at, put_place};
ghost use Rattle.ipcz_node.specs.Acts.{first_of, rest_of, are_empty};
ghost use Rattle.ipcz_node.specs.NodeSets.{has_node};
ghost use Rattle.ipcz_node.specs.RoomyNodes.{one_with_mail};

use crate::batch::Batch;
use crate::node_set::NodeSet;
use crate::outbox::Outbox;
use ipcz_base::Message;
use std::alloc::{AllocError, Global};
use std::marker::Model;

/// Messages that wait to be posted, by destination: a queue for each number that a node could have.
///
/// In how many queues messages wait is kept, so that a node without mail is known without a look at each, and in which of the first 64, so that the
/// lowest is found so.
#[derive(Drop)]
pub struct Outboxes {
    queues: Vec<Outbox>,
    waiting: usize,
    nodes: NodeSet,
}

impl Model for Outboxes {
    ghost use Rattle.std.specs.Prelude.{map, ◌≡◌, length};
    ghost use Rattle.std.specs.Coded.{codes};
    ghost use Rattle.ipcz_node.specs.NodeSets.{AreWithMail};
    ghost use Rattle.ipcz_node.specs.RoomyNodes.{OutboxesValue, boxes_with_mail};

    ghost Value = { OutboxesValue };

    ghost coded = { Prim.hlevel codes };

    ghost view = { λ a. record {
      messages = map (λ q. q.messages) a.queues.items;
      room = map (λ q. q.room) a.queues.items;
    } };

    ghost invariant = { λ a. (length a.queues.items ≡ 256) × (a.waiting ≡ boxes_with_mail (map (λ q. q.messages) a.queues.items)) ×
        AreWithMail a.nodes (map (λ q. q.messages) a.queues.items) };
}

// One for a queue in which messages wait, and none for an empty one.
fn count(queue: &Outbox) -> usize
    ensures { result ≡ one_with_mail queue.now.messages }
{
    if queue.is_empty() { 0 } else { 1 }
}

// Notes whether messages wait in the queue of a node. One of 64 or more is left out.
#[inline(always)]
fn note(nodes: &mut NodeSet, to: u8, queue: &Outbox)
    ensures { (n : ℕ) → n < 64 → has_node nodes.new n ≡
        (if nat_eq to n then not (nat_eq (length queue.now.messages) 0) else has_node nodes.old n) }
{
    if queue.is_empty() {
        nodes.remove(to);
    } else {
        nodes.add(to);
    }
}

impl Outboxes {
    /// No messages.
    pub fn new(alloc: Global) -> Result<Outboxes, AllocError>
        ensures { IfOk result (λ o. o.messages ≡ replicate 256 []) }
    {
        let mut queues = Vec::with_capacity(alloc, 256)?;
        for _i in 0..256usize {
            queues.push_reserved(Outbox::new(alloc));
        }
        Ok(Outboxes {
            queues,
            waiting: 0,
            nodes: NodeSet::none(),
        })
    }

    /// Makes room for a message more to a node. If none waits for it yet, it takes no memory.
    pub fn reserve(&mut self, to: u8) -> Result<(), AllocError>
        ensures ok { OnOk result (0 < place_at 0 self.new.room to) }
        ensures messages { self.new.messages ≡ self.old.messages }
        ensures succeeds { 0 < place_at 0 self.old.room to → IsOk result }
        ensures empty { place_at [] self.old.messages to ≡ [] → IsOk result }
        ensures kept { (other : ℕ) → place_at 0 self.old.room other ≤ place_at 0 self.new.room other }
    {
        self.queues[usize::from(to)].reserve()
    }

    /// Adds a message to a node.
    pub fn push(&mut self, to: u8, message: Message)
        requires { 0 < place_at 0 self.old.room to }
        ensures { self.new.messages ≡ put_place [] self.old.messages to (place_at [] self.old.messages to ++ message ∷ []) }
    {
        let queue = &mut self.queues[usize::from(to)];
        self.waiting += 1 - count(queue);
        queue.push(message);
        note(&mut self.nodes, to, queue);
    }

    /// Whether a message waits for a node.
    pub fn has_mail(&self, to: u8) -> bool
        ensures { result ≡ not (nat_eq (length (place_at [] self.now.messages to)) 0) }
    {
        !self.queues[usize::from(to)].is_empty()
    }

    /// The lowest node from one on, below 64, for which a message waits, or 64.
    #[inline(always)]
    pub fn next_with_mail(&self, from: u8) -> u8
        requires { from ≤ 64 }
        ensures from { from ≤ result }
        ensures most { result ≤ 64 }
        ensures none { (n : ℕ) → from ≤ n → n < result → not (nat_eq (length (place_at [] self.now.messages n)) 0) ≡ false }
        ensures there { result < 64 → not (nat_eq (length (place_at [] self.now.messages result)) 0) ≡ true }
    {
        self.nodes.first_from(from)
    }

    /// The messages that wait, by destination.
    pub fn queues(&self) -> &[Outbox]
        ensures { map (λ q. q.messages) result.now ≡ self.now.messages }
    {
        self.queues.as_slice()
    }

    /// There is a queue for each number that a node could have. It does nothing, and is there for what a caller has to prove.
    #[inline(always)]
    pub fn has_each(&self)
        ensures { length self.now.messages ≡ 256 }
    {
        let _queues = &self.queues;
    }

    /// Whether no message waits.
    pub fn are_empty(&self) -> bool
        ensures { result ≡ are_empty self.now.messages }
    {
        self.waiting == 0
    }

    /// Takes the first message for a node out, if there is one. What is left empty gives its room back.
    pub fn pop(&mut self, alloc: Global, to: u8) -> Option<Message>
        ensures messages { self.new.messages ≡ put_place [] self.old.messages to (rest_of (place_at [] self.old.messages to)) }
        ensures message { result ≡ first_of (place_at [] self.old.messages to) }
        ensures room { rest_of (place_at [] self.old.messages to) ≡ [] → place_at 0 self.new.room to ≡ 0 }
    {
        let queue = &mut self.queues[usize::from(to)];
        let before = count(queue);
        let message = queue.pop(alloc);
        self.waiting = self.waiting + count(queue) - before;
        note(&mut self.nodes, to, queue);
        message
    }

    /// Takes the first message for a node out into an empty batch, if there is one. What is left empty gives its room back.
    pub fn take_first(&mut self, alloc: Global, to: u8, batch: &mut Batch)
        requires { batch.old ≡ [] }
        ensures messages { self.new.messages ≡ put_place [] self.old.messages to (rest_of (place_at [] self.old.messages to)) }
        ensures batch { batch.new ≡ option_to_list (first_of (place_at [] self.old.messages to)) }
    {
        let queue = &mut self.queues[usize::from(to)];
        let before = count(queue);
        batch.take_first_of(queue, alloc);
        self.waiting = self.waiting + count(queue) - before;
        note(&mut self.nodes, to, queue);
    }

    /// Takes all messages for a node out, into an empty batch. The outbox has the batch's room then.
    pub fn take_all(&mut self, to: u8, batch: &mut Batch)
        requires { batch.old ≡ [] }
        ensures messages { self.new.messages ≡ put_place [] self.old.messages to [] }
        ensures batch { batch.new ≡ place_at [] self.old.messages to }
    {
        let queue = &mut self.queues[usize::from(to)];
        let before = count(queue);
        batch.take_from(queue);
        self.waiting -= before;
        note(&mut self.nodes, to, queue);
    }
}
