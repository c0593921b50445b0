//! The kinds of atomic step about mailboxes, on a table whose slots carry batches (specs/BatchKinds). Each function does nothing: its contract is
//! the law.

ghost use Rattle.std.specs.Prelude.{Bool};
ghost use Rattle.ipcz_rule.specs.Batches.{BatchTurns};
ghost use Rattle.ipcz_rule.specs.BatchKinds.{BatchProbes, BatchUnprobes, BatchPosts, BatchLooks, LooksOn, BatchHands, HandsOn, BatchClears, BatchGivesBack};

/// A sender takes the slot of an empty mailbox.
pub fn a_probe_keeps_batches()
    ensures { (alone : Bool) → BatchProbes (BatchTurns alone) }
{}

/// The slot of a mailbox that was probed goes home as it was.
pub fn an_unprobe_keeps_batches()
    ensures { (alone : Bool) → BatchUnprobes (BatchTurns alone) }
{}

/// A batch leaves the outbox for the mailbox: one post of the shown world, that of its first message.
pub fn a_post_keeps_batches()
    ensures { (alone : Bool) → BatchPosts alone (BatchTurns alone) }
{}

/// A look takes the first message of a full mailbox into the hand, and its seat has the others.
pub fn a_look_keeps_batches()
    ensures { (alone : Bool) → BatchLooks alone (BatchTurns alone) }
{}

/// A look takes the next message that is left of a batch, and changes no word.
pub fn a_look_at_what_is_left_keeps_batches()
    ensures { (alone : Bool) → LooksOn (BatchTurns alone) }
{}

/// The last message of a batch is handled, and the slot goes home empty.
pub fn a_hand_keeps_batches()
    ensures { (alone : Bool) → BatchHands (BatchTurns alone) }
{}

/// A message behind which others are left is handled, and changes no word: the shown world takes that hand, and then a post of the sender.
pub fn a_hand_with_more_left_keeps_batches()
    ensures { (alone : Bool) → HandsOn (BatchTurns alone) }
{}

/// A sender's bit is cleared in the own inbox, while the last message of its batch is in hand.
pub fn a_cleared_bit_keeps_batches()
    ensures { (alone : Bool) → BatchClears (BatchTurns alone) }
{}

/// The slot of a batch goes home, while a message of it is in hand or left.
pub fn giving_a_slot_back_keeps_batches()
    ensures { (alone : Bool) → BatchGivesBack (BatchTurns alone) }
{}
