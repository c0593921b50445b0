//! The kinds of atomic step of a seat with one node (specs/Kinds). Each function does nothing: its contract says that the step keeps the
//! rule of the table, what it leaves of its seat, and which turns of the shown world it is: none, or one act of its node. Of a call's it says in
//! their place that it is this call of the shown world, with its answer, and of what is no call and no turn what it is there (specs/Deeds); and that
//! the ends of link words which are held are those that were, and those of a number that it claims.

ghost use Rattle.ipcz_rule.specs.Kinds.{Loads, Puts, Gets, Closes, PendingCloses, Touches, TouchActs, Marks, Wakes, Unlocks, TriesLock};
ghost use Rattle.ipcz_rule.specs.Kinds.{LoadsForLock};
ghost use Rattle.ipcz_rule.specs.Kinds.{IsDeeds, IsTurns, LoadsForClaim, Dries, Wets, Claims, ClaimsForOpen, Opens, Probes, Unprobes, Announces, LoadsForPost, Posts, Looks, LoadsForHand};
ghost use Rattle.ipcz_rule.specs.Kinds.{Clears, Hands, GivesBack, JoinsParts, Notes};

/// A load of any word changes nothing but what was seen.
pub fn a_load_keeps_the_rule()
    ensures { Loads IsTurns }
{}

/// A touch is a put that the node doesn't refuse: the node's part gains the item under its number. It is that put of the shown world, answered so.
pub fn a_put_keeps_the_rule()
    ensures { Puts IsDeeds }
{}

/// A touch is a get that gives a parcel: the part gains it under its number. It is that get of the shown world, answered so.
pub fn a_get_keeps_the_rule()
    ensures { Gets IsDeeds }
{}

/// A touch is a close: the part gains the mark. It is that close of the shown world, answered how many parcels were put there.
pub fn a_close_keeps_the_rule()
    ensures { Closes IsDeeds }
{}

/// A touch is a close that is pending.
pub fn a_pending_close_keeps_the_rule()
    ensures { PendingCloses IsTurns }
{}

/// A touch is an act of a router that asks no word: a send, a discard, a finish, a leave, a begin, a retire, a rest.
pub fn an_act_of_a_router_keeps_the_rule()
    ensures { Touches IsTurns }
{}

/// A touch is any possible act of the node that asks no word and no mailbox.
pub fn a_touch_keeps_the_rule()
    ensures { TouchActs IsTurns }
{}

/// A mark of the own side.
pub fn a_mark_keeps_the_rule()
    ensures { Marks IsTurns }
{}

/// A wake of the other side.
pub fn a_wake_keeps_the_rule()
    ensures { Wakes IsTurns }
{}

/// An unlock.
pub fn an_unlock_keeps_the_rule()
    ensures { Unlocks IsTurns }
{}

/// A lock or a wait: an exchange, which is a load if the word has changed.
pub fn a_try_for_the_lock_keeps_the_rule()
    ensures { TriesLock IsTurns }
{}

/// A load before the try for a lock: if the lock is refused, that is the router's answer.
pub fn a_load_for_the_lock_keeps_the_rule()
    ensures { LoadsForLock IsTurns }
{}

/// A load before a claim: if each word was claimed, that is the router's answer.
pub fn a_load_for_a_claim_keeps_the_rule()
    ensures { LoadsForClaim IsTurns }
{}

/// A claim that is told that no word is left, at any time.
pub fn a_claim_that_finds_no_slot_keeps_the_rule()
    ensures { Dries IsDeeds }
{}

/// A router that was told that no word is left may claim again, at any time.
pub fn a_router_made_wet_keeps_the_rule()
    ensures { Wets IsDeeds }
{}

/// A claim of a proxy's spare.
pub fn a_claim_keeps_the_rule()
    ensures { Claims IsTurns }
{}

/// The first half of an open, which is no call: the node has claimed a word for it.
pub fn a_claim_for_an_open_keeps_the_rule()
    ensures { ClaimsForOpen IsDeeds }
{}

/// An open, which finds its word empty. It is that open of the shown world, answered the two ends of the word's pair.
pub fn an_open_keeps_the_rule()
    ensures { Opens IsDeeds }
{}

/// A probe takes the slot of an empty mailbox.
pub fn a_probe_keeps_the_rule()
    ensures { Probes IsTurns }
{}

/// A probed mailbox is given back.
pub fn an_unprobe_keeps_the_rule()
    ensures { Unprobes IsTurns }
{}

/// A message is announced: the sender's bit is set in the inbox of a node.
pub fn an_announcement_keeps_the_rule()
    ensures { Announces IsTurns }
{}

/// A load of an inbox before a post: if the sender's bit is set there, the message is announced.
pub fn a_load_for_a_post_keeps_the_rule()
    ensures { LoadsForPost IsTurns }
{}

/// A bit of the own inbox is cleared, while its sender's message is in hand.
pub fn a_cleared_bit_keeps_the_rule()
    ensures { Clears IsTurns }
{}

/// A post: the first message of an outbox goes home with the slot.
pub fn a_post_keeps_the_rule()
    ensures { Posts IsTurns }
{}

/// A look takes the message of a full mailbox into the hand.
pub fn a_look_keeps_the_rule()
    ensures { Looks IsTurns }
{}

/// A load of the old link's word before an AcceptBypass in hand is handled: the source that it names is the sender.
pub fn a_load_for_a_hand_keeps_the_rule()
    ensures { LoadsForHand IsTurns }
{}

/// The message in hand is handled, and its slot goes home empty.
pub fn a_hand_keeps_the_rule()
    ensures { Hands IsTurns }
{}

/// The slot of the message in hand goes home, while the message stays in hand.
pub fn giving_a_slot_back_keeps_the_rule()
    ensures { GivesBack IsTurns }
{}

/// A seat takes in the parts of another.
pub fn a_join_keeps_the_rule()
    ensures { JoinsParts }
{}

/// A call is written into the history of its node, for a caller that has lent its view.
pub fn a_note_keeps_the_rule()
    ensures { Notes IsTurns }
{}
