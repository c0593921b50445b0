//! The kinds of atomic step on a table whose link words come back (specs/Lasting). Each function does nothing: its contract is the law.

ghost use Rattle.ipcz_rule.specs.Lasting.{NoSlotOfItIsLost};
ghost use Rattle.ipcz_rule.specs.LastingKinds.{TurnsLast};
ghost use Rattle.ipcz_rule.specs.LastingSeats.{SeatsAreApart, SeatsLast};
ghost use Rattle.ipcz_rule.specs.LastingStart.{StartLasts};
ghost use Rattle.ipcz_rule.specs.LastingCalls.{CallsLast, OpensLast, ClaimsForOpenLast, ClaimsForOpenInOrder};

/// Each kind of step that a turn takes keeps the rule of a table with slots, and is the turns that it says: on the slot of a number, or as far
/// behind the slots as it is behind the link words. An act by which a router gives an end up is one step on the let-go word of its slot, and an act that is another step gives up none. A slot
/// that both sides have let go is taken by whoever finds both bits, emptied, and may be given back; a claim takes a number whose slot is free
/// at its seat, and where slots aren't used again the next number.
pub fn turns_keep_the_lasting_rule()
    ensures { TurnsLast }
{}

/// A put, a get and a close keep the rule of a table whose link words come back, and are these calls of the shown world; so do routers that are told that
/// there is no word, or that they may ask again, of which callers see nothing.
pub fn calls_keep_the_lasting_rule()
    ensures { CallsLast }
{}

/// So does an open on the word that was claimed for it, and is that call.
pub fn an_open_keeps_the_lasting_rule()
    ensures { OpensLast }
{}

/// So does a claim for an open, which passes over the numbers before its own.
pub fn a_claim_for_an_open_keeps_the_lasting_rule()
    ensures again { ClaimsForOpenLast }
    ensures order { ClaimsForOpenInOrder }
{}

/// The table at the start keeps the rule of a table whose link words come back, and shows the world at the start.
pub fn the_start_keeps_the_lasting_rule()
    ensures { StartLasts }
{}

/// So do seats that are dealt and joined, and callers that come; and what is shown stays.
pub fn seats_keep_the_lasting_rule()
    ensures { SeatsLast }
{}

/// No two seats of a table that keeps this rule have a part of one node.
pub fn seats_are_apart()
    ensures { SeatsAreApart }
{}

/// No slot of a table that keeps the rule of one whose link words come back is lost: each shows a number of which an end is held, or both sides
/// have let its number go and it is to be had, or a seat has it, to empty it or for a claim.
pub fn no_slot_is_lost()
    ensures { NoSlotOfItIsLost }
{}
