//! What `Raced` says: another seat has taken an act. Each function does nothing: its contract is the law.

ghost use Rattle.ipcz_cell.specs.Races.{RacedTurnIsOvertaken, RacedTryIsOvertaken, RacedClaimIsOvertaken, RacedOpenIsOvertaken};

/// A turn that is answered `Raced` was overtaken: between its last two loads another seat has taken an act, on a link word or on the claim
/// count, and never on a mailbox's word.
pub fn a_raced_turn_was_overtaken()
    ensures { RacedTurnIsOvertaken }
{}

/// So was a try for the lock of a link word.
pub fn a_raced_try_was_overtaken()
    ensures { RacedTryIsOvertaken }
{}

/// So was the claim of a word.
pub fn a_raced_claim_was_overtaken()
    ensures { RacedClaimIsOvertaken }
{}

/// So was the open of a pair.
pub fn a_raced_open_was_overtaken()
    ensures { RacedOpenIsOvertaken }
{}
