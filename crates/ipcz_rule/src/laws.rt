//! What the rule of the table says (specs/RuleLaws). Each function does nothing: its contract is the law.

ghost use Rattle.ipcz_rule.specs.RuleLaws.{RuleGivesHeadline, RuleOwes, ShownHasLengths, PartsAreSound, PartsHandsFit, LinksAreWords};
ghost use Rattle.ipcz_rule.specs.RuleLaws.{OldLinksAreWords, FullMailboxesAreAnnounced, CountsWereReached, NodesHaveParts};
ghost use Rattle.ipcz_rule.specs.RuleLaws.{RuleBoundsTurns};
ghost use Rattle.ipcz_rule.specs.Races.{SightsAreLoads, RacedIsOvertaken, WaitedForStays};
ghost use Rattle.ipcz_rule.specs.TableRuns.{StepsAreTurns, StepsAreBounded, OvertakenByActs};
ghost use Rattle.ipcz_rule.specs.LastingRuns.{CallsAreSteps, ClaimsForOpenAreSteps, TableStepsAreRuns, TurnsAreDeeds, TurnsAreSteps};
ghost use Rattle.ipcz_rule.specs.RuleLaws.{PutsAreOnce, GetsFollowPuts, QuietPartsShowQuiet, SettledPartsAreDirect};

/// If the rule holds, then in the world that words, slots and views show each portal has got a prefix of what its peer put, each item that
/// was neither got nor dropped stands in one place, locks and words are in order, link lengths agree, and no message but a Flush finds its
/// router gone.
pub fn what_is_shown_gives_the_headline()
    ensures { RuleGivesHeadline }
{}

/// If the rule holds, a router with a possible act is flagged.
pub fn what_is_shown_owes_what_waits()
    ensures { RuleOwes }
{}

/// If the rule holds, the shown world has a node for each number below its count, a word for each link, a mailbox for each two nodes.
pub fn what_is_shown_has_its_lengths()
    ensures { ShownHasLengths }
{}

/// Each part is that of a node of the table; the words that the node names are link words of the table, and it has no strays.
pub fn each_part_is_of_a_sound_node()
    ensures { PartsAreSound }
{}

/// A message in a node's hand fits there; only a Flush may find its router gone.
pub fn each_message_in_hand_fits_its_part()
    ensures { PartsHandsFit }
{}

/// What stands at a link is the number of a link word, of which bits 6 and 7 are none.
pub fn each_link_has_a_link_word()
    ensures { LinksAreWords }
{}

/// The old link that an AcceptBypass in a node's hand names has a link word of the table.
pub fn each_old_link_has_a_link_word()
    ensures { OldLinksAreWords }
{}

/// Who finds a sender's bit not set in the inbox of a node knows that the mailbox from that sender isn't full: a full one was announced.
pub fn each_full_mailbox_is_announced()
    ensures { FullMailboxesAreAnnounced }
{}

/// A claim count that a seat has seen was reached: the table shows no less, and no more than there are link words.
pub fn each_count_seen_was_reached()
    ensures { CountsWereReached }
{}

/// Each node of the table has a part in some seat's view.
pub fn each_node_has_a_part()
    ensures { NodesHaveParts }
{}

/// The views say of each number of an end at most one item that was put under it.
pub fn each_number_is_put_once()
    ensures { PutsAreOnce }
{}

/// What a portal has got under a number is what its peer has put under it, and it has got all numbers before: so each portal's gets in the
/// views are a prefix of its peer's puts.
pub fn gets_follow_puts()
    ensures { GetsFollowPuts }
{}

/// If each part is of a quiet node and no mailbox is full, the shown world is quiet.
pub fn quiet_parts_show_a_quiet_world()
    ensures { QuietPartsShowQuiet }
{}

/// If each part is of a quiet node with no router that lacks a word, and no mailbox is full, the shown world has no proxy and no router
/// of a pair with both ends closed, and each open pair in it of which an end isn't closed is direct: two terminals on one free link, and all
/// that was put has come.
pub fn settled_parts_are_direct()
    ensures { SettledPartsAreDirect }
{}

/// If the rule holds, whatever turns the nodes take from the shown world, no more of them use something up than its rank, and two for
/// each unlock, by all rates that fit the books: so while no caller calls, a fabric whose seats go on trying comes to its end.
pub fn what_is_shown_becomes_quiet_within_its_rank()
    ensures { RuleBoundsTurns }
{}

/// Any list of steps that turns take, of any seats and in whatever order, is a run of turns of the shown world: each step is none, or
/// one act of its node, by what it found.
pub fn steps_of_turns_are_turns_of_what_is_shown()
    ensures { StepsAreTurns }
{}

/// Any list of steps of a table, calls and turns of any seats and in whatever order, is a run of the world that is shown: each call is that call
/// there, with its answer, each turn is that turn, with what is seen in it, and the rest is beside: a claim for an open, numbers that are passed over,
/// and what routers are told of words.
pub fn steps_of_tables_are_runs_of_what_is_shown()
    ensures { TableStepsAreRuns }
{}

/// A put, a get, a close or an open that a node doesn't refuse is a step of such a run, whatever the table is when the step comes: its deed is that call
/// with its answer, and the seat's part is then what the cell's call says of it. So is what a router is told of words, which is beside.
pub fn calls_are_steps_of_tables()
    ensures { CallsAreSteps }
{}

/// So is a claim for an open, which is beside, with the numbers that it passes over.
pub fn claims_for_opens_are_steps_of_tables()
    ensures { ClaimsForOpenAreSteps }
{}

/// So is a step of whichever kind that tells turns of the shown world, and its deeds are these turns, with what is seen in them.
pub fn turns_are_steps_of_tables()
    ensures { TurnsAreSteps }
{}

/// What the kinds say of a turn, that it is turns of the shown world, makes it such deeds, also where its claim has passed over numbers.
pub fn turns_are_deeds()
    ensures { TurnsAreDeeds }
{}

/// So between calls no run of steps, by any threads, has more acts that use something up than the rank of the world that is shown at its
/// start, and two for each unlock.
pub fn steps_of_turns_are_bounded()
    ensures { StepsAreBounded }
{}

/// If a link word or the claim count has another number behind steps of turns than before them, one of these steps is an act. So a call
/// is answered `Raced` there only if another seat has taken an act, or was in a call, between its load and its exchange.
pub fn another_number_is_found_only_behind_an_act()
    ensures { OvertakenByActs }
{}

/// A step of a kind is a load wherever it is no act, leaves the word, and tells that nothing but what was seen has changed: so is an exchange
/// that finds another number than the one that it was for.
pub fn a_step_that_only_sees_is_a_load()
    ensures { SightsAreLoads }
{}

/// If a seat only loads, and has found a link word or the claim count at one number and then at another, another seat has taken an act on
/// that word between.
pub fn who_finds_two_numbers_was_overtaken()
    ensures { RacedIsOvertaken }
{}

/// If a seat only loads, it finds a mailbox again as it has found it: one to its node full, and one from its node empty. So no exchange of
/// such a mailbox's word finds another number than the load.
pub fn a_mailbox_that_is_waited_for_stays()
    ensures { WaitedForStays }
{}
