//! The laws of worlds and of their runs. Each function does nothing: its contract is the law. What a law speaks of is defined in specs/:
//! `Lawful`, `Headline` and runs in Lawful, steps in Steps, books in Books, quiet in Settling (docs/THEOREM.md).

ghost use Rattle.ipcz_world.specs.WorldLaws.{StartsLawful, StepKeepsLawful, FirstIsPossible, ClaimKeepsLawful, RepliesPlainly};
ghost use Rattle.ipcz_world.specs.WorldLaws.{BeginsLocked, LinksStay, LawfulGivesHeadline, HeadlineHolds, ItemsStandOnce};
ghost use Rattle.ipcz_world.specs.WorldLaws.{LawfulStraysNothing, NothingStrays, LawfulOwes, TerminalsKeepBooks, ListsHaveLengths};
ghost use Rattle.ipcz_world.specs.WorldLaws.{EndsStandOnce, HandsFit};
ghost use Rattle.ipcz_world.specs.WorldLaws.{NodesAreSound, QuietDelivers, OneNodeIsDirect};
ghost use Rattle.ipcz_world.specs.WorldLaws.{GetsStayQuiet, HeldHaveTerminals, NothingIsForgotten, QuietIsDirect, ClosedPairsAreGone, QuietHasNoProxy};
ghost use Rattle.ipcz_world.specs.Ranks.{ActsLowerTheRank, TurnsKeepRates, TurnsAreBounded, OrderedAreRated, UnusedIsQuiet};
ghost use Rattle.ipcz_world.specs.SettleBounds.{VisitsAreBounded, UnsettledIsBounded, PlainAreRated, PlainLimitIsEnough, SettledIsDirect};
ghost use Rattle.ipcz_world.specs.WorldLaws.{HandsStandInMail, OpeningWordsAreEmpty, PendingHaveTerminals};
ghost use Rattle.ipcz_world.specs.WorldLaws.{RunsArePlain, RepliesStrayNothing};
ghost use Rattle.ipcz_world.specs.SettleLimit.{RankIsWithinLimit, SettleLimitIsEnough};
ghost use Rattle.ipcz_world.specs.PutBounds.{StayingIsUnused, PutsAreBounded, DirectPutsAreBounded};
ghost use Rattle.ipcz_world.specs.Theorem.{TheTheoremHolds};
ghost use Rattle.ipcz_world.specs.Arrived.{ArrivedLeaveProxiesBehind};
ghost use Rattle.ipcz_world.specs.Lasting.{LastingRunsKeepTheTheorem, DeedsKeepRanks, DeedsKeepEnds};
ghost use Rattle.ipcz_world.specs.HeldEnds.{PassingKeepsLawful, GrowingKeepsLawful, DryKeepsLawful, WetKeepsLawful};
ghost use Rattle.ipcz_world.specs.HeldEnds.{HeldWereHeld, TurnsHeldWereHeld, HeldForOpenWereHeld, LostAreNotHeld, LetGoAreNotHeld, AcceptedAreHeld, DeadWordsDoNotMatter};
ghost use Rattle.ipcz_world.specs.HeldEnds.{HeldUntilLetGo, CallsKeepHeld, HeldInOnePlace};
ghost use Rattle.ipcz_world.specs.HeldEnds.{TurnsKeepHeld, LetGoAreGivenUp, OpeningKeepsHeld, ClaimedAreHeld};

/// The theorem of this repository (specs/Theorem): to their callers the nodes together are the machine over the books alone. Whatever steps
/// are taken from the start, and whichever possible act each turn takes, that machine allows their replies; each portal has got a prefix of
/// what its peer put; each accepted item that its peer hasn't read stands in one place; no message but a Flush finds its router gone; no
/// router that waits is forgotten; if nothing waits, and words were left, no proxy is left; and left alone, the world becomes quiet within
/// its rank, for all rates that fit.
pub fn the_theorem_holds_after_every_run()
    ensures { TheTheoremHolds }
{}

/// The world at the start, with 1 to 64 nodes and words enough for the first pairs (2^64 - 1 at most), is lawful with empty books and the
/// routes of the first pairs.
pub fn the_world_at_the_start_is_lawful()
    ensures { StartsLawful }
{}

/// Each step keeps a world lawful, with the books and routes that the step writes: an open, a put, a get, a close, or a turn that takes
/// any possible act, not only the first one. A refused step is one of these.
pub fn each_step_keeps_a_world_lawful()
    ensures { StepKeepsLawful }
{}

/// A step in which a turn takes the first act of the tables, or the unlock that stands in for a begin, is one in which it takes a
/// possible act: so what is said of any possible act is said of what the code does.
pub fn first_acts_are_possible()
    ensures { FirstIsPossible }
{}

/// The first half of an open, in which a word is claimed and its pair isn't made yet, keeps a world lawful with the same books and
/// routes.
pub fn claiming_for_an_open_keeps_a_world_lawful()
    ensures { ClaimKeepsLawful }
{}

/// Each reply, and what it writes into the books, is one that the machine over the books alone allows: a put is numbered by how many the
/// end has put, a get gives the next parcel that the peer put, and a refusal writes nothing.
pub fn each_reply_is_plain()
    ensures { RepliesPlainly }
{}

/// To its callers the nodes together are the machine over the books alone: whatever steps are taken from the start, and whichever possible
/// act each turn takes, that machine allows the replies that the steps got, and its books at the end are those of the run. It always allows
/// a refusal because callers don't hold an end, nothing has come, or words, serials or memory are missing: these aren't in the books.
pub fn runs_are_plain()
    ensures { RunsArePlain }
{}

/// A turn that is seen to begin the bypass of a link finds that link's word locked by the side of its own router.
pub fn a_bypass_begins_only_under_its_lock()
    ensures { BeginsLocked }
{}

/// The word of a link stays the word of a link for good, and of the same pair.
pub fn a_links_word_stays_with_its_pair()
    ensures { LinksStay }
{}

/// In a lawful world each link is locked by at most one side and only while both are stable, what is being bypassed is locked by the side
/// that left it, a stable link that is free joins two routers without decaying links, each portal has got a prefix of what its peer put,
/// each accepted item neither got nor dropped stands in one queue or message, and an end that isn't closed drops none.
pub fn a_lawful_world_gives_the_headline()
    ensures { LawfulGivesHeadline }
{}

/// The same after every list of steps from the start, whichever possible act each turn takes.
pub fn the_headline_holds_after_every_run()
    ensures { HeadlineHolds }
{}

/// What the headline's weights say of one item: if the peer hasn't read it, it stands in one place, under its number; and what
/// stands anywhere is such an item.
pub fn each_item_stands_once()
    ensures { ItemsStandOnce }
{}

/// In a lawful world all that know a link's length know the same, items under way are below it and not passed at their receiver, no node
/// has a stray, and each message under way but a Flush finds its router or follows the message that makes it.
pub fn nothing_strays_in_a_lawful_world()
    ensures { LawfulStraysNothing }
{}

/// The same after every list of steps from the start.
pub fn nothing_strays_after_any_run()
    ensures { NothingStrays }
{}

/// In a lawful world each message in a node's hand fits there, so that no turn is seen to keep a stray; only a Flush may find its router
/// gone.
pub fn each_message_in_hand_fits()
    ensures { HandsFit }
{}

/// A step from a lawful world is never answered by a turn that is seen to hand a message as a stray: if a turn says that the message in
/// hand didn't fit, it was a Flush whose router is gone, and it is dropped.
pub fn only_a_flush_is_seen_to_stray()
    ensures { RepliesStrayNothing }
{}

/// In a lawful world a router with a possible act is flagged, and a router's flags agree. One that has tried for a lock isn't forgotten:
/// the other side holds it, or a Flush is under way, or the other router is flagged, or it waits for a side that isn't stable or owes the
/// wake. And if a decaying link's length isn't known, a message of its bypass is under way.
pub fn a_lawful_world_owes_what_waits()
    ensures { LawfulOwes }
{}

/// The same after every list of steps from the start, whichever possible act each turn takes.
pub fn nothing_is_forgotten_after_any_run()
    ensures { NothingIsForgotten }
{}

/// In a lawful world where nothing waits and no router has found the words used up, each open pair of which an end isn't closed is direct:
/// its routers are two terminals on one link, stable on both sides and free, and what an end has put and its peer hasn't got stands in the
/// in queue of the peer's terminal.
pub fn a_quiet_world_is_direct()
    ensures { QuietIsDirect }
{}

/// In such a world no router is left of a pair with both ends closed.
pub fn a_quiet_world_has_no_closed_pair()
    ensures { ClosedPairsAreGone }
{}

/// In such a world no proxy is left.
pub fn a_quiet_world_has_no_proxy()
    ensures { QuietHasNoProxy }
{}

/// In a lawful world a terminal's next number is how many items its end has put, the current number of its in queue how many its end has
/// read; it is a sink exactly if its end was closed, and an open one has dropped nothing. The same holds of a descriptor that will
/// make one.
pub fn terminals_keep_their_books()
    ensures { TerminalsKeepBooks }
{}

/// In a lawful world each end of an open pair is held by the callers of one node, in the list of one parcel, among the closes that are
/// pending, or closed: one of these, once. Another end is in none of these, and of it nothing is written. The mark that a close puts is
/// its end's last item, or Gone comes right after it and is last.
pub fn each_end_is_in_one_place()
    ensures { EndsStandOnce }
{}

/// In a lawful world each proxy of an end that has arrived is out of its route: it has no primary link, and of each link that it gives up it
/// knows how many items still go over it. So it leaves once these have passed, and needs no link word for that, and no lock.
pub fn an_end_that_has_arrived_leaves_its_proxies_behind()
    ensures { ArrivedLeaveProxiesBehind }
{}

/// In a lawful world an end that callers of a node hold has its terminal at that node, so that no call at it is a Stranger's.
pub fn each_held_end_has_its_terminal()
    ensures { HeldHaveTerminals }
{}

/// A lawful world has a node for each number below its count, a word for each below its size, a mailbox for each two nodes, at most 64
/// nodes, and no more words claimed than there are.
pub fn lists_have_their_lengths()
    ensures { ListsHaveLengths }
{}

/// Each node of a lawful world knows its number and how many nodes there are; the words that its routers and its open under way name are
/// words of the world, and the message in its hand comes from a node of the world.
pub fn each_node_is_sound()
    ensures { NodesAreSound }
{}

/// In a lawful world where nothing waits, a get on a pair whose two terminals share one link is Empty only if all that the peer put
/// was got.
pub fn a_quiet_direct_pair_has_delivered()
    ensures { QuietDelivers }
{}

/// A get leaves a quiet world quiet, so that just by gets a portal on a pair whose two terminals share one link gets all that its peer
/// has put.
pub fn a_get_leaves_a_quiet_world_quiet()
    ensures { GetsStayQuiet }
{}

/// After every list of steps of a world of one node, the two terminals of each open pair of which an end isn't closed share one link.
pub fn on_one_node_each_pair_is_direct()
    ensures { OneNodeIsDirect }
{}

/// In a lawful world a message in a node's hand stands in its mailbox, and a mailbox whose message is in hand is that of its receiver's hand.
pub fn each_hand_stands_in_its_mailbox()
    ensures { HandsStandInMail }
{}

/// In a lawful world the word of an open under way is empty.
pub fn each_word_that_is_being_opened_is_empty()
    ensures { OpeningWordsAreEmpty }
{}

/// In a lawful world an end whose close is pending at a node has its terminal there.
pub fn each_pending_close_has_its_terminal()
    ensures { PendingHaveTerminals }
{}

/// In a lawful world whose books the caps leave room for and the prices pay for, each possible act of any node lowers the rank, in whatever
/// order; only idle, an unlock, and the rest of a router that isn't flagged don't.
pub fn each_act_lowers_the_rank()
    ensures { ActsLowerTheRank }
{}

/// A turn keeps rates that fit the books.
pub fn turns_keep_rates()
    ensures { TurnsKeepRates }
{}

/// While no caller calls, whatever possible acts the nodes take in whatever order, no more of them use something up than the rank at the
/// start, and two for each unlock.
pub fn turns_are_bounded()
    ensures { TurnsAreBounded }
{}

/// If the parcels that weren't read carry ends in an order of their pairs, there are rates that fit the books.
pub fn ordered_parcels_have_rates()
    ensures { OrderedAreRated }
{}

/// If no node has an act that uses something up, the world is quiet.
pub fn a_world_without_acts_is_quiet()
    ensures { UnusedIsQuiet }
{}

/// The turns of a settle take no more acts than the rank falls by, and two more for each begin or retire that finds no memory: for all
/// books with which the world is lawful, and all rates that fit them.
pub fn visits_are_bounded()
    ensures { VisitsAreBounded }
{}

/// A settle answers `Unsettled` only if its limit was below the rank of the world at its start, and two more for each of its begins and
/// retires that found no memory.
pub fn an_unsettled_settle_had_a_limit_below_the_rank()
    ensures { UnsettledIsBounded }
{}

/// If no item that wasn't read carries an end, rates fit that pay for nothing but the passing of numbers.
pub fn parcels_without_ends_have_rates()
    ensures { PlainAreRated }
{}

/// So then `plain_limit`, a limit that can be computed, is enough for a settle, with two more for each begin or retire that finds no memory.
pub fn the_plain_limit_is_enough()
    ensures { PlainLimitIsEnough }
{}

/// If no item that wasn't read carries an end, the rank is no more than a number that is read off the world: 6 for each number that has
/// still to pass a router, 17 for each terminal and 61 for each proxy, 38 for each message under way, and 3 for each pending close. What an end
/// has put is told by its terminal, or, if none stands, by a Gone that wasn't read.
pub fn the_rank_is_within_the_settle_limit()
    ensures { RankIsWithinLimit }
{}

/// So then that number, `settle_limit`, is enough for a settle, with two more for each begin or retire that finds no memory.
pub fn the_settle_limit_is_enough()
    ensures { SettleLimitIsEnough }
{}

/// If no item that wasn't read carries an end: what stays with the terminals, the numbers that weren't put yet and the parcels that weren't
/// got, is used by no turn, in whatever order; but a sink uses one act for each item that it drops, and a pending close six, as does a retire.
pub fn what_stays_is_used_by_no_turn()
    ensures { StayingIsUnused }
{}

/// If parcels without ends are put into a quiet world, the turns that follow use up at most six for each parcel, one for each end that they
/// are put at, and for each proxy that stands six for each parcel of its pair; one more for each item that a sink drops. A proxy stands there
/// only since the words are used up: no turn is an act of its bypass.
pub fn puts_into_a_quiet_world_are_bounded()
    ensures { PutsAreBounded }
{}

/// If no router of the quiet world has found the words used up, no proxy stands: six for each parcel and one for each end are enough.
pub fn puts_into_a_direct_world_are_bounded()
    ensures { DirectPutsAreBounded }
{}

/// If a settle has settled and no router has found the words used up, no proxy is left, nor a router of a pair with both ends closed, and
/// each other open pair is direct: what an end has put and its peer hasn't got stands in the in queue of the peer's terminal.
pub fn a_settled_world_is_direct()
    ensures { SettledIsDirect }
{}

/// A claim may pass over numbers: the world stays lawful with the same books, and these numbers are nobody's for good. So a claim can
/// answer any number that isn't claimed yet.
pub fn passing_over_numbers_keeps_a_world_lawful()
    ensures { PassingKeepsLawful }
{}

/// There may be more numbers at any time, none of them claimed. So no limit of them matters to the law.
pub fn more_numbers_keep_a_world_lawful()
    ensures { GrowingKeepsLawful }
{}

/// A claim may be told that no word is left while numbers are left: the world stays lawful with the same books and routes.
pub fn a_dry_claim_keeps_a_world_lawful()
    ensures { DryKeepsLawful }
{}

/// A router that found no word may be told at any time that it may claim again.
pub fn a_router_that_may_claim_again_keeps_a_world_lawful()
    ensures { WetKeepsLawful }
{}

/// An end of a link word that is held after a step was held before it, or its word was claimed by the step. So an end that was let go is
/// never held again.
pub fn held_ends_were_held()
    ensures { HeldWereHeld }
{}

/// The same of any turns of nodes, in whatever order.
pub fn ends_held_after_turns_were_held()
    ensures { TurnsHeldWereHeld }
{}

/// The same of the first half of an open.
pub fn ends_held_for_an_open_were_held()
    ensures { HeldForOpenWereHeld }
{}

/// No end is held of a word that isn't claimed, that a claim passed over, or that was lost with a proxy.
pub fn lost_words_are_not_held()
    ensures { LostAreNotHeld }
{}

/// Nobody holds an end that its router has just let go, by giving up a decaying link or by leaving.
pub fn ends_let_go_are_not_held()
    ensures { LetGoAreNotHeld }
{}

/// An end of a link word is held in one place at most: by one router, for one open under way, or by one message.
pub fn each_end_is_held_in_one_place()
    ensures { HeldInOnePlace }
{}

/// An end of a link word that is held is held after an act as well, or the act lets it go: by giving up a decaying link, or by leaving.
pub fn ends_are_held_until_they_are_let_go()
    ensures { HeldUntilLetGo }
{}

/// So it is after turns, however many: an end that is held is held behind them, or one of them lets it go.
pub fn turns_hold_ends_until_they_let_them_go()
    ensures { TurnsKeepHeld }
{}

/// An act of a router lets nothing go but what the router gives up by it: the end of one word, and the spare of a proxy that leaves.
pub fn what_is_let_go_is_given_up()
    ensures { LetGoAreGivenUp }
{}

/// Who claims a word holds both its ends, and so does somebody those of a word that is free; and a claim for an open lets no end go.
pub fn claimed_words_are_held()
    ensures claimed { ClaimedAreHeld }
    ensures others { OpeningKeepsHeld }
{}

/// A call of a caller lets no end go.
pub fn calls_let_no_end_go()
    ensures { CallsKeepHeld }
{}

/// The old word of an AcceptBypass in hand is held by the router that it is for, so that its word may be read.
pub fn the_old_word_of_a_bypass_in_hand_is_held()
    ensures { AcceptedAreHeld }
{}

/// The theorem holds of runs in which, between steps, claims pass over numbers, find no word for a while, and may claim again.
pub fn the_theorem_holds_after_every_lasting_run()
    ensures { LastingRunsKeepTheTheorem }
{}

/// What a word says of which both ends were let go doesn't matter: with another word in its place each step is one as well, has the same
/// reply, and leads to the same world but for such words.
pub fn dead_words_do_not_matter()
    ensures { DeadWordsDoNotMatter }
{}

/// Between steps the rank of a world stays or falls, but for a router that may claim again, which raises it by two at most: so between two
/// of these, turns are bounded as ever.
pub fn what_lasts_keeps_the_rank()
    ensures { DeedsKeepRanks }
{}

/// Between steps no end of a link word is let go, and none comes to be held.
pub fn what_lasts_keeps_the_ends()
    ensures { DeedsKeepEnds }
{}
