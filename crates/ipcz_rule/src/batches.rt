//! The kinds of atomic step on a table whose slots carry batches (specs/Batches, specs/BatchKinds). Each function does nothing: its contract is the law.

ghost use Rattle.ipcz_rule.specs.BatchKinds.{PlainTurnsKeepBatches, PlainDeedsKeepBatches};
ghost use Rattle.ipcz_rule.specs.BatchLaws.{BatchesStart, BatchPartsAreSound, BatchPartsHandsFit, BatchLinksAreWords, BatchOldLinksAreWords, BatchCountsWereReached, FullBatchesAreAnnounced};
ghost use Rattle.ipcz_rule.specs.BatchLaws.{BatchPutsAreOnce, BatchGetsFollowPuts, BatchNodesHaveParts, QuietBatchesShowQuiet, SettledBatchesAreDirect};

/// Each kind of step of a turn whose word is no mailbox's keeps the rule of a table whose slots carry batches, and is the turns that it says.
pub fn turns_keep_batches()
    ensures { PlainTurnsKeepBatches }
{}

/// So does each of a call, and is that call of the shown world; so do a claim for an open, and what routers are told of words.
pub fn calls_keep_batches()
    ensures { PlainDeedsKeepBatches }
{}

/// The table at the start keeps it, and shows the world at the start.
pub fn the_start_keeps_batches()
    ensures { BatchesStart }
{}

/// Each part of a view is that of a sound node, which has no strays.
pub fn each_part_is_sound()
    ensures { BatchPartsAreSound }
{}

/// The message in a node's hand fits there, but a Flush may find its router gone.
pub fn each_hand_fits()
    ensures { BatchPartsHandsFit }
{}

/// What stands at a link is the number of a link word, and so has the old link that an AcceptBypass in hand names.
pub fn each_link_has_a_word()
    ensures links { BatchLinksAreWords }
    ensures old { BatchOldLinksAreWords }
{}

/// A claim count that a view has seen was reached.
pub fn each_count_was_reached()
    ensures { BatchCountsWereReached }
{}

/// A full mailbox is announced to the node that it is to, and so is one of whose batch something is left.
pub fn each_full_batch_is_announced()
    ensures { FullBatchesAreAnnounced }
{}

/// Each number is put once, and gets follow puts.
pub fn puts_and_gets_agree()
    ensures once { BatchPutsAreOnce }
    ensures order { BatchGetsFollowPuts }
{}

/// Each node of the table has a part in a view.
pub fn each_node_is_somewhere()
    ensures { BatchNodesHaveParts }
{}

/// If each part is of a quiet node, nothing is left of a batch and no mailbox is full, the shown world is quiet.
pub fn quiet_batches_show_a_quiet_world()
    ensures { QuietBatchesShowQuiet }
{}

/// If in addition no router lacks a word, each open pair is direct.
pub fn settled_batches_are_direct()
    ensures { SettledBatchesAreDirect }
{}
