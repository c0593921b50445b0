//! What holds of every script, as contracts of functions that do nothing (docs/CONTRACTS.md, "Of scripts").
//!
//! A transcript is by its definition the lines of some answers to the commands. These laws are about those answers, and `run_script` is
//! what writes their lines.

ghost use Rattle.ipcz_script.specs.ScriptLaws.{GetsFollowPuts, NumbersCountUp, ScriptsAreRuns, ScriptsDeliver, ScriptsArrive};
ghost use Rattle.ipcz_script.specs.ScriptLaws.{ScriptsAnswerPlainly};
ghost use Rattle.ipcz_script.specs.ByteLaws.{NoLineStrays, OutputsHaveLines, ScriptsHaveNames, UnsettledIsWritten};
ghost use Rattle.ipcz_script.specs.EventLaws.{TextsAreOneEvent};
ghost use Rattle.ipcz_script.specs.CountedLines.{LinesAreCounted};
ghost use Rattle.ipcz_script.specs.NamingLaws.{OpensNameSides};
ghost use Rattle.ipcz_script.specs.ParcelsByName.{GetsFollowPutsByName};
ghost use Rattle.ipcz_script.specs.Sayings.{LinesSayAnswers, SaidNumbersHaveBits, TextsSayOneThing, TurnsHaveBits};
ghost use Rattle.ipcz_script.specs.SendLines.{SendsTellWhatMoved};
ghost use Rattle.ipcz_script.specs.SettledLaws.{SettledGetsGiveAll};

/// By the answers to a script, a portal has got a prefix of the parcels that its peer has put: the same bytes and the same ends, in
/// order, whatever nodes both were on.
#[tactic(auto, using(crate::proofs::ScriptRuns::gets_follow_puts))]
pub fn gets_follow_puts()
    ensures { GetsFollowPuts }
{}

/// By the answers to a script, each parcel that a portal puts is numbered by how many it has put before, each that it gets by how many it
/// has got before, and the mark of a close by how many it has put.
#[tactic(auto, using(crate::proofs::ScriptRuns::numbers_count_up))]
pub fn numbers_count_up()
    ensures { NumbersCountUp }
{}

/// The world after a script is one that some list of steps leads to, so that the laws of `ipcz_world` hold of it, with books in which each
/// end has put and got just the parcels that the answers say.
#[tactic(auto, using(crate::proofs::ScriptRuns::scripts_are_runs))]
pub fn scripts_are_runs()
    ensures { ScriptsAreRuns }
{}

/// After every script the headline of `ipcz_world` holds, of such books: each portal has got a prefix of what its peer put, and each
/// accepted item neither got nor dropped stands in exactly one place.
#[tactic(auto, using(crate::proofs::ScriptRuns::scripts_deliver))]
pub fn scripts_deliver()
    ensures { ScriptsDeliver }
{}

/// After every script nothing is stuck, by such books: no node has a stray, each end is in one place and a held one has its terminal, and
/// if nothing waits, a get on a pair without proxies is Empty only if all that the peer put was got; of one node each open pair is
/// such of which an end isn't closed.
#[tactic(auto, using(crate::proofs::ScriptRuns::scripts_arrive))]
pub fn scripts_arrive()
    ensures { ScriptsArrive }
{}

/// After every script each reply to a step is one that the machine over such books alone allows.
#[tactic(auto, using(crate::proofs::ScriptRuns::scripts_answer_plainly))]
pub fn scripts_answer_plainly()
    ensures { ScriptsAnswerPlainly }
{}

/// Once a settle has settled, and while only gets are run behind it, each get gives what the peer was answered to have put, in order, to
/// the last: `Empty` says that all was got, and `PeerClosed` that all was got and the peer is closed. Only of an end that lies in a parcel
/// it is said that nobody holds it. The premise is that no router has found the link words used up.
pub fn settled_gets_give_all()
    ensures { SettledGetsGiveAll }
{}

/// Each script that is read is within the limits of worlds and has 4096 link words at most, and its commands have names: what the laws of
/// bytes require.
pub fn scripts_have_names()
    ensures { ScriptsHaveNames }
{}

/// The bytes that a run writes are lines, each with a line feed behind it: no name has one, and a put refuses data with one.
pub fn outputs_have_lines()
    ensures { OutputsHaveLines }
{}

/// The bytes of a transcript say just what its commands are answered, line by line: which call of which names, its number, the names of the
/// portals and the data of a parcel, the refusal, how a settle ended, the claimed words, and each turn of a node.
pub fn lines_say_answers()
    ensures { LinesSayAnswers }
{}

/// The node of each turn command of a script that is read has a number of 64 bits.
pub fn turns_have_bits()
    ensures { TurnsHaveBits }
{}

/// So each number that the lines of its transcript say has 64 bits, as `texts_say_one_thing` requires of a reading.
pub fn said_numbers_have_bits()
    ensures { SaidNumbersHaveBits }
{}

/// A text of lines says one thing: two readings of it, in which names are names and numbers have 64 bits, are the same in their forms, names,
/// numbers, words and data.
pub fn texts_say_one_thing()
    ensures { TextsSayOneThing }
{}

/// The text of what a turn did tells which event it is, with its router, link, numbers and ends: two that print alike are one.
pub fn texts_are_one_event()
    ensures { TextsAreOneEvent }
{}

/// By its bytes only: a run ends as unsettled exactly if a line of its transcript is `unsettled`.
pub fn unsettled_is_written()
    ensures { UnsettledIsWritten }
{}

/// By its bytes only: no line of a transcript ends with ` stray`, so that no message but a Flush has ever found its router gone.
pub fn no_line_strays()
    ensures { NoLineStrays }
{}

/// The lines of the puts and gets that succeed count: each says how many parcels its portal had put, or had got, and that of a get shows in
/// quotes the very data of the put of that number at its peer.
pub fn lines_are_counted()
    ensures { LinesAreCounted }
{}

/// By the names only: read back the bytes that a script's run writes, and compare them with its commands. Of two names that an open's line or
/// their form shows to be peers, the puts at one whose lines have a number are numbered 0, 1, and so on, and what the lines say the other
/// got is a front of them: the same numbers, names of portals and data, in order.
pub fn gets_follow_puts_by_name()
    ensures { GetsFollowPutsByName }
{}

/// An open that succeeds gives its first name to side A of the new pair, and its second to side B: so they print.
pub fn opens_name_sides()
    ensures { OpensNameSides }
{}

/// The line of a send tells which ends moved: two sends of one item that print alike have moved the same ends.
pub fn sends_tell_what_moved()
    ensures { SendsTellWhatMoved }
{}
