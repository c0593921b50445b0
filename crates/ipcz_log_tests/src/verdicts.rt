//! What is said of logs.

use ipcz_device::{Device, Fault};
use ipcz_log::{Verdict, judge_log};
use std::alloc::{AllocError, Global};
use std::process::Abort;

static ALLOWED: [&str; 8] = [
    "{\"nodes\":1}",
    "{\"nodes\":8,\"profile\":\"printed\",\"of\":[1]}\n",
    // a parcel waits, and its number is told where it is got
    "{\"nodes\":2}\n{\"node\":0,\"op\":\"put\",\"at\":\"0>1\",\"bytes\":\"a\",\"n\":0}\n{\"node\":1,\"op\":\"get\",\"at\":\"1>0\",\"refused\":\"Empty\"}\n{\"node\":1,\"op\":\"get\",\"at\":\"1>0\",\"bytes\":\"a\",\"n\":0}\n",
    // a portal travels under a name that is known, and is closed there
    "{\"nodes\":2}\n{\"node\":0,\"op\":\"open\",\"first\":\"x\",\"second\":\"y\"}\n{\"node\":0,\"op\":\"put\",\"at\":\"0>1\",\"bytes\":\"\",\"portals\":[\"y\"],\"n\":0}\n{\"node\":1,\"op\":\"get\",\"at\":\"1>0\",\"bytes\":\"\",\"portals\":[\"y\"],\"n\":0}\n{\"node\":1,\"op\":\"close\",\"at\":\"y\",\"n\":0}\n{\"node\":0,\"op\":\"get\",\"at\":\"x\",\"refused\":\"PeerClosed\"}\n",
    // one that lies in a parcel for a closed portal may be closed by its node, and then the one in a parcel for that, too
    "{\"nodes\":1}\n{\"node\":0,\"op\":\"open\",\"first\":\"a\",\"second\":\"b\"}\n{\"node\":0,\"op\":\"open\",\"first\":\"c\",\"second\":\"d\"}\n{\"node\":0,\"op\":\"open\",\"first\":\"e\",\"second\":\"f\"}\n{\"node\":0,\"op\":\"put\",\"at\":\"c\",\"bytes\":\"\",\"portals\":[\"f\"],\"n\":0}\n{\"node\":0,\"op\":\"put\",\"at\":\"a\",\"bytes\":\"\",\"portals\":[\"d\"],\"n\":0}\n{\"node\":0,\"op\":\"close\",\"at\":\"b\",\"n\":0}\n{\"node\":0,\"op\":\"get\",\"at\":\"e\",\"refused\":\"PeerClosed\"}\n{\"node\":0,\"op\":\"get\",\"at\":\"c\",\"refused\":\"PeerClosed\"}\n",
    // a put for a closed portal is accepted, and what is in it is dropped
    "{\"nodes\":1}\n{\"node\":0,\"op\":\"open\",\"first\":\"a\",\"second\":\"b\"}\n{\"node\":0,\"op\":\"open\",\"first\":\"c\",\"second\":\"d\"}\n{\"node\":0,\"op\":\"close\",\"at\":\"b\",\"n\":0}\n{\"node\":0,\"op\":\"put\",\"at\":\"a\",\"bytes\":\"\",\"portals\":[\"d\"],\"n\":0}\n{\"node\":0,\"op\":\"put\",\"at\":\"c\",\"bytes\":\"\",\"refused\":\"PeerClosed\"}\n",
    // refusals in their order
    "{\"nodes\":2,\"profile\":\"printed\"}\n{\"node\":1,\"op\":\"put\",\"at\":\"0>1\",\"bytes\":\"\\t\",\"portals\":[\"0>1\"],\"refused\":\"Stranger\"}\n{\"node\":0,\"op\":\"put\",\"at\":\"0>1\",\"bytes\":\"\\t\",\"portals\":[\"0>1\"],\"refused\":\"BadData\"}\n{\"node\":0,\"op\":\"put\",\"at\":\"0>1\",\"bytes\":\"\",\"portals\":[\"0>1\"],\"refused\":\"SelfAttach\"}\n{\"node\":0,\"op\":\"put\",\"at\":\"0>1\",\"bytes\":\"\",\"portals\":[\"1>0\"],\"refused\":\"PeerAttach\"}\n",
    // no rule tells when memory, words or numbers of opens are missing
    "{\"nodes\":1}\n{\"node\":0,\"op\":\"open\",\"refused\":\"NoWord\"}\n{\"node\":0,\"op\":\"open\",\"refused\":\"OutOfMemory\"}\n{\"node\":1,\"op\":\"open\",\"refused\":\"Stranger\"}\n",
];

const PUT: &str =
    "{\"nodes\":2}\n{\"node\":0,\"op\":\"put\",\"at\":\"0>1\",\"bytes\":\"a\",\"n\":0}\n{\"node\":0,\"op\":\"put\",\"at\":\"0>1\",\"bytes\":\"b\",\"n\":1}\n";

// Behind these three lines each of these is refused.
static REFUSED: [&str; 12] = [
    // lost, overtaken, changed, doubled
    "{\"node\":1,\"op\":\"get\",\"at\":\"1>0\",\"bytes\":\"b\",\"n\":1}",
    "{\"node\":1,\"op\":\"get\",\"at\":\"1>0\",\"bytes\":\"b\",\"n\":0}",
    "{\"node\":1,\"op\":\"get\",\"at\":\"1>0\",\"bytes\":\"c\",\"n\":0}",
    "{\"node\":1,\"op\":\"get\",\"at\":\"1>0\",\"bytes\":\"a\",\"portals\":[\"x\"],\"n\":0}",
    // at another node, and at the portal where it was put
    "{\"node\":0,\"op\":\"get\",\"at\":\"1>0\",\"bytes\":\"a\",\"n\":0}",
    "{\"node\":0,\"op\":\"get\",\"at\":\"0>1\",\"bytes\":\"a\",\"n\":0}",
    // too early
    "{\"node\":1,\"op\":\"get\",\"at\":\"1>0\",\"refused\":\"PeerClosed\"}",
    "{\"node\":0,\"op\":\"put\",\"at\":\"0>1\",\"bytes\":\"c\",\"refused\":\"PeerClosed\"}",
    // numbers, and names that mean nothing or are taken
    "{\"node\":0,\"op\":\"put\",\"at\":\"0>1\",\"bytes\":\"c\",\"n\":3}",
    "{\"node\":0,\"op\":\"close\",\"at\":\"0>1\",\"n\":1}",
    "{\"node\":0,\"op\":\"close\",\"at\":\"nobody\",\"n\":0}",
    "{\"node\":0,\"op\":\"open\",\"first\":\"x\",\"second\":\"0>1\"}",
];

// Behind them each of these is no line.
static NO_LINES: [&str; 12] = [
    "",
    "{}",
    "[]",
    "{",
    "\u{feff}{}",
    "{\"node\":0,\"op\":\"fly\",\"n\":0}",
    "{\"node\":256,\"op\":\"close\",\"at\":\"0>1\",\"n\":2}",
    "{\"node\":0,\"op\":\"close\",\"at\":\"0>1\"}",
    "{\"node\":0,\"op\":\"close\",\"at\":\"0>1\",\"n\":-1}",
    "{\"node\":0,\"op\":\"close\",\"at\":\"0>1\",\"refused\":\"Away\"}",
    "{\"node\":0,\"op\":\"put\",\"at\":\"0>1\",\"bytes\":1,\"n\":2}",
    "{\"node\":0,\"op\":\"put\",\"at\":\"0>1\",\"bytes\":\"\",\"portals\":[1],\"n\":2}",
];

// What is said of a text.
fn judged(alloc: Global, text: &str) -> Result<Verdict, Fault> {
    judge_log(alloc, &mut Device::new(text.as_bytes()))
}

// The first log that isn't judged so.
fn first_other(alloc: Global, logs: &[&str], want: Verdict) -> Option<usize> {
    for (i, log) in logs.iter().enumerate() {
        if judged(alloc, log) != Ok(want) {
            return Some(i);
        }
    }
    None
}

// What is said of the three lines with one more.
fn behind_puts(alloc: Global, line: &str) -> Result<Verdict, Fault> {
    let text = format!(in alloc; "{PUT}{line}\n")?;
    judged(alloc, text.as_str())
}

// The first line that isn't judged so behind the three.
fn first_other_behind(alloc: Global, lines: &[&str], want: Verdict) -> Option<usize> {
    for (i, line) in lines.iter().enumerate() {
        if behind_puts(alloc, line) != Ok(want) {
            return Some(i);
        }
    }
    None
}

/// What a list of rows gives has to be this. (A test that asserts this itself is several times as dear to prove.)
pub(crate) fn gives(rt: &impl Abort, got: Option<usize>, want: Option<usize>) {
    assert_eq!(rt; got, want);
}

#[test]
fn allows_what_the_promise_allows(rt: HostRuntime) {
    gives(
        &rt,
        first_other(rt.alloc(), &ALLOWED, Verdict::Allowed),
        None,
    );
}

#[test]
fn refuses_what_it_does_not_allow(rt: HostRuntime) {
    let first = first_other_behind(rt.alloc(), &REFUSED, Verdict::Refused(4));
    gives(&rt, first, None);
}

// What no log begins with.
static NO_HEADERS: [&str; 5] = ["", "{}", "{\"nodes\":0}", "{\"nodes\":9}", "2"];

#[test]
fn tells_what_is_no_line(rt: HostRuntime) {
    let first = first_other_behind(rt.alloc(), &NO_LINES, Verdict::NoLog(4));
    gives(&rt, first, None);
    let first_header = first_other(rt.alloc(), &NO_HEADERS, Verdict::NoLog(1));
    gives(&rt, first_header, None);
}

// The lines of two logs: what the one gets the other puts.
const TWO_LOGS: &str =
    "{\"log\":0,\"node\":1,\"op\":\"get\",\"at\":\"1>0\",\"bytes\":\"a\",\"n\":0}\n{\"log\":0,\"node\":1,\"op\":\"get\",\"at\":\"1>0\",\"refused\":\"Empty\"}\n{\"log\":1,\"node\":0,\"op\":\"put\",\"at\":\"0>1\",\"bytes\":\"a\",\"n\":0}\n{\"log\":1,\"node\":0,\"op\":\"put\",\"at\":\"0>1\",\"bytes\":\"b\",\"n\":1}\n";

// What is said of the two logs under a header, with a line more.
fn together(alloc: Global, header: &str, line: &str) -> Result<Verdict, Fault> {
    let text = format!(in alloc; "{header}\n{TWO_LOGS}{line}")?;
    judged(alloc, text.as_str())
}

// Headers, a line more, and what is said.
type Together = (&'static str, &'static str, Verdict);

// The first row of which something else is said.
fn first_other_together(alloc: Global, rows: &[Together]) -> Option<usize> {
    for (i, (header, line, want)) in rows.iter().enumerate() {
        if together(alloc, *header, *line) != Ok(*want) {
            return Some(i);
        }
    }
    None
}

static TOGETHER: [Together; 6] = [
    ("{\"nodes\":2,\"logs\":2}", "", Verdict::Allowed),
    (
        "{\"nodes\":2,\"logs\":2}",
        "{\"log\":0,\"node\":1,\"op\":\"get\",\"at\":\"1>0\",\"bytes\":\"b\",\"n\":1}",
        Verdict::Allowed,
    ),
    // what was put as number 1 is got as number 0
    (
        "{\"nodes\":2,\"logs\":2}",
        "{\"log\":1,\"node\":1,\"op\":\"get\",\"at\":\"1>0\",\"bytes\":\"b\",\"n\":0}",
        Verdict::NoOrder(6),
    ),
    // one log, in its one order, and no number of logs
    ("{\"nodes\":2}", "", Verdict::Refused(2)),
    ("{\"nodes\":2,\"logs\":\"two\"}", "", Verdict::Refused(2)),
    ("{\"nodes\":2,\"logs\":1}", "", Verdict::NoLog(4)),
];

#[test]
fn judges_logs_without_an_order_between_them(rt: HostRuntime) {
    gives(&rt, first_other_together(rt.alloc(), &TOGETHER), None);
}

static NO_LINES_TOGETHER: [Together; 4] = [
    ("{\"nodes\":2,\"logs\":2}", "7", Verdict::NoLog(6)),
    (
        "{\"nodes\":2,\"logs\":2}",
        "{\"node\":0,\"op\":\"open\",\"refused\":\"NoWord\"}",
        Verdict::NoLog(6),
    ),
    ("{\"nodes\":2,\"logs\":0}", "", Verdict::NoLog(1)),
    ("{\"nodes\":2,\"logs\":65}", "", Verdict::NoLog(1)),
];

#[test]
fn tells_what_is_no_line_of_several_logs(rt: HostRuntime) {
    let first = first_other_together(rt.alloc(), &NO_LINES_TOGETHER);
    gives(&rt, first, None);
}

// A log of so many puts, each got at once.
fn long_log(alloc: Global, puts: u64) -> Result<String, AllocError> {
    let mut log = String::from_str(alloc, "{\"nodes\":2}\n")?;
    for n in 0..puts {
        let put = format!(in alloc;
            "{{\"node\":0,\"op\":\"put\",\"at\":\"0>1\",\"bytes\":\"hello\",\"n\":{n}}}\n"
        )?;
        log.push_str(put.as_str())?;
        let get = format!(in alloc;
            "{{\"node\":1,\"op\":\"get\",\"at\":\"1>0\",\"bytes\":\"hello\",\"n\":{n}}}\n"
        )?;
        log.push_str(get.as_str())?;
    }
    Ok(log)
}

// What is said of a log of so many puts and gets.
fn long_verdict(alloc: Global, puts: u64) -> Result<Verdict, Fault> {
    let log = long_log(alloc, puts)?;
    judged(alloc, log.as_str())
}

#[test]
fn judges_forty_thousand_lines(rt: HostRuntime) {
    assert_eq!(rt; long_verdict(rt.alloc(), 20_000), Ok(Verdict::Allowed));
}
