//! What `ipcz_check` says of scripts, and with which status it ends.

use crate::arguments::Arguments;
use crate::cases::gives;
use ipcz_device::Device;
use ipcz_device::slow::{SlowReader, SlowWriter};
use ipcz_report::program::{Asked, asked_for, run_program};
use std::alloc::{AllocError, Global};

const NAME: &[u8] = b"ipcz_check";

static ASKED: [(&[&[u8]], Asked); 8] = [
    (&[], Asked::Script),
    (&[NAME], Asked::Script),
    (&[NAME, b"--help"], Asked::Help),
    (&[NAME, b"-h"], Asked::Help),
    (&[NAME, b"--help", b"x"], Asked::Usage),
    (&[NAME, b"help"], Asked::Usage),
    (&[NAME, b""], Asked::Usage),
    (&[NAME, b"\xff"], Asked::Usage),
];

// Whether this is asked for by these arguments.
fn is_asked(alloc: Global, given: &[&[u8]], want: Asked) -> bool {
    let arguments = (Arguments { given }, alloc);
    asked_for(&arguments) == Ok(want)
}

// The first arguments that ask for something else.
fn first_other_asked(alloc: Global) -> Option<usize> {
    for (i, row) in ASKED.iter().enumerate() {
        let (given, want) = *row;
        if !is_asked(alloc, given, want) {
            return Some(i);
        }
    }
    None
}

#[test]
fn asks_for_what_its_arguments_say(rt: HostRuntime) {
    gives(&rt, first_other_asked(rt.alloc()), None);
}

// Writes what is said of a script behind what `out` holds, and gives the status.
fn said_of(alloc: Global, script: &[u8], out: &mut Vec<u8>) -> u8 {
    run_program(
        alloc,
        Ok(Asked::Script),
        &mut Device::new(script),
        &mut Device::new(out),
    )
}

// Whether just this is said of a script, with this status.
fn says(alloc: Global, script: &[u8], status: u8, text: &str) -> bool {
    let mut out = Vec::new(alloc);
    said_of(alloc, script, &mut out) == status && out.as_slice() == text.as_bytes()
}

// The first script of which something else is said.
fn first_other(alloc: Global, rows: &[(&str, &str)], status: u8) -> Option<usize> {
    for (i, row) in rows.iter().enumerate() {
        let (script, text) = *row;
        if !says(alloc, script.as_bytes(), status, text) {
            return Some(i);
        }
    }
    None
}

static NO_JSON: [(&str, &str); 21] = [
    (
        "",
        "line 1, column 1: the script is empty; expected an object with the members nodes, words and commands\n",
    ),
    (
        "{\"nodes\":2,\n\"words\":4",
        "line 2, column 10: the script ends too early; expected }, which closes the { of line 1, column 1\n",
    ),
    (
        "// why\n{}",
        "line 1, column 1: // is no JSON here; expected a value\n",
    ),
    (
        "{'nodes':2}",
        "line 1, column 2: 'nodes' is no JSON here; expected the name of a member in quotes\n",
    ),
    (
        "{\"nodes\":2 \"words\":4}",
        "line 1, column 12: \"words\" is no JSON here; expected a comma, or }, which closes the { of line 1, column 1\n",
    ),
    (
        "[1,]",
        "line 1, column 4: ] is no JSON here; expected a value\n",
    ),
    (
        "{}\n{}",
        "line 2, column 1: {} stands behind the script; expected its end\n",
    ),
    (
        "\n\n[nul]",
        "line 3, column 2: nul is no JSON here; expected a value\n",
    ),
    (
        "[\"a\",\n \"\\ud800\"]",
        "line 2, column 3: \\ud800 is half of a surrogate pair; expected both halves\n",
    ),
    (
        "{\"commands\":[[\"show\"]\n}\n",
        "line 2, column 1: } doesn't fit; expected ], which closes the [ of line 1, column 13\n",
    ),
    (
        "{\"a\" 1}",
        "line 1, column 6: 1 is no JSON here; expected a colon\n",
    ),
    (
        "[[\"settle\",1e400]]",
        "line 1, column 12: 1e400 is too large a number; expected one below 1e308\n",
    ),
    (
        "[\"a\tb\"]",
        "line 1, column 4: \\x09 stands in a text; expected an escape such as \\u0009\n",
    ),
    (
        "[\"a\nb\"]",
        "line 1, column 2: \"a.. has no quotation mark at its end; expected one on this line\n",
    ),
    (
        "[\"abc",
        "line 1, column 2: \"abc has no quotation mark at its end; expected one\n",
    ),
    (
        "[\"\\q\"]",
        "line 1, column 3: \\q has no meaning in a text; expected \\ and one of \" \\ / b f n r t u\n",
    ),
    (
        "[\"\\u12\"]",
        "line 1, column 3: \\u has no four hex digits; expected some such as \\u0041\n",
    ),
    (
        "\u{feff}{}",
        "line 1, column 1: \\ufeff is a byte order mark; expected a script without one\n",
    ),
    (
        "[\u{202e},\u{1f600}]",
        "line 1, column 2: \\u202e is no JSON here; expected a value\n",
    ),
    (
        "[\u{1f600}]",
        "line 1, column 2: \\ud83d\\ude00 is no JSON here; expected a value\n",
    ),
    (
        "[[[[[[[[[[[[[[[[[[[[[[[[[[[[[[[[[[[[[[[[[[[[[[[[[[[[[[[[[[[[[[[[[[[[[[[[[[[[[[[[[[[[[[[[[[[[[[[[[[[[[[[[[[[[[[[[[[[[[[[[[[[[[[[[",
        "line 1, column 128: [ is more than 127 levels deep; expected fewer\n",
    ),
];

#[test]
fn tells_where_bytes_are_no_json(rt: HostRuntime) {
    gives(&rt, first_other(rt.alloc(), &NO_JSON, 2), None);
    let no_character = b"[\"\xe9\"]";
    let words = "line 1, column 3: \\xe9 is no character in UTF-8; expected one\n";
    assert!(rt; says(rt.alloc(), no_character, 2, words));
}

static NO_HEAD: [(&str, &str); 9] = [
    (
        "[]",
        "line 1, column 1: the script is no object; expected one with the members nodes, words and commands\n",
    ),
    (
        "{\"nodes\":9,\"words\":40,\"commands\":[]}",
        "line 1, column 10: nodes is 9; expected a number from 1 to 8\n",
    ),
    (
        "{\"nodes\":3,\"words\":2,\"commands\":[]}",
        "line 1, column 20: words is 2; expected a number from 3 to 4096\n",
    ),
    (
        "{\"nodes\":\"2\",\n \"words\":4097,\"commands\":[]}",
        "line 1, column 10: nodes is \"2\"; expected a number from 1 to 8\nline 2, column 10: words is 4097; expected a number from 0 to 4096\n",
    ),
    (
        "{\"nodes\":2,\"words\":4,\"commands\":{\"a\":\n1}}",
        "line 1, column 33: commands is {\"a\":..; expected a list of commands\n",
    ),
    (
        "{\"nodes\":2,\"words\":4,\"comands\":[]}",
        "line 1, column 1: the member commands is missing; expected a list of commands\nline 1, column 22: unknown member \"comands\"; expected nodes, words and commands only\n",
    ),
    (
        "{\"nodes\":2,\"words\":4,\"commands\":[],\n\"note\":\"x\"}",
        "line 2, column 1: unknown member \"note\"; expected nodes, words and commands only\n",
    ),
    (
        "{\"nodes\":2.0,\"words\":1e3,\"commands\":[]}",
        "line 1, column 10: nodes is 2.0; expected a number from 1 to 8 without sign, point or exponent\nline 1, column 22: words is 1e3; expected a number from 0 to 4096 without sign, point or exponent\n",
    ),
    (
        "{\"nodes\":2,\"nodes\":9,\"words\":1,\"commands\":[]}",
        "line 1, column 20: nodes is 9; expected a number from 1 to 8\nline 1, column 2: nodes stands again behind this; the last one counts\n",
    ),
];

#[test]
fn tells_what_is_wrong_with_members(rt: HostRuntime) {
    gives(&rt, first_other(rt.alloc(), &NO_HEAD, 2), None);
}

static NO_COMMANDS: [(&str, &str); 11] = [
    (
        "{\"nodes\":2,\"words\":4,\"commands\":[[\"put\",\"x\"]]}",
        "line 1, column 34: command 1: 1 value stands behind put; expected 2 or 3, as in [\"put\", \"name\", \"data\"] or [\"put\", \"name\", \"data\", [\"name\", ..]]\n",
    ),
    (
        "{\"nodes\":2,\"words\":4,\"commands\":[[\"show\"],\n  [\"putt\",\"x\",\"y\"]]}",
        "line 2, column 4: command 2: unknown command \"putt\"; expected open, put, get, close, turn, settle or show\n",
    ),
    (
        "{\"nodes\":2,\"words\":4,\"commands\":[[\"settle\"],[\"show\",1],[\"turn\",0],[\"get\"],[\"close\",\"x\",\"y\"],[\"open\",0,\"x\"]]}",
        "line 1, column 34: command 1: no value stands behind settle; expected 1, as in [\"settle\", limit]\nline 1, column 45: command 2: 1 value stands behind show; expected none, as in [\"show\"]\nline 1, column 56: command 3: 1 value stands behind turn; expected 2, as in [\"turn\", node, count]\nline 1, column 67: command 4: no value stands behind get; expected 1, as in [\"get\", \"name\"]\nline 1, column 75: command 5: 2 values stand behind close; expected 1, as in [\"close\", \"name\"]\nline 1, column 93: command 6: 2 values stand behind open; expected 3, as in [\"open\", node, \"name\", \"name\"]\n",
    ),
    (
        "{\"nodes\":2,\"words\":4,\"commands\":[[\"open\",2,\"x\",\"y\"],[\"turn\",-1,5],[\"turn\",0,0],[\"settle\",1000001],[\"turn\",0.0,1]]}",
        "line 1, column 42: command 1: 2 is no node; expected a number from 0 to 1\nline 1, column 61: command 2: -1 is no node; expected a number from 0 to 1 without sign, point or exponent\nline 1, column 77: command 3: 0 is no count of turns; expected a number from 1 to 1000000\nline 1, column 90: command 4: 1000001 is no limit; expected a number from 0 to 1000000\nline 1, column 107: command 5: 0.0 is no node; expected a number from 0 to 1 without sign, point or exponent\n",
    ),
    (
        "{\"nodes\":2,\"words\":4,\"commands\":[[\"settle\",100.0],[\"turn\",0,1E2],[\"settle\",\"2.0\"],[\"get\",-1],[\"settle\",11111111112222222222333333333344444444445]]}",
        "line 1, column 44: command 1: 100.0 is no limit; expected a number from 0 to 1000000 without sign, point or exponent\nline 1, column 61: command 2: 1E2 is no count of turns; expected a number from 1 to 1000000 without sign, point or exponent\nline 1, column 76: command 3: \"2.0\" is no limit; expected a number from 0 to 1000000\nline 1, column 90: command 4: -1 is no name; expected 1 to 16 letters, digits, _ or > in quotes\nline 1, column 104: command 5: 1111111111222222222233333333334444444444.. is no limit; expected a number from 0 to 1000000\n",
    ),
    (
        "{\"nodes\":2,\"words\":4,\"commands\":[[\"open\",0,\"a-b\",\"y\"],[\"open\",0,\"x\",\"abcdefghijklmnopq\"],[\"get\",\"\"],[\"close\",7]]}",
        "line 1, column 44: command 1: \"a-b\" is no name; expected 1 to 16 letters, digits, _ or > in quotes\nline 1, column 69: command 2: \"abcdefghijklmnopq\" is no name; expected 1 to 16 letters, digits, _ or > in quotes\nline 1, column 97: command 3: \"\" is no name; expected 1 to 16 letters, digits, _ or > in quotes\nline 1, column 110: command 4: 7 is no name; expected 1 to 16 letters, digits, _ or > in quotes\n",
    ),
    (
        "{\"nodes\":2,\"words\":4,\"commands\":[[\"open\",0,\"x\",\"y\"],[\"open\",0,\"x>y\",\"z\"],[\"open\",1,\"z\",\"y\"],[\"open\",1,\"z\",\"z\"]]}",
        "line 1, column 63: command 2: \"x>y\" has a >; expected a name without it, as only first pairs have one\nline 1, column 88: command 3: \"y\" was opened before; expected a name that no command before it opens\nline 1, column 107: command 4: both names are \"z\"; expected two that differ\n",
    ),
    (
        "{\"nodes\":2,\"words\":4,\"commands\":[[\"put\",\"0>1\",5],[\"put\",\"0>1\",\"a\",\"x\"],[\"put\",\"0>1\",\"a\",[\"x\",\"y\",\n{\"b\": [1,2]}]]]}",
        "line 1, column 47: command 1: 5 is no data; expected a text in quotes\nline 1, column 67: command 2: \"x\" is no list; expected a list of names\nline 2, column 1: command 3: {\"b\": [1,2]} is no name; expected 1 to 16 letters, digits, _ or > in quotes\n",
    ),
    (
        "{\"nodes\":2,\"words\":4,\"commands\":[[],[3],7,[\"open\",0,\"x\",\"y\"],[\"open\",9,\"p\",\"q\"],[\"open\",0,\"p\",\"x\"]]}",
        "line 1, column 34: command 1: the command begins with no word; expected open, put, get, close, turn, settle or show\nline 1, column 37: command 2: the command begins with no word; expected open, put, get, close, turn, settle or show\nline 1, column 41: command 3: 7 is no command; expected a list such as [\"show\"]\nline 1, column 70: command 5: 9 is no node; expected a number from 0 to 1\nline 1, column 95: command 6: \"x\" was opened before; expected a name that no command before it opens\n",
    ),
    (
        "{\"nodes\":2,\"words\":4,\"commands\":[[\"put\",\"0>1\",[\"01234567890123456789012345678901234567890123456789\"]]]}",
        "line 1, column 47: command 1: [\"01234567890123456789012345678901234567.. is no data; expected a text in quotes\n",
    ),
    (
        "{\"nodes\":2,\"words\":4,\"commands\":[[\"get\",\"01234567890123456789012345678901234567éé\"]]}",
        "line 1, column 41: command 1: \"01234567890123456789012345678901234567.. is no name; expected 1 to 16 letters, digits, _ or > in quotes\n",
    ),
];

#[test]
fn tells_what_is_wrong_with_commands(rt: HostRuntime) {
    gives(&rt, first_other(rt.alloc(), &NO_COMMANDS, 2), None);
}

static SCRIPTS: [(&str, &str); 6] = [
    (
        "{\"nodes\":2,\"words\":4,\"commands\":[[\"open\",0,\"left\",\"right\"],[\"put\",\"left\",\"hello\"],\n[\"put\",\"0>1\",\"\",[\"right\",\"x\"]],[\"settle\",100],[\"get\",\"1>0\"],[\"get\",\"nobody\"],[\"close\",\"0>2\"],[\"turn\",1,5],[\"show\"]]}",
        "line 1, column 34: command 1: opens the pair left and right on node 0\nline 1, column 60: command 2: puts a parcel of length 5 at left\nline 2, column 1: command 3: puts a parcel of length 0 at 0>1 with the portals right, x; no command before it opens x\nline 2, column 32: command 4: lets all nodes act until they rest, at most 100 times\nline 2, column 47: command 5: gets the next parcel at 1>0\nline 2, column 61: command 6: gets the next parcel at nobody; no command before it opens nobody\nline 2, column 78: command 7: closes 0>2; no command before it opens 0>2\nline 2, column 94: command 8: lets node 1 take turns, at most 5\nline 2, column 107: command 9: prints the link words\nvalid: nodes 2, words 4, commands 9\n",
    ),
    (
        " {\"commands\":[],\n\"words\":0,\"nodes\":1}",
        "valid: nodes 1, words 0, commands 0\n",
    ),
    (
        "{\"nodes\":2,\"nodes\":3,\"words\":9,\"commands\":[],\n\"nodes\":4,\"words\":10,\"commands\":[[\"show\"]]}",
        "line 2, column 34: command 1: prints the link words\nline 1, column 2: nodes stands again behind this; the last one counts\nline 1, column 12: nodes stands again behind this; the last one counts\nline 1, column 22: words stands again behind this; the last one counts\nline 1, column 32: commands stands again behind this; the last one counts\nvalid: nodes 4, words 10, commands 1\n",
    ),
    (
        "{\"nodes\":2,\"words\":4,\"commands\":[[\"open\",0,\"x\",\"y\"],[\"close\",\"x\"],[\"put\",\"x\",\"a\"],[\"put\",\"0>1\",\"a\",[\"x\",\"y\",\"z\",\"w\"]],[\"get\",\"x\"],[\"close\",\"x\"],[\"close\",\"0>1\"],[\"get\",\"0>1\"]]}",
        "line 1, column 34: command 1: opens the pair x and y on node 0\nline 1, column 53: command 2: closes x\nline 1, column 67: command 3: puts a parcel of length 1 at x; command 2 closes x\nline 1, column 83: command 4: puts a parcel of length 1 at 0>1 with the portals x, y, z, w; no command before it opens z, w; command 2 closes x\nline 1, column 119: command 5: gets the next parcel at x; command 2 closes x\nline 1, column 131: command 6: closes x; command 2 closes x\nline 1, column 145: command 7: closes 0>1\nline 1, column 161: command 8: gets the next parcel at 0>1; command 7 closes 0>1\nvalid: nodes 2, words 4, commands 8\n",
    ),
    (
        "{\"nodes\":4,\"words\":9,\"commands\":[[\"open\",0,\"x\",\"y\"],[\"put\",\"x\",\" ~\"],[\"put\",\"x\",\"é\"],[\"put\",\"x\",\"a\",[\"x\"]],[\"put\",\"x\",\"a\",[\"y\"]],[\"put\",\"y\",\"a\",[\"x\"]],[\"put\",\"0>1\",\"a\",[\"1>0\"]],[\"put\",\"0>1\",\"a\",[\"1>2\"]],[\"put\",\"0>1\",\"a\",[\"x\",\"y\",\"x\"]],[\"put\",\"0>1\",\"\",[\"0>2\",\"0>3\",\"1>2\",\"1>3\",\"2>0\",\"2>1\",\"2>3\",\"3>0\"]],[\"put\",\"0>1\",\"\",[\"0>2\",\"0>3\",\"1>2\",\"1>3\",\"2>0\",\"2>1\",\"2>3\",\"3>0\",\"3>1\"]],[\"put\",\"7>8\",\"\",[\"8>7\"]],[\"put\",\"u\",\"\",[\"u\"]]]}",
        "line 1, column 34: command 1: opens the pair x and y on node 0\nline 1, column 53: command 2: puts a parcel of length 2 at x\nline 1, column 70: command 3: puts a parcel of length 2 at x; it is refused, since a byte of it isn't from 0x20 to 0x7E\nline 1, column 87: command 4: puts a parcel of length 1 at x with the portals x; it is refused, since a portal can't travel through itself\nline 1, column 109: command 5: puts a parcel of length 1 at x with the portals y; it is refused, since a portal can't travel to its peer\nline 1, column 131: command 6: puts a parcel of length 1 at y with the portals x; it is refused, since a portal can't travel to its peer\nline 1, column 153: command 7: puts a parcel of length 1 at 0>1 with the portals 1>0; it is refused, since a portal can't travel to its peer\nline 1, column 179: command 8: puts a parcel of length 1 at 0>1 with the portals 1>2\nline 1, column 205: command 9: puts a parcel of length 1 at 0>1 with the portals x, y, x; it is refused, since a portal is attached twice\nline 1, column 237: command 10: puts a parcel of length 0 at 0>1 with the portals 0>2, 0>3, 1>2, 1>3, 2>0, 2>1, 2>3, 3>0\nline 1, column 304: command 11: puts a parcel of length 0 at 0>1 with the portals 0>2, 0>3, 1>2, 1>3, 2>0, 2>1, 2>3, 3>0, 3>1; it is refused, since a parcel takes at most 8 portals\nline 1, column 377: command 12: puts a parcel of length 0 at 7>8 with the portals 8>7; no command before it opens 7>8, 8>7\nline 1, column 402: command 13: puts a parcel of length 0 at u with the portals u; no command before it opens u, u; it is refused, since a portal can't travel through itself\nvalid: nodes 4, words 9, commands 13\n",
    ),
    (
        "{\"nodes\":2,\"words\":1,\"commands\":[[\"put\",\"0>1\",\"aaaaaaaaaaaaaaaaaaaaaaaaaaaaaaaaaaaaaaaaaaaaaaaaaaaaaaaaaaaaaaaaaaaaaaaaaaaaaaaaaaaaaaaaaaaaaaaaaaaaaaaaaaaaaaaaaaaaaaaaaaaaaaaaaaaaaaaaaaaaaaaaaaaaaaaaaaaaaaaaaaaaaaaaaaaaaaaaaaaaaaaaaaaaaaaaaaaaaaaaaaaaaaaaaaaaaaaaaaaaaaaaaaaaaaaaaaaaaaaaaaaaaaaaaaaaaaaa\"],[\"put\",\"0>1\",\"aaaaaaaaaaaaaaaaaaaaaaaaaaaaaaaaaaaaaaaaaaaaaaaaaaaaaaaaaaaaaaaaaaaaaaaaaaaaaaaaaaaaaaaaaaaaaaaaaaaaaaaaaaaaaaaaaaaaaaaaaaaaaaaaaaaaaaaaaaaaaaaaaaaaaaaaaaaaaaaaaaaaaaaaaaaaaaaaaaaaaaaaaaaaaaaaaaaaaaaaaaaaaaaaaaaaaaaaaaaaaaaaaaaaaaaaaaaaaaaaaaaaaaaaaaaaaaaaa\"]]}",
        "line 1, column 34: command 1: puts a parcel of length 256 at 0>1\nline 1, column 307: command 2: puts a parcel of length 257 at 0>1; it is refused, since a parcel has at most 256 bytes\nvalid: nodes 2, words 1, commands 2\n",
    ),
];

#[test]
fn tells_what_the_commands_of_a_script_do(rt: HostRuntime) {
    gives(&rt, first_other(rt.alloc(), &SCRIPTS, 0), None);
}

// How a run ends whose reader fails after so many reads, and what it has written.
fn status_after_reads(alloc: Global, reads_left: usize, out: &mut Vec<u8>) -> u8 {
    let mut reader = Device::new(SlowReader {
        bytes: b"[]",
        at_once: 1,
        reads_left,
    });
    run_program(alloc, Ok(Asked::Script), &mut reader, &mut Device::new(out))
}

// Whether a failed read writes nothing and ends with status 1, and three reads are the whole.
fn ends_after_reads(alloc: Global, reads_left: usize) -> bool {
    let mut out = Vec::new(alloc);
    let status = status_after_reads(alloc, reads_left, &mut out);
    if reads_left < 3 {
        status == 1 && out.is_empty()
    } else {
        status == 2 && !out.is_empty()
    }
}

// How a run ends whose writer takes three bytes at a time and then fails, and how much it has taken.
fn ends_after_writes(alloc: Global, writes_left: usize, fails: bool) -> bool {
    let mut out = Vec::new(alloc);
    let status = run_program(
        alloc,
        Ok(Asked::Usage),
        &mut Device::new(b"".as_slice()),
        &mut Device::new(SlowWriter {
            taken: &mut out,
            at_once: 3,
            writes_left,
            fails,
        }),
    );
    let all = b"usage: ipcz_check [--help] < SCRIPT\n".as_slice();
    if writes_left < 12 {
        status == 1 && out.len() < all.len() && all.starts_with(&out)
    } else {
        status == 2 && out.as_slice() == all
    }
}

// Whether a read or a write that fails in mid-stream ends the run.
fn ends_at_faults(alloc: Global) -> bool {
    for i in 0..16 {
        if !ends_after_reads(alloc, i)
            || !ends_after_writes(alloc, i, true)
            || !ends_after_writes(alloc, i, false)
        {
            return false;
        }
    }
    true
}

#[test]
fn ends_at_a_read_or_a_write_that_fails(rt: HostRuntime) {
    assert!(rt; ends_at_faults(rt.alloc()));
}

// Whether want of memory to look at the arguments ends a run before it reads.
fn ends_without_memory(alloc: Global) -> bool {
    let mut out = Vec::new(alloc);
    let mut reader = Device::new(b"[]".as_slice());
    run_program(
        alloc,
        Err(AllocError),
        &mut reader,
        &mut Device::new(&mut out),
    ) == 3
        && out.is_empty()
}

#[test]
fn reads_nothing_without_memory(rt: HostRuntime) {
    assert!(rt; ends_without_memory(rt.alloc()));
}
