//! What `ipcz_draw` draws, and with which status it ends.

use crate::arguments::Arguments;
use crate::cases::gives;
use ipcz_device::Device;
use ipcz_device::slow::{SlowReader, SlowWriter};
use ipcz_picture::bands::Bands;
use ipcz_picture::part::Part;
use ipcz_picture::program::{Asked, asked_for, run_program};
use std::alloc::{AllocError, Global};

const TRANSCRIPT: &[u8] =
    b"open x y ok\nput 0>1 0\nn0: idle\nn1: idle\nsettled\nget x 0 [] \"<&\"\n";

const NAME: &[u8] = b"ipcz_draw";

const FIVE_TO_TWENTY: Asked = Asked::Picture(Some(Part { from: 5, to: 20 }), Bands::All);

const USED_OF_FIVE_TO_TWENTY: Asked = Asked::Picture(Some(Part { from: 5, to: 20 }), Bands::Used);

const SEVENTH: Asked = Asked::Picture(Some(Part { from: 7, to: 7 }), Bands::All);

const TO_THE_LAST: Asked = Asked::Picture(
    Some(Part {
        from: 1,
        to: 18_446_744_073_709_551_615,
    }),
    Bands::All,
);

static ASKED: [(&[&[u8]], Asked); 22] = [
    (&[], Asked::Picture(None, Bands::All)),
    (&[NAME], Asked::Picture(None, Bands::All)),
    (&[NAME, b"5", b"20"], FIVE_TO_TWENTY),
    (&[NAME, b"7", b"7"], SEVENTH),
    (&[NAME, b"1", b"18446744073709551615"], TO_THE_LAST),
    (&[NAME, b"1", b"18446744073709551616"], Asked::Usage),
    (&[NAME, b""], Asked::Usage),
    (&[NAME, b"\xff"], Asked::Usage),
    (&[NAME, b"5"], Asked::Usage),
    (&[NAME, b"5", b"20", b"30"], Asked::Usage),
    (&[NAME, b"20", b"5"], Asked::Usage),
    (&[NAME, b"0", b"5"], Asked::Usage),
    (&[NAME, b"05", b"20"], Asked::Usage),
    (&[NAME, b"+5", b"20"], Asked::Usage),
    (&[NAME, b"5", b"end"], Asked::Usage),
    (&[NAME, b"--used"], Asked::Picture(None, Bands::Used)),
    (&[NAME, b"--used", b"5", b"20"], USED_OF_FIVE_TO_TWENTY),
    (&[NAME, b"--used", b"5"], Asked::Usage),
    (&[NAME, b"5", b"20", b"--used"], Asked::Usage),
    (&[NAME, b"--used", b"--used"], Asked::Usage),
    (&[NAME, b"--used", b"--help"], Asked::Usage),
    (&[NAME, b"--help"], Asked::Help),
];

// Whether this is asked for by these arguments.
fn is_asked(alloc: Global, given: &[&[u8]], want: Asked) -> bool {
    let arguments = (Arguments { given }, alloc);
    asked_for(&arguments) == Ok(want)
}

// The first arguments that ask for something else.
fn first_other_asked(alloc: Global) -> Option<usize> {
    for (i, row) in ASKED.iter().enumerate() {
        let (given, want) = *row;
        if !is_asked(alloc, given, want) {
            return Some(i);
        }
    }
    None
}

#[test]
fn asks_for_what_its_arguments_say(rt: HostRuntime) {
    gives(&rt, first_other_asked(rt.alloc()), None);
}

// Draws a part of a transcript, with what is written behind what `out` holds, and gives the status.
fn drawn_part(alloc: Global, part: Option<Part>, transcript: &[u8], out: &mut Vec<u8>) -> u8 {
    run_program(
        alloc,
        Ok(Asked::Picture(part, Bands::All)),
        &mut Device::new(transcript),
        &mut Device::new(out),
    )
}

// Draws all of a transcript.
fn drawn(alloc: Global, transcript: &[u8], out: &mut Vec<u8>) -> u8 {
    drawn_part(alloc, None, transcript, out)
}

// Whether a text stands somewhere in these bytes.
fn has(bytes: &[u8], text: &[u8]) -> bool {
    for i in 0..bytes.len() {
        if bytes[i..].starts_with(text) {
            return true;
        }
    }
    false
}

// How often a text stands in these bytes.
fn times(bytes: &[u8], text: &[u8]) -> usize {
    let mut count = 0usize;
    for i in 0..bytes.len() {
        if bytes[i..].starts_with(text) {
            count = count.saturating_add(1);
        }
    }
    count
}

// Whether a transcript is drawn, and a text stands in its picture.
fn shows(alloc: Global, transcript: &[u8], text: &str) -> bool {
    let mut out = Vec::new(alloc);
    drawn(alloc, transcript, &mut out) == 0 && has(&out, text.as_bytes())
}

// The first text that doesn't stand in the picture of a transcript.
fn first_lacking(alloc: Global, transcript: &[u8], texts: &[&str]) -> Option<usize> {
    for (i, text) in texts.iter().enumerate() {
        if !shows(alloc, transcript, *text) {
            return Some(i);
        }
    }
    None
}

// Whether a text stands in some bytes so often.
fn stands(bytes: &[u8], row: (&str, usize)) -> bool {
    let (text, count) = row;
    times(bytes, text.as_bytes()) == count
}

// The first text that doesn't stand so often in the picture of a part of a transcript; behind the last if that isn't drawn.
fn first_other(
    alloc: Global,
    part: Option<Part>,
    transcript: &[u8],
    texts: &[(&str, usize)],
) -> Option<usize> {
    let mut out = Vec::new(alloc);
    if drawn_part(alloc, part, transcript, &mut out) != 0 {
        return Some(texts.len());
    }
    for (i, row) in texts.iter().enumerate() {
        if !stands(&out, *row) {
            return Some(i);
        }
    }
    None
}

static TITLES: [&str; 5] = [
    "<g id=\"l1\" data-last=\"1\" transform=\"translate(0 136)\"><title>line 1: open x y ok</title>",
    "<g id=\"l2\" data-last=\"2\" transform=\"translate(0 154)\"><title>line 2: put 0&gt;1 0</title>",
    "<g id=\"l3\" data-last=\"4\" transform=\"translate(0 172)\"><title>lines 3-4: idle x2</title>",
    "<g id=\"l5\" data-last=\"5\" transform=\"translate(0 190)\"><title>line 5: settled</title>",
    "<g id=\"l6\" data-last=\"6\" transform=\"translate(0 226)\"><title>line 6: get x 0 [] &quot;&lt;&amp;&quot;</title>",
];

// Whether a transcript is drawn as one root.
fn is_one_root(alloc: Global, transcript: &[u8]) -> bool {
    let mut out = Vec::new(alloc);
    drawn(alloc, transcript, &mut out) == 0
        && out.starts_with(b"<svg xmlns=")
        && out.ends_with(b"</g></svg>\n")
}

#[test]
fn draws_a_row_for_each_line_and_one_for_idle_ones(rt: HostRuntime) {
    assert!(rt; is_one_root(rt.alloc(), TRANSCRIPT));
    gives(&rt, first_lacking(rt.alloc(), TRANSCRIPT, &TITLES), None);
}

// Two items that wait in one outbox, a flush that never arrives, and a name that stands again.
const WAITING: &[u8] = b"n0: r0 send out 0 C0
n0: r0 send out 1 C0
n0: post 1
n1: look 0
n0: post 1
n1: hand item 0 C0
n1: look 0
n1: hand item 1 C0
n1: r0 wake C2 3
n1: post 0
n1: look 1
n0: idle
words
words
words
words
words
words
";

static MADE: [&str; 8] = [
    "<title>item 0 C0 from n0 r0 to n1; made line 1; posted line 3; looked line 4; handled line 6</title>",
    "<title>item 1 C0 from n0 r0 to n1; made line 2; posted line 5; looked line 7; handled line 8</title>",
    "<title>Flush C2 from n1 r0 to n0; made line 9; posted line 10; not seen handled</title>",
    "M428 145H494V181H500",
    "M428 163H490V217H500",
    ">Flush</text>",
    "<text x=\"420\" y=\"419\" class=\"t10 ink b e h halo\">r0</text>",
    "<text x=\"387\" y=\"419\" class=\"t9 dim b h halo\">n0</text>",
];

#[test]
fn says_who_made_what_and_for_whom(rt: HostRuntime) {
    gives(&rt, first_lacking(rt.alloc(), WAITING, &MADE), None);
}

static WRONG: [(&[u8], &str); 6] = [
    (b"n1: hand Flush C2 dropped\n", ">dropped</text>"),
    (b"n1: hand item 0 C2 stray\n", ">stray</text>"),
    (b"unsettled\n", "class=\"fn\""),
    (b"unsettled\n", ">unsettled: the limit came first; "),
    (b"settled\n", "class=\"bn\""),
    (b"get x PeerClosed\n", "class=\"t11 f-bad\">get x"),
];

// The first line that isn't shown so.
fn first_unshown(alloc: Global) -> Option<usize> {
    for (i, row) in WRONG.iter().enumerate() {
        let (transcript, text) = *row;
        if !shows(alloc, transcript, text) {
            return Some(i);
        }
    }
    None
}

#[test]
fn tells_what_is_wrong_in_the_transcripts_words(rt: HostRuntime) {
    gives(&rt, first_unshown(rt.alloc()), None);
}

static SOURCES: [(&[u8], Option<&str>); 6] = [
    (b"n0: r1 lock C1 547\n", Some(">1</text>")),
    (b"n0: r1 lock C1 4095\n", Some(">14</text>")),
    (b"words 3 547 3\n", Some(">1</text>")),
    (b"words 3 291 3\n", Some(">0</text>")),
    (b"n0: r1 lock C1 35\n", None),
    (b"words 3 35 3\n", None),
];

// Whether a picture has this source behind the cells of a word, or none; one more, the number 2, stands in the legend.
fn has_source(picture: &[u8], node: Option<&str>) -> bool {
    let is_there = times(picture, b"class=\"t9 f-word b\"") == 2;
    match node {
        Some(node) => is_there && has(picture, node.as_bytes()),
        None => !is_there,
    }
}

// Whether a transcript is drawn with the cells of a word that is locked, and this source.
fn tells_source(alloc: Global, transcript: &[u8], node: Option<&str>) -> bool {
    let mut out = Vec::new(alloc);
    drawn(alloc, transcript, &mut out) == 0
        && (has(&out, b">SL</text>") || has(&out, b">SWL</text>"))
        && has_source(&out, node)
}

// The first word that tells another source.
fn first_other_source(alloc: Global) -> Option<usize> {
    for (i, row) in SOURCES.iter().enumerate() {
        let (transcript, node) = *row;
        if !tells_source(alloc, transcript, node) {
            return Some(i);
        }
    }
    None
}

// The node that may answer stands behind a word's cells, if the word tells one.
#[test]
fn shows_the_node_that_may_answer(rt: HostRuntime) {
    gives(&rt, first_other_source(rt.alloc()), None);
}

const CALLS: &[u8] =
    b"open x y ok\nput 0>1 0\nclose 0>1 1\nn0: r0 send out 0 C0 moves 1B\nn0: post 1\nn1: look 0\nn1: hand item 0 C0\nn1: r0 rest\nn0: r2 claim 2\nn0: r2 finish in P0.0\nget y PeerClosed\n";

static CALLED: [&str; 5] = [
    "class=\"f-call\"/><text x=\"436\" y=\"167\" class=\"t9 f-call h halo\">put</text>",
    "class=\"f-call\"/><text x=\"436\" y=\"185\" class=\"t9 f-call h halo\">close</text>",
    ">0A 0&gt;1</text>",
    ">0B 1&gt;0</text>",
    ">1B y</text>",
];

// A router of the first pair, with the end and the portal that it serves and the calls there, and the proxy of an opened portal.
#[test]
fn calls_stand_at_the_routers_of_their_portals(rt: HostRuntime) {
    gives(&rt, first_lacking(rt.alloc(), CALLS, &CALLED), None);
    gives(
        &rt,
        first_other(rt.alloc(), None, CALLS, &[(">get refused</text>", 0)]),
        None,
    );
}

const REFUSED_CALLS: &[u8] =
    b"open x y ok\nput x PeerClosed\nget x Empty\nget x PeerClosed\nclose x Stranger\nput x 0\nclose x 1\nget y 0 [] \"a\"\n";

// The squares of the legend are two more.
static REFUSED_MARKS: [(&str, usize); 9] = [
    ("class=\"t9 f-bad h halo\">put refused</text>", 1),
    ("class=\"t9 f-bad h halo\">get: empty</text>", 1),
    ("class=\"t9 f-bad h halo\">get refused</text>", 1),
    ("class=\"t9 f-bad h halo\">close refused</text>", 1),
    ("class=\"t9 f-call h halo\">put</text>", 1),
    ("class=\"t9 f-call h halo\">close</text>", 1),
    ("class=\"t9 f-call h halo\">get</text>", 1),
    ("class=\"p s-bad w2\"/>", 5),
    ("class=\"f-call\"/>", 4),
];

// A call that was refused has a hollow square, and says so.
#[test]
fn a_refused_call_looks_unlike_one_that_was_done(rt: HostRuntime) {
    gives(
        &rt,
        first_other(rt.alloc(), None, REFUSED_CALLS, &REFUSED_MARKS),
        None,
    );
}

static GONE: [&str; 4] = [
    "<title>Gone item 1 C0 from n0 r0 to n1",
    ">Gone item 1</text>",
    ">leaves with Gone, item 1</text>",
    ">item 0</text>",
];

// What a retire sends is Gone, and its title and its label say so; and so does the discard with which a router leaves.
#[test]
fn gone_is_called_so(rt: HostRuntime) {
    let transcript =
        b"n0: r0 lock C0 19\nn0: r0 retire 1 C0\nn0: post 1\nn1: look 0\nn1: hand item 1 C0\nn1: r1 discard 0\nn1: r1 discard 1 leave\n";
    gives(&rt, first_lacking(rt.alloc(), transcript, &GONE), None);
}

// The end of a portal moves, and its proxy passes on the close of its peer, and Gone behind that; its own close comes to the proxy.
const PASSED_ON: &[u8] = b"open x y ok
put 0>1 0
n0: r0 send out 0 C0 moves 1B
n0: post 1
n1: look 0
n1: hand item 0 C0
get 1>0 0 [y] \"m\"
close x 0
close y 0
n0: r1 send out 0 C1
n0: post 0
n0: look 0
n0: hand item 0 C1
n0: r2 send in 0 P0.0
n0: post 1
n1: look 0
n1: hand item 0 P0.0
n0: r1 lock C1 19
n0: r1 retire 1 C1
n0: post 0
n0: look 0
n0: hand item 1 C1
n0: r2 send in 1 P0.0
n0: post 1
n1: look 0
n1: hand item 1 P0.0
n1: r1 send out 0 P0.0
n1: post 0
n0: look 1
n0: hand item 0 P0.0
words 3 1
";

// The item that carries the end is the one whose label has its number alone.
static PASSED_ON_NAMES: [(&str, usize); 7] = [
    (">item 0 +1B</text>", 1),
    (">close 0</text>", 3),
    (">Gone item 1</text>", 2),
    ("<title>the close of x, item 0 C1 from n0 r1", 1),
    ("<title>the close of x, item 0 P0.0 from n0 r2", 1),
    ("<title>the close of y, item 0 P0.0 from n1 r1", 1),
    ("<title>Gone item 1 P0.0 from n0 r2", 1),
];

// A close and Gone are told by name, also where a proxy passes them on.
#[test]
fn closes_and_gone_are_called_so_where_they_are_passed_on(rt: HostRuntime) {
    gives(
        &rt,
        first_other(rt.alloc(), None, PASSED_ON, &PASSED_ON_NAMES),
        None,
    );
}

static COLUMNS: [(&str, usize); 4] = [
    (" class=\"t10 ink b e h halo\">0&gt;1</text>", 1),
    (
        "<text x=\"500\" y=\"193\" class=\"t10 ink b e h halo\">r0</text>",
        1,
    ),
    (
        "<text x=\"580\" y=\"211\" class=\"t10 ink b e h halo\">r1</text>",
        1,
    ),
    ("class=\"t9 f-call h halo\">put</text>", 1),
];

// Behind a settle turns leave the portals their columns, and the routers stand on the right of them.
#[test]
fn routers_stand_beside_portals(rt: HostRuntime) {
    let transcript = b"put 0>1 0\nsettled\nn0: r0 rest\nn0: r1 rest\n";
    gives(
        &rt,
        first_other(rt.alloc(), None, transcript, &COLUMNS),
        None,
    );
}

static GROUNDS: [(&str, usize); 2] = [
    (
        "<rect x=\"8\" y=\"154\" width=\"1094\" height=\"18\" class=\"zb\"/>",
        1,
    ),
    (
        "<rect x=\"8\" y=\"172\" width=\"1094\" height=\"36\" class=\"zb\"/>",
        1,
    ),
];

// The ground under a line of words goes across its row, also if its words need two lines.
#[test]
fn a_line_of_words_has_a_ground_across_its_row(rt: HostRuntime) {
    let transcript = b"n0: idle\nwords 3 3\nwords 3 3 3 3 3 3 3\n";
    gives(
        &rt,
        first_other(rt.alloc(), None, transcript, &GROUNDS),
        None,
    );
}

static BARS: [&str; 3] = [
    "y=\"152\" width=\"1\" height=\"22\" class=\"f-word\"",
    "y=\"170\" width=\"1\" height=\"22\" class=\"f-word\"",
    "y=\"188\" width=\"1\" height=\"4\" class=\"f-word\"",
];

// A bar from one step of a word to the next in its column, and from that one to a settle.
#[test]
fn shows_how_long_a_word_stands(rt: HostRuntime) {
    let transcript = b"n0: r0 mark C1 1\nn0: r0 mark C2 1\nn0: r1 mark C7 1\nsettled\n";
    gives(&rt, first_lacking(rt.alloc(), transcript, &BARS), None);
}

static KNOWN: [(&str, usize); 14] = [
    (">C0</text>", 4),
    ("class=\"t9 dim e\">C0</text>", 3),
    ("class=\"t9 dim e\">S</text>", 5),
    ("class=\"t9 dim h halo\">-</text>", 4),
    (">C1</text>", 3),
    ("class=\"t9 dim e\">-</text>", 1),
    (">C2<title>C2 35</title></text>", 1),
    (">C1<title>C1 0 -&gt; 3</title></text>", 1),
    (">C2<title>C2 35 -&gt; 547</title></text>", 1),
    (">C2</text>", 1),
    ("class=\"t9 dim h halo\">S</text>", 1),
    ("class=\"t9 dim h halo\">SL</text>", 1),
    ("class=\"t9 dim h halo\">1</text>", 1),
    // Of lines 3 and 5, and of the heading.
    ("class=\"kL\"", 3),
];

// A word that is told anew with the value that is known of it stands back, be it known from a step, a claim or a line of words.
#[test]
fn words_that_are_as_they_were_known_stand_back(rt: HostRuntime) {
    let transcript =
        b"n0: r0 mark C0 1\nn0: r0 claim 1\nwords 1 0 35\nsettled\nwords 1 3 547\nwords 1 3 547\n";
    gives(&rt, first_other(rt.alloc(), None, transcript, &KNOWN), None);
}

static ABOVE: [(&str, usize); 6] = [
    (">C0</text>", 1),
    (">C1<title>C1 2 -&gt; 3</title></text>", 1),
    (">C2</text>", 1),
    ("class=\"t9 dim h halo\">S</text>", 1),
    ("<title>line 3: words 1 3 3</title>", 1),
    ("<title>line ", 1),
];

// Of a word that is told in a line with fewer values the last value that was told is known still, also above a part.
#[test]
fn what_is_known_of_words_is_of_all_lines_above(rt: HostRuntime) {
    let part = Some(Part { from: 3, to: 3 });
    let transcript = b"words 1 2 3\nwords 1\nwords 1 3 3\nwords 1 2 2\n";
    gives(&rt, first_other(rt.alloc(), part, transcript, &ABOVE), None);
}

// A part in whose rows a bar and a word's value come in from above, a message is looked at that was posted above, and one is
// posted that is looked at below.
const LONG: &[u8] = b"n0: r0 mark C1 1
n0: r0 send out 0 C0
n0: post 1
n1: r4 rest
n1: look 0
n1: r4 rest
n0: r0 send out 1 C0
n0: post 1
n0: idle
n0: idle
n0: idle
n1: hand item 0 C0
n1: look 0
n1: hand item 1 C0
";

static PART: [(&str, usize); 25] = [
    (">A run of ipcz in 14 lines: lines 5 to 10</title>", 1),
    (">A run of ipcz in 14 lines: lines 5 to 10</text>", 1),
    (
        "<g id=\"l5\" data-last=\"5\" transform=\"translate(0 136)\"><title>line 5: n1: look 0</title>",
        1,
    ),
    (
        "<g id=\"l6\" data-last=\"6\" transform=\"translate(0 154)\"><title>line 6: n1: r4 rest</title>",
        1,
    ),
    (
        "<g id=\"l7\" data-last=\"7\" transform=\"translate(0 172)\"><title>line 7: n0: r0 send out 1 C0</title>",
        1,
    ),
    (
        "<g id=\"l8\" data-last=\"8\" transform=\"translate(0 190)\"><title>line 8: n0: post 1</title>",
        1,
    ),
    (
        "<g id=\"l9\" data-last=\"10\" transform=\"translate(0 208)\"><title>lines 9-10: idle x2</title>",
        1,
    ),
    ("<g id=", 5),
    // The names of both routers, and their bars.
    (
        "<text x=\"420\" y=\"130\" class=\"t10 ink b e h halo\">r0</text>",
        1,
    ),
    (
        "<text x=\"628\" y=\"130\" class=\"t10 ink b e h halo\">r4</text>",
        1,
    ),
    (
        "<rect x=\"425\" y=\"136\" width=\"6\" height=\"90\" class=\"bar\"/>",
        1,
    ),
    (
        "<rect x=\"633\" y=\"136\" width=\"6\" height=\"90\" class=\"bar\"/>",
        1,
    ),
    // C1 of line 1, which no line changes again.
    ("y=\"130\" class=\"t9 f-word e\">C1</text>", 1),
    ("y=\"136\" width=\"1\" height=\"92\" class=\"f-word\"/>", 1),
    // Item 0 between the walls up to its look, and in the hand down to the foot; its label stands below the look.
    ("M500 136L592 145", 1),
    (
        "made line 2; posted line 3; looked line 5; handled line 12</title>",
        1,
    ),
    ("M592 145H604V226\"/>", 1),
    (">item 0</text>", 1),
    (
        "y=\"154\" data-message=\"3\" class=\"t9 e h halo f-item\">item 0</text>",
        1,
    ),
    ("data-message=\"3\"", 3),
    // Item 1 from its router to its post, and on its way down to the foot.
    ("M428 181H494V199H500\"/>", 1),
    ("M500 199L592 226", 1),
    (
        "made line 7; posted line 8; looked line 13; handled line 14</title>",
        1,
    ),
    ("data-message=\"8\"", 3),
    (">item 1</text>", 1),
];

#[test]
fn a_part_begins_with_what_stands_there(rt: HostRuntime) {
    let part = Some(Part { from: 5, to: 10 });
    gives(&rt, first_other(rt.alloc(), part, LONG, &PART), None);
}

// A first and a last line, and how many lines of three are drawn then, with which caption.
static PARTS: [(u64, u64, usize, &str); 6] = [
    (1, 3, 3, ">A run of ipcz in 3 lines</title>"),
    (1, 9, 3, ">A run of ipcz in 3 lines</title>"),
    (2, 2, 1, ": lines 2 to 2</title>"),
    (2, 18_446_744_073_709_551_615, 2, ": lines 2 to 3</title>"),
    (4, 9, 0, ": none of them</title>"),
    (9, 9, 0, ": none of them</title>"),
];

// Whether a part of three lines has so many, and this caption.
fn has_lines(alloc: Global, part: Part, count: usize, caption: &str) -> bool {
    let mut out = Vec::new(alloc);
    let transcript = b"settled\nn0: idle\nsettled\n";
    drawn_part(alloc, Some(part), transcript, &mut out) == 0
        && times(&out, b"<g ") == count
        && has(&out, caption.as_bytes())
}

// The first part that has others.
fn first_other_part(alloc: Global) -> Option<usize> {
    for (i, row) in PARTS.iter().enumerate() {
        let (from, to, count, caption) = *row;
        if !has_lines(alloc, Part { from, to }, count, caption) {
            return Some(i);
        }
    }
    None
}

// Parts of three lines: within them, over the end and behind it.
#[test]
fn a_part_has_the_lines_that_there_are(rt: HostRuntime) {
    gives(&rt, first_other_part(rt.alloc()), None);
}

// How often each node's name stands in the picture of three nodes, of which node 0 sends, node 1 is only idle, and node 2 looks.
fn band_names(alloc: Global, bands: Bands) -> [usize; 3] {
    let mut out = Vec::new(alloc);
    run_program(
        alloc,
        Ok(Asked::Picture(None, bands)),
        &mut Device::new(b"n1: idle\nn2: look 0\n".as_slice()),
        &mut Device::new(&mut out),
    );
    [
        times(&out, b">node 0</text>"),
        times(&out, b">node 1</text>"),
        times(&out, b">node 2</text>"),
    ]
}

#[test]
fn a_node_that_is_only_idle_may_be_left_out(rt: HostRuntime) {
    assert!(rt; band_names(rt.alloc(), Bands::All) == [1, 1, 1]);
    assert!(rt; band_names(rt.alloc(), Bands::Used) == [1, 0, 1]);
}

#[test]
fn draws_no_rows_for_no_bytes(rt: HostRuntime) {
    assert!(rt; shows(rt.alloc(), b"", "A run of ipcz in 0 lines"));
    gives(&rt, first_other(rt.alloc(), None, b"", &[("<g", 0)]), None);
}

// Whether a transcript is refused with this line.
fn refuses(alloc: Global, transcript: &[u8], line: &[u8]) -> bool {
    let mut out = Vec::new(alloc);
    drawn(alloc, transcript, &mut out) == 2 && out.as_slice() == line
}

#[test]
fn says_which_line_is_refused(rt: HostRuntime) {
    let alloc = rt.alloc();
    let second = b"refused line 2: not a line of a transcript\n";
    assert!(rt; refuses(alloc, b"settled\nfly\n", second));
    assert!(rt;
        refuses(
            alloc,
            b"settled",
            b"refused line 1: not a line of a transcript\n"
        )
    );
    assert!(rt; refuses(alloc, b"settled\nn0: idle\x07\n", second));
    let long = vec![in alloc; b'x'; 262_145].expect(&rt, "memory");
    assert!(rt; refuses(alloc, &long, b"refused line 0: more than 262144 bytes\n"));
}

// Whether the program ends with this status if its reader fails at its tenth read, and writes nothing.
fn ends_after_a_failed_read(alloc: Global, status: u8) -> bool {
    let mut out = Vec::new(alloc);
    let ended = run_program(
        alloc,
        Ok(Asked::Picture(None, Bands::All)),
        &mut Device::new(SlowReader {
            bytes: TRANSCRIPT,
            at_once: 1,
            reads_left: 9,
        }),
        &mut Device::new(&mut out),
    );
    ended == status && out.is_empty()
}

// Whether the program ends with this status if its writer fails at its third write, and what is written up to there is this.
fn ends_after_a_failed_write(alloc: Global, status: u8, text: &[u8]) -> bool {
    let mut out = Vec::new(alloc);
    let ended = run_program(
        alloc,
        Ok(Asked::Picture(None, Bands::All)),
        &mut Device::new(TRANSCRIPT),
        &mut Device::new(SlowWriter {
            taken: &mut out,
            at_once: 3,
            writes_left: 2,
            fails: true,
        }),
    );
    ended == status && out.as_slice() == text
}

#[test]
fn ends_with_status_1_after_a_failed_read_or_write(rt: HostRuntime) {
    assert!(rt; ends_after_a_failed_read(rt.alloc(), 1));
    assert!(rt; ends_after_a_failed_write(rt.alloc(), 1, b"<svg x"));
}

// Whether the program ends with this status and this text, and its reader, which would fail at its first read, hasn't failed.
fn reads_nothing(
    alloc: Global,
    asked: Result<Asked, AllocError>,
    writes_left: usize,
    status: u8,
    text: &[u8],
) -> bool {
    let mut out = Vec::new(alloc);
    let mut reader = Device::new(SlowReader {
        bytes: TRANSCRIPT,
        at_once: 1,
        reads_left: 0,
    });
    let ended = run_program(
        alloc,
        asked,
        &mut reader,
        &mut Device::new(SlowWriter {
            taken: &mut out,
            at_once: 3,
            writes_left,
            fails: true,
        }),
    );
    ended == status && !reader.failed() && out.as_slice() == text
}

#[test]
fn reads_nothing_where_the_usage_is_asked_for(rt: HostRuntime) {
    let usage = b"usage: ipcz_draw [--help] [--used] [FROM TO] < TRANSCRIPT\n";
    assert!(rt; reads_nothing(rt.alloc(), Ok(Asked::Usage), 20, 2, usage));
    assert!(rt; reads_nothing(rt.alloc(), Ok(Asked::Help), 2, 1, b"usage:"));
    assert!(rt; reads_nothing(rt.alloc(), Ok(Asked::Usage), 2, 1, b"usage:"));
    assert!(rt; reads_nothing(rt.alloc(), Err(AllocError), 9, 3, b""));
}
