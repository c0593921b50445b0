//! What the title and the label of a message say.

ghost use Rattle.std.specs.Prelude.{◌+◌, ◌*◌, ◌≤◌, length};
ghost use Rattle.ipcz_markup.specs.Markup.{Grows, Keeps};

use ipcz_lines::{Kind, Line, Link, ReadLine};
use ipcz_markup::{Look, Stroke, Tag, Writer};
use ipcz_messages::closes::Nature;
use ipcz_messages::messages::Message;
use ipcz_messages::named::closed_by;
use ipcz_messages::routers::Router;

/// The look of a message, by its kind.
pub fn look_of(message: &Message) -> Look {
    match &message.kind {
        Some(Kind::Item(_)) => Look::Item,
        Some(Kind::Flush) => Look::Flush,
        Some(_) => Look::Bypass,
        None => Look::Unknown,
    }
}

/// The number of the line at which a message comes into sight, by which a viewer finds all parts of its way: no other message is posted,
/// looked at or handled at that line.
pub fn number_of(message: &Message) -> u64 {
    let line = message.posted.or(message.looked).or(message.handled);
    (line.unwrap_or(0) as u64).saturating_add(1)
}

/// The line of a message that is under way: thick if ends move with it, dashed for a flush.
pub fn stroke_of(message: &Message) -> Stroke {
    if !message.moves.is_empty() {
        return Stroke::Thick;
    }
    match look_of(message) {
        Look::Flush => Stroke::Dashed,
        _ => Stroke::Full,
    }
}

// The front of a text that has room.
fn front(text: &[u8], room: usize) -> &[u8]
    ensures few { length result.now ≤ room }
{
    &text[..text.len().min(room)]
}

// The close that a line tells, with the name of the portal if the line closes it.
fn write_close(out: &mut Writer, line: &Line)
    ensures keeps { Keeps out.old out.new }
    ensures few { Grows out.old out.new 170 }
{
    match closed_by(line) {
        Some(name) => {
            out.text(b"the close of ");
            out.text(front(name, 10));
            out.text(b", ");
        }
        None => out.text(b"a close, "),
    }
}

// A close or Gone by its name, before its kind.
fn write_nature(out: &mut Writer, lines: &[ReadLine], nature: Nature)
    ensures keeps { Keeps out.old out.new }
    ensures few { Grows out.old out.new 170 }
{
    match nature {
        Nature::Close { line } => {
            if let Some(read) = lines.get(line) {
                write_close(out, &read.line);
            }
        }
        Nature::Gone => out.text(b"Gone "),
        Nature::Other => {}
    }
}

/// A link's name, behind a space.
pub fn write_link(out: &mut Writer, link: &Link)
    ensures keeps { Keeps out.old out.new }
    ensures few { Grows out.old out.new 60 }
{
    match link {
        Link::Central(word) => {
            out.text(b" C");
            out.number(*word as u64);
        }
        Link::Peripheral { node, serial } => {
            out.text(b" P");
            out.number(*node as u64);
            out.text(b".");
            out.number(*serial);
        }
    }
}

// A message's kind, in full.
fn write_kind(out: &mut Writer, kind: &Option<Kind>)
    ensures keeps { Keeps out.old out.new }
    ensures few { Grows out.old out.new 200 }
{
    match kind {
        Some(Kind::Item(number)) => {
            out.text(b"item ");
            out.number(*number);
        }
        Some(Kind::BypassPeer) => out.text(b"BypassPeer"),
        Some(Kind::AcceptBypass) => out.text(b"AcceptBypass"),
        Some(Kind::StopProxying) => out.text(b"StopProxying"),
        Some(Kind::ProxyWillStop) => out.text(b"ProxyWillStop"),
        Some(Kind::Flush) => out.text(b"Flush"),
        None => out.text(b"a message"),
    }
}

// A node, and the router there, behind a word, as far as they are known.
fn write_router(
    out: &mut Writer,
    word: &[u8],
    routers: &[Router],
    node: Option<u8>,
    router: Option<usize>,
)
    ensures keeps { Keeps out.old out.new }
    ensures few { Grows out.old out.new (70 + 6 * length word.now) }
{
    if let Some(node) = node {
        out.text(word);
        out.text(b" n");
        out.number(node as u64);
        if let Some(index) = router
            && let Some(router) = routers.get(index)
        {
            out.text(b" r");
            out.number(router.serial);
        }
    }
}

// The number of a line, behind a few words, if there is one.
fn write_line(out: &mut Writer, words: &[u8], line: Option<usize>)
    ensures keeps { Keeps out.old out.new }
    ensures few { Grows out.old out.new (20 + 6 * length words.now) }
{
    if let Some(line) = line {
        out.text(words);
        out.number((line as u64).saturating_add(1));
    }
}

// What a message is, from which router to which it goes, and at which lines it is seen.
fn write_history(
    out: &mut Writer,
    lines: &[ReadLine],
    routers: &[Router],
    message: &Message,
    nature: Nature,
)
    ensures keeps { Keeps out.old out.new }
    ensures few { Grows out.old out.new 1140 }
{
    write_nature(out, lines, nature);
    write_kind(out, &message.kind);
    if let Some(link) = &message.link {
        write_link(out, link);
    }
    write_router(out, b" from", routers, message.from, message.maker);
    write_router(out, b" to", routers, Some(message.to), message.receiver);
    write_line(out, b"; made line ", message.made);
    write_line(out, b"; posted line ", message.posted);
    write_line(out, b"; looked line ", message.looked);
    write_line(out, b"; handled line ", message.handled);
    if message.handled.is_none() {
        out.text(b"; not seen handled");
    }
}

/// The title of a message.
pub fn draw_arrow_title(
    out: &mut Writer,
    lines: &[ReadLine],
    routers: &[Router],
    message: &Message,
    nature: Nature,
)
    ensures keeps { Keeps out.old out.new }
    ensures few { Grows out.old out.new 1155 }
{
    out.open(Tag::Title);
    out.enter();
    write_history(out, lines, routers, message, nature);
    out.close(Tag::Title);
}

// A message's kind, in short.
fn write_short_kind(out: &mut Writer, kind: &Option<Kind>)
    ensures keeps { Keeps out.old out.new }
    ensures few { Grows out.old out.new 60 }
{
    match kind {
        Some(Kind::Item(number)) => {
            out.text(b"item ");
            out.number(*number);
        }
        Some(Kind::BypassPeer) => out.text(b"Bypass"),
        Some(Kind::AcceptBypass) => out.text(b"Accept"),
        Some(Kind::StopProxying) => out.text(b"Stop"),
        Some(Kind::ProxyWillStop) => out.text(b"WillStop"),
        Some(Kind::Flush) => out.text(b"Flush"),
        None => out.text(b"?"),
    }
}

// What a message is, in short: of a close and of Gone the name.
fn write_short_name(out: &mut Writer, kind: &Option<Kind>, nature: Nature)
    ensures keeps { Keeps out.old out.new }
    ensures few { Grows out.old out.new 100 }
{
    match (nature, kind) {
        (Nature::Close { .. }, Some(Kind::Item(number))) => {
            out.text(b"close ");
            out.number(*number);
        }
        (Nature::Gone, _) => {
            out.text(b"Gone ");
            write_short_kind(out, kind);
        }
        _ => write_short_kind(out, kind),
    }
}

/// The label of a message: its kind, or the name of a close or of Gone, and the ends that move with it.
pub fn draw_arrow_label(
    out: &mut Writer,
    message: &Message,
    nature: Nature,
    x: u64,
    y: u64,
    is_right: bool,
)
    ensures keeps { Keeps out.old out.new }
    ensures few { Grows out.old out.new 500 }
{
    out.begin_arrow_label(x, y, look_of(message), number_of(message), is_right);
    write_short_name(out, &message.kind, nature);
    if !message.moves.is_empty() {
        out.text(b" +");
        out.text(front(message.moves, 14));
    }
    out.close(Tag::Text);
}
