//! A writer of markup. It has no answer at each call: once no memory was found it says so at the end.

ghost use Rattle.std.specs.Prelude.{◌≡◌, ◌++◌, ◌+◌, ◌*◌, ◌^◌, ◌≤◌, ◌<◌, ◌∷◌, [], List, ℕ, length, true, false, OnOk, IfOk};
ghost use Rattle.std.specs.Prelude.{if◌then◌else◌};
ghost use Rattle.std.specs.Fmt.{decimal};
ghost use Rattle.ipcz_markup.specs.declared.writer.Tag.{Tag};
ghost use Rattle.ipcz_markup.specs.Markup.{escaped, escaped_byte, key_name, row_head, row_names, row_title, run_title, size, tag_name, Adds, Grows};
ghost use Rattle.ipcz_markup.specs.Markup.{InTag, InText, InValue, IsDocument, Keeps, KeepsValue, Row, Stands};

use std::alloc::{AllocError, Global};
use std::io;
use std::io::Write;

/// The elements that a picture is made of.
#[derive(Clone, Copy, Debug, PartialEq, Eq)]
pub enum Tag {
    Svg,
    Title,
    Desc,
    Style,
    Rect,
    Line,
    Path,
    Text,
    G,
}

/// The attributes that its elements have.
#[derive(Clone, Copy, Debug, PartialEq, Eq)]
pub enum Key {
    Xmlns,
    Width,
    Height,
    ViewBox,
    Role,
    LabelledBy,
    Id,
    Class,
    X,
    Y,
    X1,
    Y1,
    X2,
    Y2,
    Rx,
    D,
    TextAnchor,
    Message,
}

impl Tag {
    // The element's name.
    fn name(self) -> &'static [u8]
        ensures { result.now ≡ tag_name self }
    {
        match self {
            Tag::Svg => b"svg",
            Tag::Title => b"title",
            Tag::Desc => b"desc",
            Tag::Style => b"style",
            Tag::Rect => b"rect",
            Tag::Line => b"line",
            Tag::Path => b"path",
            Tag::Text => b"text",
            Tag::G => b"g",
        }
    }
}

impl Key {
    // The attribute's name.
    fn name(self) -> &'static [u8]
        ensures { result.now ≡ key_name self }
    {
        match self {
            Key::Xmlns => b"xmlns",
            Key::Width => b"width",
            Key::Height => b"height",
            Key::ViewBox => b"viewBox",
            Key::Role => b"role",
            Key::LabelledBy => b"aria-labelledby",
            Key::Id => b"id",
            Key::Class => b"class",
            Key::X => b"x",
            Key::Y => b"y",
            Key::X1 => b"x1",
            Key::Y1 => b"y1",
            Key::X2 => b"x2",
            Key::Y2 => b"y2",
            Key::Rx => b"rx",
            Key::D => b"d",
            Key::TextAnchor => b"text-anchor",
            Key::Message => b"data-message",
        }
    }
}

/// What was written so far, and whether memory was wanted.
#[derive(Drop)]
pub struct Writer {
    bytes: Vec<u8>,
    failed: bool,
}

// Adds a byte of a text or a value, escaped.
fn push_escaped_byte(out: &mut Vec<u8>, byte: u8) -> Result<(), AllocError>
    ensures { OnOk result (out.new.items ≡ out.old.items ++ escaped_byte byte) }
{
    match byte {
        b'&' => out.extend_from_slice(b"&amp;")?,
        b'<' => out.extend_from_slice(b"&lt;")?,
        b'>' => out.extend_from_slice(b"&gt;")?,
        b'"' => out.extend_from_slice(b"&quot;")?,
        b' '..=b'~' => out.push(byte)?,
        _ => out.push(b'?')?,
    }
    Ok(())
}

// Adds the bytes of a text or a value, escaped.
fn push_escaped(out: &mut Vec<u8>, bytes: &[u8]) -> Result<(), AllocError>
    ensures { OnOk result (out.new.items ≡ out.old.items ++ escaped bytes.now) }
{
    for byte in bytes {
        push_escaped_byte(out, *byte)?;
    }
    Ok(())
}

// Adds the digits of a number.
fn push_number(out: &mut Vec<u8>, n: u64) -> io::Result<()>
    ensures { OnOk result (out.new.items ≡ out.old.items ++ decimal n) }
{
    write!(out, "{n}")
}

impl Writer {
    /// A writer that has begun the root.
    pub fn new(alloc: Global) -> Self
        ensures root { Stands result [] InTag (Tag.Svg ∷ []) }
        ensures few { size result ≤ 4 }
    {
        let mut writer = Writer {
            bytes: Vec::new(alloc),
            failed: false,
        };
        writer.add(b"<svg");
        writer
    }

    // Gives up what was written, if something didn't find memory.
    fn settle(&mut self, done: bool)
        ensures done { self.new ≡ (if done then self.old else self.new) }
        ensures failed { done ≡ false → self.new.failed ≡ true }
        ensures given_up { done ≡ false → self.new.bytes.items ≡ [] }
    {
        if !done {
            self.failed = true;
            self.bytes.clear();
        }
    }

    // Adds these bytes as they are.
    fn add(&mut self, bytes: &[u8])
        ensures { Adds self.old self.new bytes.now }
    {
        let done = self.bytes.extend_from_slice(bytes).is_ok();
        self.settle(done);
    }

    // Adds these bytes, escaped.
    fn add_escaped(&mut self, bytes: &[u8])
        ensures { Adds self.old self.new (escaped bytes.now) }
    {
        let done = push_escaped(&mut self.bytes, bytes).is_ok();
        self.settle(done);
    }

    // Adds the digits of a number.
    fn add_number(&mut self, n: u64)
        ensures { Adds self.old self.new (decimal n) }
    {
        let done = push_number(&mut self.bytes, n).is_ok();
        self.settle(done);
    }

    /// Opens an element; the tag goes on with its attributes.
    pub fn open(&mut self, tag: Tag)
        requires { tag ≡ Tag.G → ⊥ }
        ensures opens { (rows : List Row) (u : Tag) (s : List Tag) →
            Stands self.old rows InText (u ∷ s) → Stands self.new rows InTag (tag ∷ u ∷ s) }
        ensures few { Grows self.old self.new 6 }
    {
        self.add(b"<");
        self.add(tag.name());
    }

    /// Begins an attribute; its value comes next.
    pub fn begin_value(&mut self, key: Key)
        ensures begins { (rows : List Row) (s : List Tag) →
            Stands self.old rows InTag s → Stands self.new rows InValue s }
        ensures few { Grows self.old self.new 18 }
    {
        self.add(b" ");
        self.add(key.name());
        self.add(b"=\"");
    }

    /// Ends an attribute.
    pub fn end_value(&mut self)
        ensures ends { (rows : List Row) (s : List Tag) →
            Stands self.old rows InValue s → Stands self.new rows InTag s }
        ensures few { Grows self.old self.new 1 }
    {
        self.add(b"\"");
    }

    /// Ends a tag; what is in the element comes next.
    pub fn enter(&mut self)
        ensures enters { (rows : List Row) (s : List Tag) →
            Stands self.old rows InTag s → Stands self.new rows InText s }
        ensures few { Grows self.old self.new 1 }
    {
        self.add(b">");
    }

    /// Ends a tag of an element with nothing in it.
    pub fn leave(&mut self)
        ensures leaves { (rows : List Row) (t : Tag) (s : List Tag) →
            Stands self.old rows InTag (t ∷ s) → Stands self.new rows InText s }
        ensures few { Grows self.old self.new 2 }
    {
        self.add(b"/>");
    }

    /// Closes an element, which has to be the innermost.
    pub fn close(&mut self, tag: Tag)
        ensures closes { (rows : List Row) (s : List Tag) →
            Stands self.old rows InText (tag ∷ s) → Stands self.new rows InText s }
        ensures few { Grows self.old self.new 8 }
    {
        self.add(b"</");
        self.add(tag.name());
        self.add(b">");
    }

    /// Writes bytes in the text of an element or in a value, escaped.
    pub fn text(&mut self, bytes: &[u8])
        ensures added { Adds self.old self.new (escaped bytes.now) }
        ensures keeps { Keeps self.old self.new }
        ensures keeps_value { KeepsValue self.old self.new }
        ensures few { Grows self.old self.new (6 * length bytes.now) }
    {
        self.add_escaped(bytes);
    }

    /// Writes a number in the text of an element or in a value.
    pub fn number(&mut self, n: u64)
        ensures added { Adds self.old self.new (decimal n) }
        ensures keeps { Keeps self.old self.new }
        ensures keeps_value { KeepsValue self.old self.new }
        ensures few { Grows self.old self.new 20 }
    {
        self.add_number(n);
    }

    // Writes the names of a row, by which a viewer finds it: the numbers of its first line and of its last one.
    fn add_row_names(&mut self, number: u64, last: u64)
        ensures { Adds self.old self.new (row_names number last) }
    {
        self.add(b"<g id=\"l");
        self.add_number(number);
        self.add(b"\" data-last=\"");
        self.add_number(last);
    }

    // Writes how a row begins whose top is this, up to what its title says.
    fn add_row_head(&mut self, number: u64, last: u64, top: u64)
        ensures { Adds self.old self.new (row_head number last top) }
    {
        self.add_row_names(number, last);
        self.add(b"\" transform=\"translate(0 ");
        self.add_number(top);
        self.add(b")\"><title>");
    }

    // Writes what the title of a row with one line says.
    fn add_line_title(&mut self, number: u64, text: &[u8])
        ensures { Adds self.old self.new (row_title number (text.now ∷ [])) }
    {
        self.add(b"line ");
        self.add_number(number);
        self.add(b": ");
        self.add_escaped(text);
    }

    // Writes what the title of a row says of so many idle lines.
    fn add_run_title(&mut self, number: u64, last: u64, count: u64)
        ensures { Adds self.old self.new (run_title number last count) }
    {
        self.add(b"lines ");
        self.add_number(number);
        self.add(b"-");
        self.add_number(last);
        self.add(b": idle x");
        self.add_number(count);
    }

    /// Begins the row of one line: its group, moved down to the row's top, and its title, which may go on.
    pub fn begin_row(&mut self, number: u64, text: &[u8], top: u64)
        ensures begins { (rows : List Row) (u : Tag) (s : List Tag) (units : ℕ) → Stands self.old rows InText (u ∷ s) →
            Stands self.new (rows ++ (record { number = number; texts = text.now ∷ []; top = top; units = units }) ∷ [])
            InText (Tag.Title ∷ Tag.G ∷ u ∷ s) }
        ensures few { Grows self.old self.new (160 + 6 * length text.now) }
    {
        self.add_row_head(number, number, top);
        self.add_line_title(number, text);
    }

    /// Begins the row of two or more idle lines.
    pub fn begin_run(&mut self, number: u64, count: u64, top: u64)
        requires some { 0 < count }
        requires fits { number + count ≤ 2 ^ 64 }
        ensures begins { (rows : List Row) (u : Tag) (s : List Tag) (units : ℕ) (a b : List ℕ) (texts : List (List ℕ)) →
            length texts + 2 ≡ count → Stands self.old rows InText (u ∷ s) →
            Stands self.new (rows ++ (record { number = number; texts = a ∷ b ∷ texts; top = top; units = units }) ∷ [])
            InText (Tag.Title ∷ Tag.G ∷ u ∷ s) }
        ensures few { Grows self.old self.new 206 }
    {
        let last = number + (count - 1);
        self.add_row_head(number, last, top);
        self.add_run_title(number, last, count);
    }

    /// The document, once its root is closed.
    pub fn finish(mut self) -> Result<Vec<u8>, AllocError>
        ensures document { IfOk result (λ text. (rows : List Row) → Stands self rows InText [] → IsDocument text.items rows) }
        ensures few { IfOk result (λ text. length text.items ≤ size self + 1) }
    {
        self.add(b"\n");
        if self.failed {
            return Err(AllocError);
        }
        Ok(self.bytes)
    }
}
