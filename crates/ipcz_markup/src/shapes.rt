//! The shapes that a picture is made of: rectangles, lines, paths and texts, each an element of its own.

ghost use Rattle.std.specs.Prelude.{◌+◌, ◌*◌, ◌∷◌, List, length};
ghost use Rattle.ipcz_markup.specs.declared.writer.Tag.{Tag};
ghost use Rattle.ipcz_markup.specs.Markup.{Grows, InText, InValue, Keeps, KeepsTag, KeepsValue, Row, Stands};

use crate::class::Class;
use crate::writer::{Key, Tag, Writer};

impl Writer {
    /// An attribute whose value is a number.
    pub fn measure(&mut self, key: Key, n: u64)
        ensures keeps { KeepsTag self.old self.new }
        ensures few { Grows self.old self.new 39 }
    {
        self.begin_value(key);
        self.number(n);
        self.end_value();
    }

    /// An attribute whose value is a text.
    pub fn words(&mut self, key: Key, text: &[u8])
        ensures keeps { KeepsTag self.old self.new }
        ensures few { Grows self.old self.new (19 + 6 * length text.now) }
    {
        self.begin_value(key);
        self.text(text);
        self.end_value();
    }

    /// The class of a shape.
    pub fn class(&mut self, class: Class)
        ensures keeps { KeepsTag self.old self.new }
        ensures few { Grows self.old self.new 163 }
    {
        self.words(Key::Class, class.words());
    }

    /// A rectangle.
    pub fn rect(&mut self, x: u64, y: u64, width: u64, height: u64, class: Class)
        ensures keeps { Keeps self.old self.new }
        ensures few { Grows self.old self.new 327 }
    {
        self.open(Tag::Rect);
        self.measure(Key::X, x);
        self.measure(Key::Y, y);
        self.measure(Key::Width, width);
        self.measure(Key::Height, height);
        self.class(class);
        self.leave();
    }

    /// A rectangle with round corners.
    pub fn pill(&mut self, x: u64, y: u64, width: u64, height: u64, radius: u64, class: Class)
        ensures keeps { Keeps self.old self.new }
        ensures few { Grows self.old self.new 366 }
    {
        self.open(Tag::Rect);
        self.measure(Key::X, x);
        self.measure(Key::Y, y);
        self.measure(Key::Width, width);
        self.measure(Key::Height, height);
        self.measure(Key::Rx, radius);
        self.class(class);
        self.leave();
    }

    /// A disc round a point, with a letter.
    pub fn disc(&mut self, x: u64, y: u64, letter: u8, class: Class)
        ensures keeps { Keeps self.old self.new }
        ensures few { Grows self.old self.new 630 }
    {
        self.pill(x.saturating_sub(6), y.saturating_sub(6), 13, 13, 6, class);
        self.label(x, y.saturating_add(4), Class::DiscLetter, &[letter]);
    }

    /// A straight line.
    pub fn line(&mut self, x1: u64, y1: u64, x2: u64, y2: u64, class: Class)
        ensures keeps { Keeps self.old self.new }
        ensures few { Grows self.old self.new 327 }
    {
        self.open(Tag::Line);
        self.measure(Key::X1, x1);
        self.measure(Key::Y1, y1);
        self.measure(Key::X2, x2);
        self.measure(Key::Y2, y2);
        self.class(class);
        self.leave();
    }

    /// Opens a text; what it says comes next.
    pub fn begin_label(&mut self, x: u64, y: u64, class: Class)
        ensures begins { (rows : List Row) (u : Tag) (s : List Tag) →
            Stands self.old rows InText (u ∷ s) → Stands self.new rows InText (Tag.Text ∷ u ∷ s) }
        ensures few { Grows self.old self.new 248 }
    {
        self.open(Tag::Text);
        self.measure(Key::X, x);
        self.measure(Key::Y, y);
        self.class(class);
        self.enter();
    }

    /// A text that says these bytes.
    pub fn label(&mut self, x: u64, y: u64, class: Class, text: &[u8])
        ensures keeps { Keeps self.old self.new }
        ensures few { Grows self.old self.new (256 + 6 * length text.now) }
    {
        self.begin_label(x, y, class);
        self.text(text);
        self.close(Tag::Text);
    }

    /// Opens a path; its points come next.
    pub fn begin_path(&mut self, class: Class)
        ensures begins { (rows : List Row) (u : Tag) (s : List Tag) →
            Stands self.old rows InText (u ∷ s) → Stands self.new rows InValue (Tag.Path ∷ u ∷ s) }
        ensures few { Grows self.old self.new 187 }
    {
        self.open(Tag::Path);
        self.class(class);
        self.begin_value(Key::D);
    }

    /// A step of a path: a letter of the path's language, and a number behind it.
    pub fn step(&mut self, letter: u8, n: u64)
        ensures keeps { KeepsValue self.old self.new }
        ensures few { Grows self.old self.new 26 }
    {
        self.text(&[letter]);
        self.number(n);
    }

    /// A step of a path to a point.
    pub fn point(&mut self, letter: u8, x: u64, y: u64)
        ensures keeps { KeepsValue self.old self.new }
        ensures few { Grows self.old self.new 52 }
    {
        self.step(letter, x);
        self.step(b' ', y);
    }

    /// Ends a path that has no title.
    pub fn end_path(&mut self)
        ensures ends { (rows : List Row) (t : Tag) (s : List Tag) →
            Stands self.old rows InValue (t ∷ s) → Stands self.new rows InText s }
        ensures few { Grows self.old self.new 3 }
    {
        self.end_value();
        self.leave();
    }
}
