//! How a message looks: its colour says its kind, its line how it stands.

ghost use Rattle.std.specs.Prelude.{◌≤◌, ◌∷◌, List, length};
ghost use Rattle.ipcz_markup.specs.declared.writer.Tag.{Tag};
ghost use Rattle.ipcz_markup.specs.Markup.{Grows, InTag, InText, InValue, Row, Stands};

use crate::writer::{Key, Tag, Writer};

/// The colour of a message.
#[derive(Clone, Copy, Debug, PartialEq, Eq)]
pub enum Look {
    Item,
    Bypass,
    Flush,
    Unknown,
}

impl Look {
    // The name that the classes of this look end with.
    fn name(self) -> &'static [u8]
        ensures { length result.now ≤ 5 }
    {
        match self {
            Look::Item => b"item",
            Look::Bypass => b"byp",
            Look::Flush => b"flush",
            Look::Unknown => b"dim",
        }
    }
}

/// How a message's line is drawn.
#[derive(Clone, Copy, Debug, PartialEq, Eq)]
pub enum Stroke {
    Thin,
    Full,
    Thick,
    Dashed,
    Dotted,
    Filled,
}

impl Stroke {
    // The classes of this stroke, up to the name of a look.
    fn words(self) -> &'static [u8]
        ensures { length result.now ≤ 10 }
    {
        match self {
            Stroke::Thin => b"p w1 s-",
            Stroke::Full => b"p w2 s-",
            Stroke::Thick => b"p w3 s-",
            Stroke::Dashed => b"p w2 da s-",
            Stroke::Dotted => b"p w2 dt s-",
            Stroke::Filled => b"f-",
        }
    }
}

impl Writer {
    // Opens a path with the look of a message; other attributes come next.
    fn open_arrow(&mut self, look: Look, stroke: Stroke)
        ensures begins { (rows : List Row) (u : Tag) (s : List Tag) →
            Stands self.old rows InText (u ∷ s) → Stands self.new rows InTag (Tag.Path ∷ u ∷ s) }
        ensures few { Grows self.old self.new 115 }
    {
        self.open(Tag::Path);
        self.begin_value(Key::Class);
        self.text(stroke.words());
        self.text(look.name());
        self.end_value();
    }

    /// Opens a path with the look of a message; its points come next.
    pub fn begin_arrow(&mut self, look: Look, stroke: Stroke)
        ensures begins { (rows : List Row) (u : Tag) (s : List Tag) →
            Stands self.old rows InText (u ∷ s) → Stands self.new rows InValue (Tag.Path ∷ u ∷ s) }
        ensures few { Grows self.old self.new 133 }
    {
        self.open_arrow(look, stroke);
        self.begin_value(Key::D);
    }

    /// Opens a path that is a part of the way of a message, as `begin_arrow` does; all parts of one message have its number.
    pub fn begin_way(&mut self, look: Look, stroke: Stroke, number: u64)
        ensures begins { (rows : List Row) (u : Tag) (s : List Tag) →
            Stands self.old rows InText (u ∷ s) → Stands self.new rows InValue (Tag.Path ∷ u ∷ s) }
        ensures few { Grows self.old self.new 172 }
    {
        self.open_arrow(look, stroke);
        self.measure(Key::Message, number);
        self.begin_value(Key::D);
    }

    /// Opens a label with the look of a message, whose number is `message`; it ends here if it is on the left.
    pub fn begin_arrow_label(&mut self, x: u64, y: u64, look: Look, message: u64, is_right: bool)
        ensures begins { (rows : List Row) (u : Tag) (s : List Tag) →
            Stands self.old rows InText (u ∷ s) → Stands self.new rows InText (Tag.Text ∷ u ∷ s) }
        ensures few { Grows self.old self.new 300 }
    {
        self.open(Tag::Text);
        self.measure(Key::X, x);
        self.measure(Key::Y, y);
        self.measure(Key::Message, message);
        self.begin_value(Key::Class);
        if is_right {
            self.text(b"t9 h halo f-");
        } else {
            self.text(b"t9 e h halo f-");
        }
        self.text(look.name());
        self.end_value();
        self.enter();
    }
}
