//! A text whose contracts see its bytes.
ghost use Rattle.std.specs.Prelude.{◌≡◌, length, IfOk};

use std::alloc::{AllocError, Global};
use std::marker::Model;

/// A text of a script, that is a name or the data of a put (docs/SCRIPTS.md, "The script").
///
/// Contracts see the list of its UTF-8 bytes.
#[derive(Debug, Drop)]
pub struct Text {
    string: String,
}

impl Model for Text {
    ghost use Rattle.std.specs.Prelude.{List, ℕ, string_bytes};

    ghost Value = { List ℕ };

    ghost view = { λ a. string_bytes a.string };
}

impl Text {
    /// A text of its own with the same bytes.
    pub fn copy_of(alloc: Global, text: &str) -> Result<Self, AllocError>
        ensures copy { IfOk result (λ copy. copy ≡ text.now) }
    {
        Ok(Text {
            string: String::from_str(alloc, text)?,
        })
    }

    /// The text as a `&str`.
    pub fn as_str(&self) -> &str
        ensures same { result.now ≡ self.now }
    {
        self.string.as_str()
    }

    /// The text's UTF-8 bytes.
    pub fn as_bytes(&self) -> &[u8]
        ensures same { result.now ≡ self.now }
    {
        self.string.as_bytes()
    }

    /// How many bytes the text has.
    pub fn len(&self) -> usize
        ensures bytes { result ≡ length self.now }
    {
        self.string.len()
    }
}
