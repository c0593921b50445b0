//! Places in a text, by line and column.
ghost use Rattle.std.specs.Prelude.{◌≡◌, ◌<◌, ◌≤◌, ◌==◌, ◌+◌, ◌^◌, length, if◌then◌else◌};
ghost use Rattle.ipcz_places.specs.Places.{column_at, line_at, IsPlace};

/// An offset of a text with its line and its column, which are counted from 1.
///
/// A column counts bytes.
#[derive(Clone, Copy, Debug, PartialEq, Eq)]
pub struct Place {
    pub offset: usize,
    pub line: usize,
    pub column: usize,
}

/// The place at which each text begins.
pub fn start(text: &[u8]) -> Place
    ensures place { IsPlace text.now result }
    ensures first { result.offset ≡ 0 }
{
    Place {
        offset: 0,
        line: 1,
        column: 1,
    }
}

// The place behind a byte.
fn behind(place: Place, byte: u8) -> Place
    requires { (place.offset < 2 ^ 63) × (place.line < 2 ^ 63) × (place.column < 2 ^ 63) }
    ensures { (result.offset ≡ place.offset + 1)
        × (result.line ≡ (if byte == 10 then place.line + 1 else place.line))
        × (result.column ≡ (if byte == 10 then 1 else place.column + 1)) }
{
    if byte == b'\n' {
        Place {
            offset: place.offset + 1,
            line: place.line + 1,
            column: 1,
        }
    } else {
        Place {
            offset: place.offset + 1,
            line: place.line,
            column: place.column + 1,
        }
    }
}

// The place of a later offset.
fn ahead(text: &[u8], near: Place, offset: usize) -> Place
    requires near { IsPlace text.now near }
    requires later { near.offset ≤ offset }
    requires within { offset ≤ length text.now }
    ensures place { IsPlace text.now result }
    ensures offset { result.offset ≡ offset }
{
    let mut place = near;
    'going: while place.offset < offset {
        place = behind(place, text[place.offset]);
    }
    place
}

/// The place of an offset, and that of the text's end for one behind it.
///
/// The time is that of the bytes between `near` and the offset if that is behind `near`, and else of those before it.
pub fn place_at(text: &[u8], near: Place, offset: usize) -> Place
    requires near { IsPlace text.now near }
    ensures place { IsPlace text.now result }
    ensures line { result.line ≡ line_at text.now offset }
    ensures column { result.column ≡ column_at text.now offset }
{
    let offset = offset.min(text.len());
    if near.offset <= offset {
        ahead(text, near, offset)
    } else {
        ahead(text, start(text), offset)
    }
}
