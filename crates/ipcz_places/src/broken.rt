//! Why a text is no JSON, and where it stops being one.

/// Why a text is no JSON from an offset on.
#[derive(Clone, Copy, Debug, PartialEq, Eq)]
pub enum Broken {
    /// The text begins with a byte order mark.
    Mark,
    /// It ends, and no list or object is open: a value has to stand there.
    Empty,
    /// It ends, and the innermost list or object that is open begins at this offset.
    Cut(usize),
    /// Something stands behind the value that the text is.
    Behind,
    /// A bracket closes a list or an object, and the one that is open, from this offset on, has the other kind.
    Unmatched(usize),
    /// Neither a comma nor the bracket that closes what is open from this offset on stands behind a value.
    NoComma(usize),
    /// No colon stands behind the name of a member.
    NoColon,
    /// No name in quotes stands where a member begins.
    NoMember,
    /// No value stands where one begins.
    NoValue,
    /// A list or an object begins within 127 others.
    TooDeep,
    /// A number is above all that are read.
    LargeNumber,
    /// The quotation mark of a text isn't followed by another one.
    OpenText,
    /// The same before the line ends.
    OpenLine,
    /// A control character stands in a text.
    Control,
    /// A backslash in a text begins nothing that JSON has.
    Escape,
    /// A `\u` has not four hex digits.
    Digits,
    /// A `\u` is half of a surrogate pair, and the other half isn't there.
    Surrogate,
    /// A byte in a text is no character in UTF-8.
    Utf8,
}

/// Where a text stops being JSON, and why.
#[derive(Clone, Copy, Debug, PartialEq, Eq)]
pub struct JsonFault {
    pub offset: usize,
    pub why: Broken,
}
