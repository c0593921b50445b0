//! How a shape looks: a class names its colours, and for a text its size and where it is held.

ghost use Rattle.std.specs.Prelude.{◌≤◌, length};

/// The look of a shape.
#[derive(Clone, Copy, Debug, PartialEq, Eq)]
pub enum Class {
    /// The ground, and every second row.
    Page,
    Stripe,
    Hair,
    /// A node's band, and a node while it has its turn.
    Node,
    Turn,
    /// A settle, and one that came to its limit.
    Settle,
    SettleText,
    Fault,
    FaultText,
    /// Texts.
    Heading,
    NodeName,
    RowNumber,
    Gutter,
    GutterDim,
    GutterBad,
    GutterCall,
    GutterWord,
    GutterSettle,
    Note,
    NoteEnd,
    NodeNote,
    Refused,
    Legend,
    /// A router, as a proxy, and once its bypass has begun.
    Router,
    Proxy,
    Decaying,
    RouterName,
    RouterEnd,
    /// Discs, by what was done, and their letters.
    WordDisc,
    WakeDisc,
    BadDisc,
    BypassDisc,
    DimDisc,
    ItemDot,
    RestDot,
    DiscLetter,
    /// A call of a caller, at the router of its portal, and one that was refused.
    CallDot,
    CallNote,
    RefusedCall,
    /// The link words.
    WordHeading,
    WordName,
    CellNone,
    CellStable,
    CellWaiting,
    CellLocked,
    CellText,
    /// The node that may answer.
    Source,
    /// The bar from one value of a word to the next.
    WordBar,
}

impl Class {
    // The class attribute.
    pub fn words(self) -> &'static [u8]
        ensures { length result.now ≤ 24 }
    {
        match self {
            Class::Page => b"bg",
            Class::Stripe => b"zb",
            Class::Hair => b"hair",
            Class::Node => b"nd",
            Class::Turn => b"ac",
            Class::Settle => b"bn",
            Class::SettleText => b"t10 bi h bh",
            Class::Fault => b"fn",
            Class::FaultText => b"t10 f-bad h fh",
            Class::Heading => b"t16 ink b",
            Class::NodeName => b"t13 ink b m",
            Class::RowNumber => b"t9 dim e",
            Class::Gutter => b"t11 ink",
            Class::GutterDim => b"t11 dim",
            Class::GutterBad => b"t11 f-bad",
            Class::GutterCall => b"t11 f-call",
            Class::GutterWord => b"t11 f-word",
            Class::GutterSettle => b"t11 bi",
            Class::Note => b"t9 ink h halo",
            Class::NoteEnd => b"t9 ink e h halo",
            Class::NodeNote => b"t9 dim h halo",
            Class::Refused => b"t9 f-bad h halo",
            Class::Legend => b"t10 dim",
            Class::Router => b"bar",
            Class::Proxy => b"prx",
            Class::Decaying => b"dec",
            Class::RouterName => b"t10 ink b e h halo",
            Class::RouterEnd => b"t9 dim b h halo",
            Class::WordDisc => b"f-word",
            Class::WakeDisc => b"f-flush",
            Class::BadDisc => b"f-bad",
            Class::BypassDisc => b"f-byp",
            Class::DimDisc => b"f-dim",
            Class::ItemDot => b"f-item",
            Class::RestDot => b"f-dim",
            Class::DiscLetter => b"t10 onf b m",
            Class::CallDot => b"f-call",
            Class::CallNote => b"t9 f-call h halo",
            Class::RefusedCall => b"p s-bad w2",
            Class::WordHeading => b"t13 f-word b",
            Class::WordName => b"t9 f-word e",
            Class::CellNone => b"k0",
            Class::CellStable => b"kS",
            Class::CellWaiting => b"kW",
            Class::CellLocked => b"kL",
            Class::CellText => b"t9 cellt m",
            Class::Source => b"t9 f-word b",
            Class::WordBar => b"f-word",
        }
    }
}
