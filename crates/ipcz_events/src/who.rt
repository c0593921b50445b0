//! Whose acts a command of a script asks for.

/// Whose acts are taken.
#[derive(Clone, Copy)]
pub(crate) enum Who {
    /// Those of this node.
    Node(u8),
    /// Those of nodes that have something to do, each time one of so many.
    AnyOf(u8),
}
