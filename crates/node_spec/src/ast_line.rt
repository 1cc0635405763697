// Lines of the section AST, by their shapes.
use expr_read::Written;

/// An item of a type, as it is written: its name, and its type's.
#[derive(Clone, Copy)]
pub(crate) struct ItemText<'s> {
    pub name: &'s [u8],
    pub of: &'s [u8],
}

/// What a line of AST declares.
#[derive(Clone, Copy)]
pub(crate) enum Saying<'s> {
    Family(&'s [u8]),
    /// A family of the target side.
    Target(&'s [u8]),
    /// A type: its name, its base's, its own items.
    NodeType(&'s [u8], &'s [u8], &'s [ItemText<'s>]),
    /// The family of a nonterminal.
    Node(&'s [u8], &'s [u8]),
    /// What the rule of a label builds.
    Build(&'s [u8], Written<'s>),
}
