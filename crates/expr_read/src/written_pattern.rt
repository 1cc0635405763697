// Patterns as they are written.

/// A pattern over nodes as it is written, before its names are looked up. Its parts lie in an arena.
#[derive(Clone, Copy)]
pub enum WrittenPattern<'s> {
    /// `_`, which any value matches.
    Any,
    Name(&'s [u8]),
    Number(u64),
    Truth(bool),
    /// A string, by the bytes that it means.
    Text(&'s [u8]),
    /// A name before patterns in parentheses.
    Tree(&'s [u8], &'s [WrittenPattern<'s>]),
    /// One name and `:` before such a tree.
    NamedTree(&'s [u8], &'s [u8], &'s [WrittenPattern<'s>]),
}
