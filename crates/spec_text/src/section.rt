// Sections of a specification: their heads and lines.
use crate::line::SpecLine;

/// A section of a specification.
#[derive(Clone, Copy, PartialEq, Eq)]
pub enum Section {
    /// Scanner rules.
    Rex,
    /// A grammar, for LALR(1) parsing.
    Lalr,
    /// A grammar, for LL(1) parsing.
    Ell,
    /// Trees.
    Ast,
    /// Attributes.
    Ag,
    /// Rewriting.
    Puma,
    /// Code selection.
    Beg,
}

/// Where a section stands among the lines: the place of its head, and its lines from `first` to
/// before `end`. Places are counted from 0.
#[derive(Clone, Copy)]
pub struct Part {
    pub section: Section,
    pub head: u32,
    pub first: u32,
    pub end: u32,
}

/// The lines of a specification that have tokens or are bad, and the sections among them, in order.
#[derive(Drop)]
pub struct Sections {
    pub lines: Vec<SpecLine>,
    pub parts: Vec<Part>,
}

/// A section of a specification: the number of its head's line, and the lines inside it.
#[derive(Clone, Copy)]
pub struct SectionText<'s> {
    pub head: u32,
    pub lines: &'s [SpecLine],
}
