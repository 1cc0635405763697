// What a line of the section AG declares.
use expr_read::{Mention, Written};

/// An attribute of a family.
#[derive(Clone, Copy)]
pub(crate) struct AttributeText<'s> {
    pub family: &'s [u8],
    pub name: &'s [u8],
    /// Both names with a point between.
    pub called: &'s [u8],
    pub of: &'s [u8],
    pub synthesized: bool,
}

/// An equation of a type or a family.
#[derive(Clone, Copy)]
pub(crate) struct EquationText<'s> {
    pub holder: &'s [u8],
    /// The attribute that it gives.
    pub target: Mention<'s>,
    /// Both with a colon between.
    pub called: &'s [u8],
    pub value: Written<'s>,
}

/// What a line of AG declares.
#[derive(Clone, Copy)]
pub(crate) enum Saying<'s> {
    Attribute(AttributeText<'s>),
    Equation(EquationText<'s>),
}
