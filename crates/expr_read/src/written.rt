// Expressions as they are written.
use expr_lang::Op;

/// An expression as it is written, before its names are looked up. Its parts lie in an arena.
#[derive(Clone, Copy)]
pub enum Written<'s> {
    Number(u64),
    Truth(bool),
    /// A string, by the bytes that it means.
    Text(&'s [u8]),
    Name(&'s [u8]),
    /// `$` and this number.
    Dollar(u64),
    /// Two names with `.` between.
    Pair(&'s [u8], &'s [u8]),
    Negative(&'s Written<'s>),
    Negated(&'s Written<'s>),
    Binary(Op, &'s Written<'s>, &'s Written<'s>),
    If(&'s Written<'s>, &'s Written<'s>, &'s Written<'s>),
    /// A name before arguments in parentheses.
    Applied(&'s [u8], &'s [Written<'s>]),
    /// One in parentheses.
    Grouped(&'s Written<'s>),
}
