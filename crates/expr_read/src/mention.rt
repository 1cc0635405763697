// A variable as an expression names it.

/// A variable as a written expression names it.
#[derive(Clone, Copy)]
pub enum Mention<'s> {
    /// By this name.
    Name(&'s [u8]),
    /// By `$` and this number.
    Dollar(u64),
    /// By two names with `.` between.
    Pair(&'s [u8], &'s [u8]),
}
