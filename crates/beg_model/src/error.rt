// Why there is no code.
/// Why there is no code.
#[derive(Clone, Copy, Debug, PartialEq, Eq)]
pub enum CodeError {
    /// The root has no cover for the goal.
    NoCover,
    /// Of this class `need` registers are needed, and it has `have`.
    UsedUp { class: u32, need: u32, have: u32 },
    /// Memory was wanting.
    NoMemory,
}
