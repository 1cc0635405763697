/// What an LR parser does in a state on a terminal.
#[derive(Clone, Copy, Debug, PartialEq, Eq)]
pub enum LrAction {
    /// The token is taken, and this is the next state.
    Shift(u32),
    /// The right side of this rule is done; rules count from 1.
    Reduce(u32),
    /// The whole list is a sentence.
    Accept,
    /// No sentence goes on so.
    Error,
}
