/// What a scan at a place in a state finds. Rules and states are numbered from 0. `to` is the place
/// after the winner's text, in bytes from the text's beginning, and `state` the state afterwards.
#[derive(Clone, Copy, Debug, PartialEq, Eq)]
pub enum Scan {
    /// The winner gives a token.
    Token { rule: u32, to: usize, state: u32 },
    /// The winner's text is skipped.
    Skip { rule: u32, to: usize, state: u32 },
    /// No byte is left.
    End,
    /// Bytes are left at this place, and no rule has a candidate there.
    BadToken(usize),
}
