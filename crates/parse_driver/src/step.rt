// Steps of a derivation: shifts and reductions.
use crate::tokens::TokenRef;

/// A step of a derivation in postorder.
#[derive(Clone, Copy, Debug, PartialEq, Eq)]
pub enum Step {
    /// A token stands here.
    Shift(TokenRef),
    /// The right side of this rule is done; rules count from 1.
    Reduce(u32),
}
