// Refusals of a scanner's rules.
use ck_base::StateKind;

/// Why there are no tables for scan rules; the first of these causes that there is. Rules are
/// numbered from 0.
#[derive(Clone, Copy, Debug, PartialEq, Eq)]
pub enum DfaError {
    /// The body of this rule has the empty word, and that of no rule before it.
    NullableRule(u32),
    /// There are more than 4,096 sets of positions.
    TooManyStates(StateKind),
    /// Memory was wanting.
    NoMemory,
}
