// The plain LR table: a row of actions and a row of gotos for each state.
ghost use Rattle.std.specs.Prelude.{◌≡◌, ◌+◌, ◌*◌, ◌<◌, ◌^◌, vec_len, length, All};

use cfg_model::Grammar;

/// The LALR(1) table of a grammar. Its states are the grammar's cores by their numbers.
#[derive(Drop)]
pub struct PlainLr {
    pub(crate) grammar: Grammar,
    pub(crate) states: u32,
    /// A row for each state, with a cell for each terminal, END among them: 0 is an error, r + 1
    /// stands for the complete item of rule r, of which rule 0 accepts, and n + 2048 for a shift to
    /// state n.
    pub(crate) actions: Vec<u16>,
    /// A row for each state, with the next state for each nonterminal.
    pub(crate) gotos: Vec<u16>,
    ghost actions_count: { vec_len actions ≡ states * (grammar.terminals + 1) },
    ghost gotos_count: { vec_len gotos ≡ states * grammar.nonterminals },
    ghost short: { All (λ rule. length rule.right < 2 ^ 32) grammar.rules },
}
