// The plain LL(1) table: one cell for each nonterminal and token.
ghost use Rattle.std.specs.Prelude.{◌≡◌, ◌+◌, ◌*◌, vec_len};

use cfg_model::Grammar;

/// The LL(1) table of a grammar, with one cell for each nonterminal and each terminal, END among them.
#[derive(Drop)]
pub struct PlainLl {
    pub(crate) grammar: Grammar,
    /// A row of cells for each nonterminal. A cell has the rule to take, and 0 where there is none.
    pub(crate) cells: Vec<u16>,
    ghost count: { vec_len cells ≡ grammar.nonterminals * (grammar.terminals + 1) },
}
