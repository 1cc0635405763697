// A grammar with the names of its nonterminals and the labels of its rules.
use crate::grammar::Grammar;
use ck_base::Names;

/// A grammar with its names, as a specification declares it. Nonterminal n is called by name n of
/// `nonterminals`, rule r by name r - 1 of `labels`.
#[derive(Drop)]
pub struct NamedGrammar {
    pub grammar: Grammar,
    pub nonterminals: Names,
    pub labels: Names,
    /// It is to be parsed by LL(1); else by LALR(1).
    pub ell: bool,
}
