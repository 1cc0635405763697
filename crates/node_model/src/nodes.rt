// What a section AST declares: types, the families of nonterminals, what each rule builds.
use ast_types::Types;
use expr_lang::Expr;

/// What a section AST declares: families and types of nodes, the family of each nonterminal, and what
/// each grammar rule builds. In the expression of a rule, variable i stands for the rule's symbol i,
/// which counts from 0. A rule without a BUILD line builds the value of its one nonterminal.
#[derive(Drop)]
pub struct NodeSpec<'a> {
    /// The families and types of nodes.
    pub types: Types,
    /// The family of each nonterminal.
    pub nodes: Vec<u32>,
    /// Of rule r, counted from 1, the expression r - 1.
    pub builds: Vec<&'a Expr<'a>>,
}
