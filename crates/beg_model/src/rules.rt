// Cover rules as the program has them.
use ck_base::Names;
use expr_lang::Expr;
use value_store::{Name, Text};

/// What a nonterminal holds.
#[derive(Clone, Copy, Debug, PartialEq, Eq)]
pub enum Holding {
    /// A register of this class.
    Class(u32),
    /// An operand text, which stands where its user writes it.
    Operand,
    Nothing,
}

/// A pattern. Its parts lie in an arena.
#[derive(Clone, Copy)]
pub enum CoverPattern<'a> {
    /// An operand: a node that is to be covered for this nonterminal.
    Leaf(u32),
    /// Any field.
    Any,
    /// Any field, which becomes the variable of this number.
    Bind(u32),
    Int(i64),
    Bool(bool),
    Text(Text),
    /// A node of this type or of one that extends it, with a pattern for each item of the type.
    Tree(u32, &'a [CoverPattern<'a>]),
}

/// A piece of what a rule emits.
#[derive(Clone, Copy)]
pub enum Piece {
    Bytes(Text),
    /// The register of the rule's own value.
    Result,
    /// The register or the text of this operand; operands are numbered from 1.
    Operand(u32),
    /// The variable of this number.
    Field(u32),
}

/// A cover rule. A pattern that is a leaf alone is that of a chain rule.
#[derive(Clone, Copy)]
pub struct CoverRule<'a> {
    /// The nonterminal that the rule covers a node for.
    pub left: u32,
    pub pattern: CoverPattern<'a>,
    /// A condition over the pattern's variables; `None` where there is none.
    pub test: Option<&'a Expr<'a>>,
    pub cost: u32,
    /// Whether the result is written before the operands are read.
    pub early: bool,
    pub emit: &'a [Piece],
}

/// Cover rules in the order written, with the register classes and the nonterminals.
#[derive(Drop)]
pub struct CoverRules<'a> {
    /// The names of the registers of each class.
    pub classes: Vec<Vec<Name>>,
    pub class_names: Names,
    pub nonterminals: Names,
    /// What each nonterminal holds.
    pub holds: Vec<Holding>,
    /// The nonterminal that the root is to be covered for.
    pub goal: u32,
    /// The labels of the rules.
    pub labels: Names,
    pub rules: Vec<CoverRule<'a>>,
}
