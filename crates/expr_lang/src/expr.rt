// Expressions, their operators and functions, and scopes.
use value_store::{Text, ValType};

/// The operators `||`, `&&`, `==`, `!=`, `<`, `<=`, `>`, `>=`, `+`, `-`, `*`, `/` and `%`, in this
/// order.
#[derive(Clone, Copy)]
pub enum Op {
    Or,
    And,
    Equal,
    Differ,
    Less,
    AtMost,
    Greater,
    AtLeast,
    Plus,
    Minus,
    Times,
    Quotient,
    Remainder,
}

/// The functions `text`, `line`, `col`, `int`, `empty`, `put`, `get`, `has` and `size`, in this
/// order.
#[derive(Clone, Copy)]
pub enum Function {
    Text,
    Line,
    Col,
    Int,
    Empty,
    Put,
    Get,
    Has,
    Size,
}

/// An expression. Its parts lie in an arena.
#[derive(Clone, Copy)]
pub enum Expr<'a> {
    Int(i64),
    Bool(bool),
    Text(Text),
    /// The variable of this number.
    Var(u32),
    Neg(&'a Expr<'a>),
    Not(&'a Expr<'a>),
    Binary(Op, &'a Expr<'a>, &'a Expr<'a>),
    If(&'a Expr<'a>, &'a Expr<'a>, &'a Expr<'a>),
    Call(Function, &'a [Expr<'a>]),
    /// A node of this type, with its items.
    Make(u32, &'a [Expr<'a>]),
}

/// What makes nodes of a type: the type's number, its family's, and the types of the items.
#[derive(Drop)]
pub struct Maker {
    pub ty: u32,
    pub family: u32,
    pub items: Vec<ValType>,
}

/// What an expression stands in: the types of its variables, and the makers.
#[derive(Clone, Copy)]
pub struct Scope<'s> {
    pub vars: &'s [ValType],
    pub makers: &'s [Maker],
}
