/// A symbol of a grammar, by its number: a terminal or a nonterminal.
#[derive(Clone, Copy, Debug, PartialEq, Eq)]
pub enum Sym {
    /// A terminal.
    T(u32),
    /// A nonterminal.
    N(u32),
}
