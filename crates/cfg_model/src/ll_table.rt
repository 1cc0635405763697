// The trait of an LL(1) table: which rule a nonterminal is expanded by before a token.
ghost use Rattle.std.specs.Prelude.{◌≡◌, ℕ, ◌<◌, ◌≤◌, List, Option, length};
ghost use Rattle.cfg_model.specs.Cfg.{Cfg, IsRule};
ghost use Rattle.cfg_model.specs.declared.symbol.Sym.{Sym};

use crate::symbol::Sym;

/// The table of an LL parser, as its driver asks it.
pub trait LlTable {
    /// The grammar that the table is of.
    ghost grammar: { Self → Cfg };
    /// The rule that the table predicts for a nonterminal on a terminal.
    ghost answer: { Self → ℕ → ℕ → Option ℕ };

    /// The rule to take for a nonterminal on a terminal, END among them; rules count from 1.
    fn predict(&self, n: u32, t: u32) -> Option<u32>
        requires nonterminal { n < (grammar self.now).nonterminals }
        requires terminal { t ≤ (grammar self.now).terminals }
        ensures { result ≡ answer self.now n t };

    /// The right side of a rule; rules count from 1.
    fn right(&self, rule: u32) -> &[Sym]
        requires some { 1 ≤ rule }
        requires in_range { rule ≤ length (grammar self.now).rules }
        ensures { (n : ℕ) (w : List Sym) → IsRule (grammar self.now) rule n w → result.now ≡ w };

    /// The start symbol, a nonterminal.
    fn start(&self) -> u32
        ensures { result ≡ (grammar self.now).start };

    /// The number of terminals, which is END's number.
    fn terminals(&self) -> u32
        ensures { result ≡ (grammar self.now).terminals };
}
