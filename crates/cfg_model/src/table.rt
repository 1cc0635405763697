// The trait of an LR table: actions and gotos by state.
ghost use Rattle.std.specs.Prelude.{◌≡◌, ℕ, ◌<◌, ◌≤◌, List, length};
ghost use Rattle.cfg_model.specs.Cfg.{Cfg, IsRule};
ghost use Rattle.cfg_model.specs.Table.{Table};
ghost use Rattle.cfg_model.specs.declared.symbol.Sym.{Sym};

use crate::action::LrAction;

/// The table of an LR parser, as its driver asks it. A parse begins in state 0.
pub trait LrTable {
    /// The grammar that the table is of.
    ghost grammar: { Self → Cfg };
    /// What the table answers.
    ghost table: { Self → Table };

    /// What is done in a state on a terminal, END among them.
    fn action(&self, state: u32, t: u32) -> LrAction
        requires state { state < (table self.now).states }
        requires terminal { t ≤ (grammar self.now).terminals }
        ensures { result ≡ (table self.now).act state t };

    /// The state after a nonterminal.
    fn goto(&self, state: u32, n: u32) -> u32
        requires state { state < (table self.now).states }
        requires nonterminal { n < (grammar self.now).nonterminals }
        ensures { result ≡ (table self.now).go state n };

    /// How many symbols the rule's right side has; rules count from 1.
    fn len(&self, rule: u32) -> u32
        requires some { 1 ≤ rule }
        requires in_range { rule ≤ length (grammar self.now).rules }
        ensures { (n : ℕ) (w : List Sym) → IsRule (grammar self.now) rule n w → result ≡ length w };

    /// The nonterminal on the rule's left side; rules count from 1.
    fn left(&self, rule: u32) -> u32
        requires some { 1 ≤ rule }
        requires in_range { rule ≤ length (grammar self.now).rules }
        ensures { (n : ℕ) (w : List Sym) → IsRule (grammar self.now) rule n w → result ≡ n };

    /// The number of terminals, which is END's number.
    fn terminals(&self) -> u32
        ensures { result ≡ (grammar self.now).terminals };
}
