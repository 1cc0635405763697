// What a plain LL(1) table answers.
ghost use Rattle.ell_tables.specs.Table.{answer_of, grammar_of};

use crate::plain::PlainLl;
use cfg_model::{LlTable, Sym};

impl LlTable for PlainLl {
    ghost grammar = { grammar_of };

    ghost answer = { answer_of };

    fn predict(&self, n: u32, t: u32) -> Option<u32> {
        let width = self.grammar.terminals as usize + 1;
        let cell = self.cells[n as usize * width + t as usize];
        if cell == 0 { None } else { Some(cell as u32) }
    }

    fn right(&self, rule: u32) -> &[Sym] {
        &self.grammar.rules[rule as usize - 1].right
    }

    fn start(&self) -> u32 {
        self.grammar.start
    }

    fn terminals(&self) -> u32 {
        self.grammar.terminals
    }
}
