// What a plain LR table answers.
ghost use Rattle.std.specs.Prelude.{◌≡◌};
ghost use Rattle.lalr_tables.specs.Table.{answers_of, as_action, grammar_of};

use crate::plain::PlainLr;
use cfg_model::{LrAction, LrTable};

impl LrTable for PlainLr {
    ghost grammar = { grammar_of };

    ghost table = { answers_of };

    fn action(&self, state: u32, t: u32) -> LrAction {
        let width = self.grammar.terminals as usize + 1;
        action_of(self.actions[state as usize * width + t as usize])
    }

    fn goto(&self, state: u32, n: u32) -> u32 {
        let width = self.grammar.nonterminals as usize;
        self.gotos[state as usize * width + n as usize] as u32
    }

    fn len(&self, rule: u32) -> u32 {
        self.grammar.rules[rule as usize - 1].right.len() as u32
    }

    fn left(&self, rule: u32) -> u32 {
        self.grammar.rules[rule as usize - 1].left
    }

    fn terminals(&self) -> u32 {
        self.grammar.terminals
    }
}

/// A cell as an action.
fn action_of(cell: u16) -> LrAction
    ensures { result ≡ as_action cell }
{
    if cell == 0 {
        return LrAction::Error;
    }
    if cell >= 2048 {
        return LrAction::Shift(cell as u32 - 2048);
    }
    if cell == 1 {
        return LrAction::Accept;
    }
    LrAction::Reduce(cell as u32 - 1)
}
