// Look-ups by number in a grammar: its rules, their symbols, what stands behind a dot.
ghost use Rattle.std.specs.Prelude.{◌≡◌, ◌<◌, ◌≤◌, ◌^◌, length, slice_get, Some};
ghost use Rattle.cfg_model.specs.Items.{right_of};

use crate::grammar::{Grammar, GrammarRule};
use crate::symbol::Sym;

impl GrammarRule {
    /// How many symbols the right side has.
    pub fn size(&self) -> u32
        requires { length self.now.right < 2 ^ 32 }
        ensures { result ≡ length self.now.right }
    {
        self.right.len() as u32
    }

    /// The symbol at a place of the right side.
    pub fn symbol(&self, place: u32) -> Option<Sym>
        ensures { result ≡ slice_get self.now.right place }
    {
        self.right.get(place as usize).copied()
    }
}

impl Grammar {
    /// The rule at a place of the list: rule r stands at r - 1.
    pub fn rule(&self, place: u32) -> &GrammarRule
        requires { place < length self.now.rules }
        ensures { slice_get self.now.rules place ≡ Some result.now }
    {
        &self.rules[place as usize]
    }

    /// How many rules there are.
    pub fn size(&self) -> u32
        requires { length self.now.rules < 2 ^ 32 }
        ensures { result ≡ length self.now.rules }
    {
        self.rules.len() as u32
    }

    /// The symbol behind the dot of an item, where there is one. Rules count from 1; rule 0 has the
    /// start symbol alone.
    pub fn behind(&self, rule: u32, dot: u32) -> Option<Sym>
        requires { rule ≤ length self.now.rules }
        ensures { result ≡ slice_get (right_of self.now rule) dot }
    {
        if rule > 0 {
            return self.rule(rule - 1).symbol(dot);
        }
        if dot > 0 {
            return None;
        }
        Some(Sym::N(self.start))
    }
}
