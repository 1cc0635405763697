// Which rules have a symbol, and where: the parts that closures walk along.
ghost use Rattle.std.specs.Prelude.{◌≡◌, ◌↔◌, ◌<◌, true, false, ℕ, IfOk, IsTrue, All, length};
ghost use Rattle.ck_base.specs.BitSet.{Has};
ghost use Rattle.cfg_model.specs.within.Closing.{AllPass, Passes};
ghost use Rattle.cfg_model.specs.within.Parts.{AddsParts, AreLeftParts};

use crate::closing::passes;
use crate::grammar::{Grammar, GrammarRule};
use crate::symbol::Sym;
use ck_base::{Bits, NoMemory};
use std::alloc::Global;

/// A nonterminal, and a symbol that can stand first in one of its rules.
#[derive(Clone, Copy)]
pub struct Part {
    pub left: u32,
    pub symbol: Sym,
}

/// What can stand first in the right sides.
pub fn left_parts(alloc: Global, g: &Grammar, null: &Bits) -> Result<Vec<Part>, NoMemory>
    ensures { IfOk result (λ parts. AreLeftParts g.now null.now parts.items) }
{
    let mut parts = Vec::new(alloc);
    for (i, rule) in g.rules.iter().enumerate() {
        add_parts(rule, null, &mut parts)?;
    }
    Ok(parts)
}

/// Adds what can stand first in the rule.
fn add_parts(rule: &GrammarRule, null: &Bits, parts: &mut Vec<Part>) -> Result<(), NoMemory>
    ensures { IfOk result (λ _. AddsParts null.now rule.now parts.old.items parts.new.items) }
{
    let left = rule.left;
    let right = rule.right.as_slice();
    for symbol in right {
        parts.push(Part {
            left,
            symbol: *symbol,
        })?;
        if !passes(*symbol, false, null) {
            return Ok(());
        }
    }
    Ok(())
}
