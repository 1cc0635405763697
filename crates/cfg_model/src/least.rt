// The least nonterminal that a relation brings back to itself, and the least without a word.
ghost use Rattle.std.specs.Prelude.{◌≡◌, ◌<◌, ◌≤◌, ℕ, IfOk, None};
ghost use Rattle.cfg_model.specs.Cfg.{IsGrammar};
ghost use Rattle.cfg_model.specs.Sets.{Productive};
ghost use Rattle.ck_base.specs.BitSet.{Has};
ghost use Rattle.cfg_model.specs.within.Closing.{LacksFirst};
ghost use Rattle.cfg_model.specs.Rows.{In, AreRows};
ghost use Rattle.cfg_model.specs.Searches.{IsLeast, IsUnproductive};

use crate::closing::productive;
use crate::grammar::Grammar;
use ck_base::{Bits, NoMemory};
use std::alloc::Global;

/// The least number of the set whose row has the number itself.
pub fn least_in_own_row(set: &Bits, rows: &[Bits], count: u32) -> Option<u32>
    requires rows { AreRows count count rows.now }
    requires size { set.now.size ≡ count }
    ensures { IsLeast (λ n. Has set.now n × In rows.now n n) result }
{
    for n in 0..count {
        if set.has(n) && rows[n as usize].has(n) {
            return Some(n);
        }
    }
    None
}

/// The least nonterminal that derives no word.
pub fn unproductive(alloc: Global, g: &Grammar) -> Result<Option<u32>, NoMemory>
    requires { IsGrammar g.now }
    ensures { IfOk result (IsUnproductive g.now) }
{
    let set = productive(alloc, g)?;
    let least = least_lacking(&set);
    Ok(least)
}

/// The least number below its size that the set lacks.
fn least_lacking(set: &Bits) -> Option<u32>
    ensures { LacksFirst set.now result }
{
    let size = set.size();
    for n in 0..size {
        if !set.has(n) {
            return Some(n);
        }
    }
    None
}
