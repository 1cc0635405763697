// Which rule a set of positions accepts: the least mark in it.
ghost use Rattle.std.specs.Prelude.{◌≡◌, ℕ, ◌<◌, ◌^◌, ◌↔◌, IsTrue, IfOk, length, get_or, map, []};
ghost use Rattle.ck_base.specs.BitSet.{Has};
ghost use Rattle.ck_base.specs.Words.{IsFit};
ghost use Rattle.rex_model.specs.Positions.{position_count};
ghost use Rattle.rex_model.specs.RuleMeaning.{rule_of};
ghost use Rattle.rex_model.specs.Sets.{marked_rules};
ghost use Rattle.rex_dfa.specs.within.Marks.{AreMarks, IsLeast, HasMark, MarksSets};

use crate::rule_positions::positions_of_rule;
use ck_base::{NoMemory, SetNumbers};
use rex_model::ScanRule;
use std::alloc::Global;

/// The end marks of the rules.
pub(crate) fn marks_of(alloc: Global, rules: &[ScanRule]) -> Result<Vec<u32>, NoMemory>
    requires { position_count (marked_rules (map rule_of rules.now)) < 2 ^ 32 }
    ensures { IfOk result (λ marks. AreMarks (map rule_of rules.now) 0 marks.items) }
{
    let mut marks = Vec::new(alloc);
    let mut at = 0;
    for rule in rules {
        at += positions_of_rule(rule);
        marks.push(at - 1)?;
    }
    Ok(marks)
}

/// What is accepted in the state of each set: the number of the least mark in it.
pub(crate) fn accepts_of(
    alloc: Global,
    sets: &SetNumbers,
    size: u32,
    marks: &[u32],
) -> Result<Vec<Option<u32>>, NoMemory>
    requires fit { (s : ℕ) → s < length sets.now → IsFit size (get_or sets.now s []) }
    requires few { length marks.now < 2 ^ 32 }
    ensures { IfOk result (λ accepts.
        MarksSets marks.now size sets.now accepts.items (length sets.now)) }
{
    let mut accepts = Vec::new(alloc);
    for s in 0..sets.len() {
        accepts.push(least_mark(sets.words_of(s), size, marks))?;
    }
    Ok(accepts)
}

/// The number of the least mark that is in the set with these words.
fn least_mark(words: &[u64], size: u32, marks: &[u32]) -> Option<u32>
    requires fit { IsFit size words.now }
    requires few { length marks.now < 2 ^ 32 }
    ensures { IsLeast (HasMark marks.now (record { size = size; words = words.now })) result }
{
    for (i, mark) in marks.iter().enumerate() {
        if has(words, *mark, size) {
            return Some(i as u32);
        }
    }
    None
}

/// Whether the number is in the set with these words.
fn has(words: &[u64], p: u32, size: u32) -> bool
    requires { IsFit size words.now }
    ensures { IsTrue result ↔ Has (record { size = size; words = words.now }) p }
{
    p < size && words[(p / 64) as usize] & (1 << (p % 64)) != 0
}
