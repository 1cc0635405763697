// Sets of positions of rules, and the most that rules may have.
ghost use Rattle.std.specs.Prelude.{◌≡◌, ◌-◌, ◌^◌, ◌<◌, IfOk, map, min};
ghost use Rattle.rex_model.specs.Positions.{position_count, HasRoomFor};
ghost use Rattle.rex_model.specs.RuleMeaning.{context_of, rule_of, rules_of};
ghost use Rattle.rex_model.specs.Rules.{trailing};

use crate::counts::positions;
use crate::regex::Regex;
use crate::rules::{ScanRule, ScanRules};
use ck_base::{Bits, NoMemory};
use std::alloc::Global;
use std::marker::Model;

/// Sets of positions for a scan: two that it uses in turn for the body of a rule, and two for its
/// context. Contracts see them as their size.
#[derive(Drop)]
pub struct PositionSets {
    pub(crate) from: Bits,
    pub(crate) to: Bits,
    pub(crate) behind_from: Bits,
    pub(crate) behind_to: Bits,
}

impl Model for PositionSets {
    ghost use Rattle.std.specs.Prelude.{ℕ};
    ghost use Rattle.rex_model.specs.within.OneSize.{IsOneSize};

    ghost Value = { ℕ };

    ghost view = { λ sets. sets.from.size };

    ghost invariant = { λ sets. IsOneSize sets.from sets.to sets.behind_from sets.behind_to };
}

impl PositionSets {
    /// Sets with room for the positions of each rule's body and context. None are made where one has
    /// 4,294,967,295 positions or more.
    pub fn new(alloc: Global, rules: &ScanRules) -> Result<PositionSets, NoMemory>
        ensures { IfOk result (λ sets. HasRoomFor sets (rules_of rules.now).list) }
    {
        let size = most_positions(&rules.rules);
        if size == u32::MAX {
            return Err(NoMemory);
        }
        Ok(PositionSets {
            from: Bits::new(alloc, size)?,
            to: Bits::new(alloc, size)?,
            behind_from: Bits::new(alloc, size)?,
            behind_to: Bits::new(alloc, size)?,
        })
    }
}

/// How many positions a body or a context has at most; 4,294,967,295 where one has more.
fn most_positions(rules: &[ScanRule]) -> u32
    ensures { result < 2 ^ 32 - 1 → HasRoomFor result (map rule_of rules.now) }
{
    let mut most = 0;
    for rule in rules {
        most = positions(rule.body).max(most);
        most = positions_of_context(rule.context).max(most);
    }
    most
}

/// How many positions the context has; 4,294,967,295 where it has more.
fn positions_of_context(context: Option<&Regex>) -> u32
    ensures { result ≡ min (position_count (trailing (context_of context.entry))) (2 ^ 32 - 1) }
{
    match context {
        Some(context) => positions(context),
        None => 0,
    }
}
