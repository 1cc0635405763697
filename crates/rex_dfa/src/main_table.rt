// The main automaton, one table for all start states.
ghost use Rattle.std.specs.Prelude.{◌≡◌, ◌≤◌, IfOk, MatchOption, map};
ghost use Rattle.rex_model.specs.Positions.{position_count};
ghost use Rattle.rex_model.specs.RuleMeaning.{rule_of};
ghost use Rattle.rex_model.specs.ScanSets.{HasMoreScanSets};
ghost use Rattle.rex_model.specs.Sets.{marked_rules};
ghost use Rattle.rex_model.specs.TableMeaning.{automaton_of};
ghost use Rattle.rex_dfa.specs.within.Main.{IsMain};

use crate::marking::marks_of;
use crate::part_rows::positions_with;
use crate::rule_positions::positions_of_rule;
use crate::rule_rows::{RuleRows, rows_of};
use crate::table::{Table, table_of};
use crate::walk::Rows;
use ck_base::NoMemory;
use rex_model::ScanRule;
use std::alloc::Global;

/// The main automaton of the rules; `None` where it has more than 4,096 states.
pub(crate) fn main_of(
    alloc: Global,
    rules: &[ScanRule],
    states: u32,
) -> Result<Option<Table>, NoMemory>
    requires { position_count (marked_rules (map rule_of rules.now)) ≤ 4096 }
    ensures { IfOk result (λ table. MatchOption table
        (HasMoreScanSets (map rule_of rules.now) states 4096)
        (λ table. IsMain (map rule_of rules.now) states
        table.starts.items (automaton_of table.dfa))) }
{
    let size = size_of(rules);
    let all = rows_of(alloc, rules, states, size)?;
    let RuleRows { rows, firsts } = all;
    let Rows { takers, follows } = rows;
    let positions = positions_with(alloc, size, takers, follows)?;
    let marks = marks_of(alloc, rules)?;
    table_of(alloc, &positions, &firsts, marks.as_slice())
}

/// How many positions the rules have together, with their end marks.
fn size_of(rules: &[ScanRule]) -> u32
    requires { position_count (marked_rules (map rule_of rules.now)) ≤ 4096 }
    ensures { result ≡ position_count (marked_rules (map rule_of rules.now)) }
{
    let mut size = 0;
    for rule in rules {
        size += positions_of_rule(rule);
    }
    size
}
