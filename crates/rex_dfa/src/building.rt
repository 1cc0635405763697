// The scanner's tables of a list of rules, or their first refusal.
ghost use Rattle.std.specs.Prelude.{◌≡◌, ℕ, ◌^◌, ◌<◌, ◌≤◌, IfOk, IfErr, MatchOption, Some, length, map, slice_get};
ghost use Rattle.ck_base.specs.Found.{HasNo};
ghost use Rattle.rex_model.specs.Positions.{position_count};
ghost use Rattle.rex_model.specs.RuleMeaning.{rule_of, rules_of};
ghost use Rattle.rex_model.specs.Rules.{Rule};
ghost use Rattle.rex_model.specs.ScanSets.{HasMoreScanSets, HasMoreSplitSets};
ghost use Rattle.rex_model.specs.Sets.{IsScanner, marked_rules};
ghost use Rattle.rex_model.specs.TableMeaning.{tables_of};
ghost use Rattle.rex_model.specs.Tables.{IsWellFormed, GivesWinners};
ghost use Rattle.rex_dfa.specs.Faults.{IsDfaFault, IsFirstNullable, IsNullable};
ghost use Rattle.rex_dfa.specs.within.Building.{AreActions, IsBuilt};

use crate::fault::DfaError;
use crate::main_table::main_of;
use crate::splitting::splits_of;
use crate::table::Table;
use ck_base::{NoMemory, StateKind};
use rex_model::{ScanAction, ScanRule, ScanRules, ScanTables, nullable};
use std::alloc::Global;

/// The tables, or of what there are too many states.
#[derive(Drop)]
pub(crate) enum Built {
    Done(ScanTables),
    TooMany(StateKind),
}

/// The tables of the rules, with a start for each start state, an action for each rule and a split
/// for each rule with a context.
pub fn build(alloc: Global, rules: &ScanRules) -> Result<ScanTables, DfaError>
    requires { IsScanner (rules_of rules.now) }
    ensures well_formed { IfOk result (λ tables. IsWellFormed (tables_of tables)) }
    ensures gives { IfOk result (λ tables.
        GivesWinners (tables_of tables) (rules_of rules.now).list) }
    ensures starts { IfOk result (λ tables.
        length (tables_of tables).starts ≡ length (rules_of rules.now).states) }
    ensures bodies { IfOk result (λ tables. HasNo (IsNullable (rules_of rules.now).list)) }
    ensures scanner { IfOk result (λ tables.
        HasMoreScanSets (rules_of rules.now).list (length (rules_of rules.now).states) 4096 → ⊥) }
    ensures splits { IfOk result (λ tables. HasMoreSplitSets (rules_of rules.now).list 4096 → ⊥) }
    ensures err { IfErr result (IsDfaFault (rules_of rules.now)) }
{
    let list = rules.rules.as_slice();
    if let Some(i) = first_nullable(list) {
        return Err(DfaError::NullableRule(i));
    }
    match tables_with(alloc, list, rules.states.len()) {
        Ok(Built::Done(tables)) => Ok(tables),
        Ok(Built::TooMany(kind)) => Err(DfaError::TooManyStates(kind)),
        Err(_) => Err(DfaError::NoMemory),
    }
}

/// The first rule whose body has the empty word.
fn first_nullable(rules: &[ScanRule]) -> Option<u32>
    requires { length rules.now < 2 ^ 32 }
    ensures { MatchOption result (HasNo (IsNullable (map rule_of rules.now)))
        (IsFirstNullable (map rule_of rules.now)) }
{
    for (i, rule) in rules.iter().enumerate() {
        if nullable(rule.body) {
            return Some(i as u32);
        }
    }
    None
}

/// The tables of rules whose bodies haven't the empty word.
fn tables_with(alloc: Global, rules: &[ScanRule], states: u32) -> Result<Built, NoMemory>
    requires few { position_count (marked_rules (map rule_of rules.now)) ≤ 4096 }
    requires next { (i n : ℕ) (rule : Rule) → slice_get (map rule_of rules.now) i ≡ Some rule
        → rule.next ≡ Some n → n < states }
    requires bodies { HasNo (IsNullable (map rule_of rules.now)) }
    ensures { IfOk result (IsBuilt (map rule_of rules.now) states) }
{
    match main_of(alloc, rules, states)? {
        Some(main) => match splits_of(alloc, rules)? {
            Some(splits) => {
                let actions = actions_of(alloc, rules)?;
                let Table { starts, dfa } = main;
                Ok(Built::Done(ScanTables {
                    starts,
                    main: dfa,
                    splits,
                    actions,
                }))
            }
            None => Ok(Built::TooMany(StateKind::Split)),
        },
        None => Ok(Built::TooMany(StateKind::Scanner)),
    }
}

/// What is done with the texts of the rules.
fn actions_of(alloc: Global, rules: &[ScanRule]) -> Result<Vec<ScanAction>, NoMemory>
    ensures { IfOk result (λ actions.
        AreActions (map rule_of rules.now) (length rules.now) actions.items) }
{
    let mut actions = Vec::new(alloc);
    for rule in rules {
        actions.push(ScanAction {
            token: rule.token,
            next: rule.next,
        })?;
    }
    Ok(actions)
}
