// The rules that may apply at nodes of each type.
ghost use Rattle.std.specs.Prelude.{◌≡◌, ℕ, ◌<◌, length, slice_get, Some, IfOk};
ghost use Rattle.value_store.specs.declared.text.Texts.{Texts};
ghost use Rattle.beg_label.specs.within.Listed.{ListsRules, RulesListed, RuleListed, ListIs};

use crate::collecting::rule_at;
use ast_types::Types;
use beg_model::{CoverRules, may_apply};
use std::alloc::Global;
use value_store::NoMemory;

/// For each type the numbers of the rules that may apply at nodes of it, in their order.
pub(crate) fn rules_by_type(
    alloc: Global,
    rules: &CoverRules,
    types: &Types,
    count: u32,
) -> Result<Vec<Vec<u32>>, NoMemory>
    requires { count ≡ length rules.now.rules.items }
    ensures size { IfOk result (λ lists. length lists.items ≡ length types.now.types) }
    ensures lists { IfOk result (λ lists. (texts : Texts) (ty : ℕ) → ty < length types.now.types
        → RulesListed texts rules.now types.now ty (slice_get lists.items ty)) }
{
    let mut lists = Vec::new(alloc);
    for ty in 0..types.len() {
        let list = rules_for(alloc, rules, types, ty, count)?;
        lists.push(list)?;
    }
    Ok(lists)
}

/// The numbers of the rules that may apply at nodes of the type.
fn rules_for(
    alloc: Global,
    rules: &CoverRules,
    types: &Types,
    ty: u32,
    count: u32,
) -> Result<Vec<u32>, NoMemory>
    requires ty { ty < length types.now.types }
    requires count { count ≡ length rules.now.rules.items }
    ensures { IfOk result (λ list. (texts : Texts)
        → ListsRules texts rules.now types.now ty count list.items) }
{
    let mut list = Vec::new(alloc);
    for r in 0..count {
        list_rule(rules, types, ty, r, &mut list)?;
    }
    Ok(list)
}

/// Puts the number of the rule behind the list where the rule may apply at nodes of the type.
fn list_rule(
    rules: &CoverRules,
    types: &Types,
    ty: u32,
    r: u32,
    list: &mut Vec<u32>,
) -> Result<(), NoMemory>
    requires ty { ty < length types.now.types }
    requires rule { r < length rules.now.rules.items }
    ensures { IfOk result (λ _. (texts : Texts) → RuleListed texts rules.now types.now ty r
        list.old.items list.new.items) }
{
    if may_apply(rule_at(rules, r), types, ty) {
        list.push(r)?;
    }
    Ok(())
}

/// The list at a place that there is.
pub(crate) fn list_at(lists: &[Vec<u32>], i: usize) -> &[u32]
    requires { i < length lists.now }
    ensures { ListIs result.now (slice_get lists.now i) }
{
    lists[i].as_slice()
}
