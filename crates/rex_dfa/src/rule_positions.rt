// How many positions a rule has.
ghost use Rattle.std.specs.Prelude.{◌≡◌, ◌^◌, ◌<◌};
ghost use Rattle.rex_model.specs.Positions.{position_count};
ghost use Rattle.rex_model.specs.RuleMeaning.{rule_of};
ghost use Rattle.rex_model.specs.Sets.{marked, body_and_context};

use rex_model::{ScanRule, positions};

/// How many positions the rule has: those of its body and its context, and its end mark.
pub(crate) fn positions_of_rule(rule: &ScanRule) -> u32
    requires { position_count (marked (body_and_context (rule_of rule.now))) < 2 ^ 32 }
    ensures { result ≡ position_count (marked (body_and_context (rule_of rule.now))) }
{
    match rule.context {
        Some(context) => positions(rule.body) + positions(context) + 1,
        None => positions(rule.body) + 1,
    }
}
