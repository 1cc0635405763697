// What an instance holds.
ghost use Rattle.std.specs.Prelude.{◌≡◌};
ghost use Rattle.beg_model.specs.Items.{IsKnown, item_of};
ghost use Rattle.beg_registers.specs.within.OnePass.{holds_class};

use beg_model::{CoverRules, Holding, Instance};

/// What the instance holds.
pub(crate) fn holding(rules: &CoverRules, i: &Instance) -> Holding
    requires { IsKnown rules.now i.now }
    ensures { result ≡ (item_of rules.now i.now).holds }
{
    let rule = &rules.rules[i.rule as usize];
    rules.holds[rule.left as usize]
}

/// Whether the instance holds a register of the class.
pub(crate) fn holds(rules: &CoverRules, i: &Instance, class: u32) -> bool
    requires { IsKnown rules.now i.now }
    ensures { result ≡ holds_class (item_of rules.now i.now) class }
{
    match holding(rules, i) {
        Holding::Class(c) => c == class,
        _ => false,
    }
}

/// Whether the instance's rule is EARLY.
pub(crate) fn is_early(rules: &CoverRules, i: &Instance) -> bool
    requires { IsKnown rules.now i.now }
    ensures { result ≡ (item_of rules.now i.now).early }
{
    rules.rules[i.rule as usize].early
}

/// The numbers of the instance's operands.
pub(crate) fn operands_of(i: &Instance) -> &[u32]
    ensures { result.now ≡ i.now.operands }
{
    i.operands.as_slice()
}
