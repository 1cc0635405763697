// A law of the fields that rules bind.
ghost use Rattle.std.specs.Prelude.{◌≡◌, ℕ, List, map};
ghost use Rattle.expr_lang.specs.PureValues.{PureValue};
ghost use Rattle.beg_model.specs.Fitting.{Target, child, Fits, field_value};
ghost use Rattle.beg_model.specs.Rules.{Pattern};
ghost use Rattle.beg_model.specs.declared.matched.Subgoal.{Subgoal};
ghost use Rattle.beg_registers.specs.Bound.{bound_at};

use tree_store::Tree;

/// Law: the fields that a pattern binds at a node are those with which it fits there, whatever the
/// types are.
pub fn bound_as_it_fits(tree: &Tree)
    ensures { (on : Target) (p : Pattern) (n : ℕ) (operands : List Subgoal) (env : List PureValue)
        → on.nodes ≡ tree.now → Fits on p (child n) operands env
        → map (field_value on) (bound_at tree.now p n) ≡ env }
{
    let _nodes = tree.len();
}
