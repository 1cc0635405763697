// The values of all attributes of a tree, and the law that there is one solution.
ghost use Rattle.std.specs.Prelude.{◌≡◌, ℕ, ◌+◌, IfOk, OnOk};
ghost use Rattle.value_store.specs.Cells.{cells_of};
ghost use Rattle.expr_lang.specs.Evaluated.{KeepsCells};
ghost use Rattle.tree_store.specs.Conforms.{Conforms};
ghost use Rattle.ag_model.specs.Attribution.{grammar_of};
ghost use Rattle.ag_model.specs.Plans.{PlanFits};
ghost use Rattle.ag_model.specs.Solution.{expressions_of};
ghost use Rattle.ag_model.specs.Typed.{IsAttributionOf};
ghost use Rattle.ag_visits.specs.Promise.{HasRoot, AreValues, HasOneSolution, instances};
ghost use Rattle.ag_visits.specs.within.OfTree.{tree_of, val_of, kinds_at, sets_at, steps_at, IsWide};
ghost use Rattle.ag_visits.specs.within.WholeVisits.{AreWhole};

use crate::turns::turn;
use crate::walk::{begin, widest};
use ag_model::{Attribution, Plan, Values};
use ast_types::Types;
use ck_base::Steps;
use std::alloc::Global;
use std::sync::ledger::Ledger;
use tree_store::Tree;
use value_store::{Cells, NoMemory, Texts};

/// The values of all attributes of the tree, by a plan that fits. After an error the store may have
/// more cells.
pub fn attribute<L: Ledger>(
    alloc: Global,
    types: &Types,
    a: &Attribution,
    plan: &Plan,
    tree: &Tree,
    texts: &Texts,
    cells: &mut Cells,
    steps: &mut Steps<L>,
) -> Result<Values, NoMemory>
    requires attribution { IsAttributionOf texts.now.source.now texts.now.literals.now types.now a.now }
    requires fits { PlanFits (grammar_of types.now a.now) plan.now }
    requires conforms { Conforms types.now tree.now }
    requires root { HasRoot (grammar_of types.now a.now) tree.now }
    ensures values { IfOk result (AreValues texts.now.source.now texts.now.literals.now
        (grammar_of types.now a.now)
        (expressions_of texts.now.source.now texts.now.literals.now a.now) tree.now
        (cells_of cells.new.units)) }
    ensures ticks { OnOk result
        (steps.new ≡ steps.old + instances (grammar_of types.now a.now) tree.now) }
    ensures kept { KeepsCells cells.old cells.new }
{
    let size = tree.len();
    let width = widest(a.attributes.as_slice());
    let mut walk = begin(alloc, size, width)?;
    let mut env = Vec::new(alloc);
    while walk.current < size {
        turn(
            types, a, plan, tree, texts, cells, &mut walk, &mut env, steps,
        )?;
    }
    Ok(walk.values)
}

/// Law: a tree has one solution under an attribution for which there is a fitting plan.
pub fn one_solution(types: &Types, a: &Attribution, plan: &Plan, tree: &Tree, texts: &Texts)
    requires attribution { IsAttributionOf texts.now.source.now texts.now.literals.now types.now a.now }
    requires fits { PlanFits (grammar_of types.now a.now) plan.now }
    requires conforms { Conforms types.now tree.now }
    requires root { HasRoot (grammar_of types.now a.now) tree.now }
    ensures { HasOneSolution texts.now.source.now texts.now.literals.now
        (grammar_of types.now a.now)
        (expressions_of texts.now.source.now texts.now.literals.now a.now) tree.now }
{
    let _count = tree.len();
}

/// Law: by a plan that fits, the visits to such a tree end; each node is visited as often as its
/// family's number, and each attribute of each node is evaluated once, after all that its equation
/// uses.
pub fn visits_of_a_plan(types: &Types, a: &Attribution, plan: &Plan, tree: &Tree, texts: &Texts)
    requires attribution { IsAttributionOf texts.now.source.now texts.now.literals.now types.now a.now }
    requires fits { PlanFits (grammar_of types.now a.now) plan.now }
    requires conforms { Conforms types.now tree.now }
    requires root { HasRoot (grammar_of types.now a.now) tree.now }
    ensures { (width : ℕ) → IsWide (grammar_of types.now a.now) width
        → AreWhole (val_of texts.now.source.now texts.now.literals.now
        (expressions_of texts.now.source.now texts.now.literals.now a.now) tree.now)
        (tree_of (grammar_of types.now a.now) width tree.now)
        (kinds_at (grammar_of types.now a.now) tree.now)
        (sets_at (grammar_of types.now a.now) plan.now tree.now) (steps_at plan.now tree.now) }
{
    let _count = tree.len();
}
