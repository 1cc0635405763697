ghost use Rattle.std.specs.Prelude.{◌≡◌, ℕ, ◌+◌, ◌<◌, ◌≤◌, ◌^◌, List, [], ◌∷◌, IfOk, length, slice_get, Some};
ghost use Rattle.value_store.specs.Cells.{cells_of};
ghost use Rattle.value_store.specs.declared.value.Value.TheVariants as value;
ghost use Rattle.expr_lang.specs.Evaluated.{KeepsCells};
ghost use Rattle.expr_lang.specs.PureValues.{source};
ghost use Rattle.puma_model.specs.Found.{IsScene, scene_of, patterns_in};
ghost use Rattle.puma_model.specs.Typed.{pures};
ghost use Rattle.puma_model.specs.TypedRules.{Kinds};
ghost use Rattle.puma_model.specs.declared.rules.PumaRule.{PumaRule};
ghost use Rattle.puma_model.specs.declared.rules.Routine.{Routine};
ghost use Rattle.puma_eval.specs.Answers.{Answers, GivesValue, IsMain, IsReady, attributes_in, program_in, routines_in};
ghost use Rattle.puma_eval.specs.within.Evaluating.{Setting};
ghost use Rattle.puma_eval.specs.within.Frames.{AreArgs, HasRoom, Stands, answer_of, program};

use crate::frames::{Call, Outcome, Resumed, Step, settle, start};
use crate::results::{RewriteError, Rewritten};
use puma_model::{Bindings, Matcher, PumaRule, Routines, World};
use std::alloc::Global;
use value_store::{Cells, NoMemory, Value};

/// What the main call on the root of the tree comes to within the budget. After an error the store
/// may have more cells.
pub fn run<M: Matcher>(
    alloc: Global,
    routines: &Routines,
    matcher: &M,
    world: &World,
    cells: &mut Cells,
    budget: u64,
) -> Result<Rewritten, RewriteError>
    requires made { (s l : List ℕ)
        → M.patterns matcher.now s l ≡ patterns_in s l routines.now.list.items }
    requires suits { M.suits matcher.now world.now.types.now world.now.texts.literals.now }
    requires world { IsScene (scene_of world.now) }
    requires typed { (kinds : Kinds)
        × IsReady world.now (cells_of cells.old.units) routines.now kinds }
    requires main { (root : ℕ) × IsMain world.now (routines_in world.now routines.now)
        routines.now.main root }
    ensures answers { (root : ℕ)
        → IsMain world.now (routines_in world.now routines.now) routines.now.main root
        → Answers (program_in world.now routines.now
        (attributes_in world.now (cells_of cells.old.units)))
        (cells_of cells.new.units) routines.now.main (source root ∷ []) budget result }
    ensures gives { GivesValue world.now (routines_in world.now routines.now)
        (cells_of cells.new.units) routines.now.main result }
    ensures kept { KeepsCells cells.old cells.new }
{
    let prepared = roomy(alloc, most_variables(routines) as usize);
    let Ok(mut bindings) = prepared else {
        return Err(RewriteError::NoMemory);
    };
    let rooted = one_value(alloc, Value::Src(world.tree.root()));
    let Ok(args) = rooted else {
        return Err(RewriteError::NoMemory);
    };
    let call = Call {
        routine: routines.main,
        args,
    };
    turns(
        alloc,
        routines,
        matcher,
        world,
        cells,
        &mut bindings,
        call,
        budget,
    )
}

/// What the call comes to within the budget.
fn turns<M: Matcher>(
    alloc: Global,
    routines: &Routines,
    matcher: &M,
    world: &World,
    cells: &mut Cells,
    bindings: &mut Bindings,
    main: Call,
    budget: u64,
) -> Result<Rewritten, RewriteError>
    requires made { (s l : List ℕ)
        → M.patterns matcher.now s l ≡ patterns_in s l routines.now.list.items }
    requires suits { M.suits matcher.now world.now.types.now world.now.texts.literals.now }
    requires room { HasRoom (routines_in world.now routines.now) (length bindings.old) }
    requires ready { (setting : Setting)
        × Stands world.now routines.now (cells_of cells.old.units) setting }
    requires args { AreArgs world.now routines.now (cells_of cells.old.units) main.routine
        main.args.items }
    ensures answers { (setting : Setting)
        → Stands world.now routines.now (cells_of cells.old.units) setting
        → Answers (program world.now routines.now setting) (cells_of cells.new.units)
        main.routine (pures (scene_of world.now) (cells_of cells.old.units) main.args.items)
        budget result }
    ensures gives { GivesValue world.now (routines_in world.now routines.now)
        (cells_of cells.new.units) main.routine result }
    ensures kept { KeepsCells cells.old cells.new }
{
    let mut waiting = Vec::new(alloc);
    let mut call = main;
    for turn in 0..budget {
        let started = start(alloc, routines, matcher, world, cells, bindings, call, 0);
        let Ok(found) = started else {
            return Err(RewriteError::NoMemory);
        };
        let frame = match found {
            Resumed::On(frame) => frame,
            Resumed::NoRule(q) => return done(Outcome::NoRule(q), turn + 1),
        };
        let settled = settle(
            alloc,
            routines,
            matcher,
            world,
            cells,
            bindings,
            frame,
            &mut waiting,
        );
        let Ok(step) = settled else {
            return Err(RewriteError::NoMemory);
        };
        match step {
            Step::Call(next) => call = next,
            Step::Done(outcome) => return done(outcome, turn + 1),
        }
    }
    Err(RewriteError::SpentBudget { budget })
}

/// The answer where the main call comes to this.
fn done(outcome: Outcome, calls: u64) -> Result<Rewritten, RewriteError>
    ensures { result ≡ answer_of outcome calls }
{
    match outcome {
        Outcome::Value(value) => Ok(Rewritten { value, calls }),
        Outcome::NoRule(routine) => Err(RewriteError::NoRule { routine, calls }),
    }
}

/// Bindings with so many places.
fn roomy(alloc: Global, n: usize) -> Result<Bindings, NoMemory>
    ensures { IfOk result (λ bindings. length bindings ≡ n) }
{
    let mut bindings = Bindings::new(alloc);
    bindings.reserve(n)?;
    Ok(bindings)
}

/// A list of this value.
fn one_value(alloc: Global, v: Value) -> Result<Vec<Value>, NoMemory>
    ensures { IfOk result (λ list. list.items ≡ v ∷ []) }
{
    let mut list = Vec::new(alloc);
    list.push(v)?;
    Ok(list)
}

/// The most variables that a rule has.
fn most_variables(routines: &Routines) -> u32
    ensures { (q i : ℕ) (r : Routine) (rule : PumaRule) → slice_get routines.now.list.items q ≡ Some r
        → slice_get r.rules.items i ≡ Some rule → rule.vars ≤ result }
{
    let mut most = 0;
    let list = routines.list.as_slice();
    for q in 0..list.len() {
        let rules = list[q].rules.as_slice();
        most = most_in(rules, most);
    }
    most
}

/// The most variables that one of the rules has, or more.
fn most_in(rules: &[PumaRule], least: u32) -> u32
    ensures least { least ≤ result }
    ensures each { (i : ℕ) (rule : PumaRule) → slice_get rules.now i ≡ Some rule
        → rule.vars ≤ result }
{
    let mut most = least;
    for i in 0..rules.len() {
        most = the_greater(most, vars_of(rules, i));
    }
    most
}

/// How many variables the rule at a place that there is has.
fn vars_of(rules: &[PumaRule], i: usize) -> u32
    requires { i < length rules.now }
    ensures { (rule : PumaRule) → slice_get rules.now i ≡ Some rule → result ≡ rule.vars }
{
    rules[i].vars
}

/// The greater number.
fn the_greater(a: u32, b: u32) -> u32
    ensures first { a ≤ result }
    ensures second { b ≤ result }
{
    if a < b { b } else { a }
}
