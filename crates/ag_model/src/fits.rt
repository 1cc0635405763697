// Whether a plan fits an attribution. It takes no memory.
ghost use Rattle.std.specs.Prelude.{◌≡◌, ℕ, ◌<◌, ◌-◌, ◌↔◌, length, map, IsTrue, Some, slice_get, slice_index_or, [], Contains};
ghost use Rattle.ag_model.specs.Attribution.{grammar_of, equation_of, attribute_rows, kinds_of};
ghost use Rattle.ag_model.specs.Plans.{sets_of, steps_of, counted, is_leave, is_visit, visit_count, PlanFits, SetsFit, lists};
ghost use Rattle.ag_model.specs.declared.plan.PlanStep.TheVariants.{Evaluate, Visit, Leave};
ghost use Rattle.ag_model.specs.within.TypePlans.{IsOfType, own_sets, below, child_total, own_equations, own_steps, MayStep, MayUse, CameByVisit, FitsAt, g_of};

use crate::attribution::{Attribute, Attribution, Equation, Place};
use crate::plan::{Plan, PlanStep};
use crate::sets::sets_fit;
use crate::steps::{
    all_evaluated, ends_in_leave, evaluated_before, given, leaves, step_at, taken_in, visits,
    visits_to, was_evaluated, was_given, was_taken_in,
};
use ast_types::Types;

/// What a plan has for one type.
#[derive(Clone, Copy)]
pub struct TypePlan<'t> {
    pub types: &'t Types,
    pub a: &'t Attribution<'t>,
    pub plan: &'t Plan,
    pub t: u32,
}

/// The sets of a family; none where there is no such family.
fn sets_at(plan: &Plan, x: u32) -> &[Vec<u32>]
    ensures { lists result.now ≡ sets_of plan.now x }
{
    if (x as usize) < plan.sets.len() {
        plan.sets[x as usize].as_slice()
    } else {
        &[]
    }
}

/// The sets of the type's own family.
fn own_sets_of<'t>(p: &TypePlan<'t>) -> &'t [Vec<u32>]
    requires { IsOfType p.now }
    ensures { lists result.now ≡ own_sets p.now }
{
    sets_at(p.plan, p.types.family_of(p.t))
}

/// The sets of the family of a child; none where there is no such child.
fn child_sets_of<'t>(p: &TypePlan<'t>, c: u32) -> &'t [Vec<u32>]
    requires { IsOfType p.now }
    ensures { lists result.now ≡ below p.now c }
{
    if c < p.types.child_count(p.t) {
        sets_at(p.plan, p.types.child_family(p.t, c))
    } else {
        &[]
    }
}

/// The equations of the type; none where it has no list of them.
fn own_equations_of<'t>(p: &TypePlan<'t>) -> &'t [Equation<'t>]
    ensures { map equation_of result.now ≡ own_equations p.now }
{
    if (p.t as usize) < p.a.equations.len() {
        p.a.equations_of(p.t)
    } else {
        &[]
    }
}

/// The steps of a type; none where it has no list of them.
fn steps_at(plan: &Plan, t: u32) -> &[PlanStep]
    ensures { result.now ≡ steps_of plan.now t }
{
    if (t as usize) < plan.steps.len() {
        plan.steps_of(t)
    } else {
        &[]
    }
}

/// The steps of the type.
fn own_steps_of<'t>(p: &TypePlan<'t>) -> &'t [PlanStep]
    ensures { result.now ≡ own_steps p.now }
{
    steps_at(p.plan, p.t)
}

/// Whether a visit up to step i brought the place.
fn came_by_visit(p: &TypePlan, i: usize, u: Place) -> bool
    requires ty { IsOfType p.now }
    requires step { i < length (own_steps p.now) }
    ensures { IsTrue result ↔ CameByVisit p.now i u }
{
    let steps = own_steps_of(p);
    match u {
        Place::Own(a) => was_taken_in(own_sets_of(p), leaves(steps, i) + 1, a),
        Place::Child(c, a) => was_given(child_sets_of(p, c), steps, i, c, a),
    }
}

/// Whether an equation at step i may use the place.
fn may_use(p: &TypePlan, i: usize, u: Place) -> bool
    requires ty { IsOfType p.now }
    requires step { i < length (own_steps p.now) }
    ensures { IsTrue result ↔ MayUse p.now i u }
{
    if evaluated_before(own_equations_of(p), own_steps_of(p), i, u) {
        return true;
    }
    came_by_visit(p, i, u)
}

/// Whether an equation at step i may use each of the places.
fn may_use_all(p: &TypePlan, i: usize, uses: &[Place]) -> bool
    requires ty { IsOfType p.now }
    requires step { i < length (own_steps p.now) }
    ensures { IsTrue result ↔ ((u : _) → Contains uses.now u → MayUse p.now i u) }
{
    for u in uses {
        if !may_use(p, i, *u) {
            return false;
        }
    }
    true
}

/// Whether step i may evaluate the equation.
fn may_evaluate(p: &TypePlan, i: usize, e: u32) -> bool
    requires ty { IsOfType p.now }
    requires step { i < length (own_steps p.now) }
    ensures { IsTrue result ↔ MayStep p.now i (Evaluate e) }
{
    let equations = own_equations_of(p);
    if e as usize >= equations.len() {
        return false;
    }
    let steps = own_steps_of(p);
    if was_evaluated(steps, i, e as usize) {
        return false;
    }
    may_use_all(p, i, equations[e as usize].uses.as_slice())
}

/// Whether step i may be this visit to the child.
fn may_visit(p: &TypePlan, i: usize, c: u32, v: u32) -> bool
    requires ty { IsOfType p.now }
    requires step { i < length (own_steps p.now) }
    ensures { IsTrue result ↔ MayStep p.now i (Visit c v) }
{
    let steps = own_steps_of(p);
    if c >= p.types.child_count(p.t) {
        return false;
    }
    let count = visits_to(steps, c, i);
    if v as usize != count + 1 {
        return false;
    }
    let sets = child_sets_of(p, c);
    let equations = own_equations_of(p);
    let part = taken_in(sets, v as usize);
    all_evaluated(equations, steps, i, Some(c), part)
}

/// Whether step i may end the visit.
fn may_leave(p: &TypePlan, i: usize) -> bool
    requires ty { IsOfType p.now }
    requires step { i < length (own_steps p.now) }
    ensures { IsTrue result ↔ MayStep p.now i Leave }
{
    let steps = own_steps_of(p);
    let sets = own_sets_of(p);
    let equations = own_equations_of(p);
    let count = leaves(steps, i);
    let part = given(sets, count + 1);
    all_evaluated(equations, steps, i, None, part)
}

/// Whether step i may stand there.
fn may_step(p: &TypePlan, i: usize) -> bool
    requires ty { IsOfType p.now }
    requires step { i < length (own_steps p.now) }
    ensures { IsTrue result ↔ ((st : _) → slice_get (own_steps p.now) i ≡ Some st
        → MayStep p.now i st) }
{
    let steps = own_steps_of(p);
    match step_at(steps, i) {
        PlanStep::Evaluate(e) => may_evaluate(p, i, e),
        PlanStep::Visit { child, visit } => may_visit(p, i, child, visit),
        PlanStep::Leave => may_leave(p, i),
    }
}

/// Whether each step may stand where it does.
fn may_all_step(p: &TypePlan) -> bool
    requires { IsOfType p.now }
    ensures { IsTrue result ↔ ((i : ℕ) (st : _) → slice_get (own_steps p.now) i ≡ Some st
        → MayStep p.now i st) }
{
    let steps = own_steps_of(p);
    for i in 0..steps.len() {
        if !may_step(p, i) {
            return false;
        }
    }
    true
}

/// Whether each equation of the type is evaluated.
fn are_all_evaluated(p: &TypePlan) -> bool
    ensures { IsTrue result ↔ ((e : ℕ) → e < length (own_equations p.now)
        → (i : ℕ) × (slice_get (own_steps p.now) i ≡ Some (Evaluate e))) }
{
    let steps = own_steps_of(p);
    let equations = own_equations_of(p);
    for e in 0..equations.len() {
        if !was_evaluated(steps, steps.len(), e) {
            return false;
        }
    }
    true
}

/// Whether each child is visited as often as its family's number.
fn are_all_visited(p: &TypePlan) -> bool
    requires { IsOfType p.now }
    ensures { IsTrue result ↔ ((c : ℕ) → c < child_total p.now
        → counted (is_visit c) (own_steps p.now) (length (own_steps p.now)) ≡ visit_count (below p.now c)) }
{
    let steps = own_steps_of(p);
    for c in 0..p.types.child_count(p.t) {
        if visits_to(steps, c, steps.len()) != visits(child_sets_of(p, c)) {
            return false;
        }
    }
    true
}

/// Whether the steps end as many visits as the family has.
fn ends_all_visits(p: &TypePlan) -> bool
    requires { IsOfType p.now }
    ensures { IsTrue result
        ↔ (counted is_leave (own_steps p.now) (length (own_steps p.now)) ≡ visit_count (own_sets p.now)) }
{
    let steps = own_steps_of(p);
    leaves(steps, steps.len()) == visits(own_sets_of(p))
}

/// Whether the steps of the type fit.
fn steps_fit(p: &TypePlan) -> bool
    requires { IsOfType p.now }
    ensures { IsTrue result ↔ FitsAt (g_of p.now) p.now.plan.now p.now.t }
{
    if !ends_all_visits(p) {
        return false;
    }
    let steps = own_steps_of(p);
    if !ends_in_leave(steps) {
        return false;
    }
    if !are_all_evaluated(p) {
        return false;
    }
    if !are_all_visited(p) {
        return false;
    }
    may_all_step(p)
}

/// The attributes of a family; none where it has no list of them.
fn attributes_at<'r>(a: &'r Attribution, x: u32) -> &'r [Attribute]
    ensures { result.now ≡ slice_index_or (attribute_rows a.now) x [] }
{
    if (x as usize) < a.attributes.len() {
        a.attributes_of(x)
    } else {
        &[]
    }
}

/// Whether the sets of each family fit.
fn all_sets_fit(types: &Types, a: &Attribution, plan: &Plan) -> bool
    ensures { IsTrue result ↔ ((x : ℕ) → x < length types.now.families
        → SetsFit (kinds_of (grammar_of types.now a.now) x) (sets_of plan.now x)) }
{
    for x in 0..types.families() {
        if !sets_fit(attributes_at(a, x), sets_at(plan, x)) {
            return false;
        }
    }
    true
}

/// Whether the steps of each type fit.
fn all_steps_fit(types: &Types, a: &Attribution, plan: &Plan) -> bool
    ensures { IsTrue result ↔ ((t : ℕ) → t < length types.now.types
        → FitsAt (grammar_of types.now a.now) plan.now t) }
{
    for t in 0..types.len() {
        let p = TypePlan {
            types: &*types,
            a: &*a,
            plan: &*plan,
            t,
        };
        if !steps_fit(&p) {
            return false;
        }
    }
    true
}

/// Whether the plan fits: in every tree each evaluation finds what it uses evaluated. It takes no
/// memory.
pub fn plan_fits(types: &Types, a: &Attribution, plan: &Plan) -> bool
    ensures { IsTrue result ↔ PlanFits (grammar_of types.now a.now) plan.now }
{
    if plan.sets.len() != types.families() as usize {
        return false;
    }
    if plan.steps.len() != types.len() as usize {
        return false;
    }
    if !all_sets_fit(types, a, plan) {
        return false;
    }
    all_steps_fit(types, a, plan)
}
