// Single steps of a plan: what they evaluate, visit and give.
ghost use Rattle.std.specs.Prelude.{◌≡◌, ℕ, ◌+◌, ◌-◌, ◌*◌, ◌<◌, ◌≤◌, ◌^◌, ◌↔◌, [], length, map, IsTrue, Some, slice_get, Contains};
ghost use Rattle.ag_model.specs.Attribution.{equation_of};
ghost use Rattle.ag_model.specs.Plans.{counted, one_if, is_leave, is_visit, visit_count, TakesIn, Gives, Evaluates, EvaluatedBefore, lists};
ghost use Rattle.ag_model.specs.within.StepFits.{place_in};
ghost use Rattle.ag_model.specs.declared.attribution.Place.TheVariants.{Own, Child};
ghost use Rattle.ag_model.specs.declared.plan.PlanStep.TheVariants.{Evaluate, Visit, Leave};

use crate::attribution::{Equation, Place};
use crate::plan::PlanStep;
use crate::sets::{is_in, set_at};

/// Whether the places are the same.
pub fn is_same(u: Place, w: Place) -> bool
    ensures { IsTrue result ↔ (u ≡ w) }
{
    match u {
        Place::Own(a) => match w {
            Place::Own(b) => a == b,
            Place::Child(_, _) => false,
        },
        Place::Child(c, a) => match w {
            Place::Own(_) => false,
            Place::Child(d, b) => c == d && a == b,
        },
    }
}

/// How many visits there are by the sets.
pub(crate) fn visits(sets: &[Vec<u32>]) -> usize
    ensures is { result ≡ visit_count (lists sets.now) }
    ensures small { result < 2 ^ 61 }
{
    ((sets.len() + 1) / 2).max(1)
}

/// The attributes that visit v takes in.
pub(crate) fn taken_in(sets: &[Vec<u32>], v: usize) -> &[u32]
    ensures { (a : ℕ) → Contains result.now a ↔ TakesIn (lists sets.now) v a }
{
    let count = visits(sets);
    if v == 0 {
        return &[];
    }
    if v > count {
        return &[];
    }
    set_at(sets, 2 * (count - v) + 1)
}

/// The attributes that visit v gives.
pub(crate) fn given(sets: &[Vec<u32>], v: usize) -> &[u32]
    ensures { (a : ℕ) → Contains result.now a ↔ Gives (lists sets.now) v a }
{
    let count = visits(sets);
    if v == 0 {
        return &[];
    }
    if v > count {
        return &[];
    }
    set_at(sets, 2 * (count - v))
}

/// The step at a place that there is.
pub(crate) fn step_at(steps: &[PlanStep], i: usize) -> PlanStep
    requires { i < length steps.now }
    ensures { slice_get steps.now i ≡ Some result }
{
    steps[i]
}

/// Whether a step evaluates an equation of the place.
fn evaluates(equations: &[Equation], steps: &[PlanStep], i: usize, place: Place) -> bool
    requires { i < length steps.now }
    ensures { IsTrue result ↔ Evaluates (map equation_of equations.now) steps.now i place }
{
    match step_at(steps, i) {
        PlanStep::Evaluate(e) => gives_place(equations, e, place),
        _ => false,
    }
}

/// Whether there is such an equation, and it gives the place.
fn gives_place(equations: &[Equation], e: u32, place: Place) -> bool
    ensures { IsTrue result ↔ ((q : _) × (slice_get (map equation_of equations.now) e ≡ Some q)
        × (q.target ≡ place)) }
{
    if (e as usize) < equations.len() {
        let equation = &equations[e as usize];
        is_same(equation.target, place)
    } else {
        false
    }
}

/// Whether a step before step i evaluates an equation of the place.
pub(crate) fn evaluated_before(
    equations: &[Equation],
    steps: &[PlanStep],
    i: usize,
    place: Place,
) -> bool
    requires { i ≤ length steps.now }
    ensures { IsTrue result ↔ EvaluatedBefore (map equation_of equations.now) steps.now i place }
{
    for j in 0..i {
        if evaluates(equations, steps, j, place) {
            return true;
        }
    }
    false
}

/// Whether a step before step i evaluates equation e.
pub(crate) fn was_evaluated(steps: &[PlanStep], i: usize, e: usize) -> bool
    requires { i ≤ length steps.now }
    ensures { IsTrue result ↔ ((j : ℕ) × (j < i) × (slice_get steps.now j ≡ Some (Evaluate e))) }
{
    for j in 0..i {
        if is_evaluation(step_at(steps, j), e) {
            return true;
        }
    }
    false
}

/// Whether the step evaluates equation e.
fn is_evaluation(step: PlanStep, e: usize) -> bool
    ensures { IsTrue result ↔ (step ≡ Evaluate e) }
{
    match step {
        PlanStep::Evaluate(f) => f as usize == e,
        _ => false,
    }
}

/// How many of the first i steps end a visit.
pub(crate) fn leaves(steps: &[PlanStep], i: usize) -> usize
    requires { i ≤ length steps.now }
    ensures is { result ≡ counted is_leave steps.now i }
    ensures most { result ≤ i }
{
    let mut count: usize = 0;
    for j in 0..i {
        count += leave_in(step_at(steps, j));
    }
    count
}

/// 1 where the step ends a visit, else 0.
fn leave_in(step: PlanStep) -> usize
    ensures is { result ≡ one_if (is_leave step) }
    ensures most { result ≤ 1 }
{
    match step {
        PlanStep::Leave => 1,
        _ => 0,
    }
}

/// Whether there is a last step, and it ends a visit.
pub(crate) fn ends_in_leave(steps: &[PlanStep]) -> bool
    ensures { IsTrue result ↔ (slice_get steps.now (length steps.now - 1) ≡ Some Leave) }
{
    if steps.is_empty() {
        return false;
    }
    leave_in(step_at(steps, steps.len() - 1)) == 1
}

/// How many of the first i steps visit the child.
pub(crate) fn visits_to(steps: &[PlanStep], c: u32, i: usize) -> usize
    requires { i ≤ length steps.now }
    ensures is { result ≡ counted (is_visit c) steps.now i }
    ensures most { result ≤ i }
{
    let mut count: usize = 0;
    for j in 0..i {
        count += visit_in(step_at(steps, j), c);
    }
    count
}

/// 1 where the step visits the child, else 0.
fn visit_in(step: PlanStep, c: u32) -> usize
    ensures is { result ≡ one_if (is_visit c step) }
    ensures most { result ≤ 1 }
{
    match step {
        PlanStep::Visit { child, visit: _ } => (child == c) as usize,
        _ => 0,
    }
}

/// Whether one of the first `most` visits takes the attribute in.
pub(crate) fn was_taken_in(sets: &[Vec<u32>], most: usize, a: u32) -> bool
    requires { most < 2 ^ 63 }
    ensures { IsTrue result ↔ ((v : ℕ) × (v ≤ most) × TakesIn (lists sets.now) v a) }
{
    for v in 0..most + 1 {
        if is_in(taken_in(sets, v), a as usize) {
            return true;
        }
    }
    false
}

/// Whether the step is a visit to the child that gives the attribute, by these sets of its family.
fn gives(sets: &[Vec<u32>], step: PlanStep, c: u32, a: u32) -> bool
    ensures { IsTrue result ↔ ((v : ℕ) × (step ≡ Visit c v) × Gives (lists sets.now) v a) }
{
    match step {
        PlanStep::Visit { child, visit } => {
            child == c && is_in(given(sets, visit as usize), a as usize)
        }
        _ => false,
    }
}

/// Whether a visit to the child before step i gives the attribute, by these sets of its family.
pub(crate) fn was_given(sets: &[Vec<u32>], steps: &[PlanStep], i: usize, c: u32, a: u32) -> bool
    requires { i ≤ length steps.now }
    ensures { IsTrue result ↔ ((j : ℕ) × (v : ℕ) × (j < i) × (slice_get steps.now j ≡ Some (Visit c v))
        × Gives (lists sets.now) v a) }
{
    for j in 0..i {
        if gives(sets, step_at(steps, j), c, a) {
            return true;
        }
    }
    false
}

/// The place of an attribute of the node itself, or of its child of this number.
fn place_of(child: Option<u32>, a: u32) -> Place
    ensures { result ≡ place_in child a }
{
    match child {
        None => Place::Own(a),
        Some(c) => Place::Child(c, a),
    }
}

/// Whether each attribute of the part was evaluated before step i, at the node or at its child.
pub(crate) fn all_evaluated(
    equations: &[Equation],
    steps: &[PlanStep],
    i: usize,
    child: Option<u32>,
    part: &[u32],
) -> bool
    requires { i ≤ length steps.now }
    ensures { IsTrue result ↔ ((a : ℕ) → Contains part.now a
        → EvaluatedBefore (map equation_of equations.now) steps.now i (place_in child a)) }
{
    for a in part {
        if !evaluated_before(equations, steps, i, place_of(child, *a)) {
            return false;
        }
    }
    true
}
