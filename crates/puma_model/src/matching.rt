ghost use Rattle.std.specs.Prelude.{◌≡◌, ℕ, ℤ, ◌+◌, ◌<◌, ◌≤◌, ◌^◌, ◌++◌, Some, None, IsTrue, ◌↔◌, MatchBool, length, slice_get};
ghost use Rattle.value_store.specs.declared.value.Value.TheVariants as value;
ghost use Rattle.puma_model.specs.declared.pattern.Pattern.TheVariants as form;
ghost use Rattle.value_store.specs.Cells.{cells_of};
ghost use Rattle.puma_model.specs.PurePatterns.{variable_count, variable_count_all, pattern, pure_patterns};
ghost use Rattle.puma_model.specs.Found.{scene_of, IsScene, MatchFound, HasNoMatch};
ghost use Rattle.puma_model.specs.Matches.{own};
ghost use Rattle.puma_model.specs.within.Matching.{Binds, OneOrNot, AllOrNot, Placed, AllPlaced};

use crate::bindings::{Bindings, value_at};
use crate::parts::{gather, own_type};
use crate::pattern::Pattern;
use crate::world::World;
use value_store::{Cells, Value};

/// Whether the patterns match the values one by one; the values of their variables are the first
/// ones of the bindings.
pub(crate) fn patterns_match(
    ps: &[Pattern],
    args: &[Value],
    world: &World,
    cells: &Cells,
    bindings: &mut Bindings,
) -> bool
    requires scene { IsScene (scene_of world.now) }
    requires placed { AllPlaced (scene_of world.now) (cells_of cells.now.units)
        (pure_patterns world.now.texts.source.now world.now.texts.literals.now ps.now) args.now }
    requires room { variable_count_all (pure_patterns world.now.texts.source.now
        world.now.texts.literals.now ps.now) ≤ length bindings.old }
    ensures size { length bindings.new ≡ length bindings.old }
    ensures found { MatchBool result
        (MatchFound (scene_of world.now) (cells_of cells.now.units)
        (pure_patterns world.now.texts.source.now world.now.texts.literals.now ps.now)
        args.now bindings.new)
        (HasNoMatch (scene_of world.now) (cells_of cells.now.units)
        (pure_patterns world.now.texts.source.now world.now.texts.literals.now ps.now)
        args.now) }
{
    match match_all(ps, args, world, cells, bindings, 0) {
        Some(_) => true,
        None => false,
    }
}

/// Whether the pattern matches the value: the values of its variables are put from place `at` on.
/// Gives the place behind them.
#[cycle(matching)]
fn match_one(
    p: &Pattern,
    v: Value,
    world: &World,
    cells: &Cells,
    bindings: &mut Bindings,
    at: usize,
) -> Option<usize>
    requires scene { IsScene (scene_of world.now) }
    requires placed { Placed (scene_of world.now) (cells_of cells.now.units)
        (pattern world.now.texts.source.now world.now.texts.literals.now p.now) v }
    requires room { at + variable_count (pattern world.now.texts.source.now
        world.now.texts.literals.now p.now) ≤ length bindings.old }
    ensures { OneOrNot (scene_of world.now) (cells_of cells.now.units)
        (pattern world.now.texts.source.now world.now.texts.literals.now p.now) v
        bindings.old bindings.new at result }
{
    match *p {
        Pattern::Any => Some(at),
        Pattern::Bind(_) => Some(bind_one(Some(0), v, bindings, at)),
        Pattern::Int(_) => match v {
            Value::Int(_) => place_if(int_is(p, &v), at),
            _ => None,
        },
        Pattern::Bool(wanted) => match v {
            Value::Bool(b) => place_if(same_bool(b, wanted), at),
            _ => None,
        },
        Pattern::Text(wanted) => match v {
            Value::Text(t) => {
                let bytes = world.texts.bytes(t);
                place_if(same_bytes(bytes, world.texts.bytes(wanted)), at)
            },
            _ => None,
        },
        Pattern::Tree { ty, bind, parts } => {
            let Some(own) = own_type(v, world, cells) else {
                return None;
            };
            if !world.types.is_a(own, ty) {
                return None;
            }
            let next = bind_one(bind, v, bindings, at);
            let mut values = [Value::Int(0); 16];
            let count = gather(v, ty, world, cells, &mut values);
            match_all(parts, &values[..count], world, cells, bindings, next)
        }
    }
}

/// Whether the patterns match the values one by one.
#[cycle(matching)]
fn match_all(
    ps: &[Pattern],
    vs: &[Value],
    world: &World,
    cells: &Cells,
    bindings: &mut Bindings,
    at: usize,
) -> Option<usize>
    requires scene { IsScene (scene_of world.now) }
    requires placed { AllPlaced (scene_of world.now) (cells_of cells.now.units)
        (pure_patterns world.now.texts.source.now world.now.texts.literals.now ps.now) vs.now }
    requires room { at + variable_count_all (pure_patterns world.now.texts.source.now
        world.now.texts.literals.now ps.now) ≤ length bindings.old }
    ensures { AllOrNot (scene_of world.now) (cells_of cells.now.units)
        (pure_patterns world.now.texts.source.now world.now.texts.literals.now ps.now) vs.now
        bindings.old bindings.new at result }
{
    let mut next = at;
    for i in 0..ps.len() {
        let p = pattern_at(ps, i);
        let v = value_at(vs, i);
        let Some(behind) = match_one(p, v, world, cells, bindings, next) else {
            return None;
        };
        next = behind;
    }
    Some(next)
}

/// Whether the value is the int of the pattern.
fn int_is(p: &Pattern, v: &Value) -> bool
    ensures { (z y : ℤ) → p.now ≡ form.Int z → v.now ≡ value.Int y → IsTrue result ↔ (y ≡ z) }
{
    match p {
        Pattern::Int(wanted) => match v {
            Value::Int(n) => same_int(n, wanted),
            _ => false,
        },
        _ => false,
    }
}

/// Whether the ints are the same.
fn same_int(a: &i64, b: &i64) -> bool
    ensures { IsTrue result ↔ (a.now ≡ b.now) }
{
    *a == *b
}

/// Whether the bools are the same.
fn same_bool(a: bool, b: bool) -> bool
    ensures { IsTrue result ↔ (a ≡ b) }
{
    a == b
}

/// Whether the bytes are the same.
fn same_bytes(a: &[u8], b: &[u8]) -> bool
    ensures { IsTrue result ↔ (a.now ≡ b.now) }
{
    a == b
}

/// The place, where the test is true.
fn place_if(test: bool, at: usize) -> Option<usize>
    ensures { MatchBool test (result ≡ Some at) (result ≡ None) }
{
    if test { Some(at) } else { None }
}

/// Puts the value at the place, if there is a variable for it. Gives the place behind.
fn bind_one(bind: Option<u32>, v: Value, bindings: &mut Bindings, at: usize) -> usize
    requires room { at + length (own bind v) ≤ length bindings.old }
    ensures { Binds bindings.old bindings.new at result (own bind v) }
{
    match bind {
        Some(_) => {
            bindings.put(at, v);
            at + 1
        }
        None => at,
    }
}

/// The pattern at a place that there is.
fn pattern_at<'p, 'a>(ps: &'p [Pattern<'a>], i: usize) -> &'p Pattern<'a>
    requires { i < length ps.now }
    ensures { slice_get ps.now i ≡ Some result.now }
{
    &ps[i]
}
