// Whether the sets of a family fit.
ghost use Rattle.std.specs.Prelude.{◌≡◌, ℕ, ◌<◌, ◌≤◌, ◌↔◌, [], length, IsTrue, Some, slice_get, slice_index_or, Contains};
ghost use Rattle.ag_model.specs.Attribution.{kinds_in};
ghost use Rattle.ag_model.specs.Parts.{is_odd};
ghost use Rattle.ag_model.specs.Plans.{SetsFit, lists};
ghost use Rattle.ag_model.specs.within.FitsByPlace.{PlaceFits, PartFits, IsInSome};

use crate::attribution::Attribute;

/// Whether the number is in the part.
pub fn is_in(part: &[u32], a: usize) -> bool
    ensures { IsTrue result ↔ Contains part.now a }
{
    for b in part {
        if *b as usize == a {
            return true;
        }
    }
    false
}

/// The set at a place; none where there is no such place.
pub(crate) fn set_at(sets: &[Vec<u32>], i: usize) -> &[u32]
    ensures { result.now ≡ slice_index_or (lists sets.now) i [] }
{
    if i < sets.len() {
        sets[i].as_slice()
    } else {
        &[]
    }
}

/// Whether some set before that at place `end` has the attribute.
fn is_in_some(sets: &[Vec<u32>], end: usize, a: usize) -> bool
    ensures { IsTrue result ↔ IsInSome (lists sets.now) end a }
{
    for k in 0..end {
        if is_in(set_at(sets, k), a) {
            return true;
        }
    }
    false
}

/// Whether one of the first i numbers of the part is this one.
fn is_before(part: &[u32], i: usize, a: u32) -> bool
    requires { i ≤ length part.now }
    ensures { IsTrue result ↔ ((j : ℕ) × (j < i) × (slice_get part.now j ≡ Some a)) }
{
    for j in 0..i {
        if part[j] == a {
            return true;
        }
    }
    false
}

/// Whether the attribute is there, and synthesized as said.
fn has_kind(attributes: &[Attribute], a: u32, synthesized: bool) -> bool
    ensures { IsTrue result ↔ (slice_get (kinds_in attributes.now) a ≡ Some synthesized) }
{
    if (a as usize) < attributes.len() {
        attributes[a as usize].synthesized == synthesized
    } else {
        false
    }
}

/// Whether the number is odd.
fn odd(k: usize) -> bool
    ensures { result ≡ is_odd k }
{
    k % 2 == 1
}

/// Whether the attribute at a place of the sets is of its part's kind, and stands at no place before.
fn place_fits(attributes: &[Attribute], sets: &[Vec<u32>], k: usize, i: usize, a: u32) -> bool
    requires part { k < length sets.now }
    requires place { i ≤ length (slice_index_or (lists sets.now) k []) }
    ensures { IsTrue result ↔ PlaceFits (kinds_in attributes.now) (lists sets.now) k i a }
{
    if !has_kind(attributes, a, odd(k + 1)) {
        return false;
    }
    if is_in_some(sets, k, a as usize) {
        return false;
    }
    !is_before(set_at(sets, k), i, a)
}

/// Whether each place of a set fits.
fn part_fits(attributes: &[Attribute], sets: &[Vec<u32>], k: usize) -> bool
    requires { k < length sets.now }
    ensures { IsTrue result ↔ PartFits (kinds_in attributes.now) (lists sets.now) k }
{
    let part = set_at(sets, k);
    for i in 0..part.len() {
        if !place_fits(attributes, sets, k, i, part[i]) {
            return false;
        }
    }
    true
}

/// Whether each place of each set fits.
fn parts_fit(attributes: &[Attribute], sets: &[Vec<u32>]) -> bool
    ensures { IsTrue result ↔ ((k : ℕ) → k < length (lists sets.now)
        → PartFits (kinds_in attributes.now) (lists sets.now) k) }
{
    for k in 0..sets.len() {
        if !part_fits(attributes, sets, k) {
            return false;
        }
    }
    true
}

/// Whether the first `end` attributes are in some set.
fn all_placed(sets: &[Vec<u32>], end: usize) -> bool
    ensures { IsTrue result ↔ ((a : ℕ) → a < end → IsInSome (lists sets.now) (length (lists sets.now)) a) }
{
    for a in 0..end {
        if !is_in_some(sets, sets.len(), a) {
            return false;
        }
    }
    true
}

/// Whether the sets of a family with these attributes fit.
pub(crate) fn sets_fit(attributes: &[Attribute], sets: &[Vec<u32>]) -> bool
    ensures { IsTrue result ↔ SetsFit (kinds_in attributes.now) (lists sets.now) }
{
    if !all_placed(sets, attributes.len()) {
        return false;
    }
    parts_fit(attributes, sets)
}
