// One walk over expressions: which positions take a byte, and what comes directly after each.
ghost use Rattle.std.specs.Prelude.{◌≡◌, ℕ, ◌+◌, ◌^◌, ◌<◌, ◌≤◌, ◌⊎◌, ◌↔◌, IfOk, length, map};
ghost use Rattle.ck_base.specs.BitSet.{Has, Adds};
ghost use Rattle.rex_model.specs.Language.{star, plus};
ghost use Rattle.rex_model.specs.Meaning.{meaning, sequence_of, alternative_of};
ghost use Rattle.rex_model.specs.Positions.{position_count, Takes, First};
ghost use Rattle.rex_dfa.specs.within.Rows.{AreRows};
ghost use Rattle.rex_dfa.specs.within.Walked.{row, Fills, HasRoom, Leads, Begins, IsWalked, IsPassed};

use ck_base::{Bits, NoMemory};
use rex_model::{Regex, add_first, add_takers, follow, nullable, positions};
use std::alloc::Global;

/// For each byte the positions that take it, and for each position those that come directly after
/// it.
#[derive(Drop)]
pub(crate) struct Rows {
    pub(crate) takers: Vec<Bits>,
    pub(crate) follows: Vec<Bits>,
}

/// Rows without positions, with room for so many.
pub(crate) fn blank(alloc: Global, size: u32) -> Result<Rows, NoMemory>
    ensures takers { IfOk result (λ rows. AreRows size 256 (λ _ _. ⊥) rows.takers.items) }
    ensures follows { IfOk result (λ rows. AreRows size size (λ _ _. ⊥) rows.follows.items) }
{
    let takers = blanks(alloc, 256, size)?;
    let follows = blanks(alloc, size, size)?;
    Ok(Rows { takers, follows })
}

/// So many empty sets of numbers below the size.
pub(crate) fn blanks(alloc: Global, count: u32, size: u32) -> Result<Vec<Bits>, NoMemory>
    ensures { IfOk result (λ sets. AreRows size count (λ _ _. ⊥) sets.items) }
{
    let mut sets = Vec::new(alloc);
    for _ in 0..count {
        let set = Bits::new(alloc, size)?;
        sets.push(set)?;
    }
    Ok(sets)
}

/// Puts the positions of an expression into the rows. Its last one is the one before `end`, and after
/// its words come the positions of `next`, which then has those that come first from the expression
/// on. The answer is the number of the expression's first position.
#[cycle(walk)]
pub(crate) fn walk_part(
    alloc: Global,
    part: &Regex,
    end: u32,
    next: &mut Bits,
    rows: &mut Rows,
) -> Result<u32, NoMemory>
    requires fits { position_count (meaning part.now) ≤ end }
    requires inside { end ≤ next.old.size }
    requires small { next.old.size < 2 ^ 32 }
    requires room { HasRoom next.old.size rows.old }
    ensures walked { IfOk result
        (IsWalked (meaning part.now) end (Has next.old) rows.old rows.new) }
    ensures passed { IfOk result (λ k.
        IsPassed (meaning part.now) k (Has next.old) next.old.size next.new) }
{
    let k = walk(alloc, part, end, next, rows)?;
    pass(part, k, next);
    Ok(k)
}

/// Makes of the positions that come after the expression those that come first from it on.
fn pass(r: &Regex, k: u32, next: &mut Bits)
    requires room { k + position_count (meaning r.now) ≤ next.old.size }
    requires fits { next.old.size < 2 ^ 32 }
    ensures { IsPassed (meaning r.now) k (Has next.old) next.old.size next.new }
{
    if nullable(r) {
        add_first(r, k, next);
        return;
    }
    next.clear();
    add_first(r, k, next);
}

/// Puts the positions of an expression into the rows, where those of `after` come after its words.
#[cycle(walk)]
fn walk(alloc: Global, r: &Regex, end: u32, after: &Bits, rows: &mut Rows) -> Result<u32, NoMemory>
    requires fits { position_count (meaning r.now) ≤ end }
    requires inside { end ≤ after.now.size }
    requires small { after.now.size < 2 ^ 32 }
    requires room { HasRoom after.now.size rows.old }
    ensures { IfOk result (IsWalked (meaning r.now) end (Has after.now) rows.old rows.new) }
{
    match r {
        Regex::Bytes(_) | Regex::Class(_) => Ok(walk_leaf(r, end, after, rows)),
        Regex::Seq(parts) => walk_sequence(alloc, parts, end, after, rows),
        Regex::Alt(parts) => walk_alternatives(alloc, parts, end, after, rows),
        Regex::Star(part) => walk_round(alloc, part, end, after, rows),
        Regex::Plus(part) => walk_round(alloc, part, end, after, rows),
        Regex::Opt(part) => walk(alloc, part, end, after, rows),
    }
}

/// The same for parts that stand one after the other, from the last one on.
#[cycle(walk)]
fn walk_sequence(
    alloc: Global,
    parts: &[Regex],
    end: u32,
    after: &Bits,
    rows: &mut Rows,
) -> Result<u32, NoMemory>
    requires fits { position_count (sequence_of (map meaning parts.now)) ≤ end }
    requires inside { end ≤ after.now.size }
    requires small { after.now.size < 2 ^ 32 }
    requires room { HasRoom after.now.size rows.old }
    ensures { IfOk result
        (IsWalked (sequence_of (map meaning parts.now)) end (Has after.now) rows.old rows.new) }
{
    let mut next = copied(alloc, after)?;
    let mut at = end;
    for i in (0..parts.len()).rev() {
        at = walk_part(alloc, &parts[i], at, &mut next, rows)?;
    }
    Ok(at)
}

/// The same for alternatives.
#[cycle(walk)]
fn walk_alternatives(
    alloc: Global,
    parts: &[Regex],
    end: u32,
    after: &Bits,
    rows: &mut Rows,
) -> Result<u32, NoMemory>
    requires fits { position_count (alternative_of (map meaning parts.now)) ≤ end }
    requires inside { end ≤ after.now.size }
    requires small { after.now.size < 2 ^ 32 }
    requires room { HasRoom after.now.size rows.old }
    ensures { IfOk result
        (IsWalked (alternative_of (map meaning parts.now)) end (Has after.now) rows.old rows.new) }
{
    let mut at = end;
    for i in (0..parts.len()).rev() {
        at = walk(alloc, &parts[i], at, after, rows)?;
    }
    Ok(at)
}

/// The same for a part that may come again.
#[cycle(walk)]
fn walk_round(
    alloc: Global,
    part: &Regex,
    end: u32,
    after: &Bits,
    rows: &mut Rows,
) -> Result<u32, NoMemory>
    requires fits { position_count (meaning part.now) ≤ end }
    requires inside { end ≤ after.now.size }
    requires small { after.now.size < 2 ^ 32 }
    requires room { HasRoom after.now.size rows.old }
    ensures star { IfOk result
        (IsWalked (star (meaning part.now)) end (Has after.now) rows.old rows.new) }
    ensures plus { IfOk result
        (IsWalked (plus (meaning part.now)) end (Has after.now) rows.old rows.new) }
{
    let mut again = copied(alloc, after)?;
    let k = end - positions(part);
    add_first(part, k, &mut again);
    let first = walk(alloc, part, end, &again, rows)?;
    Ok(first)
}

/// A set of the same numbers.
fn copied(alloc: Global, set: &Bits) -> Result<Bits, NoMemory>
    ensures size { IfOk result (λ copy. copy.size ≡ set.now.size) }
    ensures has { IfOk result (λ copy. (q : ℕ) → Has copy q ↔ Has set.now q) }
{
    let mut copy = Bits::new(alloc, set.size())?;
    copy.join(set);
    Ok(copy)
}

/// The same position by position, for an expression that is a string or a class.
fn walk_leaf(r: &Regex, end: u32, after: &Bits, rows: &mut Rows) -> u32
    requires fits { position_count (meaning r.now) ≤ end }
    requires inside { end ≤ after.now.size }
    requires small { after.now.size < 2 ^ 32 }
    requires room { HasRoom after.now.size rows.old }
    ensures { IsWalked (meaning r.now) end (Has after.now) rows.old rows.new result }
{
    let k = end - positions(r);
    if k == end {
        return end;
    }
    take_each(r, k, &mut rows.takers);
    lead_each(r, k, end, after, &mut rows.follows);
    k
}

/// For each byte puts in the positions that take it.
fn take_each(r: &Regex, k: u32, takers: &mut Vec<Bits>)
    requires bytes { length takers.old.items ≡ 256 }
    requires room { (i : ℕ) → i < 256
        → k + position_count (meaning r.now) ≤ (row takers.old.items i).size }
    requires small { (i : ℕ) → i < 256 → (row takers.old.items i).size < 2 ^ 32 }
    ensures { Fills takers.old.items takers.new.items (λ byte p. Takes (meaning r.now) k p byte) }
{
    for byte in 0..256usize {
        add_takers(r, k, byte as u8, &mut takers[byte]);
    }
}

/// For each position of the expression puts in those that come directly after it.
fn lead_each(r: &Regex, k: u32, end: u32, after: &Bits, follows: &mut Vec<Bits>)
    requires past { k + position_count (meaning r.now) ≡ end }
    requires room { end ≤ length follows.old.items }
    requires inside { end ≤ after.now.size }
    requires small { after.now.size < 2 ^ 32 }
    requires sizes { (i : ℕ) → i < length follows.old.items
        → (row follows.old.items i).size ≡ after.now.size }
    ensures { Fills follows.old.items follows.new.items
        (Leads (meaning r.now) k (Has after.now)) }
{
    for p in k..end {
        lead(r, k, p, after, &mut follows[p as usize]);
    }
}

/// Puts in the positions that come directly after position `p`.
fn lead(r: &Regex, k: u32, p: u32, after: &Bits, to: &mut Bits)
    requires room { k + position_count (meaning r.now) ≤ to.old.size }
    requires small { to.old.size < 2 ^ 32 }
    requires size { to.old.size ≡ after.now.size }
    ensures { Adds to.old to.new (Leads (meaning r.now) k (Has after.now) p) }
{
    if follow(r, k, p, to) {
        to.join(after);
    }
}
