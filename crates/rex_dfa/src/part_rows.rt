// Rows of positions of one part of a rule: takers, follows, befores.
ghost use Rattle.std.specs.Prelude.{◌≡◌, ℕ, ◌+◌, ◌<◌, ◌≤◌, ◌^◌, ◌↔◌, IsTrue, All, IfOk, length};
ghost use Rattle.ck_base.specs.BitSet.{Has, Adds};
ghost use Rattle.rex_model.specs.Meaning.{meaning};
ghost use Rattle.rex_model.specs.Positions.{position_count, Takes, First, Follow};
ghost use Rattle.rex_model.specs.Sets.{marked, FirstBackwards, FollowBackwards};
ghost use Rattle.rex_dfa.specs.within.Rows.{AreRows};
ghost use Rattle.rex_dfa.specs.within.Positions.{ArePositions, HasAt};
ghost use Rattle.rex_dfa.specs.within.Walked.{IsTurned};

use crate::alike::alike_of;
use crate::positions::Positions;
use crate::walk::{Rows, blank, walk_part};
use ck_base::{Bits, NoMemory};
use rex_model::{Regex, positions};
use std::alloc::Global;

/// A table of positions, with the bytes that are alike.
pub(crate) fn positions_with(
    alloc: Global,
    size: u32,
    takers: Vec<Bits>,
    follows: Vec<Bits>,
) -> Result<Positions, NoMemory>
    requires few { size ≤ 4096 }
    requires takers { length takers.items ≡ 256 }
    requires taker_sizes { All (λ set. set.size ≡ size) takers.items }
    requires follows { length follows.items ≡ size }
    requires follow_sizes { All (λ set. set.size ≡ size) follows.items }
    ensures are { IfOk result ArePositions }
    ensures size { IfOk result (λ table. table.size ≡ size) }
    ensures takers { IfOk result (λ table. table.takers.items ≡ takers.items) }
    ensures follows { IfOk result (λ table. table.follows.items ≡ follows.items) }
{
    let alike = alike_of(alloc, takers.as_slice())?;
    Ok(Positions {
        size,
        takers,
        alike,
        follows,
    })
}

/// The rows of an expression with its end mark, and its first positions.
#[derive(Drop)]
pub(crate) struct MarkedRows {
    pub(crate) rows: Rows,
    pub(crate) first: Bits,
}

/// For each byte the positions of the expression that take it, for each position those that come
/// directly after it, and the first ones, with the end mark.
pub(crate) fn marked_rows(alloc: Global, r: &Regex, size: u32) -> Result<MarkedRows, NoMemory>
    requires { position_count (meaning r.now) + 1 ≡ size }
    ensures takers { IfOk result (λ own. AreRows size 256
        (λ byte p. Takes (marked (meaning r.now)) 0 p byte) own.rows.takers.items) }
    ensures follows { IfOk result (λ own. AreRows size size
        (Follow (marked (meaning r.now)) 0) own.rows.follows.items) }
    ensures size { IfOk result (λ own. own.first.size ≡ size) }
    ensures first { IfOk result (λ own. (q : ℕ) →
        Has own.first q ↔ First (marked (meaning r.now)) 0 q) }
{
    let mark = positions(r);
    let mut rows = blank(alloc, size)?;
    let mut first = Bits::new(alloc, size)?;
    first.add(mark);
    walk_part(alloc, r, mark, &mut first, &mut rows)?;
    Ok(MarkedRows { rows, first })
}

/// For each position those that come directly before it, and the end mark for a first one.
pub(crate) fn befores_of(
    alloc: Global,
    r: &Regex,
    follows: &[Bits],
    first: &Bits,
    size: u32,
) -> Result<Vec<Bits>, NoMemory>
    requires room { position_count (meaning r.now) + 1 ≡ size }
    requires follows { AreRows size size (Follow (marked (meaning r.now)) 0) follows.now }
    requires first { (p : ℕ) → Has first.now p ↔ First (marked (meaning r.now)) 0 p }
    ensures { IfOk result (λ sets. AreRows size size (FollowBackwards (meaning r.now)) sets.items) }
{
    let mut sets = Vec::new(alloc);
    for p in 0..positions(r) {
        let set = turned(alloc, r, follows, first, p, size)?;
        sets.push(set)?;
    }
    let none = Bits::new(alloc, size)?;
    sets.push(none)?;
    Ok(sets)
}

/// The positions after which `p` comes directly, and the end mark where `p` is a first one.
fn turned(
    alloc: Global,
    r: &Regex,
    follows: &[Bits],
    first: &Bits,
    p: u32,
    size: u32,
) -> Result<Bits, NoMemory>
    requires room { position_count (meaning r.now) + 1 ≡ size }
    requires follows { AreRows size size (Follow (marked (meaning r.now)) 0) follows.now }
    requires first { (p : ℕ) → Has first.now p ↔ First (marked (meaning r.now)) 0 p }
    ensures size { IfOk result (λ set. set.size ≡ size) }
    ensures has { IfOk result (λ set. (q : ℕ) → Has set q
        ↔ IsTurned (marked (meaning r.now)) (position_count (meaning r.now)) p q) }
{
    let mut set = Bits::new(alloc, size)?;
    add_befores(follows, p, &mut set);
    add_if(first.has(p), positions(r), &mut set);
    Ok(set)
}

/// Adds the positions after which `p` comes directly.
fn add_befores(follows: &[Bits], p: u32, to: &mut Bits)
    requires few { length follows.now ≡ to.old.size }
    requires fits { to.old.size < 2 ^ 32 }
    ensures { Adds to.old to.new (λ q. HasAt follows.now q p) }
{
    for (q, row) in follows.iter().enumerate() {
        add_if(row.has(p), q as u32, to);
    }
}

/// The positions with which a word may end, and the end mark for the empty word.
pub(crate) fn lasts_of(
    alloc: Global,
    r: &Regex,
    follows: &[Bits],
    first: &Bits,
    size: u32,
) -> Result<Bits, NoMemory>
    requires room { position_count (meaning r.now) + 1 ≡ size }
    requires follows { AreRows size size (Follow (marked (meaning r.now)) 0) follows.now }
    requires first { (p : ℕ) → Has first.now p ↔ First (marked (meaning r.now)) 0 p }
    ensures size { IfOk result (λ set. set.size ≡ size) }
    ensures has { IfOk result (λ set. (p : ℕ) → Has set p ↔ FirstBackwards (meaning r.now) p) }
{
    let set = turned(alloc, r, follows, first, positions(r), size)?;
    Ok(set)
}

/// Adds the number where the condition is true.
fn add_if(condition: bool, p: u32, to: &mut Bits)
    requires { p < to.old.size }
    ensures { Adds to.old to.new (λ q. IsTrue condition × (q ≡ p)) }
{
    if condition {
        to.add(p);
    }
}
