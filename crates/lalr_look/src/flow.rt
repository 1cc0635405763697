// Sets of tokens handed on along the edges of a graph until nothing changes.
ghost use Rattle.std.specs.Prelude.{◌≡◌, ℕ, ◌<◌, ◌≤◌, ◌+◌, ◌^◌, ◌↔◌, All, Contains, length, OnOk, IfOk};
ghost use Rattle.ck_base.specs.BitSet.{Has};
ghost use Rattle.lalr_look.specs.within.Flow.{JoinedAt, Sent, Edge, Flows, set_at};
ghost use Rattle.lalr_look.specs.within.Rows.{rows_of};

use ck_base::{Bits, NoMemory};
use std::alloc::Global;

/// Joins the set at `from` to the one at `to`; whether it grew.
pub fn join_at(sets: &mut [Bits], from: usize, to: usize) -> bool
    requires inside { (from < length sets.old) × (to < length sets.old) }
    requires differ { from ≡ to → ⊥ }
    requires sizes { (size : ℕ) × All (λ set. set.size ≡ size) sets.old }
    ensures { JoinedAt sets.old sets.new from to result }
{
    if from < to {
        let (low, high) = sets.split_at_mut(to);
        high[0].join(&low[from])
    } else {
        let (low, high) = sets.split_at_mut(from);
        low[to].join(&high[0])
    }
}

/// Lets the numbers of `n` flow to `m`, which is to be worked on where it grew.
fn send(sets: &mut [Bits], work: &mut Vec<u32>, n: u32, m: u32) -> Result<(), NoMemory>
    requires inside { (n < length sets.old) × (m < length sets.old) }
    requires sizes { (size : ℕ) × All (λ set. set.size ≡ size) sets.old }
    ensures { OnOk result (Sent sets.old sets.new work.old.items work.new.items n m) }
{
    if n != m && join_at(sets, n as usize, m as usize) {
        work.push(m)?;
    }
    Ok(())
}

/// Lets all numbers flow along the edges, until no set grows any more.
pub fn spread(alloc: Global, edges: &Vec<Vec<u32>>, sets: &mut [Bits]) -> Result<(), NoMemory>
    requires nodes { length edges.now.items ≡ length sets.old }
    requires few { length sets.old < 2 ^ 32 }
    requires ends { (n m : ℕ) → Edge (rows_of edges.now.items) n m → m < length sets.old }
    requires sizes { (size : ℕ) × All (λ set. set.size ≡ size) sets.old }
    ensures flows { OnOk result ((n a : ℕ) → Has (set_at sets.new n) a ↔ Flows
        (rows_of edges.now.items) sets.old n a) }
    ensures long { OnOk result (length sets.new ≡ length sets.old) }
    ensures sizes { OnOk result ((size : ℕ) → All (λ set. set.size ≡ size) sets.old
        → All (λ set. set.size ≡ size) sets.new) }
{
    let count = sets.len() as u32;
    let mut work = all_below(alloc, count)?;
    while let Some(n) = work.pop() {
        let next = &edges[n as usize];
        for i in 0..next.len() {
            send(sets, &mut work, n, next[i])?;
        }
    }
    Ok(())
}

/// All numbers below `count`, with the least at the end: numbers mostly flow from lower nodes to higher
/// ones.
fn all_below(alloc: Global, count: u32) -> Result<Vec<u32>, NoMemory>
    ensures { IfOk result (λ work. (k : ℕ) → Contains work.items k ↔ (k < count)) }
{
    let mut work = Vec::new(alloc);
    for turn in 0..count {
        work.push(count - turn - 1)?;
    }
    Ok(work)
}

/// For each number the set that has it alone.
pub fn own_sets(alloc: Global, n: u32) -> Result<Vec<Bits>, NoMemory>
    ensures long { IfOk result (λ sets. length sets.items ≡ n) }
    ensures sizes { IfOk result (λ sets. All (λ set. set.size ≡ n) sets.items) }
    ensures own { IfOk result (λ sets. (m a : ℕ)
        → Has (set_at sets.items m) a ↔ ((m < n) × (a ≡ m))) }
{
    let mut sets = Vec::new(alloc);
    for m in 0..n {
        let mut set = Bits::new(alloc, n)?;
        set.add(m);
        sets.push(set)?;
    }
    Ok(sets)
}
