// Relations between the numbers below a size: pairs, the transitive closure, a cycle, an order.
ghost use Rattle.std.specs.Prelude.{◌≡◌, ℕ, ◌<◌, ◌≤◌, ◌↔◌, length, IsTrue, IfOk, MatchOption, Contains};
ghost use Rattle.ck_base.specs.BitSet.{BitSet, Has, IsEmpty};
ghost use Rattle.ck_base.specs.Pairs.{Pairs, Relates, row_of, IsClosure, AddsPair, IsClosed, HasNoCycle, IsFirstCycle, IsLeastFirst};
ghost use Rattle.ck_base.specs.within.PairSteps.{JoinsIf, GoesThrough, IsBlocked, BlocksBy};

use crate::bits::Bits;
use std::alloc::Global;
use std::marker::Model;
use std::mem;
use value_store::NoMemory;

/// A relation between the numbers below its size.
#[derive(Drop)]
pub struct Relation {
    alloc: Global,
    size: u32,
    rows: Vec<Bits>,
}

impl Model for Relation {
    ghost use Rattle.ck_base.specs.Pairs.{Pairs, IsSquare};

    ghost Value = { Pairs };

    ghost view = { λ relation. record { size = relation.size; rows = relation.rows.items } };

    ghost invariant = { λ relation. IsSquare relation.size relation.rows.items };
}

impl Relation {
    /// The relation without pairs between the numbers below `n`.
    pub fn new(alloc: Global, n: u32) -> Result<Relation, NoMemory>
        ensures size { IfOk result (λ relation. relation.size ≡ n) }
        ensures empty { IfOk result (λ relation. (a b : ℕ) → Relates relation a b → ⊥) }
    {
        let mut rows = Vec::new(alloc);
        for _row in 0..n {
            rows.push(Bits::new(alloc, n)?)?;
        }
        Ok(Relation {
            alloc,
            size: n,
            rows,
        })
    }

    /// The numbers are those below this one.
    pub fn size(&self) -> u32
        ensures { result ≡ self.now.size }
    {
        self.size
    }

    /// Puts the pair in, and says whether it is new.
    pub fn add(&mut self, a: u32, b: u32) -> bool
        requires first { a < self.old.size }
        requires second { b < self.old.size }
        ensures added { AddsPair self.old self.new a b }
        ensures new { IsTrue result ↔ (Relates self.old a b → ⊥) }
    {
        let row = &mut self.rows[a as usize];
        let known = row.has(b);
        row.add(b);
        !known
    }

    /// Whether a is related to b; no number at or past the size is.
    pub fn has(&self, a: u32, b: u32) -> bool
        ensures { IsTrue result ↔ Relates self.now a b }
    {
        a < self.size && self.rows[a as usize].has(b)
    }

    /// Makes the relation its transitive closure.
    pub fn close(&mut self)
        ensures { IsClosure self.old self.new }
    {
        for k in 0..self.size {
            self.close_through(k);
        }
    }

    /// The least number that is related to itself.
    pub fn first_cycle(&self) -> Option<u32>
        ensures { MatchOption result (HasNoCycle self.now) (λ a. IsFirstCycle self.now a) }
    {
        for a in 0..self.size {
            if self.has(a, a) {
                return Some(a);
            }
        }
        None
    }

    /// An order in which a stands before b for each pair, the least free number first.
    pub fn order(&self) -> Result<Vec<u32>, NoMemory>
        requires closed { IsClosed self.now }
        requires free { HasNoCycle self.now }
        ensures order { IfOk result (λ order. IsLeastFirst self.now order.items) }
        ensures each { IfOk result (λ order. (x : ℕ) → x < self.now.size → Contains order.items x) }
    {
        let mut order = Vec::new(self.alloc);
        let mut placed = Bits::new(self.alloc, self.size)?;
        let mut blocked = Bits::new(self.alloc, self.size)?;
        for _turn in 0..self.size {
            self.block(&placed, &mut blocked);
            let next = least_outside(&placed, &blocked);
            order.push(next)?;
            placed.add(next);
        }
        Ok(order)
    }

    /// Makes `blocked` the numbers that some number outside `placed` is related to.
    fn block(&self, placed: &Bits, blocked: &mut Bits)
        requires { blocked.old.size ≡ self.now.size }
        ensures size { blocked.new.size ≡ blocked.old.size }
        ensures only { (b : ℕ) → Has blocked.new b → IsBlocked self.now placed.now b }
        ensures all { (a b : ℕ) → (Has placed.now a → ⊥) → Relates self.now a b
            → Has blocked.new b }
    {
        blocked.clear();
        for a in 0..self.size {
            self.block_by(a, placed, blocked);
        }
    }

    /// Puts in what a is related to, where a is outside `placed`.
    fn block_by(&self, a: u32, placed: &Bits, blocked: &mut Bits)
        requires below { a < self.now.size }
        requires same { blocked.old.size ≡ self.now.size }
        ensures { BlocksBy self.now placed.now blocked.old blocked.new a }
    {
        if !placed.has(a) {
            blocked.join(&self.rows[a as usize]);
        }
    }

    /// Puts the steps through k in.
    fn close_through(&mut self, k: u32)
        requires { k < self.old.size }
        ensures { GoesThrough self.old self.new k }
    {
        let row = mem::replace(&mut self.rows[k as usize], Bits::none(self.alloc));
        join_where(&mut self.rows, k, &row);
        self.rows[k as usize] = row;
    }
}

/// Joins the row to each of the rows that have k.
fn join_where(rows: &mut [Bits], k: u32, row: &Bits)
    requires { (i : ℕ) → Has (row_of rows.old i) k → (row_of rows.old i).size ≡ row.now.size }
    ensures length_kept { length rows.new ≡ length rows.old }
    ensures joined { (i : ℕ) → i < length rows.old
        → JoinsIf (row_of rows.old i) (row_of rows.new i) k row.now }
{
    for each in rows.iter_mut() {
        if each.has(k) {
            each.join(row);
        }
    }
}

/// The least number that is in neither set.
fn least_outside(placed: &Bits, blocked: &Bits) -> u32
    requires { (x : ℕ) × (x < placed.now.size) × (Has placed.now x → ⊥) × (Has blocked.now x → ⊥) }
    ensures below { result < placed.now.size }
    ensures new { Has placed.now result → ⊥ }
    ensures free { Has blocked.now result → ⊥ }
    ensures least { (y : ℕ) → (Has placed.now y → ⊥) → (Has blocked.now y → ⊥) → result ≤ y }
{
    let size = placed.size();
    for x in 0..size {
        if !placed.has(x) && !blocked.has(x) {
            return x;
        }
    }
    size
}
