// Bit rows handed on along edges until nothing changes.
ghost use Rattle.std.specs.Prelude.{◌≡◌, ◌↔◌, ◌<◌, true, false, ℕ, IfOk, IsTrue, All, length, slice_set};
ghost use Rattle.ck_base.specs.BitSet.{Has, IsEmpty, Adds, Grew};
ghost use Rattle.cfg_model.specs.Rows.{row, AreRows};
ghost use Rattle.cfg_model.specs.within.Spreading.{IsMarked, AreSpread, IsInside, SpreadsOnce, IsJoined};

use ck_base::{Bits, NoMemory};
use std::alloc::Global;

/// What is in the row of the first number is in that of the second, too.
#[derive(Clone, Copy)]
pub struct Edge {
    pub from: u32,
    pub to: u32,
}

/// Lets the rows spread along the edges, until none grows.
pub fn spread(
    alloc: Global,
    rows: &mut Vec<Bits>,
    edges: &[Edge],
    count: u32,
    width: u32,
) -> Result<(), NoMemory>
    requires rows { AreRows count width rows.old.items }
    requires edges { All (IsInside count) edges.now }
    ensures spread { IfOk result (λ _. AreSpread edges.now rows.old.items rows.new.items) }
    ensures rows { AreRows count width rows.new.items }
{
    let mut scratch = Bits::new(alloc, width)?;
    let mut before = all_below(alloc, count)?;
    let mut grown = Bits::new(alloc, count)?;
    'rounds: loop {
        if !spread_once(rows, edges, &before, &mut grown, &mut scratch, count, width) {
            break;
        }
        hand_on(&mut before, &mut grown);
    }
    Ok(())
}

/// All numbers below the count.
fn all_below(alloc: Global, count: u32) -> Result<Bits, NoMemory>
    ensures size { IfOk result (λ set. set.size ≡ count) }
    ensures all { IfOk result (λ set. (n : ℕ) → n < count → Has set n) }
{
    let mut set = Bits::new(alloc, count)?;
    for n in 0..count {
        set.add(n);
    }
    Ok(set)
}

/// The rows that grew are those that grew before, for the next round.
fn hand_on(before: &mut Bits, grown: &mut Bits)
    requires { before.old.size ≡ grown.old.size }
    ensures before { before.new.size ≡ before.old.size }
    ensures grown { grown.new.size ≡ grown.old.size }
    ensures has { (n : ℕ) → Has grown.old n → Has before.new n }
    ensures empty { IsEmpty grown.new }
{
    before.clear();
    before.join(grown);
    grown.clear();
}

/// Lets the rows spread along each edge once that comes from a row that grew; says whether one grew.
fn spread_once(
    rows: &mut Vec<Bits>,
    edges: &[Edge],
    before: &Bits,
    grown: &mut Bits,
    scratch: &mut Bits,
    count: u32,
    width: u32,
) -> bool
    requires rows { AreRows count width rows.old.items }
    requires edges { All (IsInside count) edges.now }
    requires scratch { scratch.old.size ≡ width }
    requires grown { (grown.old.size ≡ count) × IsEmpty grown.old }
    requires marked { IsMarked edges.now rows.old.items before.now }
    ensures round { SpreadsOnce edges.now rows.old.items rows.new.items result }
    ensures rows { AreRows count width rows.new.items }
    ensures scratch { scratch.new.size ≡ width }
    ensures grown { grown.new.size ≡ count }
    ensures marked { IsMarked edges.now rows.new.items grown.new }
{
    let mut grew = false;
    for (i, edge) in edges.iter().enumerate() {
        if before.has(edge.from) || grown.has(edge.from) {
            if follow_edge(rows, *edge, scratch, count, width) {
                grown.add(edge.to);
                grew = true;
            }
        }
    }
    grew
}

/// Joins the row that the edge leads from to the one that it leads to, and says whether that grew.
fn follow_edge(rows: &mut Vec<Bits>, edge: Edge, scratch: &mut Bits, count: u32, width: u32) -> bool
    requires rows { AreRows count width rows.old.items }
    requires edge { IsInside count edge }
    requires scratch { scratch.old.size ≡ width }
    ensures joined { IsJoined edge.from edge.to rows.old.items rows.new.items result }
    ensures rows { AreRows count width rows.new.items }
    ensures scratch { scratch.new.size ≡ width }
{
    scratch.clear();
    scratch.join(&rows[edge.from as usize]);
    join_row(rows, edge.to, scratch)
}

/// Joins the set to the row, and says whether that grew.
pub(crate) fn join_row(rows: &mut Vec<Bits>, to: u32, other: &Bits) -> bool
    requires inside { to < length rows.old.items }
    requires size { (row rows.old.items to).size ≡ other.now.size }
    ensures set { rows.new.items ≡ slice_set rows.old.items to (row rows.new.items to) }
    ensures joined { Adds (row rows.old.items to) (row rows.new.items to) (Has other.now) }
    ensures grew { IsTrue result ↔ Grew (row rows.old.items to) (row rows.new.items to) }
{
    rows[to as usize].join(other)
}
