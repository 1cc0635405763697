// The cores of a grammar, made from kernels breadth first.
ghost use Rattle.std.specs.Prelude.{◌≡◌, ℕ, List, ◌+◌, ◌^◌, ◌/◌, ◌%◌, ◌<◌, ◌≤◌, ◌↔◌, ◌++◌, ◌≢◌, [], ◌∷◌, length, map, All, IfOk, IfErr, OnOk, IsTrue, Contains, slice_get, Some};
ghost use Rattle.ck_base.specs.BitSet.{Has, Adds};
ghost use Rattle.cfg_model.specs.Cfg.{IsGrammar, IsSymbol};
ghost use Rattle.cfg_model.specs.Sets.{AllProductive};
ghost use Rattle.cfg_model.specs.Cores.{IsCores, HasMoreCores};
ghost use Rattle.lalr_look.specs.within.Flow.{set_at};
ghost use Rattle.lalr_look.specs.within.Rows.{rows_of, row_at};
ghost use Rattle.lalr_look.specs.within.Kernel.{AreShort, IsInside, Sorts, Calls, CalledAt, CalledBy, Moves, Opens, Rows, IsOpened, Going, pairs, place_of};
ghost use Rattle.lalr_look.specs.Promise.{NoCores};

use crate::calls::calls_of;
use crate::core_list::Cores;
use crate::kernels::Kernels;
use crate::rows::{no_rows, push_at, take_row};
use cfg_model::{Grammar, LalrError, Sym};
use ck_base::{Bits, NoMemory};
use std::alloc::Global;

/// The symbol at a place of the order: terminals before nonterminals, each by number.
fn symbol_at(g: &Grammar, i: u32) -> Sym
    requires { i < g.now.terminals + g.now.nonterminals }
    ensures symbol { IsSymbol g.now result }
    ensures place { place_of g.now result ≡ i }
{
    if i < g.terminals {
        return Sym::T(i);
    }
    Sym::N(i - g.terminals)
}

/// The symbol's place in the order: terminals before nonterminals, each by number.
pub(crate) fn order_of(g: &Grammar, symbol: Sym) -> u32
    requires grammar { IsGrammar g.now }
    requires symbol { IsSymbol g.now symbol }
    ensures inside { result < g.now.terminals + g.now.nonterminals }
    ensures place { result ≡ place_of g.now symbol }
{
    match symbol {
        Sym::T(t) => t,
        Sym::N(n) => g.terminals + n,
    }
}

/// Puts the item, with its dot moved on, into the row of the symbol behind its dot.
fn sort_in(g: &Grammar, item: u32, rows: &mut Vec<Vec<u32>>) -> Result<(), NoMemory>
    requires grammar { IsGrammar g.now }
    requires inside { IsInside g.now item }
    requires rows { length rows.old.items ≡ g.now.terminals + g.now.nonterminals }
    ensures long { OnOk result (length rows.new.items ≡ length rows.old.items) }
    ensures sorted { OnOk result
        (Sorts g.now item (rows_of rows.old.items) (rows_of rows.new.items)) }
{
    let Some(symbol) = g.behind(item % 2048, item / 2048) else {
        return Ok(());
    };
    push_at(rows, order_of(g, symbol), item + 2048)?;
    Ok(())
}

/// The items with their dot moved on, in a row for each symbol that it moved over.
fn moved(alloc: Global, g: &Grammar, items: &[u32]) -> Result<Vec<Vec<u32>>, NoMemory>
    requires grammar { IsGrammar g.now }
    requires inside { All (IsInside g.now) items.now }
    ensures long { IfOk result (λ rows. length rows.items ≡ g.now.terminals + g.now.nonterminals) }
    ensures moves { IfOk result (λ rows. (i : ℕ)
        → Moves g.now items.now i (length items.now) (row_at (rows_of rows.items) i)) }
{
    let mut rows = no_rows(alloc, g.terminals + g.nonterminals)?;
    for item in items {
        sort_in(g, *item, &mut rows)?;
    }
    Ok(rows)
}

/// Puts in what the item calls.
fn call_from(g: &Grammar, calls: &[Bits], called: &mut Bits, item: u32)
    requires grammar { IsGrammar g.now }
    requires inside { IsInside g.now item }
    requires sets { length calls.now ≡ g.now.nonterminals }
    requires sizes { All (λ set. set.size ≡ called.old.size) calls.now }
    requires calls { (m n : ℕ) → m < g.now.nonterminals
        → Has (set_at calls.now m) n ↔ Calls g.now m n }
    ensures { Adds called.old called.new (CalledAt g.now item) }
{
    if let Some(symbol) = g.behind(item % 2048, item / 2048) {
        if let Sym::N(m) = symbol {
            called.join(&calls[m as usize]);
        }
    }
}

/// The nonterminals that a kernel calls.
fn called_by(alloc: Global, g: &Grammar, calls: &[Bits], front: &[u32]) -> Result<Bits, NoMemory>
    requires grammar { IsGrammar g.now }
    requires inside { All (IsInside g.now) front.now }
    requires sets { length calls.now ≡ g.now.nonterminals }
    requires sizes { (size : ℕ) × All (λ set. set.size ≡ size) calls.now }
    requires calls { (m n : ℕ) → m < g.now.nonterminals
        → Has (set_at calls.now m) n ↔ Calls g.now m n }
    ensures { IfOk result (λ called. (n : ℕ) → Has called n ↔ CalledBy g.now front.now n) }
{
    let mut called = Bits::new(alloc, calls[0].size())?;
    for item in front {
        call_from(g, calls, &mut called, *item);
    }
    Ok(called)
}

/// Puts in the rules of the called nonterminals, with their dot in front.
fn open_rules(g: &Grammar, called: &Bits, items: &mut Vec<u32>) -> Result<(), NoMemory>
    requires grammar { IsGrammar g.now }
    ensures { OnOk result (Opens g.now called.now items.old.items
        (length g.now.rules) items.new.items) }
{
    for i in 0..g.size() {
        if called.has(g.rule(i).left) {
            items.push(i + 1)?;
        }
    }
    Ok(())
}

/// The items of a kernel's core.
fn items_of(
    alloc: Global,
    g: &Grammar,
    calls: &[Bits],
    kernel: &[u32],
) -> Result<Vec<u32>, NoMemory>
    requires grammar { IsGrammar g.now }
    requires inside { All (IsInside g.now) kernel.now }
    requires sets { length calls.now ≡ g.now.nonterminals }
    requires sizes { (size : ℕ) × All (λ set. set.size ≡ size) calls.now }
    requires calls { (m n : ℕ) → m < g.now.nonterminals
        → Has (set_at calls.now m) n ↔ Calls g.now m n }
    ensures { IfOk result (λ items. IsOpened g.now kernel.now items.items) }
{
    let mut items = Vec::new(alloc);
    if kernel.len() == 0 {
        items.push(0)?;
        let called = called_by(alloc, g, calls, &[0u32])?;
        open_rules(g, &called, &mut items)?;
        return Ok(items);
    }
    let called = called_by(alloc, g, calls, kernel)?;
    open_rules(g, &called, &mut items)?;
    items.extend_from_slice(kernel)?;
    Ok(items)
}

/// Numbers the kernel of the moved items, where there are some, and puts the move into the row.
fn add_move(
    g: &Grammar,
    kernels: &mut Kernels,
    row: &mut Vec<(Sym, u32)>,
    i: u32,
    kernel: Vec<u32>,
) -> Result<(), NoMemory>
    requires place { i < g.now.terminals + g.now.nonterminals }
    requires few { length kernels.old + 1 < 2 ^ 32 }
    ensures rows { OnOk result ((items : List ℕ) (first : List (List ℕ))
        → Moves g.now items i (length items) kernel.items
        → Rows g.now items first i kernels.old row.old.items → Rows g.now items first (i + 1)
        kernels.new row.new.items) }
    ensures few { OnOk result (length kernels.new ≤ length kernels.old + 1) }
{
    if kernel.len() == 0 {
        return Ok(());
    }
    let m = kernels.number_of(kernel)?;
    row.push((symbol_at(g, i), m))?;
    Ok(())
}

/// The moves of a core.
fn moves_of(
    alloc: Global,
    g: &Grammar,
    items: &[u32],
    kernels: &mut Kernels,
) -> Result<Vec<(Sym, u32)>, NoMemory>
    requires grammar { IsGrammar g.now }
    requires inside { All (IsInside g.now) items.now }
    requires few { length kernels.old ≤ 4096 }
    ensures rows { IfOk result
        (λ row. Rows g.now items.now kernels.old (g.now.terminals + g.now.nonterminals)
        kernels.new row.items) }
{
    let mut moved_items = moved(alloc, g, items)?;
    let mut row = Vec::new(alloc);
    for i in 0..g.terminals + g.nonterminals {
        let kernel = take_row(alloc, &mut moved_items, i);
        add_move(g, kernels, &mut row, i, kernel)?;
    }
    Ok(row)
}

/// The items of these numbers, as rule and place of the dot.
fn pairs_of(alloc: Global, items: &[u32]) -> Result<Vec<(u32, u32)>, NoMemory>
    ensures { IfOk result (λ list. list.items ≡ pairs items.now) }
{
    let mut list = Vec::new(alloc);
    for item in items {
        list.push((*item % 2048, *item / 2048))?;
    }
    Ok(list)
}

/// Adds a core with its items and moves.
fn put(made: &mut Cores, items: Vec<(u32, u32)>, moves: Vec<(Sym, u32)>) -> Result<(), NoMemory>
    ensures items { OnOk result (made.new.items ≡ made.old.items ++ (items.items ∷ [])) }
    ensures moves { OnOk result (made.new.moves ≡ made.old.moves ++ (moves.items ∷ [])) }
{
    made.items.push(items)?;
    made.moves.push(moves)?;
    Ok(())
}

/// Makes the core of this kernel.
fn add_core(
    alloc: Global,
    g: &Grammar,
    calls: &[Bits],
    kernels: &mut Kernels,
    made: &mut Cores,
    n: u32,
) -> Result<(), NoMemory>
    requires grammar { IsGrammar g.now }
    requires short { AreShort g.now }
    requires sets { length calls.now ≡ g.now.nonterminals }
    requires sizes { (size : ℕ) × All (λ set. set.size ≡ size) calls.now }
    requires calls { (m n : ℕ) → m < g.now.nonterminals
        → Has (set_at calls.now m) n ↔ Calls g.now m n }
    requires known { n < length kernels.old }
    requires next { n ≡ length made.old.items }
    requires few { length kernels.old ≤ 4096 }
    requires going { Going g.now kernels.old made.old }
    ensures going { OnOk result (Going g.now kernels.new made.new) }
    ensures one { OnOk result (length made.new.items ≡ n + 1) }
    ensures kept { OnOk result (length kernels.old ≤ length kernels.new) }
{
    let own = items_of(alloc, g, calls, kernels.kernel(n))?;
    let row = moves_of(alloc, g, &own, kernels)?;
    put(made, pairs_of(alloc, &own)?, row)?;
    Ok(())
}

/// Whether all right sides are short enough for items to be numbers.
pub(crate) fn is_short(g: &Grammar) -> bool
    requires { IsGrammar g.now }
    ensures { IsTrue result ↔ AreShort g.now }
{
    for i in 0..g.size() {
        let one = g.rule(i);
        if one.symbol(1048575).is_some() {
            return false;
        }
    }
    true
}

/// The cores of a grammar, with their moves; TooManyStates where there are more than 4,096. Core 0 is
/// that of the empty prefix. A right side of 1,048,576 symbols or more counts as want of memory.
pub fn cores(alloc: Global, g: &Grammar) -> Result<Cores, LalrError>
    requires grammar { IsGrammar g.now }
    requires productive { AllProductive g.now }
    ensures cores { IfOk result (λ made. IsCores g.now made) }
    ensures few { IfOk result (λ made. length made.items ≤ 4096) }
    ensures no_more { IfOk result (λ _. HasMoreCores g.now 4096 → ⊥) }
    ensures fault { IfErr result (NoCores g.now) }
{
    if !is_short(g) {
        return Err(LalrError::NoMemory);
    }
    let calls = calls_of(alloc, g)?;
    let mut kernels = Kernels::new(alloc);
    kernels.number_of(Vec::new(alloc))?;
    let mut made = Cores {
        items: Vec::new(alloc),
        moves: Vec::new(alloc),
    };
    let mut n = 0;
    while n < kernels.len() {
        add_core(alloc, g, &calls, &mut kernels, &mut made, n)?;
        if kernels.len() > 4096 {
            return Err(LalrError::TooManyStates);
        }
        n += 1;
    }
    Ok(made)
}
