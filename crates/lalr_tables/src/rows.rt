// The rows of one core: its actions, by items and lookaheads, and its gotos.
ghost use Rattle.std.specs.Prelude.{◌≡◌, ◌<◌, ◌≤◌, ◌+◌, ◌^◌, ℕ, length, All, IfOk, slice_index};
ghost use Rattle.cfg_model.specs.Cfg.{IsGrammar, IsSymbol};
ghost use Rattle.cfg_model.specs.declared.symbol.Sym.TheVariants.{N, T};
ghost use Rattle.lalr_tables.specs.within.Rows.{AreCells, AreGotos, IsRow, NoRule, OverNonterminal, OverTerminal, Puts, PutsAll, PutsGoto, PutsShift};

use crate::clash::{Clash, with_clash};
use cfg_model::{Grammar, Sym};
use ck_base::{Bits, NoMemory};
use std::alloc::Global;

/// Cells, and the least clash that was met while they were filled.
#[derive(Drop)]
pub(crate) struct Cells {
    pub(crate) cells: Vec<u16>,
    pub(crate) found: Option<Clash>,
}

/// The actions of a core: its shifts, and the rules of its complete items on the terminals of their
/// sets.
pub(crate) fn action_row(
    alloc: Global,
    g: &Grammar,
    items: &[(u32, u32)],
    moves: &[(Sym, u32)],
    looks: &[Bits],
) -> Result<Cells, NoMemory>
    requires grammar { IsGrammar g.now }
    requires rules { All (λ item. item.0 ≤ length g.now.rules) items.now }
    requires sets { length looks.now ≡ length items.now }
    requires symbols { All (λ m. IsSymbol g.now m.0) moves.now }
    requires cores { All (λ m. m.1 < 4096) moves.now }
    ensures { IfOk result (λ made. IsRow g.now items.now moves.now looks.now (length items.now)
        made.cells.items made.found) }
{
    let width = g.terminals + 1;
    let mut cells = shift_row(alloc, g, moves)?;
    let mut found = None;
    for i in 0..items.len() {
        let (rule, dot) = items[i];
        if g.behind(rule, dot).is_none() {
            found = put_rule(&mut cells, rule, &looks[i], width, found);
        }
    }
    Ok(Cells { cells, found })
}

/// The shifts of a core.
fn shift_row(alloc: Global, g: &Grammar, moves: &[(Sym, u32)]) -> Result<Vec<u16>, NoMemory>
    requires grammar { IsGrammar g.now }
    requires symbols { All (λ m. IsSymbol g.now m.0) moves.now }
    requires cores { All (λ m. m.1 < 4096) moves.now }
    ensures long { IfOk result (λ cells. length cells.items ≡ g.now.terminals + 1) }
    ensures shifts { IfOk result (λ cells. AreCells (g.now.terminals + 1) (OverTerminal moves.now)
        NoRule (slice_index cells.items)) }
{
    let mut cells = vec![in alloc; 0u16; g.terminals as usize + 1]?;
    for i in 0..moves.len() {
        let (symbol, core) = moves[i];
        put_shift(&mut cells, symbol, core);
    }
    Ok(cells)
}

/// Puts a move over a terminal into its cell.
fn put_shift(cells: &mut Vec<u16>, symbol: Sym, core: u32)
    requires inside { (t : ℕ) → symbol ≡ T t → t < length cells.old.items }
    requires fits { core < 4096 }
    ensures { PutsShift symbol core cells.old.items cells.new.items }
{
    if let Sym::T(t) = symbol {
        cells[t as usize] = core as u16 + 2048;
    }
}

/// Puts a rule into the cells of the terminals of a set, and gives the least clash so far.
fn put_rule(
    cells: &mut Vec<u16>,
    rule: u32,
    set: &Bits,
    width: u32,
    found: Option<Clash>,
) -> Option<Clash>
    requires inside { width ≤ length cells.old.items }
    requires fits { rule < 2047 }
    ensures { PutsAll set.now rule cells.old.items found width cells.new.items result }
{
    let mut best = found;
    for t in 0..width {
        if set.has(t) {
            best = put_at(cells, t, rule, best);
        }
    }
    best
}

/// Puts a rule into the cell of a terminal: a free cell takes it, a rule gives way to a lower one,
/// and a shift stays. What stands there already gives a clash.
fn put_at(cells: &mut Vec<u16>, t: u32, rule: u32, found: Option<Clash>) -> Option<Clash>
    requires inside { t < length cells.old.items }
    requires fits { rule < 2047 }
    ensures { Puts t rule cells.old.items cells.new.items found result }
{
    let cell = cells[t as usize];
    if cell == 0 {
        cells[t as usize] = rule as u16 + 1;
        return found;
    }
    if cell >= 2048 {
        return with_clash(found, t, rule, None);
    }
    let first = cell as u32 - 1;
    if first == rule {
        return found;
    }
    if first < rule {
        return with_clash(found, t, first, Some(rule));
    }
    cells[t as usize] = rule as u16 + 1;
    with_clash(found, t, rule, Some(first))
}

/// The cores that moves over nonterminals lead to.
pub(crate) fn goto_row(
    alloc: Global,
    g: &Grammar,
    moves: &[(Sym, u32)],
) -> Result<Vec<u16>, NoMemory>
    requires grammar { IsGrammar g.now }
    requires symbols { All (λ m. IsSymbol g.now m.0) moves.now }
    requires cores { All (λ m. m.1 < 4096) moves.now }
    ensures long { IfOk result (λ cells. length cells.items ≡ g.now.nonterminals) }
    ensures gotos { IfOk result (λ cells. AreGotos g.now.nonterminals (OverNonterminal moves.now)
        (slice_index cells.items)) }
{
    let mut cells = vec![in alloc; 0u16; g.nonterminals as usize]?;
    for i in 0..moves.len() {
        let (symbol, core) = moves[i];
        put_goto(&mut cells, symbol, core);
    }
    Ok(cells)
}

/// Puts a move over a nonterminal into its cell.
fn put_goto(cells: &mut Vec<u16>, symbol: Sym, core: u32)
    requires inside { (n : ℕ) → symbol ≡ N n → n < length cells.old.items }
    requires fits { core < 4096 }
    ensures { PutsGoto symbol core cells.old.items cells.new.items }
{
    if let Sym::N(n) = symbol {
        cells[n as usize] = core as u16;
    }
}
