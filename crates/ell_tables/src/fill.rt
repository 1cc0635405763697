// Cells of the LL(1) table filled rule by rule, and the first conflict in their order.
ghost use Rattle.std.specs.Prelude.{◌≡◌, ◌<◌, ◌≤◌, ◌+◌, ◌*◌, ℕ, length, Option, ◌↔◌, IsTrue, ◌^◌, All, IfOk, slice_index, slice_set};
ghost use Rattle.ell_tables.specs.within.Fill.{IsLesser, Precedes, Filled, Seen, cell_at};

use cfg_model::GrammarRule;
use ck_base::{Bits, NoMemory};
use std::alloc::Global;

/// Two rules of a nonterminal that are for one terminal; rules count from 1.
#[derive(Clone, Copy)]
pub(crate) struct Clash {
    pub(crate) nonterminal: u32,
    pub(crate) rule: u32,
    pub(crate) other: u32,
    pub(crate) terminal: u32,
}

/// Cells, and the least clash.
#[derive(Drop)]
pub(crate) struct Cells {
    pub(crate) cells: Vec<u16>,
    pub(crate) found: Option<Clash>,
}

/// The cells of the rules, each with the first rule that is for its terminal, and the clash that is
/// reported. Set k has the terminals that rule k + 1 is for; there are `count` nonterminals and `width`
/// terminals, END among them.
pub(crate) fn fill(
    alloc: Global,
    rules: &[GrammarRule],
    sets: &[Bits],
    count: u32,
    width: u32,
) -> Result<Cells, NoMemory>
    requires few { length rules.now ≤ 1024 }
    requires sizes { (length sets.now ≡ length rules.now) × (count ≤ 512) × (width ≤ 512) }
    requires lefts { All (λ rule. rule.left < count) rules.now }
    requires widths { All (λ set. set.size ≡ width) sets.now }
    ensures { IfOk result (λ made. (length made.cells.items ≡ count * width)
        × Filled (Seen rules.now sets.now (length rules.now) 0)
        (cell_at width made.cells.items) made.found) }
{
    let mut cells = vec![in alloc; 0u16; count as usize * width as usize]?;
    let mut found = None;
    for (k, rule) in rules.iter().enumerate() {
        let set = &sets[k];
        let left = rule.left;
        for t in 0..width {
            if set.has(t) {
                let at = left as usize * width as usize + t as usize;
                found = fill_cell(&mut cells, at, left, k as u32 + 1, t, found);
            }
        }
    }
    Ok(Cells { cells, found })
}

/// Puts the rule into a free cell; a taken one gives a clash.
fn fill_cell(
    cells: &mut Vec<u16>,
    at: usize,
    nonterminal: u32,
    rule: u32,
    terminal: u32,
    found: Option<Clash>,
) -> Option<Clash>
    requires inside { at < length cells.old.items }
    requires fits { rule < 2 ^ 16 }
    ensures free { slice_index cells.old.items at ≡ 0
        → (cells.new.items ≡ slice_set cells.old.items at rule) × (result ≡ found) }
    ensures taken { 0 < slice_index cells.old.items at → (cells.new.items ≡ cells.old.items)
        × IsLesser found (record {
          nonterminal = nonterminal;
          rule = slice_index cells.old.items at;
          other = rule;
          terminal = terminal;
        }) result }
{
    let first = cells[at];
    if first == 0 {
        cells[at] = rule as u16;
        return found;
    }
    lesser(
        found,
        Clash {
            nonterminal,
            rule: first as u32,
            other: rule,
            terminal,
        },
    )
}

/// The one that is reported of two.
fn lesser(best: Option<Clash>, other: Clash) -> Option<Clash>
    ensures { IsLesser best other result }
{
    match best {
        Some(b) if precedes(b, other) => best,
        _ => Some(other),
    }
}

/// Whether the first is reported before the second, or they are the same.
fn precedes(a: Clash, b: Clash) -> bool
    ensures { IsTrue result ↔ Precedes a b }
{
    if a.nonterminal != b.nonterminal {
        return a.nonterminal < b.nonterminal;
    }
    if a.rule != b.rule {
        return a.rule < b.rule;
    }
    if a.other != b.other {
        return a.other < b.other;
    }
    a.terminal <= b.terminal
}
