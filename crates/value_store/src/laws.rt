// A law, on an empty function: old cells stay.
ghost use Rattle.std.specs.Prelude.{◌≡◌, ℕ, ◌+◌, List, ◌++◌, length};
ghost use Rattle.value_store.specs.Cells.{Cell, cells_of, pairs_at, tree_at, IsMap, IsMade};

use crate::cells::Cells;

/// Law: cells that are added change no map and no made node, and each unit makes one cell.
pub fn cells_stay(cells: &Cells)
    ensures maps { (more : List Cell) (m : ℕ) → IsMap (cells_of cells.now.units) m
        → pairs_at (cells_of cells.now.units ++ more) m ≡ pairs_at (cells_of cells.now.units) m }
    ensures nodes { (more : List Cell) (c : ℕ) → IsMade (cells_of cells.now.units) c
        → tree_at (cells_of cells.now.units ++ more) c ≡ tree_at (cells_of cells.now.units) c }
    ensures count { length (cells_of cells.now.units) ≡ length cells.now.units + 1 }
{}
