// Lists of numbers by row.
ghost use Rattle.std.specs.Prelude.{◌≡◌, ℕ, ◌<◌, [], length, IfOk, OnOk};
ghost use Rattle.lalr_look.specs.within.Rows.{rows_of, row_at, Pushes, Takes};

use ck_base::NoMemory;
use std::alloc::Global;
use std::mem;

/// So many empty rows.
pub fn no_rows(alloc: Global, count: u32) -> Result<Vec<Vec<u32>>, NoMemory>
    ensures long { IfOk result (λ rows. length rows.items ≡ count) }
    ensures empty { IfOk result (λ rows. (k : ℕ) → row_at (rows_of rows.items) k ≡ []) }
{
    let mut rows = Vec::new(alloc);
    for _ in 0..count {
        rows.push(Vec::new(alloc))?;
    }
    Ok(rows)
}

/// Puts the number at the end of a row.
pub fn push_at(rows: &mut Vec<Vec<u32>>, place: u32, n: u32) -> Result<(), NoMemory>
    requires { place < length rows.old.items }
    ensures { OnOk result (Pushes (rows_of rows.old.items) (rows_of rows.new.items) place n) }
{
    let row = &mut rows[place as usize];
    row.push(n)?;
    Ok(())
}

/// Takes a row out, and leaves an empty one.
pub fn take_row(alloc: Global, rows: &mut Vec<Vec<u32>>, place: u32) -> Vec<u32>
    requires { place < length rows.old.items }
    ensures { Takes (rows_of rows.old.items) (rows_of rows.new.items) place result.items }
{
    let row = &mut rows[place as usize];
    mem::replace(row, Vec::new(alloc))
}
