// Forward and backward automata of rules with a right context.
ghost use Rattle.std.specs.Prelude.{◌<◌, IfOk, MatchOption};
ghost use Rattle.rex_model.specs.Meaning.{meaning};
ghost use Rattle.rex_model.specs.Positions.{position_count};
ghost use Rattle.rex_model.specs.TableMeaning.{automaton_of};
ghost use Rattle.rex_dfa.specs.within.Splits.{IsForward, HasMoreForward, IsBackward, HasMoreBackward};

use crate::part_rows::{MarkedRows, befores_of, lasts_of, marked_rows, positions_with};
use crate::parts::{Part, part_of};
use crate::walk::Rows;
use ck_base::NoMemory;
use rex_model::{Regex, positions};
use std::alloc::Global;

/// The automaton of the words of a body; `None` where it has more than 4,096 states.
pub(crate) fn forward_of(alloc: Global, r: &Regex) -> Result<Option<Part>, NoMemory>
    requires { position_count (meaning r.now) < 4096 }
    ensures { IfOk result (λ part. MatchOption part (HasMoreForward (meaning r.now) 4096)
        (λ part. IsForward (meaning r.now) (automaton_of part.dfa) part.count)) }
{
    let mark = positions(r);
    let size = mark + 1;
    let own = marked_rows(alloc, r, size)?;
    let MarkedRows { rows, first } = own;
    let Rows { takers, follows } = rows;
    let table = positions_with(alloc, size, takers, follows)?;
    part_of(alloc, &table, first, mark)
}

/// The automaton of the words of a context, read from their end; `None` where it has more than
/// 4,096 states.
pub(crate) fn backward_of(alloc: Global, r: &Regex) -> Result<Option<Part>, NoMemory>
    requires { position_count (meaning r.now) < 4096 }
    ensures { IfOk result (λ part. MatchOption part (HasMoreBackward (meaning r.now) 4096)
        (λ part. IsBackward (meaning r.now) (automaton_of part.dfa) part.count)) }
{
    let mark = positions(r);
    let size = mark + 1;
    let own = marked_rows(alloc, r, size)?;
    let MarkedRows { rows, first } = own;
    let Rows { takers, follows } = rows;
    let follows = follows.as_slice();
    let befores = befores_of(alloc, r, follows, &first, size)?;
    let lasts = lasts_of(alloc, r, follows, &first, size)?;
    let table = positions_with(alloc, size, takers, befores)?;
    part_of(alloc, &table, lasts, mark)
}
