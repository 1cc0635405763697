// A table of moves from sets of positions.
ghost use Rattle.std.specs.Prelude.{◌≡◌, ◌^◌, ◌<◌, All, IfOk, MatchOption, length};
ghost use Rattle.rex_model.specs.TableMeaning.{automaton_of};
ghost use Rattle.rex_dfa.specs.within.Parts.{IsTable};
ghost use Rattle.rex_dfa.specs.within.Positions.{ArePositions};
ghost use Rattle.rex_dfa.specs.within.Subset.{HasMoreSets};

use crate::marking::accepts_of;
use crate::positions::Positions;
use crate::subset::{fill, starts_of};
use ck_base::{Bits, NoMemory, SetNumbers};
use rex_model::Dfa;
use std::alloc::Global;

/// An automaton, and the states in which the start states begin.
#[derive(Drop)]
pub(crate) struct Table {
    pub(crate) starts: Vec<u16>,
    pub(crate) dfa: Dfa,
}

/// The automaton of the sets of positions; `None` where it has more than 4,096 states.
pub(crate) fn table_of(
    alloc: Global,
    positions: &Positions,
    firsts: &Vec<Bits>,
    marks: &[u32],
) -> Result<Option<Table>, NoMemory>
    requires positions { ArePositions positions.now }
    requires sizes { All (λ set. set.size ≡ positions.now.size) firsts.now.items }
    requires few { length marks.now < 2 ^ 32 }
    ensures { IfOk result (λ table. MatchOption table
        (HasMoreSets positions.now firsts.now.items 4096)
        (λ table. IsTable positions.now firsts.now.items marks.now
        table.starts.items (automaton_of table.dfa))) }
{
    let mut sets = SetNumbers::new(alloc);
    let begun = starts_of(alloc, positions, firsts.as_slice(), &mut sets)?;
    let Some(starts) = begun else {
        return Ok(None);
    };
    let filled = fill(alloc, positions, firsts, &mut sets)?;
    let Some(moves) = filled else {
        return Ok(None);
    };
    let accepts = accepts_of(alloc, &sets, positions.size, marks)?;
    Ok(Some(Table {
        starts,
        dfa: Dfa { moves, accepts },
    }))
}
