// Parts of rules with a right context, each with its automaton.
ghost use Rattle.std.specs.Prelude.{◌≡◌, IfOk, MatchOption, [], ◌∷◌};
ghost use Rattle.ck_base.specs.BitSet.{BitSet, Has};
ghost use Rattle.rex_model.specs.TableMeaning.{automaton_of};
ghost use Rattle.rex_dfa.specs.within.Dead.{IsDead};
ghost use Rattle.rex_dfa.specs.within.Parts.{IsTable, IsPart, HasMoreOf};
ghost use Rattle.rex_dfa.specs.within.Positions.{ArePositions, TakesAt, FollowsAt};
ghost use Rattle.rex_dfa.specs.within.Subset.{FirstAt};

use crate::positions::Positions;
use crate::table::{Table, table_of};
use ck_base::{Bits, NoMemory};
use rex_model::Dfa;
use std::alloc::Global;

/// Stands for no state.
const NOWHERE: u16 = 65_535;

/// An automaton of a split, and how many sets of positions it stands for.
#[derive(Drop)]
pub(crate) struct Part {
    pub(crate) dfa: Dfa,
    pub(crate) count: u32,
}

/// The automaton of the sets from one first set on, which accepts where the mark is in the set;
/// `None` where it has more than 4,096 states.
pub(crate) fn part_of(
    alloc: Global,
    positions: &Positions,
    first: Bits,
    mark: u32,
) -> Result<Option<Part>, NoMemory>
    requires positions { ArePositions positions.now }
    requires size { first.size ≡ positions.now.size }
    ensures { IfOk result (λ part. MatchOption part
        (HasMoreOf (TakesAt positions.now) (FollowsAt positions.now) (Has first) 4096)
        (λ part. IsPart (TakesAt positions.now) (FollowsAt positions.now) (Has first) mark
        (automaton_of part.dfa) part.count)) }
{
    let mut firsts = Vec::new(alloc);
    firsts.push(first)?;
    let marks = [mark];
    match table_of(alloc, positions, &firsts, &marks)? {
        Some(table) => {
            let part = part_with(alloc, positions, &firsts, mark, table)?;
            Ok(Some(part))
        }
        None => Ok(None),
    }
}

/// The table's automaton, where its one start is state 0, and else a dead one.
fn part_with(
    alloc: Global,
    positions: &Positions,
    firsts: &Vec<Bits>,
    mark: u32,
    table: Table,
) -> Result<Part, NoMemory>
    requires one { (first : BitSet) × (firsts.now.items ≡ first ∷ []) }
    requires table { IsTable positions.now firsts.now.items (mark ∷ [])
        table.starts.items (automaton_of table.dfa) }
    ensures { IfOk result (λ part. IsPart (TakesAt positions.now) (FollowsAt positions.now)
        (FirstAt firsts.now.items 0) mark (automaton_of part.dfa) part.count) }
{
    let _size = positions.size;
    let _one = firsts.len();
    let _mark = mark;
    let count = table.dfa.accepts.len() as u32;
    if table.starts[0] == NOWHERE {
        let dfa = dead(alloc)?;
        return Ok(Part { dfa, count });
    }
    let Table { dfa, .. } = table;
    Ok(Part { dfa, count })
}

/// An automaton with one state, which accepts nothing.
fn dead(alloc: Global) -> Result<Dfa, NoMemory>
    ensures { IfOk result (λ dfa. IsDead (automaton_of dfa)) }
{
    let moves = vec![in alloc; NOWHERE; 256]?;
    let mut accepts = Vec::new(alloc);
    accepts.push(None)?;
    Ok(Dfa { moves, accepts })
}
