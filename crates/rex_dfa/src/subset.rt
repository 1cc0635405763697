// The subset construction over sets of positions.
ghost use Rattle.std.specs.Prelude.{◌≡◌, ℕ, ◌+◌, ◌*◌, ◌-◌, ◌^◌, ◌<◌, ◌≤◌, IsTrue, All, IfOk, MatchOption, length, get_or, []};
ghost use Rattle.ck_base.specs.BitSet.{Has};
ghost use Rattle.ck_base.specs.Words.{IsFit};
ghost use Rattle.rex_dfa.specs.within.Positions.{ArePositions, IsSameTaken, NextOf};
ghost use Rattle.rex_dfa.specs.within.Subset.{AreReached, AreStarts, Building, IsGrown, IsKnownMove, Numbers};

use crate::positions::Positions;
use ck_base::{Bits, NoMemory, SetNumbers};
use std::alloc::Global;

/// Stands for no state.
const NOWHERE: u16 = 65_535;

/// There are at most so many states.
const MOST: u32 = 4096;

/// The states in which the start states begin; `None` where there are too many.
pub(crate) fn starts_of(
    alloc: Global,
    positions: &Positions,
    firsts: &[Bits],
    sets: &mut SetNumbers,
) -> Result<Option<Vec<u16>>, NoMemory>
    requires none { sets.old ≡ [] }
    requires sizes { All (λ set. set.size ≡ positions.now.size) firsts.now }
    ensures { IfOk result (λ starts. MatchOption starts
        (AreReached positions.now firsts.now sets.new × (4096 < length sets.new))
        (λ starts. AreStarts positions.now firsts.now sets.new starts.items (length firsts.now))) }
{
    let _size = positions.size;
    let mut starts = Vec::new(alloc);
    for first in firsts {
        match number_of(positions, sets, first)? {
            Some(number) => starts.push(number)?,
            None => return Ok(None),
        }
    }
    Ok(Some(starts))
}

/// The moves of all sets, whose states are found on the way; `None` where there are too many.
pub(crate) fn fill(
    alloc: Global,
    positions: &Positions,
    firsts: &Vec<Bits>,
    sets: &mut SetNumbers,
) -> Result<Option<Vec<u16>>, NoMemory>
    requires positions { ArePositions positions.now }
    requires reached { AreReached positions.now firsts.now.items sets.old }
    requires few { length sets.old ≤ 4096 }
    ensures { IfOk result (λ moves. MatchOption moves
        (AreReached positions.now firsts.now.items sets.new × (4096 < length sets.new))
        (λ moves. Building positions.now firsts.now.items sets.new moves.items
        × (length moves.items ≡ 256 * length sets.new) × IsGrown sets.old sets.new)) }
{
    let _firsts = firsts.len();
    let mut to = Bits::new(alloc, positions.size)?;
    let mut moves = Vec::new(alloc);
    while moves.len() < 256 * sets.len() as usize {
        let done = moves.len();
        let s = (done / 256) as u32;
        let byte = (done % 256) as u8;
        match next_move(positions, sets, &moves, s, byte, &mut to)? {
            Some(number) => moves.push(number)?,
            None => return Ok(None),
        }
    }
    Ok(Some(moves))
}

/// The move of state `s` over the byte, where those over the bytes before it are known: where it is
/// known to be the same as one of these it is copied. `None` where it leads to a state too many.
fn next_move(
    positions: &Positions,
    sets: &mut SetNumbers,
    moves: &[u16],
    s: u32,
    byte: u8,
    to: &mut Bits,
) -> Result<Option<u16>, NoMemory>
    requires positions { ArePositions positions.now }
    requires inside { s < length sets.old }
    requires few { length sets.old ≤ 4096 }
    requires fit { IsFit positions.now.size (get_or sets.old s []) }
    requires size { to.old.size ≡ positions.now.size }
    requires done { length moves.now ≡ 256 * s + byte }
    requires known { (b : ℕ) → b < byte → IsKnownMove positions.now sets.old moves.now s b }
    ensures size { to.new.size ≡ positions.now.size }
    ensures number { IfOk result (λ number. Numbers positions.now sets.old sets.new
        (NextOf positions.now (get_or sets.old s []) byte) number) }
{
    let like = positions.alike[byte as usize];
    if like < byte {
        return Ok(Some(moves[256 * s as usize + like as usize]));
    }
    if is_as_before(positions, sets, s, byte) {
        let before = byte - 1;
        return Ok(Some(moves[256 * s as usize + before as usize]));
    }
    move_of(positions, sets, s, byte, to)
}

/// Whether the same positions of state `s` take the byte as the one before it.
fn is_as_before(positions: &Positions, sets: &SetNumbers, s: u32, byte: u8) -> bool
    requires positions { ArePositions positions.now }
    requires inside { s < length sets.now }
    requires fit { IsFit positions.now.size (get_or sets.now s []) }
    ensures { IsTrue result
        → (0 < byte) × IsSameTaken positions.now (get_or sets.now s []) (byte - 1) byte }
{
    if byte == 0 {
        return false;
    }
    positions.takes_same(sets.words_of(s), byte - 1, byte)
}

/// The move of state `s` over the byte; `None` where it leads to a state too many.
fn move_of(
    positions: &Positions,
    sets: &mut SetNumbers,
    s: u32,
    byte: u8,
    to: &mut Bits,
) -> Result<Option<u16>, NoMemory>
    requires positions { ArePositions positions.now }
    requires inside { s < length sets.old }
    requires few { length sets.old ≤ 4096 }
    requires fit { IsFit positions.now.size (get_or sets.old s []) }
    requires size { to.old.size ≡ positions.now.size }
    ensures size { to.new.size ≡ positions.now.size }
    ensures number { IfOk result (λ number. Numbers positions.now sets.old sets.new
        (NextOf positions.now (get_or sets.old s []) byte) number) }
{
    let from = sets.words_of(s);
    positions.next(from, byte, to);
    number_of(positions, sets, to)
}

/// The number of the set, which is added where it is new; `None` where it would be one too many.
fn number_of(
    positions: &Positions,
    sets: &mut SetNumbers,
    set: &Bits,
) -> Result<Option<u16>, NoMemory>
    requires size { set.now.size ≡ positions.now.size }
    requires few { length sets.old ≤ 4096 }
    ensures { IfOk result (λ number. Numbers positions.now sets.old sets.new (Has set.now) number) }
{
    let _size = positions.size;
    if set.is_empty() {
        return Ok(Some(NOWHERE));
    }
    let words = set.words();
    known_small(words);
    let number = sets.intern(words)?;
    if number >= MOST {
        return Ok(None);
    }
    Ok(Some(number as u16))
}

/// The words of a set are numbers of 64 bits.
fn known_small(words: &[u64])
    ensures { All (λ word. word < 2 ^ 64) words.now }
{}
