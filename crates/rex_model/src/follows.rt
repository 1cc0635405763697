// Which positions follow a position in a regular expression.
ghost use Rattle.std.specs.Prelude.{◌≡◌, ◌↔◌, ◌⊎◌, ◌+◌, ◌^◌, ◌<◌, ◌≤◌, IsTrue, length, map};
ghost use Rattle.ck_base.specs.BitSet.{Adds};
ghost use Rattle.rex_model.specs.Language.{bytes, star};
ghost use Rattle.rex_model.specs.Meaning.{meaning, sequence_of, alternative_of};
ghost use Rattle.rex_model.specs.Positions.{position_count, has_empty, First, Last, Follow};

use crate::counts::positions;
use crate::empty_word::has_empty_word;
use crate::firsts::add_first_if;
use crate::regex::Regex;
use ck_base::Bits;

/// Adds the positions that may come directly after position `p`. Says whether a word may end with it.
/// The expression's positions are numbered from `k`.
#[cycle(follow)]
pub fn follow(r: &Regex, k: u32, p: u32, to: &mut Bits) -> bool
    requires room { k + position_count (meaning r.now) ≤ to.old.size }
    requires fits { to.old.size < 2 ^ 32 }
    ensures follows { Adds to.old to.new (Follow (meaning r.now) k p) }
    ensures last { IsTrue result ↔ Last (meaning r.now) k p }
{
    match r {
        Regex::Bytes(string) => follow_in_string(string, k, p, to),
        Regex::Class(_) => p == k,
        Regex::Seq(parts) => follow_in_sequence(parts, k, p, to),
        Regex::Alt(parts) => follow_in_alternatives(parts, k, p, to),
        Regex::Star(part) | Regex::Plus(part) => follow_in_round(part, k, p, to),
        Regex::Opt(part) => follow(part, k, p, to),
    }
}

/// `follow` for a string.
fn follow_in_string(string: &[u8], k: u32, p: u32, to: &mut Bits) -> bool
    requires room { k + length string.now ≤ to.old.size }
    requires fits { to.old.size < 2 ^ 32 }
    ensures follows { Adds to.old to.new (Follow (bytes string.now) k p) }
    ensures last { IsTrue result ↔ Last (bytes string.now) k p }
{
    let end = k + string.len() as u32;
    if k <= p && p < end {
        if p + 1 < end {
            to.add(p + 1);
            return false;
        }
        return true;
    }
    false
}

/// `follow` for parts that stand one after the other.
#[cycle(follow)]
fn follow_in_sequence(parts: &[Regex], k: u32, p: u32, to: &mut Bits) -> bool
    requires room { k + position_count (sequence_of (map meaning parts.now)) ≤ to.old.size }
    requires fits { to.old.size < 2 ^ 32 }
    ensures follows { Adds to.old to.new (Follow (sequence_of (map meaning parts.now)) k p) }
    ensures last { IsTrue result ↔ Last (sequence_of (map meaning parts.now)) k p }
{
    let mut at = k;
    let mut entered = false;
    for part in parts {
        entered = follow_in_part(part, at, p, entered, to);
        at += positions(part);
    }
    entered
}

/// `follow` for one of these parts, where `entered` says whether those before it may end with the
/// position. The answer says whether those up to this one may.
#[cycle(follow)]
fn follow_in_part(part: &Regex, k: u32, p: u32, entered: bool, to: &mut Bits) -> bool
    requires room { k + position_count (meaning part.now) ≤ to.old.size }
    requires fits { to.old.size < 2 ^ 32 }
    ensures follows { Adds to.old to.new (λ q.
        Follow (meaning part.now) k p q ⊎ (IsTrue entered × First (meaning part.now) k q)) }
    ensures last { IsTrue result
        ↔ (Last (meaning part.now) k p ⊎ (IsTrue entered × IsTrue (has_empty (meaning part.now)))) }
{
    let last = follow(part, k, p, to);
    add_first_if(entered, part, k, to);
    last || entered && has_empty_word(part)
}

/// `follow` for alternatives.
#[cycle(follow)]
fn follow_in_alternatives(parts: &[Regex], k: u32, p: u32, to: &mut Bits) -> bool
    requires room { k + position_count (alternative_of (map meaning parts.now)) ≤ to.old.size }
    requires fits { to.old.size < 2 ^ 32 }
    ensures follows { Adds to.old to.new (Follow (alternative_of (map meaning parts.now)) k p) }
    ensures last { IsTrue result ↔ Last (alternative_of (map meaning parts.now)) k p }
{
    let mut at = k;
    let mut last = false;
    for part in parts {
        last |= follow(part, at, p, to);
        at += positions(part);
    }
    last
}

/// `follow` for a part that may come again.
#[cycle(follow)]
fn follow_in_round(part: &Regex, k: u32, p: u32, to: &mut Bits) -> bool
    requires room { k + position_count (meaning part.now) ≤ to.old.size }
    requires fits { to.old.size < 2 ^ 32 }
    ensures follows { Adds to.old to.new (Follow (star (meaning part.now)) k p) }
    ensures last { IsTrue result ↔ Last (star (meaning part.now)) k p }
{
    let last = follow(part, k, p, to);
    add_first_if(last, part, k, to);
    last
}
