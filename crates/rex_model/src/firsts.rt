// Positions at which a word of an expression may begin, in one walk.
ghost use Rattle.std.specs.Prelude.{◌≡◌, ◌&&◌, ◌+◌, ◌^◌, ◌<◌, ◌≤◌, IsTrue, true, length, map};
ghost use Rattle.ck_base.specs.BitSet.{Adds};
ghost use Rattle.rex_model.specs.Language.{bytes};
ghost use Rattle.rex_model.specs.Meaning.{meaning, sequence_of, alternative_of};
ghost use Rattle.rex_model.specs.Positions.{position_count, has_empty, First};

use crate::counts::positions;
use crate::regex::Regex;
use ck_base::Bits;

/// Which number stands behind an expression's positions, and whether the empty word is in its
/// language.
#[derive(Clone, Copy)]
struct Front {
    past: u32,
    empty: bool,
}

/// Adds the positions at which a word may begin. The expression's positions are numbered from `k`.
pub fn add_first(r: &Regex, k: u32, to: &mut Bits)
    requires room { k + position_count (meaning r.now) ≤ to.old.size }
    requires fits { to.old.size < 2 ^ 32 }
    ensures { Adds to.old to.new (First (meaning r.now) k) }
{
    add_front(r, k, to);
}

/// The same, with what stands behind the expression.
#[cycle(first)]
fn add_front(r: &Regex, k: u32, to: &mut Bits) -> Front
    requires room { k + position_count (meaning r.now) ≤ to.old.size }
    requires fits { to.old.size < 2 ^ 32 }
    ensures first { Adds to.old to.new (First (meaning r.now) k) }
    ensures past { result.past ≡ k + position_count (meaning r.now) }
    ensures empty { result.empty ≡ has_empty (meaning r.now) }
{
    match r {
        Regex::Bytes(string) => front_of_string(string, k, to),
        Regex::Class(_) => {
            to.add(k);
            Front {
                past: k + 1,
                empty: false,
            }
        }
        Regex::Seq(parts) => front_of_sequence(parts, k, to),
        Regex::Alt(parts) => front_of_alternatives(parts, k, to),
        Regex::Star(part) => front_of_optional(part, k, to),
        Regex::Opt(part) => front_of_optional(part, k, to),
        Regex::Plus(part) => add_front(part, k, to),
    }
}

/// The same for a string.
fn front_of_string(string: &[u8], k: u32, to: &mut Bits) -> Front
    requires room { k + length string.now ≤ to.old.size }
    requires fits { to.old.size < 2 ^ 32 }
    ensures first { Adds to.old to.new (First (bytes string.now) k) }
    ensures past { result.past ≡ k + length string.now }
    ensures empty { result.empty ≡ has_empty (bytes string.now) }
{
    if string.is_empty() {
        return Front {
            past: k,
            empty: true,
        };
    }
    to.add(k);
    Front {
        past: k + string.len() as u32,
        empty: false,
    }
}

/// The same for a part that may be left out.
#[cycle(first)]
fn front_of_optional(part: &Regex, k: u32, to: &mut Bits) -> Front
    requires room { k + position_count (meaning part.now) ≤ to.old.size }
    requires fits { to.old.size < 2 ^ 32 }
    ensures first { Adds to.old to.new (First (meaning part.now) k) }
    ensures past { result.past ≡ k + position_count (meaning part.now) }
    ensures empty { result.empty ≡ true }
{
    let own = add_front(part, k, to);
    Front {
        past: own.past,
        empty: true,
    }
}

/// The same for parts that stand one after the other.
#[cycle(first)]
fn front_of_sequence(parts: &[Regex], k: u32, to: &mut Bits) -> Front
    requires room { k + position_count (sequence_of (map meaning parts.now)) ≤ to.old.size }
    requires fits { to.old.size < 2 ^ 32 }
    ensures first { Adds to.old to.new (First (sequence_of (map meaning parts.now)) k) }
    ensures past { result.past ≡ k + position_count (sequence_of (map meaning parts.now)) }
    ensures empty { result.empty ≡ has_empty (sequence_of (map meaning parts.now)) }
{
    let mut at = k;
    let mut empty = true;
    for part in parts {
        let own = front_of_part(part, at, empty, to);
        at = own.past;
        empty = own.empty;
    }
    Front { past: at, empty }
}

/// The same for one of these parts, where `empty` says whether those before it have the empty word.
/// The answer says whether those up to this one have it.
#[cycle(first)]
fn front_of_part(part: &Regex, k: u32, empty: bool, to: &mut Bits) -> Front
    requires room { k + position_count (meaning part.now) ≤ to.old.size }
    requires fits { to.old.size < 2 ^ 32 }
    ensures first { Adds to.old to.new (λ q. IsTrue empty × First (meaning part.now) k q) }
    ensures past { result.past ≡ k + position_count (meaning part.now) }
    ensures empty { result.empty ≡ (empty && has_empty (meaning part.now)) }
{
    if empty {
        return add_front(part, k, to);
    }
    Front {
        past: k + positions(part),
        empty: false,
    }
}

/// The same for alternatives.
#[cycle(first)]
fn front_of_alternatives(parts: &[Regex], k: u32, to: &mut Bits) -> Front
    requires room { k + position_count (alternative_of (map meaning parts.now)) ≤ to.old.size }
    requires fits { to.old.size < 2 ^ 32 }
    ensures first { Adds to.old to.new (First (alternative_of (map meaning parts.now)) k) }
    ensures past { result.past ≡ k + position_count (alternative_of (map meaning parts.now)) }
    ensures empty { result.empty ≡ has_empty (alternative_of (map meaning parts.now)) }
{
    let mut at = k;
    let mut empty = false;
    for part in parts {
        let own = add_front(part, at, to);
        at = own.past;
        empty |= own.empty;
    }
    Front { past: at, empty }
}

/// Adds them where the condition is true.
pub(crate) fn add_first_if(condition: bool, r: &Regex, k: u32, to: &mut Bits)
    requires room { k + position_count (meaning r.now) ≤ to.old.size }
    requires fits { to.old.size < 2 ^ 32 }
    ensures { Adds to.old to.new (λ q. IsTrue condition × First (meaning r.now) k q) }
{
    if condition {
        add_first(r, k, to);
    }
}
