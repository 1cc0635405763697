// Which positions of an expression take a byte.
ghost use Rattle.std.specs.Prelude.{ℕ, ◌≡◌, ◌+◌, ◌^◌, ◌<◌, ◌≤◌, length, map};
ghost use Rattle.ck_base.specs.BitSet.{Adds};
ghost use Rattle.rex_model.specs.Language.{bytes};
ghost use Rattle.rex_model.specs.Meaning.{meaning, sequence_of, alternative_of};
ghost use Rattle.rex_model.specs.Positions.{position_count, Takes};

use crate::counts::positions;
use crate::regex::Regex;
use crate::sets::is_in;
use ck_base::Bits;

/// Adds the positions that take the byte. The expression's positions are numbered from `k`.
#[cycle(takers)]
pub fn add_takers(r: &Regex, k: u32, byte: u8, to: &mut Bits)
    requires room { k + position_count (meaning r.now) ≤ to.old.size }
    requires fits { to.old.size < 2 ^ 32 }
    ensures { Adds to.old to.new (λ p. Takes (meaning r.now) k p byte) }
{
    match r {
        Regex::Bytes(string) => takers_in_string(string, k, byte, to),
        Regex::Class(words) => {
            if is_in(words, byte) {
                to.add(k);
            }
        }
        Regex::Seq(parts) => takers_in_sequence(parts, k, byte, to),
        Regex::Alt(parts) => takers_in_alternatives(parts, k, byte, to),
        Regex::Star(part) | Regex::Plus(part) | Regex::Opt(part) => add_takers(part, k, byte, to),
    }
}

/// The same for a string.
fn takers_in_string(string: &[u8], k: u32, byte: u8, to: &mut Bits)
    requires room { k + length string.now ≤ to.old.size }
    requires fits { to.old.size < 2 ^ 32 }
    ensures { Adds to.old to.new (λ p. Takes (bytes string.now) k p byte) }
{
    for (i, b) in string.iter().enumerate() {
        add_if_same(*b, byte, k + i as u32, to);
    }
}

/// Adds the number where the bytes are the same.
fn add_if_same(a: u8, b: u8, p: u32, to: &mut Bits)
    requires { p < to.old.size }
    ensures { Adds to.old to.new (λ q. (q ≡ p) × (b ≡ a)) }
{
    if a == b {
        to.add(p);
    }
}

/// The same for parts that stand one after the other.
#[cycle(takers)]
fn takers_in_sequence(parts: &[Regex], k: u32, byte: u8, to: &mut Bits)
    requires room { k + position_count (sequence_of (map meaning parts.now)) ≤ to.old.size }
    requires fits { to.old.size < 2 ^ 32 }
    ensures { Adds to.old to.new (λ p. Takes (sequence_of (map meaning parts.now)) k p byte) }
{
    let mut at = k;
    for part in parts {
        add_takers(part, at, byte, to);
        at += positions(part);
    }
}

/// The same for alternatives.
#[cycle(takers)]
fn takers_in_alternatives(parts: &[Regex], k: u32, byte: u8, to: &mut Bits)
    requires room { k + position_count (alternative_of (map meaning parts.now)) ≤ to.old.size }
    requires fits { to.old.size < 2 ^ 32 }
    ensures { Adds to.old to.new (λ p. Takes (alternative_of (map meaning parts.now)) k p byte) }
{
    let mut at = k;
    for part in parts {
        add_takers(part, at, byte, to);
        at += positions(part);
    }
}
