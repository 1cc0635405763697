// How many positions a regular expression has.
ghost use Rattle.std.specs.Prelude.{◌≡◌, ◌-◌, ◌^◌, min, map};
ghost use Rattle.rex_model.specs.Meaning.{meaning, sequence_of};
ghost use Rattle.rex_model.specs.Positions.{position_count};

use crate::regex::Regex;

/// How many positions the expression has: one for each byte of its strings and one for each of its
/// classes. The answer is 4,294,967,295 where there are more.
#[cycle(counts)]
pub fn positions(r: &Regex) -> u32
    ensures { result ≡ min (position_count (meaning r.now)) (2 ^ 32 - 1) }
{
    match r {
        Regex::Bytes(string) => string.len().min(u32::MAX as usize) as u32,
        Regex::Class(_) => 1,
        Regex::Seq(parts) | Regex::Alt(parts) => positions_of_all(parts),
        Regex::Star(part) | Regex::Plus(part) | Regex::Opt(part) => positions(part),
    }
}

/// How many positions the parts have together, likewise.
#[cycle(counts)]
fn positions_of_all(parts: &[Regex]) -> u32
    ensures { result ≡ min (position_count (sequence_of (map meaning parts.now))) (2 ^ 32 - 1) }
{
    let mut total = 0u32;
    for part in parts {
        total = total.saturating_add(positions(part));
    }
    total
}
