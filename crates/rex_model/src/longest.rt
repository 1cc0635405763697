// The longest front of a text that an expression has.
ghost use Rattle.std.specs.Prelude.{◌≡◌, ◌^◌, ◌<◌, ◌≤◌};
ghost use Rattle.rex_model.specs.within.Longest.{IsLongest};
ghost use Rattle.rex_model.specs.Meaning.{meaning};
ghost use Rattle.rex_model.specs.Positions.{position_count};

use crate::firsts::add_first;
use crate::regex::Regex;
use crate::sets::step;
use ck_base::Bits;
use std::mem::swap;

/// How many bytes the longest word has that the text begins with, the empty word apart. The two sets
/// hold positions in turn; what they hold before is of no matter.
pub(crate) fn longest(r: &Regex, text: &[u8], from: &mut Bits, to: &mut Bits) -> Option<usize>
    requires room { position_count (meaning r.now) ≤ from.old.size }
    requires fits { from.old.size < 2 ^ 32 }
    requires same_size { to.old.size ≡ from.old.size }
    ensures longest { IsLongest (meaning r.now) text.now result }
    ensures from_size { from.new.size ≡ from.old.size }
    ensures to_size { to.new.size ≡ to.old.size }
{
    from.clear();
    to.clear();
    add_first(r, 0, from);
    let mut found = None;
    for (i, byte) in text.iter().enumerate() {
        if from.is_empty() {
            break;
        }
        if step(r, 0, from, *byte, to) {
            found = Some(i + 1);
        }
        swap(from, to);
        to.clear();
    }
    found
}
