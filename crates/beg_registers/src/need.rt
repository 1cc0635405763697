// How many registers a class needs.
ghost use Rattle.std.specs.Prelude.{◌≡◌, ℕ, ◌+◌, ◌-◌, ◌<◌, ◌≤◌, ◌^◌, List, length, slice_index, max, if◌then◌else◌};
ghost use Rattle.beg_model.specs.Items.{IsKnown, AreKnown, item_of, items};
ghost use Rattle.beg_model.specs.Registers.{IsNeed};
ghost use Rattle.beg_registers.specs.within.OnePass.{AreUses};

use crate::items::{holds, is_early};
use beg_model::{CoverRules, Instance};

/// How many values are held: all that live, less those that end here where the rule isn't EARLY.
fn held_of(rules: &CoverRules, i: &Instance, live: u32, ending: u32) -> u32
    requires known { IsKnown rules.now i.now }
    requires ending { ending ≤ live }
    ensures { result ≡ if (item_of rules.now i.now).early then live else (live - ending) }
{
    if is_early(rules, i) {
        live
    } else {
        live - ending
    }
}

/// The need of the class; `ends` has a place for each instance, with 0.
pub(crate) fn need_of(
    rules: &CoverRules,
    list: &[Instance],
    uses: &[u32],
    class: u32,
    ends: &mut [u32],
) -> u32
    requires known { AreKnown rules.now list.now }
    requires few { length list.now + 1 < 2 ^ 32 }
    requires uses { AreUses (items rules.now list.now) uses.now class }
    requires size { length ends.old ≡ length list.now }
    requires fresh { (q : ℕ) → slice_index ends.old q ≡ 0 }
    ensures need { IsNeed (items rules.now list.now) class result }
    ensures size { length ends.new ≡ length ends.old }
{
    let mut live = 0;
    let mut need = 0;
    for p in 0..list.len() {
        let instance = &list[p];
        let ending = ends[p];
        let held = held_of(rules, instance, live, ending);
        live -= ending;
        if holds(rules, instance, class) {
            let at = uses[p] as usize;
            ends[at] += 1;
            live += 1;
            need = greater(need, held + 1);
        }
    }
    need
}

fn greater(a: u32, b: u32) -> u32
    ensures { result ≡ max a b }
{
    if a < b { b } else { a }
}
