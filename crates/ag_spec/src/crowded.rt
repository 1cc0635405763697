// Lines with which a family has more attributes than it may have.
ghost use Rattle.std.specs.Prelude.{◌≡◌, ◌+◌, ◌<◌, ◌^◌, ◌↔◌, length, slice_index, IsTrue, IfSome};
ghost use Rattle.ag_spec.specs.within.AgSeen.{saying_seen};
ghost use Rattle.ag_spec.specs.within.Counts.{IsRaised, family_said};

use crate::line::Saying;
use ck_base::NoMemory;
use node_model::TypeNames;
use section_frame::LineTest;

/// Lines with which a family has more than 16 attributes. How many each family has so far stands in
/// its place.
#[derive(Drop)]
pub(crate) struct Crowded<'t> {
    pub table: &'t TypeNames<'t>,
    pub counts: Vec<u32>,
}

impl<'s, 't> LineTest<Saying<'s>> for Crowded<'t> {
    ghost use Rattle.std.specs.Prelude.{map, take};
    ghost use Rattle.section_frame.specs.Passes.{as_seen};
    ghost use Rattle.ag_spec.specs.AgFaults.{IsCrowded};
    ghost use Rattle.ag_spec.specs.within.AgSeen.{saying_seen};
    ghost use Rattle.ag_spec.specs.within.Counts.{AreCounts};

    ghost finds = { λ test ds i t.
        IsCrowded test.table.now (map (as_seen saying_seen) ds) i (saying_seen t) };

    ghost keeps = { λ test ds i.
        AreCounts test.table.now (take i (map (as_seen saying_seen) ds)) test.counts.items i };

    fn test(&mut self, says: &Saying<'s>) -> Result<bool, NoMemory> {
        let Some(family) = family_in(self.table, says) else {
            return Ok(false);
        };
        let count = raise(&mut self.counts, family);
        Ok(is_past(count))
    }
}

/// The family of the attribute that the line declares, by its number.
fn family_in(table: &TypeNames<'_>, says: &Saying<'_>) -> Option<u32>
    ensures is { result ≡ family_said table.now (saying_seen says.now) }
    ensures within { IfSome result (λ f. f < length table.now.families) }
{
    match says {
        Saying::Attribute(line) => table.family(line.family),
        Saying::Equation(_) => None,
    }
}

/// Whether so many attributes are more than a family may have.
fn is_past(count: u32) -> bool
    ensures { IsTrue result ↔ (16 < count) }
{
    count > 16
}

/// One more is counted of the number; how many there are now.
fn raise(counts: &mut Vec<u32>, n: u32) -> u32
    requires within { n < length counts.old.items }
    requires few { slice_index counts.old.items n + 1 < 2 ^ 32 }
    ensures raised { IsRaised counts.old.items counts.new.items n }
    ensures count { result ≡ slice_index counts.new.items n }
{
    counts[n as usize] += 1;
    counts[n as usize]
}
