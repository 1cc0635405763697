// Lines whose expressions use a maker that isn't there.
ghost use Rattle.std.specs.Prelude.{◌↔◌, IsTrue};
ghost use Rattle.ag_spec.specs.AgFaults.{HasUnknown};
ghost use Rattle.ag_spec.specs.within.AgSeen.{saying_seen};

use crate::known::NodeNames;
use crate::line::Saying;
use ck_base::NoMemory;
use expr_read::has_unknown;
use section_frame::LineTest;

/// Lines whose expressions have a name before parentheses that is neither that of a function nor
/// that of a type.
#[derive(Clone, Copy)]
pub(crate) struct UnknownMakers<'t> {
    pub types: NodeNames<'t>,
}

impl<'s, 't> LineTest<Saying<'s>> for UnknownMakers<'t> {
    ghost use Rattle.ag_spec.specs.AgFaults.{HasUnknown};
    ghost use Rattle.ag_spec.specs.within.AgSeen.{saying_seen};

    ghost finds = { λ test ds i t. HasUnknown test.types.names.now (saying_seen t) };

    ghost keeps = { λ test ds i. Unit {0} };

    fn test(&mut self, says: &Saying<'s>) -> Result<bool, NoMemory> {
        Ok(lacks_maker(&self.types, says))
    }
}

/// Whether the line's expression has such a name.
fn lacks_maker(types: &NodeNames<'_>, says: &Saying<'_>) -> bool
    ensures { IsTrue result ↔ HasUnknown types.now.names.now (saying_seen says.now) }
{
    match says {
        Saying::Attribute(_) => false,
        Saying::Equation(line) => has_unknown(&line.value, types),
    }
}
