// How lines of the section AG are called, and which names they use.
use crate::line::Saying;
use section_frame::{Naming, Uses};

/// Attributes are called by their family's name and their own.
#[derive(Clone, Copy)]
pub(crate) struct ByCalled;

impl<'s> Naming<Saying<'s>> for ByCalled {
    ghost use Rattle.ag_spec.specs.AgFaults.{attribute_called};
    ghost use Rattle.ag_spec.specs.AgShapes.{AgSaying};
    ghost use Rattle.ag_spec.specs.within.AgSeen.{saying_seen};

    ghost Said = { AgSaying };

    ghost seen = { saying_seen };

    ghost name = { attribute_called };

    fn name_of<'t>(&self, says: &'t Saying<'s>) -> Option<&'t [u8]> {
        match says {
            Saying::Attribute(line) => Some(line.called),
            Saying::Equation(_) => None,
        }
    }
}

/// Attributes by their own names alone.
#[derive(Clone, Copy)]
pub(crate) struct ByName;

impl<'s> Naming<Saying<'s>> for ByName {
    ghost use Rattle.ag_spec.specs.AgFaults.{attribute_name};
    ghost use Rattle.ag_spec.specs.AgShapes.{AgSaying};
    ghost use Rattle.ag_spec.specs.within.AgSeen.{saying_seen};

    ghost Said = { AgSaying };

    ghost seen = { saying_seen };

    ghost name = { attribute_name };

    fn name_of<'t>(&self, says: &'t Saying<'s>) -> Option<&'t [u8]> {
        match says {
            Saying::Attribute(line) => Some(line.name),
            Saying::Equation(_) => None,
        }
    }
}

/// Attributes by their families.
#[derive(Clone, Copy)]
pub(crate) struct ByFamily;

impl<'s> Naming<Saying<'s>> for ByFamily {
    ghost use Rattle.ag_spec.specs.AgFaults.{attribute_family};
    ghost use Rattle.ag_spec.specs.AgShapes.{AgSaying};
    ghost use Rattle.ag_spec.specs.within.AgSeen.{saying_seen};

    ghost Said = { AgSaying };

    ghost seen = { saying_seen };

    ghost name = { attribute_family };

    fn name_of<'t>(&self, says: &'t Saying<'s>) -> Option<&'t [u8]> {
        match says {
            Saying::Attribute(line) => Some(line.family),
            Saying::Equation(_) => None,
        }
    }
}

/// Attributes name their family.
#[derive(Clone, Copy)]
pub(crate) struct Families;

impl<'s> Uses<Saying<'s>> for Families {
    ghost use Rattle.ag_spec.specs.AgFaults.{families_used};
    ghost use Rattle.ag_spec.specs.AgShapes.{AgSaying};
    ghost use Rattle.ag_spec.specs.within.AgSeen.{saying_seen};

    ghost Said = { AgSaying };

    ghost seen = { saying_seen };

    ghost uses = { families_used };

    fn count(&self, says: &Saying<'s>) -> usize {
        match says {
            Saying::Attribute(_) => 1,
            Saying::Equation(_) => 0,
        }
    }

    fn used<'t>(&self, says: &'t Saying<'s>, _place: usize) -> &'t [u8] {
        match says {
            Saying::Attribute(line) => line.family,
            Saying::Equation(line) => line.holder,
        }
    }
}

/// Attributes name their type.
#[derive(Clone, Copy)]
pub(crate) struct AttributeTypes;

impl<'s> Uses<Saying<'s>> for AttributeTypes {
    ghost use Rattle.ag_spec.specs.AgFaults.{types_used};
    ghost use Rattle.ag_spec.specs.AgShapes.{AgSaying};
    ghost use Rattle.ag_spec.specs.within.AgSeen.{saying_seen};

    ghost Said = { AgSaying };

    ghost seen = { saying_seen };

    ghost uses = { types_used };

    fn count(&self, says: &Saying<'s>) -> usize {
        match says {
            Saying::Attribute(_) => 1,
            Saying::Equation(_) => 0,
        }
    }

    fn used<'t>(&self, says: &'t Saying<'s>, _place: usize) -> &'t [u8] {
        match says {
            Saying::Attribute(line) => line.of,
            Saying::Equation(line) => line.holder,
        }
    }
}

/// Equations name their holder.
#[derive(Clone, Copy)]
pub(crate) struct Holders;

impl<'s> Uses<Saying<'s>> for Holders {
    ghost use Rattle.ag_spec.specs.AgFaults.{holders_used};
    ghost use Rattle.ag_spec.specs.AgShapes.{AgSaying};
    ghost use Rattle.ag_spec.specs.within.AgSeen.{saying_seen};

    ghost Said = { AgSaying };

    ghost seen = { saying_seen };

    ghost uses = { holders_used };

    fn count(&self, says: &Saying<'s>) -> usize {
        match says {
            Saying::Attribute(_) => 0,
            Saying::Equation(_) => 1,
        }
    }

    fn used<'t>(&self, says: &'t Saying<'s>, _place: usize) -> &'t [u8] {
        match says {
            Saying::Attribute(line) => line.family,
            Saying::Equation(line) => line.holder,
        }
    }
}
