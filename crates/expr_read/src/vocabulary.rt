// All that the names of an expression can stand for.
use std::marker::Model;
use value_store::Name;

/// What an expression may name: variables by their names, makers by theirs, of which the types are
/// in the same order, and variables by two words. Of equal names the first one counts.
#[derive(Drop)]
pub struct Vocabulary<'s> {
    pub variables: &'s [Name],
    pub makers: &'s [Name],
    /// The type of each maker.
    pub types: &'s [u32],
    /// The word before a `.`, the word after it, and the number of the variable that they stand
    /// for.
    pub dotted: &'s [(Name, Name, u32)],
}

impl<'s> Model for Vocabulary<'s> {
    ghost use Rattle.expr_read.specs.Resolving.{Vocabulary};
    ghost use Rattle.std.specs.Prelude.{map};
    ghost use Rattle.expr_read.specs.Written.{dotted_in};

    ghost Value = { Vocabulary };

    ghost view = { λ v. record {
      variables = v.variables.now;
      makers = v.makers.now;
      types = v.types.now;
      dotted = map dotted_in v.dotted.now;
    } };
}
