// Laws, on empty functions: tokens are read as at most one expression, and as at most one pattern.
ghost use Rattle.std.specs.Prelude.{◌≡◌, List};
ghost use Rattle.spec_text.specs.Lexemes.{Lexeme};
ghost use Rattle.expr_read.specs.Notation.{IsSpoken, MayFollow};
ghost use Rattle.expr_read.specs.Patterns.{IsPattern, Pattern};
ghost use Rattle.expr_read.specs.Spoken.{Spoken};

/// Law: tokens begin with one expression at most behind which one may end, and it ends in one place.
pub fn at_most_one_expression()
    ensures { (tokens rest more : List Lexeme) (e f : Spoken) → MayFollow rest → MayFollow more
        → IsSpoken tokens e rest → IsSpoken tokens f more → (e ≡ f) × (rest ≡ more) }
{}

/// Law: tokens begin with one pattern at most, and it ends in one place.
pub fn at_most_one_pattern()
    ensures { (tokens rest more : List Lexeme) (p q : Pattern) → IsPattern tokens p rest
        → IsPattern tokens q more → (p ≡ q) × (rest ≡ more) }
{}
