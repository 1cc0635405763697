// Why tokens are no expression: by kind, or want of memory.
ghost use Rattle.std.specs.Prelude.{◌≡◌};
ghost use Rattle.expr_read.specs.declared.fault.ExprFault.TheVariants.{NoMemory};

use ck_base::Kind;

/// Why there is no expression.
#[derive(Clone, Copy, Debug, PartialEq, Eq)]
pub enum ExprFault {
    /// The tokens are no expression (`Syntax`, and `next` is where it was to begin); or the expression
    /// names what isn't declared (`Unknown`) or has no type (`Typing`), and `next` is the number of the
    /// token behind it.
    Bad { kind: Kind, next: usize },
    /// Memory was wanting.
    NoMemory,
}

impl From<ck_base::NoMemory> for ExprFault {
    ghost from_gives = { λ _ e. e ≡ NoMemory };

    fn from(_: ck_base::NoMemory) -> ExprFault {
        ExprFault::NoMemory
    }
}
