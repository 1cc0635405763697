// How many units of a store an expression's value may take.
ghost use Rattle.std.specs.Prelude.{◌≡◌, ℕ, List, map, min};
ghost use Rattle.expr_lang.specs.Units.{units_of, units_of_all, own_units};
ghost use Rattle.expr_lang.specs.Meaning.{meaning, expressions_of};

use crate::expr::{Expr, Function};

/// How many units of a store one evaluation takes at most, with all branches counted: one for each
/// `put`, one for each maker and one for each of its arguments. The greatest u64 where there are
/// more.
#[cycle(units)]
pub fn units(e: &Expr) -> u64
    ensures { (source literals : List ℕ)
        → result ≡ min (units_of (meaning source literals e.now)) 18446744073709551615 }
{
    match e {
        Expr::Int(_) => 0,
        Expr::Bool(_) => 0,
        Expr::Text(_) => 0,
        Expr::Var(_) => 0,
        Expr::Neg(a) => units(a),
        Expr::Not(a) => units(a),
        Expr::Binary(_, a, b) => units(a).saturating_add(units(b)),
        Expr::If(c, a, b) => units(c).saturating_add(units(a)).saturating_add(units(b)),
        Expr::Call(function, args) => units_all(args).saturating_add(units_here(*function)),
        Expr::Make(_, args) => units_all(args)
            .saturating_add(1)
            .saturating_add(args.len() as u64),
    }
}

/// The units of all the arguments.
#[cycle(units)]
fn units_all(args: &[Expr]) -> u64
    ensures { (source literals : List ℕ) → result
        ≡ min (units_of_all (expressions_of (map (meaning source literals) args.now)))
        18446744073709551615 }
{
    let mut sum: u64 = 0;
    for e in args {
        sum = sum.saturating_add(units(e));
    }
    sum
}

/// The units that the function itself takes.
fn units_here(function: Function) -> u64
    ensures { result ≡ own_units function }
{
    match function {
        Function::Put => 1,
        _ => 0,
    }
}
