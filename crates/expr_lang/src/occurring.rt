// The variables that occur in an expression.
ghost use Rattle.std.specs.Prelude.{◌≡◌, ◌++◌, ℕ, List, map, OnOk};
ghost use Rattle.expr_lang.specs.Meaning.{expressions_of, meaning};
ghost use Rattle.expr_lang.specs.Occurring.{vars_in, vars_in_all};

use crate::expr::Expr;
use value_store::NoMemory;

/// Puts the numbers of the variables in the expression behind those that are there, from left to
/// right, each as often as it occurs.
#[cycle(vars)]
pub fn vars_in(e: &Expr, into: &mut Vec<u32>) -> Result<(), NoMemory>
    ensures { (source literals : List ℕ) → OnOk result (into.new.items
        ≡ into.old.items ++ vars_in (meaning source literals e.now)) }
{
    match e {
        Expr::Int(_) => Ok(()),
        Expr::Bool(_) => Ok(()),
        Expr::Text(_) => Ok(()),
        Expr::Var(i) => {
            into.push(*i)?;
            Ok(())
        }
        Expr::Neg(a) => vars_in(a, into),
        Expr::Not(a) => vars_in(a, into),
        Expr::Binary(_, a, b) => {
            vars_in(a, into)?;
            vars_in(b, into)?;
            Ok(())
        }
        Expr::If(c, a, b) => {
            vars_in(c, into)?;
            vars_in(a, into)?;
            vars_in(b, into)?;
            Ok(())
        }
        Expr::Call(_, args) => vars_in_all(args, into),
        Expr::Make(_, args) => vars_in_all(args, into),
    }
}

/// The same of all the expressions.
#[cycle(vars)]
fn vars_in_all(list: &[Expr], into: &mut Vec<u32>) -> Result<(), NoMemory>
    ensures { (source literals : List ℕ) → OnOk result (into.new.items ≡ into.old.items
        ++ vars_in_all (expressions_of (map (meaning source literals) list.now))) }
{
    for e in list {
        vars_in(e, into)?;
    }
    Ok(())
}
