// Whether a written expression names what isn't there.
ghost use Rattle.std.specs.Prelude.{◌≡◌, ◌||◌, map};
ghost use Rattle.expr_read.specs.Resolving.{has_unknown, has_unknown_all, is_applicable};
ghost use Rattle.expr_read.specs.Writing.{spoken_list, spoken_of};

use crate::lookup::function_named;
use crate::maker_names::Makers;
use crate::written::Written;

/// Whether a name before parentheses is neither that of a function nor one of these.
#[cycle(unknown)]
pub fn has_unknown<M: Makers>(e: &Written<'_>, makers: &M) -> bool
    ensures { result ≡ has_unknown (M.names makers.now) (spoken_of e.now) }
{
    match e {
        Written::Number(_) => false,
        Written::Truth(_) => false,
        Written::Text(_) => false,
        Written::Name(_) => false,
        Written::Dollar(_) => false,
        Written::Pair(_, _) => false,
        Written::Negative(a) => has_unknown(a, makers),
        Written::Negated(a) => has_unknown(a, makers),
        Written::Binary(_, a, b) => {
            let left = has_unknown(a, makers);
            let right = has_unknown(b, makers);
            either(left, right)
        }
        Written::If(c, a, b) => {
            let condition = has_unknown(c, makers);
            let left = has_unknown(a, makers);
            let right = has_unknown(b, makers);
            either(condition, either(left, right))
        }
        Written::Applied(name, args) => {
            let known = is_applicable(name, makers);
            let inside = any_unknown(args, makers);
            either(!known, inside)
        }
        Written::Grouped(a) => has_unknown(a, makers),
    }
}

/// Whether there is such a name in one of the expressions.
#[cycle(unknown)]
fn any_unknown<M: Makers>(list: &[Written<'_>], makers: &M) -> bool
    ensures { result ≡ has_unknown_all (M.names makers.now) (spoken_list (map spoken_of list.now)) }
{
    for e in list {
        if has_unknown(e, makers) {
            return true;
        }
    }
    false
}

/// Whether one of the two is true.
fn either(a: bool, b: bool) -> bool
    ensures { result ≡ a || b }
{
    a || b
}

/// Whether a function or one of these is called so.
fn is_applicable<M: Makers>(name: &[u8], makers: &M) -> bool
    ensures { result ≡ is_applicable (M.names makers.now) name.now }
{
    function_named(name).is_some() || makers.knows(name)
}
