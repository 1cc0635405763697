// An expression's value in a store, without recursion beyond its nesting.
ghost use Rattle.std.specs.Prelude.{◌≡◌, ◌+◌, ◌≤◌, ◌<◌, IfOk, OnOk, IsOk, length, slice_get, take, Some};
ghost use Rattle.value_store.specs.Cells.{cells_of};
ghost use Rattle.expr_lang.specs.Expression.{call, make};
ghost use Rattle.expr_lang.specs.Units.{units_of, units_of_all};
ghost use Rattle.expr_lang.specs.Meaning.{meant, meant_all};
ghost use Rattle.expr_lang.specs.Evaluated.{Ready, ReadyAll, GivesValue, GivesValues, KeepsCells};
ghost use Rattle.value_store.specs.declared.value.Value.TheVariants as value;

use crate::application::{apply, make};
use crate::expr::{Expr, Function};
use crate::operators::{bool_of, join, negate, negated};
use value_store::{Cells, NoMemory, Text, Texts, Value};

/// The value of the expression, where `env` has the values of the variables. Token n has its text
/// and its line and column in `spans` and `places`. After an error the store may have more cells.
#[cycle(eval)]
pub fn eval(
    e: &Expr,
    env: &[Value],
    texts: &Texts,
    cells: &mut Cells,
    spans: &[Text],
    places: &[(u32, u32)],
) -> Result<Value, NoMemory>
    requires { Ready (cells_of cells.old.units) env.now (meant texts.now e.now) }
    ensures ok { IfOk result (GivesValue texts.now spans.now places.now cells.old cells.new
        env.now (meant texts.now e.now)) }
    ensures kept { KeepsCells cells.old cells.new }
    ensures spare { OnOk result
        (cells.old.spare ≤ cells.new.spare + units_of (meant texts.now e.now)) }
    ensures room { units_of (meant texts.now e.now) ≤ cells.old.spare → IsOk result }
{
    match e {
        Expr::Int(n) => Ok(int_value(n)),
        Expr::Bool(b) => Ok(Value::Bool(*b)),
        Expr::Text(t) => Ok(Value::Text(*t)),
        Expr::Var(i) => Ok(value_at(env, *i as usize)),
        Expr::Neg(a) => {
            let inner = eval(a, env, texts, cells, spans, places)?;
            Ok(negate(inner))
        }
        Expr::Not(a) => {
            let inner = eval(a, env, texts, cells, spans, places)?;
            Ok(negated(inner))
        }
        Expr::Binary(op, a, b) => {
            let left = eval(a, env, texts, cells, spans, places)?;
            let right = eval(b, env, texts, cells, spans, places)?;
            Ok(join(*op, left, right, texts))
        }
        Expr::If(c, a, b) => {
            let test = eval(c, env, texts, cells, spans, places)?;
            if bool_of(test) {
                eval(a, env, texts, cells, spans, places)
            } else {
                eval(b, env, texts, cells, spans, places)
            }
        }
        Expr::Call(function, args) => {
            eval_call(*function, args, env, texts, cells, spans, places)
        }
        Expr::Make(ty, args) => eval_make(*ty, args, env, texts, cells, spans, places),
    }
}

/// The value of the function at these arguments.
#[cycle(eval)]
fn eval_call(
    function: Function,
    args: &[Expr],
    env: &[Value],
    texts: &Texts,
    cells: &mut Cells,
    spans: &[Text],
    places: &[(u32, u32)],
) -> Result<Value, NoMemory>
    requires { Ready (cells_of cells.old.units) env.now (call function (meant_all texts.now args.now)) }
    ensures ok { IfOk result (GivesValue texts.now spans.now places.now cells.old cells.new
        env.now (call function (meant_all texts.now args.now))) }
    ensures kept { KeepsCells cells.old cells.new }
    ensures spare { OnOk result (cells.old.spare
        ≤ cells.new.spare + units_of (call function (meant_all texts.now args.now))) }
    ensures room { units_of (call function (meant_all texts.now args.now)) ≤ cells.old.spare
        → IsOk result }
{
    let mut values = [Value::Int(0); 16];
    let count = args.len();
    eval_all(args, env, texts, cells, spans, places, &mut values)?;
    apply(function, &values[..count], texts, cells, spans, places)
}

/// The node of the type over these items.
#[cycle(eval)]
fn eval_make(
    ty: u32,
    args: &[Expr],
    env: &[Value],
    texts: &Texts,
    cells: &mut Cells,
    spans: &[Text],
    places: &[(u32, u32)],
) -> Result<Value, NoMemory>
    requires { Ready (cells_of cells.old.units) env.now (make ty (meant_all texts.now args.now)) }
    ensures ok { IfOk result (GivesValue texts.now spans.now places.now cells.old cells.new
        env.now (make ty (meant_all texts.now args.now))) }
    ensures kept { KeepsCells cells.old cells.new }
    ensures spare { OnOk result (cells.old.spare
        ≤ cells.new.spare + units_of (make ty (meant_all texts.now args.now))) }
    ensures room { units_of (make ty (meant_all texts.now args.now)) ≤ cells.old.spare
        → IsOk result }
{
    let mut values = [Value::Int(0); 16];
    let count = args.len();
    eval_all(args, env, texts, cells, spans, places, &mut values)?;
    make(ty, &values[..count], cells)
}

/// The values of the arguments, from the last to the first, at the front of `into`.
#[cycle(eval)]
fn eval_all(
    args: &[Expr],
    env: &[Value],
    texts: &Texts,
    cells: &mut Cells,
    spans: &[Text],
    places: &[(u32, u32)],
    into: &mut [Value; 16],
) -> Result<(), NoMemory>
    requires { ReadyAll (cells_of cells.old.units) env.now (meant_all texts.now args.now)
        × (length args.now ≤ 16) }
    ensures ok { IfOk result (λ _. GivesValues texts.now spans.now places.now cells.old cells.new
        env.now (meant_all texts.now args.now) (take (length args.now) into.new)) }
    ensures kept { KeepsCells cells.old cells.new }
    ensures spare { OnOk result
        (cells.old.spare ≤ cells.new.spare + units_of_all (meant_all texts.now args.now)) }
    ensures room { units_of_all (meant_all texts.now args.now) ≤ cells.old.spare → IsOk result }
{
    let mut i = args.len();
    while i > 0 {
        i -= 1;
        let arg = &args[i];
        let value = eval(arg, env, texts, cells, spans, places)?;
        into[i] = value;
    }
    Ok(())
}

/// The int as a value.
pub(crate) fn int_value(n: &i64) -> Value
    ensures { result ≡ value.Int n.now }
{
    Value::Int(*n)
}

/// The value of the variable.
pub(crate) fn value_at(env: &[Value], i: usize) -> Value
    requires { i < length env.now }
    ensures { slice_get env.now i ≡ Some result }
{
    env[i]
}
