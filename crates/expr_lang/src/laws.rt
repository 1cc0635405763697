// Laws on types and values of expressions, on empty functions.
ghost use Rattle.std.specs.Prelude.{◌≡◌, ◌≤◌, ◌++◌, [], ℕ, List, Contains, Some, length, slice_get};
ghost use Rattle.expr_lang.specs.Expression.{Expression};
ghost use Rattle.expr_lang.specs.Occurring.{made_in, vars_in};
ghost use Rattle.expr_lang.specs.OfType.{MakesNodes};
ghost use Rattle.expr_lang.specs.PureTypes.{PureIsOf, PureAreOf};
ghost use Rattle.expr_lang.specs.PureValues.{PureValue, nth};
ghost use Rattle.expr_lang.specs.Typing.{Context, HasType, maker_of};
ghost use Rattle.expr_lang.specs.ValueOf.{Tokens, value_of};
ghost use Rattle.expr_lang.specs.declared.expr.Maker.{Maker};
ghost use Rattle.value_store.specs.declared.value.ValType.{ValType};
ghost use Rattle.value_store.specs.declared.value.ValType.TheVariants as ty;

/// Law: an expression has one type at most.
pub fn one_type_at_most()
    ensures { (c : Context) (e : Expression) (t u : ValType)
        → HasType c e t → HasType c e u → t ≡ u }
{}

/// Law: the value of a typed expression is of its type, where the variables' values are of theirs.
/// A node has the type of a maker, and one item for each of the maker's.
pub fn value_of_the_type()
    ensures { (tokens : Tokens) (c : Context) (env : List PureValue) (e : Expression) (t : ValType)
        → PureAreOf c.makers c.sources env c.vars
        → ((n : ℕ) (m : Maker) → maker_of c.makers n ≡ Some m → MakesNodes c.sources m)
        → HasType c e t → PureIsOf c.makers c.sources (value_of tokens env e) t }
{}

/// Law: type and value of an expression hang on those of its variables alone.
pub fn variables_alone()
    ensures typed { (c d : Context) (e : Expression) (t : ValType) → d.makers ≡ c.makers
        → ((i : ℕ) → Contains (vars_in e) i → slice_get d.vars i ≡ slice_get c.vars i)
        → HasType c e t → HasType d e t }
    ensures same { (tokens : Tokens) (env other : List PureValue) (e : Expression)
        → ((i : ℕ) → Contains (vars_in e) i → nth env i ≡ nth other i)
        → value_of tokens env e ≡ value_of tokens other e }
{}

/// Law: more variables, behind those that are there, change neither type nor value.
pub fn more_variables()
    ensures typed { (c d : Context) (more : List ValType) (e : Expression) (t : ValType)
        → d.vars ≡ c.vars ++ more → d.makers ≡ c.makers → HasType c e t → HasType d e t }
    ensures same { (tokens : Tokens) (c : Context) (env more : List PureValue) (e : Expression)
        (t : ValType) → length c.vars ≤ length env → HasType c e t
        → value_of tokens (env ++ more) e ≡ value_of tokens env e }
{}

/// Law: an expression that is no node makes none.
pub fn no_node_no_maker()
    ensures { (c : Context) (e : Expression) (t : ValType) → ((f : ℕ) → t ≡ ty.Node f → ⊥)
        → HasType c e t → made_in e ≡ [] }
{}
