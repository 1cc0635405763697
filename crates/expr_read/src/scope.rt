// The scope of an expression: named variables and makers.
use expr_lang::Scope;
use value_store::Name;

/// The names that an expression may use.
#[derive(Clone, Copy)]
pub struct NameScope<'s> {
    /// A name for each variable of the scope, and then for each maker, both in the scope's order. In a
    /// BUILD line a variable's name is `$` and its number from 1 in decimal. A variable that `dotted`
    /// alone names has the empty name.
    pub names: &'s [Name],
    /// The types of the variables, and the makers.
    pub scope: Scope<'s>,
    /// The word before a `.`, the word after it, and the number of the variable that they name.
    pub dotted: &'s [(Name, Name, u32)],
}
