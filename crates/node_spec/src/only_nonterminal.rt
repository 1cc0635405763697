// The one nonterminal of a rule's right side, if it has just one.
ghost use Rattle.std.specs.Prelude.{◌≡◌, ◌≤◌, ◌<◌, ◌^◌, length, MatchOption};
ghost use Rattle.node_spec.specs.AstBuilds.{only_nonterminal as the_only};
ghost use Rattle.node_spec.specs.within.AstUnknown.{NextPlace, names_nonterminal};

use cfg_model::Sym;

/// The place of the one nonterminal of a right side; `None` where there is none, or more than one.
pub(crate) fn only_nonterminal(right: &[Sym]) -> Option<u32>
    requires { length right.now < 2 ^ 32 }
    ensures { result ≡ the_only right.now }
{
    match only_place(right) {
        Some(i) => Some(i as u32),
        None => None,
    }
}

/// The same, of right sides of any length.
pub(crate) fn only_place(right: &[Sym]) -> Option<usize>
    ensures is { result ≡ the_only right.now }
    ensures inside { MatchOption result (result ≡ result) (λ i. i < length right.now) }
{
    let Some(first) = next_place(right, 0) else {
        return None;
    };
    match next_place(right, first + 1) {
        None => Some(first),
        Some(_) => None,
    }
}

/// The first place of a nonterminal from this one on.
fn next_place(right: &[Sym], from: usize) -> Option<usize>
    requires { from ≤ length right.now }
    ensures { NextPlace right.now from result }
{
    for i in from..right.len() {
        if is_nonterminal(right[i]) {
            return Some(i);
        }
    }
    None
}

/// Whether the symbol is a nonterminal.
fn is_nonterminal(symbol: Sym) -> bool
    ensures { result ≡ names_nonterminal symbol }
{
    match symbol {
        Sym::N(_) => true,
        Sym::T(_) => false,
    }
}
