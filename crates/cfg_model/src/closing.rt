// Nullable and productive nonterminals: least sets closed under the rules.
ghost use Rattle.std.specs.Prelude.{◌≡◌, ◌↔◌, ◌<◌, true, false, ℕ, [], ◌∷◌, IfOk, IsTrue};
ghost use Rattle.ck_base.specs.BitSet.{Has, Grew};
ghost use Rattle.cfg_model.specs.Cfg.{IsGrammar};
ghost use Rattle.cfg_model.specs.Promise.{AreNullable, AreProductive};
ghost use Rattle.cfg_model.specs.Sets.{Nullable, Productive};
ghost use Rattle.cfg_model.specs.declared.symbol.Sym.TheVariants.{N};
ghost use Rattle.cfg_model.specs.within.Closing.{AllPass, Passes, IsSound, IsClosed, AreMakers, IsAdded};

use crate::grammar::{Grammar, GrammarRule};
use crate::symbol::Sym;
use ck_base::{Bits, NoMemory};
use std::alloc::Global;

/// The nonterminals that derive the empty word.
pub fn nullable(alloc: Global, g: &Grammar) -> Result<Bits, NoMemory>
    requires { IsGrammar g.now }
    ensures { IfOk result (AreNullable g.now) }
{
    makers(alloc, g, false)
}

/// The nonterminals that derive a word.
pub fn productive(alloc: Global, g: &Grammar) -> Result<Bits, NoMemory>
    requires { IsGrammar g.now }
    ensures { IfOk result (AreProductive g.now) }
{
    makers(alloc, g, true)
}

/// The nonterminals that derive a word; where `words` is false, those that derive the empty word.
fn makers(alloc: Global, g: &Grammar, words: bool) -> Result<Bits, NoMemory>
    requires { IsGrammar g.now }
    ensures { IfOk result (AreMakers words g.now) }
{
    let mut set = Bits::new(alloc, g.nonterminals)?;
    'rounds: loop {
        if !add_round(g, words, &mut set) {
            break;
        }
    }
    Ok(set)
}

/// Adds the left side of each rule whose right side passes, and says whether the set grew.
fn add_round(g: &Grammar, words: bool, set: &mut Bits) -> bool
    requires grammar { IsGrammar g.now }
    requires size { set.old.size ≡ g.now.nonterminals }
    requires sound { IsSound words g.now set.old }
    ensures size { set.new.size ≡ set.old.size }
    ensures sound { IsSound words g.now set.new }
    ensures kept { (i : ℕ) → Has set.old i → Has set.new i }
    ensures grew { IsTrue result → Grew set.old set.new }
    ensures closed { result ≡ false → IsClosed words g.now set.new }
{
    let mut grew = false;
    for (i, rule) in g.rules.iter().enumerate() {
        if add_left(rule, words, set) {
            grew = true;
        }
    }
    grew
}

/// Adds the rule's left side where its right side passes, and says whether it wasn't there.
fn add_left(rule: &GrammarRule, words: bool, set: &mut Bits) -> bool
    requires { rule.now.left < set.old.size }
    ensures added { IsTrue result → IsAdded words rule.now set.old set.new }
    ensures same { result ≡ false → (set.new ≡ set.old)
        × (AllPass words (Has set.old) rule.now.right → Has set.old rule.now.left) }
{
    if set.has(rule.left) {
        return false;
    }
    if !all_pass(&rule.right, words, set) {
        return false;
    }
    set.add(rule.left);
    true
}

/// Whether each symbol passes.
fn all_pass(list: &[Sym], words: bool, set: &Bits) -> bool
    ensures { IsTrue result ↔ AllPass words (Has set.now) list.now }
{
    for symbol in list {
        if !passes(*symbol, words, set) {
            return false;
        }
    }
    true
}

/// Whether the symbol is in the set; a terminal passes where `words` is true.
pub(crate) fn passes(symbol: Sym, words: bool, set: &Bits) -> bool
    ensures { IsTrue result ↔ Passes words (Has set.now) symbol }
{
    match symbol {
        Sym::T(_) => words,
        Sym::N(n) => set.has(n),
    }
}
