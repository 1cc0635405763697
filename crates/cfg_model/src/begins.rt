// What can begin a list of symbols, added to a set with what may follow the list.
ghost use Rattle.std.specs.Prelude.{◌≡◌, ◌↔◌, ◌<◌, ◌+◌, false, true, ℕ, [], ◌∷◌, IsTrue, All};
ghost use Rattle.ck_base.specs.BitSet.{Has, Adds};
ghost use Rattle.cfg_model.specs.within.Closing.{AllPass};
ghost use Rattle.cfg_model.specs.Cfg.{IsGrammar, IsSymbol};
ghost use Rattle.cfg_model.specs.Sets.{Nullable, AllProductive, First};
ghost use Rattle.cfg_model.specs.Promise.{AreNullable, AreFirsts};
ghost use Rattle.cfg_model.specs.Rows.{AreRows};
ghost use Rattle.cfg_model.specs.declared.symbol.Sym.TheVariants.{N};
ghost use Rattle.cfg_model.specs.within.Parts.{Begins, IsBelow};

use crate::grammar::Grammar;
use crate::symbol::Sym;
use ck_base::Bits;

/// Adds FIRST of the list to the set, and says whether the list derives the empty word. `firsts` and
/// `null` are what `first` and `nullable` give; the set has room for END.
pub fn add_first(g: &Grammar, list: &[Sym], firsts: &[Bits], null: &Bits, to: &mut Bits) -> bool
    requires grammar { IsGrammar g.now }
    requires productive { AllProductive g.now }
    requires list { All (IsSymbol g.now) list.now }
    requires firsts { AreFirsts g.now firsts.now }
    requires null { AreNullable g.now null.now }
    requires size { to.old.size ≡ g.now.terminals + 1 }
    ensures first { Adds to.old to.new (First g.now list.now) }
    ensures vanish { IsTrue result ↔ Nullable g.now list.now }
{
    add_begins(list, firsts, null, to, g.nonterminals, g.terminals + 1)
}

/// Adds the terminals that the list begins with, by the rows; says whether the list vanishes.
pub(crate) fn add_begins(
    list: &[Sym],
    rows: &[Bits],
    null: &Bits,
    to: &mut Bits,
    count: u32,
    width: u32,
) -> bool
    requires rows { AreRows count width rows.now }
    requires list { All (IsBelow count width) list.now }
    requires size { to.old.size ≡ width }
    ensures begins { Adds to.old to.new (Begins rows.now null.now list.now) }
    ensures vanish { IsTrue result ↔ AllPass false (Has null.now) list.now }
{
    for symbol in list {
        match *symbol {
            Sym::T(t) => {
                to.add(t);
                return false;
            }
            Sym::N(n) => {
                to.join(&rows[n as usize]);
                if !null.has(n) {
                    return false;
                }
            }
        }
    }
    true
}
