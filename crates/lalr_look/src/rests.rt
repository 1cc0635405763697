// What each rule has behind each dot: what begins it, and whether it can vanish.
ghost use Rattle.std.specs.Prelude.{◌≡◌, ℕ, ◌+◌, ◌<◌, ◌≤◌, ◌↔◌, [], ◌∷◌, length, IfOk, IsTrue};
ghost use Rattle.ck_base.specs.BitSet.{Adds};
ghost use Rattle.cfg_model.specs.Cfg.{IsGrammar, IsSymbol};
ghost use Rattle.cfg_model.specs.Sets.{First, Nullable, AllProductive};
ghost use Rattle.lalr_look.specs.within.Kernel.{AreShort};
ghost use Rattle.lalr_look.specs.within.Rests.{AreRests, rest_of};

use cfg_model::{Grammar, Sym, first, nullable};
use ck_base::{Bits, NoMemory};
use std::alloc::Global;

/// What is known of the symbols behind a dot.
#[derive(Drop)]
pub struct Rests {
    /// FIRST of each nonterminal.
    pub firsts: Vec<Bits>,
    /// The nonterminals that derive the empty word.
    pub vanishing: Bits,
}

impl Rests {
    /// FIRST of each nonterminal of the grammar, and which of them derive the empty word.
    pub fn of(alloc: Global, g: &Grammar) -> Result<Rests, NoMemory>
        requires grammar { IsGrammar g.now }
        requires productive { AllProductive g.now }
        ensures { IfOk result (AreRests g.now) }
    {
        let firsts = first(alloc, g)?;
        let vanishing = nullable(alloc, g)?;
        Ok(Rests { firsts, vanishing })
    }

    /// Adds what the rule's symbols from a place on begin with, and says whether they can vanish.
    pub fn add(&self, g: &Grammar, rule: u32, from: u32, to: &mut Bits) -> bool
        requires grammar { IsGrammar g.now }
        requires productive { AllProductive g.now }
        requires short { AreShort g.now }
        requires rule { rule ≤ length g.now.rules }
        requires rests { AreRests g.now self.now }
        requires size { to.old.size ≡ g.now.terminals + 1 }
        ensures begins { Adds to.old to.new (First g.now (rest_of g.now rule from)) }
        ensures vanish { IsTrue result ↔ Nullable g.now (rest_of g.now rule from) }
    {
        let mut place = from;
        while let Some(symbol) = g.behind(rule, place) {
            if !add_symbol(g, self, symbol, to) {
                return false;
            }
            place += 1;
        }
        true
    }
}

/// Adds what a symbol begins with, and says whether it can vanish.
fn add_symbol(g: &Grammar, rests: &Rests, symbol: Sym, to: &mut Bits) -> bool
    requires rests { AreRests g.now rests.now }
    requires symbol { IsSymbol g.now symbol }
    requires size { to.old.size ≡ g.now.terminals + 1 }
    ensures begins { Adds to.old to.new (First g.now (symbol ∷ [])) }
    ensures vanish { IsTrue result ↔ Nullable g.now (symbol ∷ []) }
{
    match symbol {
        Sym::T(t) => {
            to.add(t);
            false
        }
        Sym::N(n) => {
            to.join(&rests.firsts[n as usize]);
            rests.vanishing.has(n)
        }
    }
}
