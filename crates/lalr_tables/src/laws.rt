// Laws on tables and refusals, on empty functions.
ghost use Rattle.std.specs.Prelude.{◌≡◌, ◌≢◌, ◌≤◌, ℕ, Option, Some};
ghost use Rattle.cfg_model.specs.Cfg.{Cfg, IsGrammar};
ghost use Rattle.cfg_model.specs.declared.refused.LalrError.{LalrError};
ghost use Rattle.cfg_model.specs.declared.refused.LalrError.TheVariants.{LalrConflict, NoMemory};
ghost use Rattle.lalr_tables.specs.Promise.{HasTable, IsRefused};

use cfg_model::Grammar;

/// Law: a grammar has an LALR(1) table or is refused, not both, and is refused for one cause alone;
/// it can't be that there is neither. Want of memory isn't a cause.
pub fn one_answer(g: &Grammar)
    requires { IsGrammar g.now }
    ensures one { (a b : LalrError) → a ≢ NoMemory → b ≢ NoMemory → IsRefused g.now a
        → IsRefused g.now b → a ≡ b }
    ensures not_both { (e : LalrError) → e ≢ NoMemory → HasTable g.now → IsRefused g.now e → ⊥ }
    ensures some { (HasTable g.now → ⊥)
        → ((e : LalrError) → e ≢ NoMemory → IsRefused g.now e → ⊥) → ⊥ }
{}

/// Law: the rules of a conflict for which a grammar is refused are rules of the grammar, so each has a
/// label: they count from 1.
pub fn conflicts_are_of_rules()
    ensures rule { (g : Cfg) (t r : ℕ) (other : Option ℕ) → IsGrammar g
        → IsRefused g (LalrConflict t r other) → 1 ≤ r }
    ensures other { (g : Cfg) (t r s : ℕ) → IsGrammar g → IsRefused g (LalrConflict t r (Some s)) → 1 ≤ s }
{}
