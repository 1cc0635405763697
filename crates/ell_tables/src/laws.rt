// A law, on an empty function: a grammar has one LL(1) table or one refusal.
ghost use Rattle.std.specs.Prelude.{◌≡◌, ◌≢◌};
ghost use Rattle.cfg_model.specs.Cfg.{IsGrammar};
ghost use Rattle.ell_tables.specs.Promise.{HasTable, IsRefused};
ghost use Rattle.ell_tables.specs.declared.refusal.EllError.{EllError};
ghost use Rattle.ell_tables.specs.declared.refusal.EllError.TheVariants.{NoMemory};

use cfg_model::Grammar;

/// Law: a grammar has an LL(1) table or is refused, not both, and is refused for one cause alone;
/// it can't be that there is neither. Want of memory isn't a cause.
pub fn one_answer(g: &Grammar)
    requires { IsGrammar g.now }
    ensures one { (a b : EllError) → a ≢ NoMemory → b ≢ NoMemory → IsRefused g.now a
        → IsRefused g.now b → a ≡ b }
    ensures not_both { (e : EllError) → e ≢ NoMemory → HasTable g.now → IsRefused g.now e → ⊥ }
    ensures some { (HasTable g.now → ⊥) → ((e : EllError) → e ≢ NoMemory → IsRefused g.now e → ⊥)
        → ⊥ }
{}
