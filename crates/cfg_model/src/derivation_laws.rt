// Laws on derivations and on the lists that can still become sentences, on empty functions.
ghost use Rattle.std.specs.Prelude.{◌≡◌, ℕ, List, [], ◌++◌, ◌↔◌};
ghost use Rattle.cfg_model.specs.Cfg.{Cfg, IsGrammar};
ghost use Rattle.cfg_model.specs.Derivation.{Gives, IsSentence, IsViable};
ghost use Rattle.cfg_model.specs.Sets.{AllProductive};
ghost use Rattle.cfg_model.specs.Steps.{Steps, word};
ghost use Rattle.cfg_model.specs.declared.symbol.Sym.{Sym};

/// Law: symbols come to a word by derive steps exactly where trees from them have it as their yield.
pub fn steps_are_derivations()
    ensures { (g : Cfg) (u : List Sym) (w : List ℕ) → Steps g u (word w) ↔ Gives g u w }
{}

/// Law: what a viable list begins with is viable, and so is each sentence; where every nonterminal derives
/// a word, the empty list is.
pub fn fronts_are_viable()
    ensures front { (g : Cfg) (u v : List ℕ) → IsViable g (u ++ v) → IsViable g u }
    ensures sentence { (g : Cfg) (u : List ℕ) → IsSentence g u → IsViable g u }
    ensures nothing { (g : Cfg) → IsGrammar g → AllProductive g → IsViable g [] }
{}
