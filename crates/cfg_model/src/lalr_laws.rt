// Laws on lookaheads and cores of a grammar, on empty functions.
ghost use Rattle.std.specs.Prelude.{◌≡◌, ℕ, List, ◌↔◌, ◌<◌, ◌⊎◌, ◌∷◌, [], reverse, Option, Some, None, Contains, length};
ghost use Rattle.cfg_model.specs.declared.symbol.Sym.{Sym};
ghost use Rattle.cfg_model.specs.Cfg.{Cfg, IsGrammar};
ghost use Rattle.cfg_model.specs.Steps.{Steps, word};
ghost use Rattle.cfg_model.specs.Sets.{AllProductive, Reachable};
ghost use Rattle.cfg_model.specs.Searches.{Cyclic};
ghost use Rattle.cfg_model.specs.Derivation.{IsViable};
ghost use Rattle.cfg_model.specs.CoreTables.{IsTableOfCores, SameAnswers};
ghost use Rattle.cfg_model.specs.Cores.{CoreList, IsCores, moves_at};
ghost use Rattle.cfg_model.specs.LalrConflicts.{LalrConflict};
ghost use Rattle.cfg_model.specs.LrTables.{IsLrTable, state_after};
ghost use Rattle.cfg_model.specs.Table.{Table};
ghost use Rattle.cfg_model.specs.Valid.{Look, Spreads, HasCore};

/// Law: the united lookaheads are the least relation over core, item and terminal with the rules of
/// valid items read on cores.
pub fn lookaheads_spread()
    ensures { (g : Cfg) (p : List Sym) (r d : ℕ) (y : List Sym) (a : ℕ)
        → Look g p r d y a ↔ Spreads g p r d y a }
{}

/// Law: where every nonterminal derives a word and the core of a prefix isn't empty, each word that the
/// prefix derives is viable. The prefix has its last symbol first.
pub fn cores_are_viable()
    ensures { (g : Cfg) (p : List Sym) (u : List ℕ) → IsGrammar g → AllProductive g → HasCore g p
        → Steps g (reverse p) (word u) → IsViable g u }
{}

/// Law: where the grammar isn't cyclic, rule 0 stands in no conflict.
pub fn rule_0_has_no_conflict()
    ensures first { (g : Cfg) (t : ℕ) (other : Option ℕ) → IsGrammar g
        → ((n : ℕ) → Reachable g n → Cyclic g n → ⊥) → LalrConflict g t 0 other → ⊥ }
    ensures other { (g : Cfg) (t r : ℕ) → IsGrammar g
        → ((n : ℕ) → Reachable g n → Cyclic g n → ⊥) → LalrConflict g t r (Some 0) → ⊥ }
{}

/// Law: no move of a core leads to core 0, and in a table of the grammar no shift or goto of a core leads to
/// state 0.
pub fn no_move_leads_to_0()
    ensures cores { (g : Cfg) (cores : CoreList) (n : ℕ) (x : Sym) → IsCores g cores → n < length cores.items
        → Contains (moves_at cores n) (x, 0) → ⊥ }
    ensures states { (g : Cfg) (table : Table) (p : List Sym) (x : Sym) → IsLrTable g table
        → HasCore g (x ∷ p) → state_after table (x ∷ p) ≡ 0 → ⊥ }
{}

/// Law: what answers as a table of a grammar does is a table of it, with the same numbers of cores.
pub fn same_answers_same_table()
    ensures table { (g : Cfg) (a b : Table) → SameAnswers g a b → IsLrTable g a → IsLrTable g b }
    ensures cores { (g : Cfg) (cores : CoreList) (a b : Table) → SameAnswers g a b
        → IsTableOfCores g cores a → IsTableOfCores g cores b }
{}
