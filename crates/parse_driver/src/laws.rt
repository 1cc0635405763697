// Laws on empty functions: a source has one derivation at most, and one answer of a parse.
ghost use Rattle.std.specs.Prelude.{◌≡◌, ℕ, List};
ghost use Rattle.cfg_model.specs.Cfg.{Cfg, IsGrammar};
ghost use Rattle.cfg_model.specs.LlTables.{IsLl};
ghost use Rattle.cfg_model.specs.LrTables.{IsLr};
ghost use Rattle.cfg_model.specs.Derivation.{Forest, Derivation};
ghost use Rattle.cfg_model.specs.Sets.{AllProductive};
ghost use Rattle.parse_driver.specs.Parse.{IsParsed, IsFirstWrong, IsBadToken};
ghost use Rattle.parse_driver.specs.Stream.{Ending, terminal_of};
ghost use Rattle.parse_driver.specs.declared.step.Step.{Step};
ghost use Rattle.parse_driver.specs.declared.tokens.TokenRef.{TokenRef};

use cfg_model::Grammar;

/// Law: a grammar that has an LL(1) table gives a sentence one derivation, as a list of terminals and as one
/// of tokens.
pub fn at_most_one_derivation(g: &Grammar)
    requires { IsLl g.now }
    ensures terminals { (sentence : List ℕ) (f h : Forest ℕ) →
        Derivation (λ t. t) g.now sentence f → Derivation (λ t. t) g.now sentence h → f ≡ h }
    ensures tokens { (tokens : List TokenRef) (f h : Forest TokenRef) →
        Derivation terminal_of g.now tokens f → Derivation terminal_of g.now tokens h → f ≡ h }
{}

/// Law: a grammar that has an LALR(1) table gives a sentence one derivation, as a list of terminals and as
/// one of tokens.
pub fn at_most_one_lr_derivation(g: &Grammar)
    requires { IsLr g.now }
    ensures terminals { (sentence : List ℕ) (f h : Forest ℕ) →
        Derivation (λ t. t) g.now sentence f → Derivation (λ t. t) g.now sentence h → f ≡ h }
    ensures tokens { (tokens : List TokenRef) (f h : Forest TokenRef) →
        Derivation terminal_of g.now tokens f → Derivation terminal_of g.now tokens h → f ≡ h }
{}

/// Law: of the answers of a parse for tokens and their ending no two hold together; the first wrong token is
/// one, at one place, and so is a bad place. Where every nonterminal derives a word it can't be that none
/// holds.
pub fn one_parse()
    ensures parsed_or_wrong { (g : Cfg) (tokens : List TokenRef) (ending : Ending) (k at : ℕ)
        (steps : List Step) → IsParsed g tokens ending steps → IsFirstWrong g tokens ending k at → ⊥ }
    ensures parsed_or_bad { (g : Cfg) (tokens : List TokenRef) (ending : Ending) (place : ℕ)
        (steps : List Step) → IsParsed g tokens ending steps → IsBadToken g tokens ending place → ⊥ }
    ensures wrong_or_bad { (g : Cfg) (tokens : List TokenRef) (ending : Ending) (k at place : ℕ)
        → IsFirstWrong g tokens ending k at → IsBadToken g tokens ending place → ⊥ }
    ensures one_wrong { (g : Cfg) (tokens : List TokenRef) (ending : Ending) (k j at place : ℕ)
        → IsFirstWrong g tokens ending k at → IsFirstWrong g tokens ending j place
        → (k ≡ j) × (at ≡ place) }
    ensures one_bad { (g : Cfg) (tokens : List TokenRef) (ending : Ending) (at place : ℕ)
        → IsBadToken g tokens ending at → IsBadToken g tokens ending place → at ≡ place }
    ensures some { (g : Cfg) → IsGrammar g → AllProductive g → (tokens : List TokenRef) (ending : Ending)
        → ((steps : List Step) → IsParsed g tokens ending steps → ⊥)
        → ((k at : ℕ) → IsFirstWrong g tokens ending k at → ⊥)
        → ((place : ℕ) → IsBadToken g tokens ending place → ⊥) → ⊥ }
{}
