// Laws of the chain, on empty functions: one acceptance, one meaning, some meaning.
ghost use Rattle.std.specs.Prelude.{◌≡◌, ℕ, List};
ghost use Rattle.ck_base.specs.Found.{HasNo};
ghost use Rattle.ck_base.specs.declared.refusal.Refusal.{Refusal};
ghost use Rattle.ck_chain.specs.Accepts.{Accepts, RefusesSpec};
ghost use Rattle.ck_chain.specs.Answers.{AnswerOf};
ghost use Rattle.ck_chain.specs.Outcome.{Outcome};
ghost use Rattle.ck_chain.specs.Tools.{Tools};
ghost use Rattle.ck_chain.specs.declared.stage.Stage.{Stage};

/// Law: a specification is accepted, in one way, or refused, in one way; not both, and it can't be
/// neither.
pub fn one_acceptance()
    ensures refused { (spec : List ℕ) (r s : Refusal) → RefusesSpec spec r → RefusesSpec spec s
        → r ≡ s }
    ensures accepted { (spec : List ℕ) (a b : Tools) → Accepts spec a → Accepts spec b → a ≡ b }
    ensures not_both { (spec : List ℕ) (r : Refusal) (tools : Tools) → RefusesSpec spec r
        → Accepts spec tools → ⊥ }
    ensures either { (spec : List ℕ) → HasNo (RefusesSpec spec) → HasNo (Accepts spec) → ⊥ }
{}

/// Law: a stage has at most one answer for a source, by the tools of an accepted specification.
pub fn at_most_one_meaning()
    ensures { (spec : List ℕ) (tools : Tools) → Accepts spec tools
        → (stage : Stage) (source : List ℕ) (a b : Outcome)
        → AnswerOf stage tools source a → AnswerOf stage tools source b → a ≡ b }
{}

/// Law: a stage has an answer for a source, by the tools of an accepted specification; it can't be
/// that there is none.
pub fn some_meaning()
    ensures { (spec : List ℕ) (tools : Tools) → Accepts spec tools
        → (stage : Stage) (source : List ℕ) → HasNo (AnswerOf stage tools source) → ⊥ }
{}
