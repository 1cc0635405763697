// Laws of scanning, on empty functions, for all lists of rules: at most one winner, one run, some run.
ghost use Rattle.std.specs.Prelude.{◌≡◌, ◌≤◌, ◌+◌, ℕ, List, length, drop};
ghost use Rattle.ck_base.specs.Found.{HasNo};
ghost use Rattle.rex_model.specs.Rules.{Rule};
ghost use Rattle.rex_model.specs.Run.{Token, Ending, Tokens};
ghost use Rattle.rex_model.specs.Winner.{Winner, next_state};

/// Law: at a place and in a state there is at most one winner.
pub fn at_most_one_winner()
    ensures { (rules : List Rule) (state : ℕ) (rest : List ℕ) (i n m j k l : ℕ) →
        Winner rules state rest i n m → Winner rules state rest j k l →
        (i ≡ j) × (n ≡ k) × (m ≡ l) }
{}

/// Law: two winners at a place and in a state are of one rule and have the same text.
pub fn same_winner()
    ensures { (rules : List Rule) (state : ℕ) (rest : List ℕ) (i n m j k l : ℕ)
        (a : Winner rules state rest i n m) (b : Winner rules state rest j k l) →
        (a.candidate.rule ≡ b.candidate.rule) × (n ≡ k) }
{}

/// Law: where a text ends there is no winner.
pub fn no_winner_at_end()
    ensures { (rules : List Rule) (text : List ℕ) (state at i n m : ℕ) → length text ≤ at →
        Winner rules state (drop at text) i n m → ⊥ }
{}

/// Law: the tokens after one of two winners at a place are those after the other.
pub fn same_tokens_after()
    ensures { (rules : List Rule) (text : List ℕ) (state at i n m j k l : ℕ)
        (a : Winner rules state (drop at text) i n m)
        (b : Winner rules state (drop at text) j k l) (ts : List Token) (e : Ending) →
        Tokens rules text (next_state b.candidate.rule state) (at + k) ts e →
        Tokens rules text (next_state a.candidate.rule state) (at + n) ts e }
{}

/// Law: from a place and a state on, the tokens of a text and how they end are determined.
pub fn at_most_one_run()
    ensures { (rules : List Rule) (text : List ℕ) (state at : ℕ) (ts us : List Token)
        (e f : Ending) → Tokens rules text state at ts e → Tokens rules text state at us f →
        (ts ≡ us) × (e ≡ f) }
{}

/// Law: from a place and a state on, a text has tokens; it can't be that there are none.
pub fn some_run()
    ensures { (rules : List Rule) (text : List ℕ) (state at : ℕ) → at ≤ length text →
        HasNo (λ tokens. (ending : Ending) × Tokens rules text state at tokens ending) → ⊥ }
{}
