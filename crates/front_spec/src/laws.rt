// Laws of both readers, on empty functions: one of a fault and declarations, in one way, and ranges.
ghost use Rattle.std.specs.Prelude.{◌≡◌, ℕ, Bool, List, length};
ghost use Rattle.ck_base.specs.Found.{HasNo};
ghost use Rattle.ck_base.specs.declared.fault.Kind.{Kind};
ghost use Rattle.cfg_model.specs.Cfg.{IsGrammar};
ghost use Rattle.cfg_model.specs.declared.named.NamedGrammar.{NamedGrammar as named_grammar};
ghost use Rattle.rex_model.specs.Rules.{Rules};
ghost use Rattle.section_frame.specs.Declares.{judged};
ghost use Rattle.section_frame.specs.FirstFault.{ExactlyOne};
ghost use Rattle.spec_text.specs.Lexemes.{Lexeme};
ghost use Rattle.spec_text.specs.Lines.{Line, LinesGrow};
ghost use Rattle.spec_text.specs.Promise.{HasSections};
ghost use Rattle.spec_text.specs.Sections.{SectionLines};
ghost use Rattle.spec_text.specs.declared.section.Part.{Part};
ghost use Rattle.front_spec.specs.GrammarPromise.{DeclaresGrammar, FirstGrammarFault, HasGrammar};
ghost use Rattle.front_spec.specs.GrammarShapes.{ProductionLine, SaidProduction};
ghost use Rattle.front_spec.specs.Promise.{DeclaresRules, FirstRexFault};
ghost use Rattle.front_spec.specs.Regexes.{EndsRegex, IsRegex, Written};
ghost use Rattle.front_spec.specs.RexShapes.{RexShape, Saying};
ghost use Rattle.front_spec.specs.RexFaults.{rex};

/// Law: tokens begin with one regular expression at most behind which one may end, and it ends in
/// one place.
pub fn at_most_one_regex()
    ensures { (tokens rest more : List Lexeme) (v w : Written) → EndsRegex rest → EndsRegex more
        → IsRegex tokens v rest → IsRegex tokens w more → (v ≡ w) × (rest ≡ more) }
{}

/// Law: a line of REX declares one thing at most.
pub fn at_most_one_declaration()
    ensures { (tokens : List Lexeme) (said other : Saying) → RexShape tokens said
        → RexShape tokens other → said ≡ other }
{}

/// Law: exactly one of the first fault of REX and its declarations is there.
pub fn fault_or_declarations()
    ensures { (lines : List Line) → LinesGrow lines → ExactlyOne (judged rex lines) }
{}

/// Law: in a file that has sections, REX declares rules or has a first fault, not both, and each
/// in one way.
pub fn one_rex()
    ensures some { (file : List ℕ) (lines : List Line) (parts : List Part)
        → HasSections file lines parts → HasNo (DeclaresRules file)
        → ((line : ℕ) (kind : Kind) → FirstRexFault file line kind → ⊥) → ⊥ }
    ensures one { (file : List ℕ) (rules others : Rules) → DeclaresRules file rules
        → DeclaresRules file others → rules ≡ others }
    ensures one_fault { (file : List ℕ) (line other : ℕ) (kind worse : Kind)
        → FirstRexFault file line kind → FirstRexFault file other worse
        → (line ≡ other) × (kind ≡ worse) }
    ensures not_both { (file : List ℕ) (rules : Rules) (line : ℕ) (kind : Kind)
        → DeclaresRules file rules → FirstRexFault file line kind → ⊥ }
{}

/// Law: a line of a grammar declares one rule at most.
pub fn at_most_one_production()
    ensures { (tokens : List Lexeme) (said other : SaidProduction) → ProductionLine tokens said
        → ProductionLine tokens other → said ≡ other }
{}

/// Law: a file has one section of a grammar at most, so LALR or ELL.
pub fn at_most_one_grammar_section()
    ensures { (file : List ℕ) (ell other : Bool) (lines those : SectionLines)
        → HasGrammar file ell lines → HasGrammar file other those
        → (ell ≡ other) × (lines ≡ those) }
{}

/// Law: the section of a grammar declares a grammar over the tokens or has a first fault, not both,
/// and each in one way.
pub fn one_grammar()
    ensures some { (file : List ℕ) (tokens : List (List ℕ)) (ell : Bool) (lines : SectionLines)
        → HasGrammar file ell lines → HasNo (DeclaresGrammar file tokens)
        → ((line : ℕ) (kind : Kind) → FirstGrammarFault file tokens line kind → ⊥) → ⊥ }
    ensures one { (file : List ℕ) (tokens : List (List ℕ)) (g other : named_grammar)
        → DeclaresGrammar file tokens g → DeclaresGrammar file tokens other → g ≡ other }
    ensures one_fault { (file : List ℕ) (tokens : List (List ℕ)) (line other : ℕ)
        (kind worse : Kind) → FirstGrammarFault file tokens line kind
        → FirstGrammarFault file tokens other worse → (line ≡ other) × (kind ≡ worse) }
    ensures not_both { (file : List ℕ) (tokens : List (List ℕ)) (g : named_grammar) (line : ℕ)
        (kind : Kind) → DeclaresGrammar file tokens g
        → FirstGrammarFault file tokens line kind → ⊥ }
{}

/// Law: a grammar that a section declares is in its ranges; it has a name for each nonterminal and
/// a label for each rule, and its terminals are the tokens.
pub fn declared_in_range()
    ensures in_range { (file : List ℕ) (tokens : List (List ℕ)) (g : named_grammar)
        → DeclaresGrammar file tokens g → IsGrammar g.grammar }
    ensures counts { (file : List ℕ) (tokens : List (List ℕ)) (g : named_grammar)
        → DeclaresGrammar file tokens g → (g.grammar.terminals ≡ length tokens)
        × (length g.nonterminals ≡ g.grammar.nonterminals)
        × (length g.labels ≡ length g.grammar.rules) }
{}
