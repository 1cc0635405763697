// Laws of the reader, on empty functions: one reading of a line, exactly one of a fault and a declaration.
ghost use Rattle.std.specs.Prelude.{◌≡◌, ℕ, List};
ghost use Rattle.ck_base.specs.Found.{HasNo};
ghost use Rattle.ck_base.specs.declared.fault.Kind.{Kind};
ghost use Rattle.cfg_model.specs.declared.named.NamedGrammar.{NamedGrammar as named_grammar};
ghost use Rattle.spec_text.specs.Lexemes.{Lexeme};
ghost use Rattle.spec_text.specs.Promise.{HasSection};
ghost use Rattle.spec_text.specs.Sections.{SectionLines};
ghost use Rattle.spec_text.specs.declared.section.Section.TheVariants.{Ast};
ghost use Rattle.node_spec.specs.AstPromise.{DeclaresNodes, FirstAstFault};
ghost use Rattle.node_spec.specs.AstShapes.{AstSaying, AstShape};
ghost use Rattle.node_model.specs.Nodes.{Nodes};

/// Law: a line of AST declares one thing at most.
pub fn at_most_one_ast_line()
    ensures { (tokens : List Lexeme) (said other : AstSaying) → AstShape tokens said
        → AstShape tokens other → said ≡ other }
{}

/// Law: AST of a file declares nodes for a grammar or has a first fault, not both, and each in one
/// way.
pub fn one_ast()
    ensures some { (file : List ℕ) (g : named_grammar) (lines : SectionLines)
        → HasSection file Ast lines → HasNo (DeclaresNodes file g)
        → ((line : ℕ) (kind : Kind) → FirstAstFault file g line kind → ⊥) → ⊥ }
    ensures one { (file : List ℕ) (g : named_grammar) (nodes others : Nodes)
        → DeclaresNodes file g nodes → DeclaresNodes file g others → nodes ≡ others }
    ensures one_fault { (file : List ℕ) (g : named_grammar) (line other : ℕ) (kind worse : Kind)
        → FirstAstFault file g line kind → FirstAstFault file g other worse
        → (line ≡ other) × (kind ≡ worse) }
    ensures not_both { (file : List ℕ) (g : named_grammar) (nodes : Nodes) (line : ℕ) (kind : Kind)
        → DeclaresNodes file g nodes → FirstAstFault file g line kind → ⊥ }
{}
