// Laws of the reader, on empty functions: one reading of a line, exactly one of a fault and declarations.
ghost use Rattle.std.specs.Prelude.{◌≡◌, List};
ghost use Rattle.ast_types.specs.TypeTable.{TypeTable};
ghost use Rattle.section_frame.specs.Declares.{judged};
ghost use Rattle.section_frame.specs.FirstFault.{ExactlyOne};
ghost use Rattle.spec_text.specs.Lexemes.{Lexeme};
ghost use Rattle.spec_text.specs.Lines.{Line, LinesGrow};
ghost use Rattle.ag_spec.specs.AgFaults.{ag};
ghost use Rattle.ag_spec.specs.AgShapes.{AgSaying, AgShape};

/// Law: a line of AG declares one thing at most.
pub fn at_most_one_ag_line()
    ensures { (tokens : List Lexeme) (said other : AgSaying) → AgShape tokens said
        → AgShape tokens other → said ≡ other }
{}

/// Law: exactly one of the first fault of AG and its declarations is there.
pub fn ag_fault_or_declarations()
    ensures { (table : TypeTable) (lines : List Line) → LinesGrow lines
        → ExactlyOne (judged (ag table) lines) }
{}
