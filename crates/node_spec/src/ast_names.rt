// Names of families and types, numbered in order of declaration.
ghost use Rattle.std.specs.Prelude.{◌≡◌, ◌+◌, ◌<◌, ◌^◌, ℕ, length, map, IfOk, IfErr};
ghost use Rattle.ck_base.specs.declared.fault.Kind.TheVariants.{Twice as twice, Unknown as unknown};
ghost use Rattle.ck_base.specs.Numbered.{AreApart};
ghost use Rattle.section_frame.specs.Declares.{DeclareAll, Grow};
ghost use Rattle.spec_text.specs.Sections.{SectionLines};
ghost use Rattle.node_spec.specs.AstFaults.{ast, labels_in};
ghost use Rattle.node_spec.specs.AstTables.{rows_in};
ghost use Rattle.node_spec.specs.within.AstSeen.{declared_by, row_seen};
ghost use Rattle.node_spec.specs.within.AstSteps.{AreFamilies, HasIn, HasNone, IsBefore, IsFirstOf};

use crate::ast_line::Saying;
use crate::families::{Families, families_of, type_names_of};
use crate::rows::{TypeRow, rows_of};
use crate::twice::first_twice;
use crate::undeclared::first_unknown;
use cfg_model::NamedGrammar;
use ck_base::{Kind, SpecFault};
use section_frame::Numbered;
use std::alloc::Global;

/// The types that the lines declare, by names, and the families.
#[derive(Drop)]
pub(crate) struct AstNames<'s> {
    pub rows: Vec<TypeRow<'s>>,
    pub families: Families,
}

/// The types and families that the lines declare; or the first fault of kind twice, else that of
/// kind unknown.
pub(crate) fn declared_names<'s>(
    alloc: Global,
    g: &NamedGrammar,
    head: u32,
    list: &[Numbered<Saying<'s>>],
) -> Result<AstNames<'s>, SpecFault>
    requires few { length list.now + 1 < 2 ^ 32 }
    requires grow { Grow (map declared_by list.now) }
    requires before { IsBefore head (map declared_by list.now) }
    ensures rows { IfOk result (λ names.
        map row_seen names.rows.items ≡ rows_in (map declared_by list.now)) }
    ensures families { IfOk result (λ names.
        AreFamilies (map declared_by list.now) names.families) }
    ensures apart { IfOk result (λ names. AreApart (labels_in (map declared_by list.now))) }
    ensures twice { IfOk result (λ names. HasNone g.now (map declared_by list.now) twice) }
    ensures unknown { IfOk result (λ names. (line : ℕ)
        → HasIn g.now head (map declared_by list.now) unknown line → ⊥) }
    ensures fault { IfErr result (λ fault. (these : SectionLines) → head ≡ these.head
        → DeclareAll (ast g.now).Shape these.inside (map declared_by list.now)
        → IsFirstOf g.now these fault) }
{
    let rows = rows_of(alloc, list)?;
    if let Some(line) = first_twice(alloc, g, list, rows.as_slice())? {
        return Err(SpecFault::Bad {
            line,
            kind: Kind::Twice,
        });
    }
    let families = families_of(alloc, list)?;
    let types = type_names_of(alloc, list)?;
    if let Some(line) = first_unknown(alloc, g, head, list, &families, &types)? {
        return Err(SpecFault::Bad {
            line,
            kind: Kind::Unknown,
        });
    }
    Ok(AstNames { rows, families })
}
