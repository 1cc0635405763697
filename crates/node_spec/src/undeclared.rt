// The first line that names what isn't declared.
ghost use Rattle.std.specs.Prelude.{◌≡◌, ◌+◌, ◌<◌, ◌^◌, ℕ, length, map, IfOk, MatchOption};
ghost use Rattle.ck_base.specs.declared.fault.Kind.TheVariants.{Unknown as unknown};
ghost use Rattle.section_frame.specs.Declares.{Grow};
ghost use Rattle.spec_text.specs.Least.{Least};
ghost use Rattle.node_spec.specs.AstTables.{type_names};
ghost use Rattle.node_spec.specs.within.AstSeen.{declared_by};
ghost use Rattle.node_spec.specs.within.AstSteps.{AreFamilies, HasIn, IsBefore};

use crate::ast_line::Saying;
use crate::earlier::earlier;
use crate::families::Families;
use crate::unknown_head::is_head_unknown;
use crate::unknown_lines::{
    first_unknown_build, first_unknown_node, first_without_base, first_without_item_type,
};
use cfg_model::NamedGrammar;
use ck_base::{Names, NoMemory};
use section_frame::Numbered;
use std::alloc::Global;

/// The first line that names what isn't declared. It is the line of the section's head where a
/// nonterminal has no family, or a rule builds nothing.
pub(crate) fn first_unknown(
    alloc: Global,
    g: &NamedGrammar,
    head: u32,
    list: &[Numbered<Saying<'_>>],
    families: &Families,
    types: &Names,
) -> Result<Option<u32>, NoMemory>
    requires few { length list.now + 1 < 2 ^ 32 }
    requires grow { Grow (map declared_by list.now) }
    requires before { IsBefore head (map declared_by list.now) }
    requires families { AreFamilies (map declared_by list.now) families.now }
    requires types { types.now ≡ type_names (map declared_by list.now) }
    ensures { let ds = map declared_by list.now in IfOk result (λ found. MatchOption found
        ((line : ℕ) → HasIn g.now head ds unknown line → ⊥)
        (Least (HasIn g.now head ds unknown))) }
{
    if is_head_unknown(alloc, g, families, list)? {
        return Ok(Some(head));
    }
    let base = first_without_base(alloc, list)?;
    let item = first_without_item_type(&families.names, list);
    let node = first_unknown_node(&g.nonterminals, &families.names, list);
    let build = first_unknown_build(&g.labels, types, list);
    let first = earlier(base, item);
    let second = earlier(node, build);
    let found = earlier(first, second);
    Ok(found)
}
