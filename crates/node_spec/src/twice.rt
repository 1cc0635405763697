// The first line that declares something twice.
ghost use Rattle.std.specs.Prelude.{◌≡◌, ◌+◌, ◌<◌, ◌^◌, length, map, IfOk, MatchOption};
ghost use Rattle.ck_base.specs.Numbered.{AreApart};
ghost use Rattle.ck_base.specs.declared.fault.Kind.TheVariants.{Twice as twice};
ghost use Rattle.section_frame.specs.Declares.{Grow, HasFault};
ghost use Rattle.spec_text.specs.Least.{Least};
ghost use Rattle.node_spec.specs.AstFaults.{ast, labels_in, names_in};
ghost use Rattle.node_spec.specs.AstTables.{rows_in};
ghost use Rattle.node_spec.specs.within.AstSeen.{declared_by, row_seen};
ghost use Rattle.node_spec.specs.within.AstSteps.{HasNone};

use crate::ast_line::Saying;
use crate::declared_again::{Sort, first_again};
use crate::earlier::earlier;
use crate::item_twice::first_item_twice;
use crate::reserved::first_reserved;
use crate::rows::TypeRow;
use crate::used_twice::first_used_twice;
use cfg_model::NamedGrammar;
use ck_base::NoMemory;
use section_frame::Numbered;
use std::alloc::Global;

/// The first line that declares again what is declared, names by a reserved word, or uses a
/// nonterminal's value twice.
pub(crate) fn first_twice(
    alloc: Global,
    g: &NamedGrammar,
    list: &[Numbered<Saying<'_>>],
    rows: &[TypeRow<'_>],
) -> Result<Option<u32>, NoMemory>
    requires few { length list.now + 1 < 2 ^ 32 }
    requires grow { Grow (map declared_by list.now) }
    requires rows { map row_seen rows.now ≡ rows_in (map declared_by list.now) }
    ensures fault { let ds = map declared_by list.now in IfOk result (λ found. MatchOption found
        (HasNone g.now ds twice) (Least (HasFault (ast g.now) ds twice))) }
    ensures apart { let ds = map declared_by list.now in IfOk result (λ found. MatchOption found
        (AreApart (names_in ds)) (λ line. line ≡ line)) }
    ensures labels { let ds = map declared_by list.now in IfOk result (λ found. MatchOption found
        (AreApart (labels_in ds)) (λ line. line ≡ line)) }
{
    let declared = first_again(alloc, Sort::Declared, list)?;
    let nonterminals = first_again(alloc, Sort::Nonterminal, list)?;
    let labels = first_again(alloc, Sort::Label, list)?;
    let reserved = first_reserved(list);
    let items = first_item_twice(alloc, list, rows)?;
    let used = first_used_twice(alloc, g, list)?;
    let attached = earlier(nonterminals, labels);
    let again = earlier(declared, attached);
    let within = earlier(items, used);
    let others = earlier(reserved, within);
    let first = earlier(again, others);
    Ok(first)
}
