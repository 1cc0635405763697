// The first line whose items repeat a name.
ghost use Rattle.std.specs.Prelude.{◌≡◌, ◌+◌, ◌<◌, ◌^◌, ◌↔◌, List, length, map, IsTrue, IfOk};
ghost use Rattle.section_frame.specs.Declares.{Grow};
ghost use Rattle.node_spec.specs.AstTables.{Row, row_after, rows_in};
ghost use Rattle.node_spec.specs.within.AstSeen.{declared_by, item_seen, row_seen, saying_seen};
ghost use Rattle.node_spec.specs.within.AstSteps.{FirstWith};
ghost use Rattle.node_spec.specs.within.AstTwice.{HasDouble, HasItemTwice, RepeatsItem};

use crate::ast_line::{ItemText, Saying};
use crate::declared_again::is_met;
use crate::rows::TypeRow;
use ck_base::{Names, NoMemory};
use section_frame::Numbered;
use std::alloc::Global;

/// The first line whose type has a name twice among its items, those of its base included.
pub(crate) fn first_item_twice(
    alloc: Global,
    list: &[Numbered<Saying<'_>>],
    rows: &[TypeRow<'_>],
) -> Result<Option<u32>, NoMemory>
    requires few { length list.now + 1 < 2 ^ 32 }
    requires grow { Grow (map declared_by list.now) }
    requires rows { map row_seen rows.now ≡ rows_in (map declared_by list.now) }
    ensures { let ds = map declared_by list.now in IfOk result
        (FirstWith ds (HasItemTwice ds)) }
{
    let mut types = 0;
    for line in list {
        if repeats_item(alloc, rows, types, &line.says)? {
            return Ok(Some(line.number));
        }
        types += types_in(&line.says);
    }
    Ok(None)
}

/// How many types the line declares.
fn types_in(says: &Saying<'_>) -> usize
    ensures few { result < 2 }
    ensures more { (rows : List Row)
        → length (row_after rows (saying_seen says.now)) ≡ length rows + result }
{
    match *says {
        Saying::NodeType(_, _, _) => 1,
        Saying::Family(_) => 0,
        Saying::Target(_) => 0,
        Saying::Node(_, _) => 0,
        Saying::Build(_, _) => 0,
    }
}

/// Whether the line declares a type, and the type of this number has a name twice among its items.
fn repeats_item(
    alloc: Global,
    rows: &[TypeRow<'_>],
    number: usize,
    says: &Saying<'_>,
) -> Result<bool, NoMemory>
    ensures { IfOk result (λ found. IsTrue found
        ↔ RepeatsItem (map row_seen rows.now) number (saying_seen says.now)) }
{
    let Saying::NodeType(_, _, _) = *says else {
        return Ok(false);
    };
    let Some(row) = rows.get(number) else {
        return Ok(false);
    };
    let found = has_double(alloc, row.items.as_slice())?;
    Ok(found)
}

/// Whether two of the items have one name. Of more than 4,294,967,294 items it isn't asked: they are
/// taken to want memory.
fn has_double(alloc: Global, items: &[ItemText<'_>]) -> Result<bool, NoMemory>
    ensures { IfOk result (λ found. IsTrue found
        ↔ HasDouble (map (λ x. x.name) (map item_seen items.now))) }
{
    if items.len() >= u32::MAX as usize {
        return Err(NoMemory);
    }
    let mut names = Names::new(alloc);
    for item in items {
        if is_met(&mut names, item.name)? {
            return Ok(true);
        }
    }
    Ok(false)
}
