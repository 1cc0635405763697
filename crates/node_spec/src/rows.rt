// Types by their rows: bases first.
ghost use Rattle.std.specs.Prelude.{◌≡◌, ◌+◌, ◌<◌, ◌^◌, ℕ, [], ◌∷◌, length, map, IfOk, OnOk, MatchOption};
ghost use Rattle.ck_base.specs.Numbered.{met};
ghost use Rattle.node_spec.specs.AstTables.{row_after, row_names, row_over, rows_in};
ghost use Rattle.node_spec.specs.within.AstSeen.{declared_by, item_seen, row_seen, saying_seen};
ghost use Rattle.node_spec.specs.within.AstTwice.{AreFirstRows, first_row, rows_after};

use crate::ast_line::{ItemText, Saying};
use ck_base::{Names, NoMemory};
use section_frame::Numbered;
use std::alloc::Global;

/// A type by names: its own, its family's, the number of the type that it extends, if any, and all
/// its items, those of its base first.
#[derive(Drop)]
pub(crate) struct TypeRow<'s> {
    pub name: &'s [u8],
    pub family: &'s [u8],
    pub base: Option<u32>,
    pub items: Vec<ItemText<'s>>,
}

/// The names of types, and for each the number of the first type that is called so.
#[derive(Drop)]
pub(crate) struct FirstRows {
    pub names: Names,
    pub rows: Vec<u32>,
}

impl FirstRows {
    /// The first type of the name.
    fn find(&self, name: &[u8]) -> Option<u32>
        ensures { result ≡ first_row self.now.names self.now.rows.items name.now }
    {
        let number = self.names.find(name)?;
        let row = self.rows.get(number as usize)?;
        Some(*row)
    }

    /// Adds the type of this number, which is the first of its name where that is new.
    fn add(&mut self, name: &[u8], row: u32) -> Result<(), NoMemory>
        requires { length self.old.names + 1 < 2 ^ 32 }
        ensures names { OnOk result (self.new.names ≡ met self.old.names (name.now ∷ [])) }
        ensures rows { OnOk result
            (self.new.rows.items ≡ rows_after self.old.names self.old.rows.items name.now row) }
    {
        if self.names.find(name).is_none() {
            self.names.intern(name)?;
            self.rows.push(row)?;
        }
        Ok(())
    }
}

/// The types that the lines declare, in their order. A base is the first type of its name among
/// the lines before.
pub(crate) fn rows_of<'s>(
    alloc: Global,
    list: &[Numbered<Saying<'s>>],
) -> Result<Vec<TypeRow<'s>>, NoMemory>
    requires { length list.now < 2 ^ 32 }
    ensures { IfOk result (λ rows.
        map row_seen rows.items ≡ rows_in (map declared_by list.now)) }
{
    let mut firsts = FirstRows {
        names: Names::new(alloc),
        rows: Vec::new(alloc),
    };
    let mut rows = Vec::new(alloc);
    for line in list {
        add_row(alloc, &mut firsts, &mut rows, &line.says)?;
    }
    Ok(rows)
}

/// Adds the type that a line declares, if it declares one.
fn add_row<'s>(
    alloc: Global,
    firsts: &mut FirstRows,
    rows: &mut Vec<TypeRow<'s>>,
    says: &Saying<'s>,
) -> Result<(), NoMemory>
    requires few { length rows.old.items + 1 < 2 ^ 32 }
    requires firsts { AreFirstRows firsts.old (row_names (map row_seen rows.old.items)) }
    ensures rows { OnOk result (map row_seen rows.new.items
        ≡ row_after (map row_seen rows.old.items) (saying_seen says.now)) }
    ensures firsts { OnOk result
        (AreFirstRows firsts.new (row_names (map row_seen rows.new.items))) }
{
    let Saying::NodeType(name, base, items) = *says else {
        return Ok(());
    };
    let extended = firsts.find(base);
    let row = row_extending(alloc, rows.as_slice(), name, base, items, extended)?;
    firsts.add(name, rows.len() as u32)?;
    rows.push(row)?;
    Ok(())
}

/// The type of the name that extends the one of this number by the items; without one, its base is
/// its family.
fn row_extending<'s>(
    alloc: Global,
    rows: &[TypeRow<'s>],
    name: &'s [u8],
    base: &'s [u8],
    own: &[ItemText<'s>],
    extended: Option<u32>,
) -> Result<TypeRow<'s>, NoMemory>
    requires { MatchOption extended (Unit {0}) (λ number. number < length rows.now) }
    ensures { IfOk result (λ row. row_seen row
        ≡ row_over (map row_seen rows.now) name.now base.now (map item_seen own.now) extended) }
{
    let Some(number) = extended else {
        return Ok(TypeRow {
            name,
            family: base,
            base: None,
            items: Vec::from_slice(alloc, own)?,
        });
    };
    let above = &rows[number as usize];
    let mut items = Vec::from_slice(alloc, above.items.as_slice())?;
    items.extend_from_slice(own)?;
    Ok(TypeRow {
        name,
        family: above.family,
        base: extended,
        items,
    })
}
