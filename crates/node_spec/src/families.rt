// Families in order of declaration, and those of nonterminals.
ghost use Rattle.std.specs.Prelude.{◌≡◌, ◌+◌, ◌<◌, ◌^◌, ◌++◌, ◌∷◌, [], List, length, map, IfOk, OnOk};
ghost use Rattle.ck_base.specs.Numbered.{AreApart, met};
ghost use Rattle.section_frame.specs.Declares.{Declared};
ghost use Rattle.node_spec.specs.AstFaults.{names_in};
ghost use Rattle.node_spec.specs.AstShapes.{AstSaying};
ghost use Rattle.node_spec.specs.AstTables.{families_by, family_number, family_then, type_names};
ghost use Rattle.node_spec.specs.within.AstSeen.{declared_by, saying_seen};
ghost use Rattle.node_spec.specs.within.AstSteps.{AreFamilies};
ghost use Rattle.node_spec.specs.within.AstUnknown.{AreNodes, family_after};

use crate::ast_line::Saying;
use crate::names_of_lines::types_named;
use crate::node_lines::{NodeLines, node_lines};
use cfg_model::NamedGrammar;
use ck_base::{Names, NoMemory};
use section_frame::Numbered;
use std::alloc::Global;

/// Families, by number: their names, and which are of the target side.
#[derive(Drop)]
pub(crate) struct Families {
    pub names: Names,
    pub targets: Vec<bool>,
}

impl Families {
    /// The number of the family; 0 where there is none of the name.
    pub(crate) fn number_of(&self, name: &[u8]) -> u32
        ensures { result ≡ family_number self.now.names name.now }
    {
        self.names.find(name).unwrap_or(0)
    }
}

/// The families that the lines declare, none of which is there twice.
pub(crate) fn families_of(
    alloc: Global,
    list: &[Numbered<Saying<'_>>],
) -> Result<Families, NoMemory>
    requires apart { AreApart (names_in (map declared_by list.now)) }
    requires few { length list.now + 1 < 2 ^ 32 }
    ensures { IfOk result (AreFamilies (map declared_by list.now)) }
{
    let mut names = Names::new(alloc);
    let mut targets = Vec::new(alloc);
    for line in list {
        add_family(&mut names, &mut targets, &line.says)?;
    }
    Ok(Families { names, targets })
}

/// Puts the family that the line declares, if any, behind those that are there.
fn add_family(names: &mut Names, targets: &mut Vec<bool>, says: &Saying<'_>) -> Result<(), NoMemory>
    requires { length names.old + 1 < 2 ^ 32 }
    ensures names { OnOk result (names.new
        ≡ met names.old (map (λ f. f.name) (family_then (saying_seen says.now) []))) }
    ensures sides { OnOk result (targets.new.items
        ≡ targets.old.items ++ map (λ f. f.target) (family_then (saying_seen says.now) [])) }
{
    match says {
        Saying::Family(name) => put_family(names, targets, name, false),
        Saying::Target(name) => put_family(names, targets, name, true),
        Saying::NodeType(_, _, _) => Ok(()),
        Saying::Node(_, _) => Ok(()),
        Saying::Build(_, _) => Ok(()),
    }
}

/// Puts a family behind those that are there.
fn put_family(
    names: &mut Names,
    targets: &mut Vec<bool>,
    name: &[u8],
    target: bool,
) -> Result<(), NoMemory>
    requires { length names.old + 1 < 2 ^ 32 }
    ensures names { OnOk result (names.new ≡ met names.old (name.now ∷ [])) }
    ensures sides { OnOk result (targets.new.items ≡ targets.old.items ++ target ∷ []) }
{
    names.intern(name)?;
    targets.push(target)?;
    Ok(())
}

/// The names of the types that the lines declare, none of which is there twice.
pub(crate) fn type_names_of(alloc: Global, list: &[Numbered<Saying<'_>>]) -> Result<Names, NoMemory>
    requires apart { AreApart (names_in (map declared_by list.now)) }
    requires few { length list.now + 1 < 2 ^ 32 }
    ensures { IfOk result (λ names. names ≡ type_names (map declared_by list.now)) }
{
    let names = types_named(alloc, list)?;
    Ok(names)
}

/// The family of each nonterminal of the grammar: that of its NODE line; without one, that of its
/// own name.
pub(crate) fn node_families(
    alloc: Global,
    g: &NamedGrammar,
    families: &Families,
    list: &[Numbered<Saying<'_>>],
) -> Result<Vec<u32>, NoMemory>
    requires are { AreFamilies (map declared_by list.now) families.now }
    requires few { length list.now + 1 < 2 ^ 32 }
    ensures { IfOk result (λ found.
        found.items ≡ families_by (map declared_by list.now) g.now.nonterminals) }
{
    let nodes = node_lines(alloc, families, list)?;
    let found = families_each(alloc, &g.nonterminals, &nodes, families)?;
    Ok(found)
}

/// The family of each of these nonterminals.
fn families_each(
    alloc: Global,
    nonterminals: &Names,
    nodes: &NodeLines,
    families: &Families,
) -> Result<Vec<u32>, NoMemory>
    requires { length nodes.now.nonterminals ≡ length nodes.now.families.items }
    ensures { IfOk result (λ found. (ds : List (Declared AstSaying))
        → AreNodes families.now.names ds nodes.now
        → found.items ≡ map (family_after families.now.names ds) nonterminals.now) }
{
    let mut found = Vec::new(alloc);
    for n in 0..nonterminals.len() {
        let family = nodes.family_of(families, nonterminals.text_of(n));
        found.push(family)?;
    }
    Ok(found)
}
