// NODE lines gathered: the family of each nonterminal.
ghost use Rattle.std.specs.Prelude.{◌≡◌, ◌+◌, ◌<◌, ◌^◌, List, length, map, IfOk, OnOk};
ghost use Rattle.section_frame.specs.Declares.{Declared};
ghost use Rattle.node_spec.specs.AstShapes.{AstSaying, node};
ghost use Rattle.node_spec.specs.within.AstSeen.{declared_by, saying_seen};
ghost use Rattle.node_spec.specs.within.AstUnknown.{AreNodes, NotesNode, family_after};

use crate::ast_line::Saying;
use crate::families::Families;
use ck_base::{Names, NoMemory};
use section_frame::Numbered;
use std::alloc::Global;

/// The nonterminals that have NODE lines, and the number of the family that the first line of each
/// names.
#[derive(Drop)]
pub(crate) struct NodeLines {
    pub nonterminals: Names,
    pub families: Vec<u32>,
}

/// What the NODE lines say.
pub(crate) fn node_lines(
    alloc: Global,
    families: &Families,
    list: &[Numbered<Saying<'_>>],
) -> Result<NodeLines, NoMemory>
    requires { length list.now + 1 < 2 ^ 32 }
    ensures { IfOk result (AreNodes families.now.names (map declared_by list.now)) }
{
    let mut nonterminals = Names::new(alloc);
    let mut numbers = Vec::new(alloc);
    for line in list {
        note_node(&mut nonterminals, &mut numbers, families, &line.says)?;
    }
    Ok(NodeLines {
        nonterminals,
        families: numbers,
    })
}

/// Notes the nonterminal of a NODE line, and the number of its family, where it has no line so
/// far.
fn note_node(
    nonterminals: &mut Names,
    numbers: &mut Vec<u32>,
    families: &Families,
    says: &Saying<'_>,
) -> Result<(), NoMemory>
    requires { length nonterminals.old + 1 < 2 ^ 32 }
    ensures { OnOk result (NotesNode families.now.names (saying_seen says.now)
        nonterminals.old numbers.old.items nonterminals.new numbers.new.items) }
{
    match says {
        Saying::Family(_) => Ok(()),
        Saying::Target(_) => Ok(()),
        Saying::NodeType(_, _, _) => Ok(()),
        Saying::Node(nonterminal, name) => {
            note_first(nonterminals, numbers, families, nonterminal, name)
        }
        Saying::Build(_, _) => Ok(()),
    }
}

/// Notes the nonterminal, and the number of its family, where it has no line so far.
fn note_first(
    nonterminals: &mut Names,
    numbers: &mut Vec<u32>,
    families: &Families,
    nonterminal: &[u8],
    name: &[u8],
) -> Result<(), NoMemory>
    requires { length nonterminals.old + 1 < 2 ^ 32 }
    ensures { OnOk result (NotesNode families.now.names (node nonterminal.now name.now)
        nonterminals.old numbers.old.items nonterminals.new numbers.new.items) }
{
    if let Some(_) = nonterminals.find(nonterminal) {
        return Ok(());
    }
    nonterminals.intern(nonterminal)?;
    let number = families.number_of(name);
    numbers.push(number)?;
    Ok(())
}

impl NodeLines {
    /// The number of the nonterminal's family: that of its NODE line; without one, that of its own
    /// name.
    pub(crate) fn family_of(&self, families: &Families, nonterminal: &[u8]) -> u32
        requires { length self.now.nonterminals ≡ length self.now.families.items }
        ensures { (ds : List (Declared AstSaying)) → AreNodes families.now.names ds self.now
            → result ≡ family_after families.now.names ds nonterminal.now }
    {
        match self.nonterminals.find(nonterminal) {
            Some(n) => self.families[n as usize],
            None => families.number_of(nonterminal),
        }
    }
}
