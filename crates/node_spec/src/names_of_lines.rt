// Names that lines of one sort declare.
ghost use Rattle.std.specs.Prelude.{◌≡◌, ◌+◌, ◌<◌, ◌^◌, [], length, map, IfOk, OnOk};
ghost use Rattle.ck_base.specs.Numbered.{met};
ghost use Rattle.node_spec.specs.AstFaults.{label_then, name_then, node_then, labels_in, nodes_in};
ghost use Rattle.node_spec.specs.within.AstSeen.{declared_by, saying_seen};
ghost use Rattle.node_spec.specs.within.AstUnknown.{named, type_then, types_in};

use crate::ast_line::Saying;
use ck_base::{Names, NoMemory};
use section_frame::Numbered;
use std::alloc::Global;

/// Puts the name, if there is one, behind those that are there, unless it is one of them.
pub(crate) fn note(names: &mut Names, name: Option<&[u8]>) -> Result<(), NoMemory>
    requires { length names.old + 1 < 2 ^ 32 }
    ensures { OnOk result (names.new ≡ met names.old (named name.entry)) }
{
    let Some(name) = name else {
        return Ok(());
    };
    names.intern(name)?;
    Ok(())
}

/// The name of the family or type that the line declares.
pub(crate) fn declared_name<'s>(says: &Saying<'s>) -> Option<&'s [u8]>
    ensures { named result ≡ name_then (saying_seen says.now) [] }
{
    match says {
        Saying::Family(name) => Some(name),
        Saying::Target(name) => Some(name),
        Saying::NodeType(name, _, _) => Some(name),
        Saying::Node(_, _) => None,
        Saying::Build(_, _) => None,
    }
}

/// The name of the type that the line declares.
fn type_name<'s>(says: &Saying<'s>) -> Option<&'s [u8]>
    ensures { named result ≡ type_then (saying_seen says.now) [] }
{
    match says {
        Saying::Family(_) => None,
        Saying::Target(_) => None,
        Saying::NodeType(name, _, _) => Some(name),
        Saying::Node(_, _) => None,
        Saying::Build(_, _) => None,
    }
}

/// The nonterminal of a NODE line.
fn node_name<'s>(says: &Saying<'s>) -> Option<&'s [u8]>
    ensures { named result ≡ node_then (saying_seen says.now) [] }
{
    match says {
        Saying::Family(_) => None,
        Saying::Target(_) => None,
        Saying::NodeType(_, _, _) => None,
        Saying::Node(nonterminal, _) => Some(nonterminal),
        Saying::Build(_, _) => None,
    }
}

/// The label of a BUILD line.
fn build_label<'s>(says: &Saying<'s>) -> Option<&'s [u8]>
    ensures { named result ≡ label_then (saying_seen says.now) [] }
{
    match says {
        Saying::Family(_) => None,
        Saying::Target(_) => None,
        Saying::NodeType(_, _, _) => None,
        Saying::Node(_, _) => None,
        Saying::Build(label, _) => Some(label),
    }
}

/// The names of the types that the lines declare, each once.
pub(crate) fn types_named(alloc: Global, list: &[Numbered<Saying<'_>>]) -> Result<Names, NoMemory>
    requires { length list.now + 1 < 2 ^ 32 }
    ensures { IfOk result (λ names. names ≡ met [] (types_in (map declared_by list.now))) }
{
    let mut names = Names::new(alloc);
    for line in list {
        note(&mut names, type_name(&line.says))?;
    }
    Ok(names)
}

/// The nonterminals that have NODE lines, each once.
pub(crate) fn nodes_named(alloc: Global, list: &[Numbered<Saying<'_>>]) -> Result<Names, NoMemory>
    requires { length list.now + 1 < 2 ^ 32 }
    ensures { IfOk result (λ names. names ≡ met [] (nodes_in (map declared_by list.now))) }
{
    let mut names = Names::new(alloc);
    for line in list {
        note(&mut names, node_name(&line.says))?;
    }
    Ok(names)
}

/// The labels that have BUILD lines, each once.
pub(crate) fn labels_named(alloc: Global, list: &[Numbered<Saying<'_>>]) -> Result<Names, NoMemory>
    requires { length list.now + 1 < 2 ^ 32 }
    ensures { IfOk result (λ names. names ≡ met [] (labels_in (map declared_by list.now))) }
{
    let mut names = Names::new(alloc);
    for line in list {
        note(&mut names, build_label(&line.says))?;
    }
    Ok(names)
}
