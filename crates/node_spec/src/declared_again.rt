// The first line that declares a name again.
ghost use Rattle.std.specs.Prelude.{◌≡◌, ◌+◌, ◌<◌, ◌^◌, length, map, IfOk, MatchOption, None, Some};
ghost use Rattle.ck_base.specs.Numbered.{AreApart};
ghost use Rattle.section_frame.specs.Declares.{Grow};
ghost use Rattle.node_spec.specs.declared.declared_again.Sort.TheVariants.{Declared as declared, Label as label, Nonterminal as nonterminal};
ghost use Rattle.node_spec.specs.within.AstSeen.{declared_by, saying_seen};
ghost use Rattle.node_spec.specs.within.AstSteps.{FirstWith};
ghost use Rattle.node_spec.specs.within.AstTwice.{IsAgain, IsMet, Meets, name_said, names_said};

use crate::ast_line::Saying;
use ck_base::{Names, NoMemory};
use section_frame::Numbered;
use std::alloc::Global;

/// What lines declare by names of which none may be there twice.
#[derive(Clone, Copy)]
pub(crate) enum Sort {
    /// Families and types.
    Declared,
    /// The families of nonterminals.
    Nonterminal,
    /// What rules build, by their labels.
    Label,
}

/// The first line that declares what a line before has declared, among those of the sort.
pub(crate) fn first_again(
    alloc: Global,
    sort: Sort,
    list: &[Numbered<Saying<'_>>],
) -> Result<Option<u32>, NoMemory>
    requires few { length list.now + 1 < 2 ^ 32 }
    requires grow { Grow (map declared_by list.now) }
    ensures first { let ds = map declared_by list.now in IfOk result
        (FirstWith ds (IsAgain sort ds)) }
    ensures apart { let ds = map declared_by list.now in IfOk result (λ found. MatchOption found
        (AreApart (names_said sort ds)) (λ line. line ≡ line)) }
{
    let mut names = Names::new(alloc);
    for line in list {
        if is_again(&mut names, sort, &line.says)? {
            return Ok(Some(line.number));
        }
    }
    Ok(None)
}

/// Whether the line declares what is there already; else what it declares is there now.
fn is_again(names: &mut Names, sort: Sort, says: &Saying<'_>) -> Result<bool, NoMemory>
    requires { length names.old + 1 < 2 ^ 32 }
    ensures { IfOk result
        (Meets names.old names.new (name_said sort (saying_seen says.now))) }
{
    let Some(name) = name_of(sort, says) else {
        return Ok(false);
    };
    is_met(names, name)
}

/// Whether the name is there already; else it is there now.
pub(crate) fn is_met(names: &mut Names, name: &[u8]) -> Result<bool, NoMemory>
    requires { length names.old + 1 < 2 ^ 32 }
    ensures { IfOk result (IsMet names.old names.new name.now) }
{
    if names.find(name).is_some() {
        return Ok(true);
    }
    names.intern(name)?;
    Ok(false)
}

/// The name by which the line declares something of the sort.
fn name_of<'s>(sort: Sort, says: &Saying<'s>) -> Option<&'s [u8]>
    ensures { MatchOption result (name_said sort (saying_seen says.now) ≡ None)
        (λ name. name_said sort (saying_seen says.now) ≡ Some name.now) }
{
    match sort {
        Sort::Declared => declared_name(says),
        Sort::Nonterminal => nonterminal_of(says),
        Sort::Label => label_of(says),
    }
}

/// The name of the family or type that the line declares.
fn declared_name<'s>(says: &Saying<'s>) -> Option<&'s [u8]>
    ensures { MatchOption result (name_said declared (saying_seen says.now) ≡ None)
        (λ name. name_said declared (saying_seen says.now) ≡ Some name.now) }
{
    match *says {
        Saying::Family(name) => Some(name),
        Saying::Target(name) => Some(name),
        Saying::NodeType(name, _, _) => Some(name),
        Saying::Node(_, _) => None,
        Saying::Build(_, _) => None,
    }
}

/// The nonterminal of a NODE line.
fn nonterminal_of<'s>(says: &Saying<'s>) -> Option<&'s [u8]>
    ensures { MatchOption result (name_said nonterminal (saying_seen says.now) ≡ None)
        (λ name. name_said nonterminal (saying_seen says.now) ≡ Some name.now) }
{
    match *says {
        Saying::Node(name, _) => Some(name),
        Saying::Family(_) => None,
        Saying::Target(_) => None,
        Saying::NodeType(_, _, _) => None,
        Saying::Build(_, _) => None,
    }
}

/// The label of a BUILD line.
fn label_of<'s>(says: &Saying<'s>) -> Option<&'s [u8]>
    ensures { MatchOption result (name_said label (saying_seen says.now) ≡ None)
        (λ name. name_said label (saying_seen says.now) ≡ Some name.now) }
{
    match *says {
        Saying::Build(label, _) => Some(label),
        Saying::Family(_) => None,
        Saying::Target(_) => None,
        Saying::NodeType(_, _, _) => None,
        Saying::Node(_, _) => None,
    }
}
