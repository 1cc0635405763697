// The names by which lines declare something.
ghost use Rattle.std.specs.Prelude.{◌≡◌, ◌+◌, ◌<◌, ◌^◌, [], length, map, IfOk};
ghost use Rattle.ck_base.specs.Numbered.{met};
ghost use Rattle.section_frame.specs.Passes.{judged_by};
ghost use Rattle.section_frame.specs.Words.{names_by};

use crate::again::Naming;
use crate::counted::meet;
use crate::pass::Numbered;
use ck_base::{Names, NoMemory};
use std::alloc::Global;

/// The names by which lines declare something of a sort, in the order in which they are first met.
pub fn gathered<T, N: Naming<T>>(
    alloc: Global,
    list: &[Numbered<T>],
    naming: &N,
) -> Result<Names, NoMemory>
    requires { length list.now + 1 < 2 ^ 32 }
    ensures { IfOk result (λ names.
        names ≡ met [] (names_by N.name (map (judged_by N.seen) list.now))) }
{
    let mut names = Names::new(alloc);
    gather(&mut names, list, naming)?;
    Ok(names)
}

/// Puts the names by which lines declare something of a sort behind those that are there, each
/// once.
pub fn gather<T, N: Naming<T>>(
    names: &mut Names,
    list: &[Numbered<T>],
    naming: &N,
) -> Result<(), NoMemory>
    requires { length names.old + length list.now + 1 < 2 ^ 32 }
    ensures { IfOk result (λ done.
        names.new ≡ met names.old (names_by N.name (map (judged_by N.seen) list.now))) }
{
    for line in list {
        meet(names, naming.name_of(&line.says))?;
    }
    Ok(())
}
