//! Runs worked cases of the whole tool, and says how many hold.
//!
//! | question | file |
//! |---|---|
//! | the cases, as a person writes them | `data/*.txt`; the form is told in `data/README.md` |
//! | a case; how it is read from its text | `src/case.rt`; `src/reading.rt`, `src/escapes.rt` |
//! | how a case is run and judged | `src/running.rt`, `src/judging.rt` |
//! | cases that are made | `src/made.rt` |
//! | edges of std: the disk, a writer that is full | `src/disk.rt` |
//! | the plain scanner and the one by tables | `src/scanners.rt` |
//! | calls that want memory and that no case reaches | `src/ample.rt` |
#![tactic(auto)]

mod ample;
mod case;
mod disk;
mod escapes;
mod judging;
mod made;
mod reading;
mod running;
mod scanners;

use anyhow::{Context, Result, bail};
use judging::{Tally, judge};
use std::fs;

/// The files of cases.
const FILES: [&str; 9] = [
    "examples.txt",
    "tokens.txt",
    "derive.txt",
    "tree.txt",
    "specifications.txt",
    "notation.txt",
    "scanning.txt",
    "words.txt",
    "devices.txt",
];

fn main(rt: HostRuntime) -> Result<()> {
    let mut tally = Tally::new();
    for name in FILES {
        let text = fs::read_to_string(&rt, name).context(name)?;
        for case in reading::cases_of(&rt, name, text.as_str())? {
            judge(&rt, &case, &mut tally)?;
        }
    }
    made::judge_all(&rt, &mut tally)?;
    disk::try_edges(&rt)?;
    scanners::try_scanners(&rt)?;
    ample::call_all(rt.alloc())?;
    println!(rt; "{} cases hold", tally.held)?;
    if tally.differ > 0 {
        bail!("{} cases differ", tally.differ);
    }
    Ok(())
}
