// Cases that are made: limits, long texts, a prefix of each length.
use crate::case::{Case, File, Wanted};
use crate::judging::{Tally, judge};
use anyhow::Result;
use std::alloc::{AllocError, Global};

/// Words, and blanks that are skipped.
const SPEC: &[u8] = b"REX\nRULE [a-z]+ : TOKEN ID\nRULE \" \" : SKIP\nEND\n";
/// A specification has at most this many bytes.
const SPEC_LIMIT: usize = 1_048_576;
/// A source has at most this many bytes.
const SOURCE_LIMIT: usize = 4_194_304;

/// A list of `x` that isn't empty. Its tree has a node for each.
const LIST: &[u8] = b"REX
RULE \"x\" : TOKEN X
LALR
RULE one : L = X
RULE more : L = L X
AST
FAMILY L
TYPE One : L ()
TYPE More : L (init: L)
BUILD one = One()
BUILD more = More($1)
END
";
/// The same, of which a tree of one node drops the list.
const DROPPED: &[u8] = b"REX
RULE \"x\" : TOKEN X
LALR
RULE top : Top = L
RULE one : L = X
RULE more : L = L X
AST
FAMILY Top
TYPE Leaf : Top ()
FAMILY L
TYPE One : L ()
TYPE More : L (init: L)
BUILD top = Leaf()
BUILD one = One()
BUILD more = More($1)
END
";
/// A tree has at most this many nodes.
const TREE_LIMIT: usize = 1_048_576;

/// Judges the cases that are made.
pub(crate) fn judge_all(rt: &HostRuntime, tally: &mut Tally) -> Result<()> {
    judge_limits(rt, tally)?;
    judge_trees(rt, tally)?;
    judge_prefixes(rt, tally)?;
    judge_reads(rt, tally)
}

/// Judges texts of the greatest length and of one byte more: the specification has line feeds at its
/// end, and the source blanks alone.
fn judge_limits(rt: &HostRuntime, tally: &mut Tally) -> Result<()> {
    let long_spec = "spec: longer than 1048576 bytes\n";
    let long_source = "source: longer than 4194304 bytes\n";
    for (spec, source, out, err, status) in [
        (SPEC_LIMIT, 0, "1:1 END\n", "", 0),
        (SPEC_LIMIT + 1, 0, "", long_spec, 2),
        (0, SOURCE_LIMIT, "1:4194305 END\n", "", 0),
        (0, SOURCE_LIMIT + 1, "", long_source, 3),
        // The specification comes first.
        (SPEC_LIMIT + 1, SOURCE_LIMIT + 1, "", long_spec, 2),
    ] {
        let alloc = rt.alloc();
        let name = format!(in alloc; "specification of {spec} bytes, source of {source} bytes")?;
        let spec = padded(alloc, SPEC, b'\n', spec)?;
        let source = padded(alloc, b"", b' ', source)?;
        let wanted = Wanted {
            out: Vec::from_slice(alloc, out.as_bytes())?,
            err: Vec::from_slice(alloc, err.as_bytes())?,
            status,
        };
        let case = case_of(alloc, "tokens", name, spec, source, wanted)?;
        judge(rt, &case, tally)?;
    }
    Ok(())
}

/// Judges trees of the greatest number of nodes and of one more, which is refused unless it is dropped.
fn judge_trees(rt: &HostRuntime, tally: &mut Tally) -> Result<()> {
    let too_large = "source: tree of more than 1048576 nodes\n";
    for (spec, nodes, err, status) in [
        (LIST, TREE_LIMIT, "", 0),
        (LIST, TREE_LIMIT + 1, too_large, 3),
        (DROPPED, TREE_LIMIT + 1, "", 0),
    ] {
        let alloc = rt.alloc();
        let name = format!(in alloc; "list of {nodes} nodes, status {status}")?;
        let out = match (status, spec == LIST) {
            (0, true) => lines_of_list(alloc, nodes)?,
            (0, false) => Vec::from_slice(alloc, b"0 Leaf\n")?,
            _ => Vec::new(alloc),
        };
        let wanted = Wanted {
            out,
            err: Vec::from_slice(alloc, err.as_bytes())?,
            status,
        };
        let spec = Vec::from_slice(alloc, spec)?;
        let source = padded(alloc, b"", b'x', nodes)?;
        let mut case = case_of(alloc, "tree", name, spec, source, wanted)?;
        case.devices.out.per_call = 65_536;
        judge(rt, &case, tally)?;
    }
    Ok(())
}

/// The lines of the tree of a list with so many nodes.
fn lines_of_list(alloc: Global, nodes: usize) -> Result<Vec<u8>, AllocError> {
    let mut lines = Vec::new(alloc);
    for depth in 0..nodes {
        let last = depth == nodes - 1;
        let name = if last { "One" } else { "More" };
        let line = format!(in alloc; "{depth} {name}\n")?;
        lines.extend_from_slice(line.as_bytes())?;
    }
    Ok(lines)
}

/// Judges each proper prefix of the specification: its first line isn't `REX` yet, or `END` isn't
/// there, which is told at the number of lines plus 1. The last line needs no end.
fn judge_prefixes(rt: &HostRuntime, tally: &mut Tally) -> Result<()> {
    for size in 0..SPEC.len() {
        let alloc = rt.alloc();
        let name = format!(in alloc; "first {size} bytes of a specification")?;
        let prefix = &SPEC[..size];
        let wanted = if prefix.ends_with(b"\nEND") {
            Wanted {
                out: Vec::from_slice(alloc, b"1:1 END\n")?,
                err: Vec::new(alloc),
                status: 0,
            }
        } else {
            let line = if size < b"REX".len() {
                1
            } else {
                lines_in(prefix).saturating_add(1)
            };
            Wanted {
                out: Vec::new(alloc),
                err: format!(in alloc; "spec:{line}: section\n")?.into_bytes(),
                status: 2,
            }
        };
        let spec = Vec::from_slice(alloc, prefix)?;
        judge(
            rt,
            &case_of(alloc, "tokens", name, spec, Vec::new(alloc), wanted)?,
            tally,
        )?;
    }
    Ok(())
}

/// Judges each failing read where the source has 20,000 blanks. A read gives 16,384 bytes at most, so
/// the specification takes two reads and the source three, each with the one that finds the end.
fn judge_reads(rt: &HostRuntime, tally: &mut Tally) -> Result<()> {
    for failing in 1..=6u64 {
        let alloc = rt.alloc();
        let name = format!(in alloc; "read {failing} fails, source of 20000 bytes")?;
        let fails = failing <= 5;
        let out = if fails { "" } else { "1:20001 END\n" };
        let err = if fails { "device: read fault\n" } else { "" };
        let wanted = Wanted {
            out: Vec::from_slice(alloc, out.as_bytes())?,
            err: Vec::from_slice(alloc, err.as_bytes())?,
            status: if fails { 8 } else { 0 },
        };
        let spec = Vec::from_slice(alloc, SPEC)?;
        let source = padded(alloc, b"", b' ', 20_000)?;
        let mut case = case_of(alloc, "tokens", name, spec, source, wanted)?;
        case.devices.failing_read = failing;
        judge(rt, &case, tally)?;
    }
    Ok(())
}

/// How many lines the bytes have, of which the last may lack its end.
fn lines_in(bytes: &[u8]) -> usize {
    let ends = bytes.iter().filter(|byte| **byte == b'\n').count();
    if bytes.is_empty() || bytes.ends_with(b"\n") {
        ends
    } else {
        ends.saturating_add(1)
    }
}

/// The case of the command with `s` and `x` over these two files.
fn case_of(
    alloc: Global,
    command: &str,
    name: String,
    spec: Vec<u8>,
    source: Vec<u8>,
    wanted: Wanted,
) -> Result<Case, AllocError> {
    let mut case = Case::new(alloc, name);
    for word in [command, "s", "x"] {
        case.words.push(String::from_str(alloc, word)?)?;
    }
    for (name, bytes) in [("s", spec), ("x", source)] {
        let name = String::from_str(alloc, name)?;
        case.files.push(File { name, bytes })?;
    }
    case.wanted = wanted;
    Ok(case)
}

/// The bytes, and behind them this byte as often as it takes to have this size.
fn padded(alloc: Global, bytes: &[u8], by: u8, size: usize) -> Result<Vec<u8>, AllocError> {
    let mut all = Vec::from_slice(alloc, bytes)?;
    let more = vec![in alloc; by; size.saturating_sub(all.len())]?;
    all.extend_from_slice(more.as_slice())?;
    Ok(all)
}
