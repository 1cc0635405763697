// A case run through the top call over devices in memory.
use crate::case::{Case, Devices, Taking, Wanted};
use ck_base::NoMemory;
use ck_io::{Files, MemFiles, MemSink};
use ck_tool::cocktail;
use std::alloc::Global;

/// A sink has room for so many bytes, or for what is wanted of `out` where that is more.
const ROOM: usize = 65_536;

/// What the run of the case left, over these devices.
pub(crate) fn run(alloc: Global, case: &Case, devices: Devices) -> Result<Wanted, NoMemory> {
    let mut files = files_of(alloc, case, devices.failing_read)?;
    let room = case.wanted.out.len().max(ROOM);
    let mut out = sink_of(alloc, devices.out, room)?;
    let mut err = sink_of(alloc, devices.err, ROOM)?;
    let status = cocktail(alloc, &case.words, &mut files, &mut out, &mut err);
    Ok(Wanted {
        out: Vec::from_slice(alloc, out.bytes())?,
        err: Vec::from_slice(alloc, err.bytes())?,
        status: status.code(),
    })
}

/// The files of the case in memory, of which this read fails.
fn files_of(alloc: Global, case: &Case, failing_read: u64) -> Result<MemFiles, NoMemory> {
    let mut files = MemFiles::new(alloc, Vec::from_slice(alloc, &[failing_read])?);
    for file in &case.files {
        files.add(file.name.as_str(), file.bytes.as_slice())?;
    }
    if let Some(name) = &case.read_before {
        let _ = files.read_at(name.as_str(), 0, &mut [0]);
    }
    Ok(files)
}

/// A sink in memory with so much room, that takes bytes so.
fn sink_of(alloc: Global, taking: Taking, room: usize) -> Result<MemSink, NoMemory> {
    let fails = Vec::from_slice(alloc, &[taking.failing])?;
    MemSink::new(alloc, taking.per_call.max(1), room, fails)
}
