// Cases run, compared and counted.
use crate::case::{Case, Devices, Stream, Taking, Wanted};
use crate::escapes::shown;
use crate::running::run;
use anyhow::{Result, bail};

/// The line of a write fault.
const WRITE_FAULT: &[u8] = b"device: write fault\n";
/// The exit status where a device failed.
const DEVICE: u8 = 8;

/// How many cases hold, and how many differ.
#[derive(Clone, Copy)]
pub(crate) struct Tally {
    pub held: u64,
    pub differ: u64,
}

impl Tally {
    /// No case yet.
    pub(crate) fn new() -> Tally {
        Tally { held: 0, differ: 0 }
    }

    /// Counts a case that holds, or that differs.
    pub(crate) fn count(&mut self, holds: bool) {
        if holds {
            self.held = self.held.saturating_add(1);
        } else {
            self.differ = self.differ.saturating_add(1);
        }
    }
}

/// Runs the case, once for each place where a stream is to be cut, and counts whether it holds.
pub(crate) fn judge(rt: &HostRuntime, case: &Case, tally: &mut Tally) -> Result<()> {
    let holds = match case.cut {
        None => holds_over(rt, case, case.devices, &case.wanted)?,
        Some(Stream::Out) => holds_cut_out(rt, case)?,
        Some(Stream::Err) => holds_cut_err(rt, case)?,
    };
    tally.count(holds);
    Ok(())
}

/// Whether the case holds for each number of bytes that `out` takes before it fails: those bytes are
/// written, and a line says so.
fn holds_cut_out(rt: &HostRuntime, case: &Case) -> Result<bool> {
    let all = case.wanted.out.as_slice();
    for taken in 0..all.len() {
        let mut devices = case.devices;
        devices.out = Taking::cut_after(taken);
        let wanted = Wanted {
            out: Vec::from_slice(rt.alloc(), &all[..taken])?,
            err: Vec::from_slice(rt.alloc(), WRITE_FAULT)?,
            status: DEVICE,
        };
        if !holds_over(rt, case, devices, &wanted)? {
            return Ok(false);
        }
    }
    let mut devices = case.devices;
    devices.out = Taking::cut_after(all.len());
    holds_over(rt, case, devices, &case.wanted)
}

/// Whether the case holds for each number of bytes that `err` takes before it fails: those bytes of
/// the line are written.
fn holds_cut_err(rt: &HostRuntime, case: &Case) -> Result<bool> {
    let all = case.wanted.err.as_slice();
    for taken in 0..all.len() {
        let mut devices = case.devices;
        devices.err = Taking::cut_after(taken);
        let wanted = Wanted {
            out: Vec::from_slice(rt.alloc(), case.wanted.out.as_slice())?,
            err: Vec::from_slice(rt.alloc(), &all[..taken])?,
            status: DEVICE,
        };
        if !holds_over(rt, case, devices, &wanted)? {
            return Ok(false);
        }
    }
    let mut devices = case.devices;
    devices.err = Taking::cut_after(all.len());
    holds_over(rt, case, devices, &case.wanted)
}

/// Whether the run over these devices leaves what is wanted; else both are printed.
fn holds_over(rt: &HostRuntime, case: &Case, devices: Devices, wanted: &Wanted) -> Result<bool> {
    let Ok(came) = run(rt.alloc(), case, devices) else {
        bail!("memory was wanting for case {}", case.name);
    };
    let same_out = came.out.as_slice() == wanted.out.as_slice();
    let same_err = came.err.as_slice() == wanted.err.as_slice();
    if same_out && same_err && came.status == wanted.status {
        return Ok(true);
    }
    println!(rt; "case {} differs", case.name)?;
    print_ending(rt, "wanted", wanted)?;
    print_ending(rt, "came", &came)?;
    Ok(false)
}

/// Prints what a run leaves, as a case would write it.
fn print_ending(rt: &HostRuntime, which: &str, ending: &Wanted) -> Result<()> {
    let out = shown(rt.alloc(), ending.out.as_slice())?;
    let err = shown(rt.alloc(), ending.err.as_slice())?;
    println!(rt; "{which}: status {}\nout\n{out}err\n{err}", ending.status)?;
    Ok(())
}
