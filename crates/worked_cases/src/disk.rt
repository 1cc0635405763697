// Files of the disk and a program's own output, tried for real.
use anyhow::{Result, bail};
use ck_io::{DiskFiles, Failed, Files, LoadError, Sink, StdSink, load};
use std::io::Write;
use std::os::fd::AsRawFd;
use std::{fs, io};

/// A file of the disk, and one that isn't there.
const THERE: &str = "examples/01-tokens/SPEC";

const MISSING: &str = "examples/none";
/// A file that is read in two parts at least, for a part has 16,384 bytes at most.
const LONG: &str = "notation.txt";

const PART: usize = 16_384;
/// More bytes than each of the files has.
const LIMIT: usize = 60_000;
/// Reads of one hundred bytes: each goes on where the one before it ended, or stands elsewhere, or is
/// of the other file.
const READS: [(&str, usize); 8] = [
    (LONG, 0),
    (LONG, 100),
    (THERE, 20),
    (LONG, 300),
    (LONG, 20_000),
    (LONG, 20_100),
    (LONG, 100),
    (LONG, 100),
];

/// Tries what no contract tells: that the disk's bytes come, and that a full writer fails.
pub(crate) fn try_edges(rt: &HostRuntime) -> Result<()> {
    try_disk(rt)?;
    try_places(rt)?;
    try_pipe(rt)?;
    try_writer()
}

/// The bytes of a file come whole and none of a missing one.
fn try_disk(rt: &HostRuntime) -> Result<()> {
    let mut files = DiskFiles::new(rt);
    for name in [THERE, LONG, LONG] {
        let wanted = fs::read(rt, name)?;
        match load(rt.alloc(), &mut files, name, LIMIT) {
            Ok(came) if came.as_slice() == wanted.as_slice() => {}
            _ => bail!("DiskFiles doesn't give the bytes of {name}"),
        }
    }
    match load(rt.alloc(), &mut files, MISSING, LIMIT) {
        Err(LoadError::ReadFault) => Ok(()),
        _ => bail!("DiskFiles doesn't fail at {MISSING}"),
    }
}

/// A read gives the bytes at its place, wherever the one before it ended.
fn try_places(rt: &HostRuntime) -> Result<()> {
    let mut files = DiskFiles::new(rt);
    let mut part = [0; 100];
    for (name, at) in READS {
        let bytes = fs::read(rt, name)?;
        let rest = bytes.get(at..).unwrap_or(&[]);
        let wanted = rest.get(..part.len());
        let came = files.read_at(name, at as u64, &mut part);
        if came != Ok(part.len()) || wanted != Some(part.as_slice()) {
            bail!("DiskFiles doesn't give the bytes of {name} from {at} on");
        }
    }
    Ok(())
}

/// The bytes of a pipe, which has no places, come whole, also in more than one part.
fn try_pipe(rt: &HostRuntime) -> Result<()> {
    let wanted = fs::read(rt, LONG)?;
    let (reader, mut writer) = io::pipe(rt)?;
    writer.write_all(wanted.as_slice())?;
    drop(writer);
    let name = format!(in rt.alloc(); "/dev/fd/{}", reader.as_raw_fd())?;
    let mut files = DiskFiles::new(rt);
    match load(rt.alloc(), &mut files, name.as_str(), LIMIT) {
        Ok(came) if came.as_slice() == wanted.as_slice() && came.len() > PART => Ok(()),
        _ => bail!("DiskFiles doesn't give the bytes of a pipe"),
    }
}

/// A writer without room takes what fits, and then fails.
fn try_writer() -> Result<()> {
    let mut buffer = [0; 4];
    let mut sink = StdSink::new(buffer.as_mut_slice());
    let puts = [sink.put(b"abc"), sink.put(b"de"), sink.put(b"e")];
    if puts != [Ok(3), Ok(1), Err(Failed)] || &buffer != b"abcd" {
        bail!("StdSink doesn't stop where its writer is full");
    }
    Ok(())
}
