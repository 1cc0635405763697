// Files of the disk: the few lines that are trusted.
ghost use Rattle.std.specs.Prelude.{◌≡◌, ◌<◌, ◌≤◌, length, IfOk, OnOk, OnErr, None};
ghost use Rattle.std.specs.Io.{ReadsAtMost};
ghost use Rattle.ck_io.specs.Faults.{one_more};

use crate::files::{Failed, Files};
use std::alloc::Alloc;
use std::io::{Read, Seek, SeekFrom};
use std::marker::Model;
use std::{fs, io, rt};

/// The files of the file system, of whose contents nothing is told.
///
/// A file stays opened while each read of it begins where the last one ended, so a pipe, or what has no
/// places for another reason, is read whole by reads in a row from byte 0 on.
///
/// Contracts see it as the count of its failed reads, which is the count of every name.
#[derive(Drop)]
pub struct DiskFiles<'a, R: rt::Files + Alloc> {
    rt: &'a R,
    /// The file that was read last, unless that read failed or gave no byte.
    opened: Option<OpenedFile<R>>,
    faults: u64,
}

impl<'a, R: rt::Files + Alloc> Model for DiskFiles<'a, R> {
    ghost use Rattle.std.specs.Prelude.{ℕ};

    ghost Value = { ℕ };

    ghost view = { λ files. files.faults };
}

/// An opened file.
#[derive(Drop)]
struct OpenedFile<R: rt::Files + Alloc> {
    file: R::File,
    /// Its name; none where no memory was found for it, so that the next read opens it anew.
    name: Option<String<R::A>>,
    /// The place that the next read begins at.
    next: u64,
}

impl<'a, R: rt::Files + Alloc> DiskFiles<'a, R> {
    /// The files that the runtime opens. No fault yet.
    pub fn new(rt: &'a R) -> DiskFiles<'a, R>
        ensures { result ≡ 0 }
    {
        DiskFiles {
            rt,
            opened: None,
            faults: 0,
        }
    }
}

impl<'a, R: rt::Files + Alloc> Files for DiskFiles<'a, R> {
    ghost contents = { λ _ _. None };

    ghost faults = { λ files _. files };

    fn read_at(&mut self, name: &str, at: u64, into: &mut [u8]) -> Result<usize, Failed>
        requires { 0 < length into.old }
        ensures within { IfOk result (λ n. n ≤ length into.old) }
        ensures later { self.old ≤ self.new }

        // Beyond what all `Files` promise: a failed read counts one more.
        ensures kept { OnOk result (self.new ≡ self.old) }
        ensures counted { OnErr result (self.new ≡ one_more self.old) }
    {
        match read_part(self.rt, &mut self.opened, name, at, into) {
            Ok(n) => Ok(n),
            Err(_) => {
                self.faults = self.faults.saturating_add(1);
                Err(Failed)
            }
        }
    }
}

/// Reads from byte `at` on, and keeps the file opened unless nothing is left or the read fails.
fn read_part<R: rt::Files + Alloc>(
    rt: &R,
    opened: &mut Option<OpenedFile<R>>,
    name: &str,
    at: u64,
    into: &mut [u8],
) -> io::Result<usize>
    ensures { ReadsAtMost result into.new }
{
    let mut file = match opened.take() {
        Some(file) if stands_at(&file, name, at) => file,
        _ => open_at(rt, name, at)?,
    };
    let n = file.file.read(into)?;
    if n > 0 {
        file.next = at.saturating_add(n as u64);
        *opened = Some(file);
    }
    Ok(n)
}

/// Whether this is the file of this name, and its next read begins at byte `at`.
fn stands_at<R: rt::Files + Alloc>(file: &OpenedFile<R>, name: &str, at: u64) -> bool {
    match &file.name {
        Some(own) => file.next == at && own.as_str() == name,
        None => false,
    }
}

/// Opens the file and goes to byte `at`.
fn open_at<R: rt::Files + Alloc>(rt: &R, name: &str, at: u64) -> io::Result<OpenedFile<R>> {
    let mut file = fs::open(rt, name)?;
    if at > 0 {
        file.seek(SeekFrom::Start(at))?;
    }
    Ok(OpenedFile {
        file,
        name: String::from_str(rt.alloc(), name).ok(),
        next: at,
    })
}
