// Files in memory of which each read succeeds.
ghost use Rattle.std.specs.Prelude.{◌≡◌, ◌<◌, ℕ, List, [], length, IfOk, IfSome, OnOk, OnErr, IsOk, Some};
ghost use Rattle.ck_io.specs.Contents.{AddsFile, ReadsAt, part_len};
ghost use Rattle.ck_io.specs.NeverFails.{contents_or_empty};

use crate::files::{Failed, Files};
use crate::folder::{Folder, copy_part};
use ck_base::NoMemory;
use std::alloc::Global;
use std::marker::Model;

/// Files in memory of which no read fails. A name that was never added has empty contents.
#[derive(Drop)]
pub struct NeverFails {
    folder: Folder,
}

impl Model for NeverFails {
    ghost use Rattle.std.specs.Prelude.{List};
    ghost use Rattle.ck_io.specs.Folder.{File};

    ghost Value = { List File };

    ghost view = { λ files. files.folder };
}

impl NeverFails {
    /// No files yet.
    pub fn new(alloc: Global) -> NeverFails
        ensures { (name : List ℕ) → contents_or_empty result name ≡ Some [] }
    {
        NeverFails {
            folder: Folder::new(alloc),
        }
    }

    /// Gives the name these bytes, in place of any that it had.
    pub fn add(&mut self, name: &str, bytes: &[u8]) -> Result<(), NoMemory>
        ensures added { OnOk result
            (AddsFile (contents_or_empty self.old) (contents_or_empty self.new)
            name.now bytes.now) }
        ensures err { OnErr result (self.new ≡ self.old) }
    {
        self.folder.put(name, bytes)?;
        Ok(())
    }
}

impl Files for NeverFails {
    ghost contents = { contents_or_empty };

    // A failed read would have to raise the count, so none fails.
    ghost faults = { λ _ _. 0 };

    fn read_at(&mut self, name: &str, at: u64, into: &mut [u8]) -> Result<usize, Failed>
        requires { 0 < length into.old }
        ensures part { ReadsAt (contents_or_empty self.old name.now) at result into.new }

        // Beyond what all `Files` promise: no read fails, and each gives as much as fits.
        ensures never { IsOk result }
        ensures count { IfOk result (λ n. IfSome (contents_or_empty self.old name.now)
            (λ all. n ≡ part_len all at (length into.old))) }
        ensures same { self.new ≡ self.old }
    {
        match self.folder.place_of(name) {
            Some(place) => Ok(copy_part(self.folder.bytes_at(place), at, into)),
            None => Ok(0),
        }
    }
}
