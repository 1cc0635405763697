// Files in memory that fail at a chosen call.
ghost use Rattle.std.specs.Prelude.{◌≡◌, ◌<◌, ◌≤◌, ◌↔◌, ℕ, List, length, IfOk, IfSome, IsErr, OnOk, OnErr, None};
ghost use Rattle.ck_io.specs.Contents.{AddsFile, ReadsAt, SameContents, part_len};
ghost use Rattle.ck_io.specs.Faults.{one_more, SameFaults, NoneFell};
ghost use Rattle.ck_io.specs.MemFiles.{contents_of, faults_of, CountsFault, IsFailingRead};

use crate::calls::Calls;
use crate::files::{Failed, Files};
use crate::folder::{Folder, copy_part};
use ck_base::NoMemory;
use std::alloc::Global;
use std::marker::Model;

/// Files in memory, of which chosen reads fail. A name that was never added is missing, and each read
/// of it fails.
#[derive(Drop)]
pub struct MemFiles {
    folder: Folder,
    /// The faults of each file, in the folder's order.
    counts: Vec<u64>,
    /// The faults of all other names together.
    others: u64,
    calls: Calls,
}

impl Model for MemFiles {
    ghost use Rattle.std.specs.Prelude.{◌≡◌, length};
    ghost use Rattle.ck_io.specs.MemFiles.{FilesInMemory};

    ghost Value = { FilesInMemory };

    ghost view = { λ memory. record {
      files = memory.folder;
      counts = memory.counts.items;
      others = memory.others;
      calls = memory.calls.made;
      fails = memory.calls.fails.items;
    } };

    ghost invariant = { λ memory. length memory.folder ≡ length memory.counts.items };
}

impl MemFiles {
    /// No files yet. The reads with the numbers in `fails` will fail; the first one has the
    /// number 1.
    pub fn new(alloc: Global, fails: Vec<u64>) -> MemFiles
        ensures missing { (name : List ℕ) → contents_of result name ≡ None }
        ensures no_fault { (name : List ℕ) → faults_of result name ≡ 0 }
        ensures no_call { result.calls ≡ 0 }
        ensures fails { result.fails ≡ fails.items }
    {
        MemFiles {
            folder: Folder::new(alloc),
            counts: Vec::new(alloc),
            others: 0,
            calls: Calls::new(fails),
        }
    }

    /// Gives the name these bytes, in place of any that it had. Its count of faults goes on.
    pub fn add(&mut self, name: &str, bytes: &[u8]) -> Result<(), NoMemory>
        ensures added { OnOk result
            (AddsFile (contents_of self.old) (contents_of self.new) name.now bytes.now) }
        ensures faults { (other : List ℕ) → faults_of self.new other ≡ faults_of self.old other }
        ensures calls { self.new.calls ≡ self.old.calls }
        ensures fails { self.new.fails ≡ self.old.fails }
        ensures err { OnErr result (self.new ≡ self.old) }
    {
        match self.folder.place_of(name) {
            Some(_) => self.folder.put(name, bytes)?,
            None => {
                self.counts.reserve(1)?;
                self.folder.put(name, bytes)?;
                self.counts.push(self.others).unwrap();
            }
        }
        Ok(())
    }
}

impl Files for MemFiles {
    ghost contents = { contents_of };

    ghost faults = { faults_of };

    fn read_at(&mut self, name: &str, at: u64, into: &mut [u8]) -> Result<usize, Failed>
        requires { 0 < length into.old }
        ensures within { IfOk result (λ n. n ≤ length into.old) }
        ensures part { ReadsAt (contents_of self.old name.now) at result into.new }
        ensures same { SameContents (contents_of self.old) (contents_of self.new) }
        ensures kept { OnOk result (SameFaults (faults_of self.old) (faults_of self.new)) }
        ensures later { NoneFell (faults_of self.old) (faults_of self.new) }

        // Beyond what all `Files` promise: which reads fail, that these leave the buffer, how much a
        // read gives, and whose count has one more.
        ensures failing { IsErr result ↔ IsFailingRead self.old name.now }
        ensures left { OnErr result (into.new ≡ into.old) }
        ensures count { IfOk result (λ n. IfSome (contents_of self.old name.now)
            (λ all. n ≡ part_len all at (length into.old))) }
        ensures counted { OnErr result (CountsFault self.old self.new name.now) }
        ensures calls { self.new.calls ≡ one_more self.old.calls }
        ensures fails { self.new.fails ≡ self.old.fails }
    {
        let fails = self.calls.fails_next();
        let Some(place) = self.folder.place_of(name) else {
            self.others = self.others.saturating_add(1);
            return Err(Failed);
        };
        if fails {
            let count = &mut self.counts[place];
            *count = count.saturating_add(1);
            return Err(Failed);
        }
        Ok(copy_part(self.folder.bytes_at(place), at, into))
    }
}
