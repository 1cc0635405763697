// Named files in memory.
ghost use Rattle.std.specs.Prelude.{◌≡◌, ◌<◌, [], length, OnOk, OnErr};
ghost use Rattle.ck_io.specs.Contents.{IsPart, part_len};
ghost use Rattle.ck_io.specs.Folder.{place_in, bytes_at, with_file};

use ck_base::NoMemory;
use std::alloc::Global;
use std::marker::Model;

/// Files in memory, each with a name of its own.
#[derive(Drop)]
pub struct Folder {
    alloc: Global,
    files: Vec<NamedFile>,
}

impl Model for Folder {
    ghost use Rattle.std.specs.Prelude.{List};
    ghost use Rattle.ck_io.specs.Folder.{File};

    ghost Value = { List File };

    ghost view = { λ folder. folder.files.items };
}

/// A file.
#[derive(Drop)]
struct NamedFile {
    name: String,
    bytes: Vec<u8>,
}

impl Model for NamedFile {
    ghost use Rattle.std.specs.Prelude.{string_bytes};
    ghost use Rattle.ck_io.specs.Folder.{File};

    ghost Value = { File };

    ghost view = { λ file. (string_bytes file.name, file.bytes.items) };
}

impl Folder {
    /// No files yet.
    pub fn new(alloc: Global) -> Folder
        ensures { result ≡ [] }
    {
        Folder {
            alloc,
            files: Vec::new(alloc),
        }
    }

    /// Where the file of this name stands.
    pub fn place_of(&self, name: &str) -> Option<usize>
        ensures { result ≡ place_in self.now name.now }
    {
        self.files
            .iter()
            .position(|file| file.name.as_str() == name)
    }

    /// The bytes of the file at this place.
    pub fn bytes_at(&self, place: usize) -> &[u8]
        requires { place < length self.now }
        ensures { result.now ≡ bytes_at self.now place }
    {
        self.files[place].bytes.as_slice()
    }

    /// Gives the file of this name these bytes; a new file comes last.
    pub fn put(&mut self, name: &str, bytes: &[u8]) -> Result<(), NoMemory>
        ensures ok { OnOk result (self.new ≡ with_file self.old (name.now, bytes.now)) }
        ensures err { OnErr result (self.new ≡ self.old) }
    {
        let file = NamedFile {
            name: String::from_str(self.alloc, name)?,
            bytes: Vec::from_slice(self.alloc, bytes)?,
        };
        match self.place_of(name) {
            Some(place) => self.files[place] = file,
            None => self.files.push(file)?,
        }
        Ok(())
    }
}

/// Copies the bytes from byte `at` on, as many as fit, to the front of `into`, and says how many.
pub fn copy_part(bytes: &[u8], at: u64, into: &mut [u8]) -> usize
    requires { 0 < length into.old }
    ensures count { result ≡ part_len bytes.now at (length into.old) }
    ensures part { IsPart bytes.now at result into.new }
{
    let rest = &bytes[at.min(bytes.len() as u64) as usize..];
    let n = into.len().min(rest.len());
    into[..n].copy_from_slice(&rest[..n]);
    n
}
