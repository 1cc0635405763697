// Bytes of literals, each with its span.
ghost use Rattle.std.specs.Prelude.{◌≡◌, ℕ, ◌+◌, ◌<◌, ◌^◌, List, [], ◌++◌, length, IfOk, OnOk, OnErr};
ghost use Rattle.value_store.specs.Texts.{IsEnd, LiesInside, text_of};

use crate::memory::NoMemory;
use crate::text::{Text, TextOf};
use std::alloc::Global;
use std::marker::Model;

/// The bytes of the strings of a specification, one after the other.
#[derive(Drop)]
pub struct Literals {
    bytes: Vec<u8>,
}

impl Model for Literals {
    ghost Value = { List ℕ };

    ghost view = { λ literals. literals.bytes.items };
}

impl Literals {
    /// No bytes yet. It takes no memory.
    pub fn new(alloc: Global) -> Literals
        ensures { result ≡ [] }
    {
        Literals {
            bytes: Vec::new(alloc),
        }
    }

    /// Puts the bytes behind those that are there, and gives the text that they are.
    pub fn add(&mut self, bytes: &[u8]) -> Result<Text, NoMemory>
        requires { length self.old + length bytes.now < 2 ^ 32 }
        ensures added { OnOk result (self.new ≡ self.old ++ bytes.now) }
        ensures text { IfOk result (IsEnd self.old self.new bytes.now) }
        ensures err { OnErr result (self.new ≡ self.old) }

        // The texts of before have the bytes that they had.
        ensures kept { (source : List ℕ) (t : _)
            → LiesInside source self.old t → text_of source self.new t ≡ text_of source self.old t }
    {
        let from = self.bytes.len() as u32;
        self.bytes.extend_from_slice(bytes)?;
        Ok(Text {
            of: TextOf::Literal,
            from,
            to: self.bytes.len() as u32,
        })
    }

    /// All the bytes.
    pub fn bytes(&self) -> &[u8]
        ensures { result.now ≡ self.now }
    {
        self.bytes.as_slice()
    }
}
