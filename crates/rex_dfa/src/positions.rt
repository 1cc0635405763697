// Positions of regular expressions, by the bytes that they take and by what follows them.
ghost use Rattle.std.specs.Prelude.{◌≡◌, ℕ, ◌+◌, ◌*◌, ◌<◌, ◌^◌, ◌↔◌, IsTrue, IsBitSet, length};
ghost use Rattle.ck_base.specs.BitSet.{Has};
ghost use Rattle.ck_base.specs.Words.{IsFit};
ghost use Rattle.rex_dfa.specs.within.Positions.{ArePositions, AreTakers, Joining, IsSameTaken, NextOf};

use ck_base::Bits;

/// The positions of an expression: for each byte those that take it, and for each position those
/// that come directly after it. `alike` has for each byte the least one that the same positions
/// take.
#[derive(Drop)]
pub(crate) struct Positions {
    pub(crate) size: u32,
    pub(crate) takers: Vec<Bits>,
    pub(crate) alike: Vec<u8>,
    pub(crate) follows: Vec<Bits>,
}

impl Positions {
    /// Makes `to` the set of the positions that come next after the byte was taken at some position
    /// of the set with the words `from`.
    pub(crate) fn next(&self, from: &[u64], byte: u8, to: &mut Bits)
        requires positions { ArePositions self.now }
        requires size { to.old.size ≡ self.now.size }
        requires fit { IsFit self.now.size from.now }
        ensures size { to.new.size ≡ self.now.size }
        ensures next { (q : ℕ) → Has to.new q ↔ NextOf self.now from.now byte q }
    {
        to.clear();
        let takers = self.takers_of(byte);
        for w in 0..from.len() {
            self.join_word(from, takers, byte, w, to);
        }
    }

    /// The same for the positions of one word.
    fn join_word(&self, from: &[u64], takers: &[u64], byte: u8, w: usize, to: &mut Bits)
        requires positions { ArePositions self.now }
        requires fit { IsFit self.now.size from.now }
        requires takers { AreTakers self.now byte takers.now }
        requires inside { w < length from.now }
        requires joining { Joining self.now from.now byte (64 * w) to.old }
        ensures { Joining self.now from.now byte (64 * (w + 1)) to.new }
    {
        let bits = from[w] & takers[w];
        if bits == 0 {
            return;
        }
        for bit in 0..64usize {
            if is_set(bits, bit) {
                to.join(&self.follows[64 * w + bit]);
            }
        }
    }

    /// The words of the positions that take the byte.
    fn takers_of(&self, byte: u8) -> &[u64]
        requires { ArePositions self.now }
        ensures { AreTakers self.now byte result.now }
    {
        self.takers[byte as usize].words()
    }

    /// Whether the same positions of the set with the words `from` take both bytes.
    pub(crate) fn takes_same(&self, from: &[u64], a: u8, b: u8) -> bool
        requires positions { ArePositions self.now }
        requires fit { IsFit self.now.size from.now }
        ensures { IsTrue result → IsSameTaken self.now from.now a b }
    {
        let first = self.takers_of(a);
        let second = self.takers_of(b);
        for w in 0..from.len() {
            if from[w] & first[w] != from[w] & second[w] {
                return false;
            }
        }
        true
    }
}

/// Whether the bit of the word is set.
fn is_set(word: u64, bit: usize) -> bool
    requires { bit < 64 }
    ensures { IsTrue result ↔ IsBitSet word bit }
{
    word & (1 << bit) != 0
}
