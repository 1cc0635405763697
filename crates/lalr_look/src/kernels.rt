// Kernels of cores, numbered by their first occurrence.
ghost use Rattle.std.specs.Prelude.{◌≡◌, ℕ, ◌+◌, ◌^◌, ◌<◌, ◌↔◌, [], length, IfOk, OnErr, IsNone, Contains, slice_get};
ghost use Rattle.lalr_look.specs.within.Numbered.{Interns};

use ck_base::NoMemory;
use indexmap::IndexSet;
use std::alloc::Global;
use std::marker::Model;

/// Kernels with numbers, from 0 in the order in which they were first met.
#[derive(Drop)]
pub struct Kernels {
    kernels: IndexSet<Vec<u32>>,
}

impl Model for Kernels {
    ghost use Rattle.std.specs.Prelude.{ℕ, List};
    ghost use Rattle.lalr_look.specs.within.Rows.{rows_of};
    ghost use Rattle.lalr_look.specs.within.Numbered.{AreNumbered};

    ghost Value = { List (List ℕ) };

    ghost view = { λ known. rows_of known.kernels.keys };

    ghost invariant = { λ known. AreNumbered (rows_of known.kernels.keys) };
}

impl Kernels {
    /// No kernels yet.
    pub fn new(alloc: Global) -> Kernels
        ensures { result ≡ [] }
    {
        Kernels {
            kernels: IndexSet::new(alloc),
        }
    }

    /// The number of the kernel: its old one, else the next.
    pub fn number_of(&mut self, kernel: Vec<u32>) -> Result<u32, NoMemory>
        requires { length self.old + 1 < 2 ^ 32 }
        ensures number { IfOk result (λ n. Interns self.old self.new kernel.items n) }
    {
        if let Some(index) = self.kernels.get_index_of(kernel.as_slice()) {
            return Ok(index as u32);
        }
        let (index, _) = self.kernels.insert_full(kernel)?;
        Ok(index as u32)
    }

    /// The kernel with this number.
    pub fn kernel(&self, n: u32) -> &[u32]
        requires { n < length self.now }
        ensures { slice_get self.now n ≡ Some result.now }
    {
        self.kernels[n as usize].as_slice()
    }

    /// How many kernels there are.
    pub fn len(&self) -> u32
        ensures { result ≡ length self.now }
    {
        self.kernels.len() as u32
    }
}
