// Classes of bytes that no rule tells apart.
ghost use Rattle.std.specs.Prelude.{◌≡◌, ◌<◌, IfOk, length};
ghost use Rattle.rex_dfa.specs.within.Alike.{IsLike, AreLike};

use ck_base::{Bits, NoMemory};
use std::alloc::Global;

/// For each byte the first one that the same positions take.
pub(crate) fn alike_of(alloc: Global, takers: &[Bits]) -> Result<Vec<u8>, NoMemory>
    requires { length takers.now ≡ 256 }
    ensures { IfOk result (λ alike. AreLike takers.now 256 alike.items) }
{
    let mut alike = Vec::new(alloc);
    for byte in 0..256usize {
        alike.push(like(takers, byte))?;
    }
    Ok(alike)
}

/// The first byte that the same positions take as this one.
fn like(takers: &[Bits], byte: usize) -> u8
    requires count { length takers.now ≡ 256 }
    requires inside { byte < 256 }
    ensures { IsLike takers.now byte result }
{
    let own = &takers[byte];
    for i in 0..byte {
        let other = &takers[i];
        if other.words() == own.words() {
            return i as u8;
        }
    }
    byte as u8
}
