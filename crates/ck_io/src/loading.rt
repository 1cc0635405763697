// A file loaded whole, up to a limit.
ghost use Rattle.std.specs.Prelude.{◌≡◌, ◌≢◌, ◌+◌, ◌^◌, ◌<◌, ◌≤◌, length, take, IfOk, OnOk, IfSome};
ghost use Rattle.ck_io.specs.Contents.{IsTold, IsLonger, FitsIn, SameContents};
ghost use Rattle.ck_io.specs.Faults.{Rose, NoneFell};

use crate::fault::LoadError;
use crate::files::Files;
use std::alloc::Global;

/// How many bytes are asked for at a time, at most.
const PART: usize = 16384;

/// All bytes of the file, of which there may be `limit` at most.
///
/// `TooLong` comes once `limit + 1` bytes were read, also where nothing is told of the file.
pub fn load<F: Files>(
    alloc: Global,
    files: &mut F,
    name: &str,
    limit: usize,
) -> Result<Vec<u8>, LoadError>
    requires { limit < 2 ^ 32 }
    ensures all { IfOk result (λ bytes. IsTold (F.contents files.old name.now) bytes.items) }
    ensures within { IfOk result (λ bytes. length bytes.items ≤ limit) }
    ensures fits { OnOk result (FitsIn (F.contents files.old name.now) limit) }
    ensures too_long { result ≡ Err LoadError.TooLong
        → IsLonger (F.contents files.old name.now) limit }
    ensures fault { result ≡ Err LoadError.ReadFault
        → Rose (F.faults files.old name.now) (F.faults files.new name.now) }
    ensures same { SameContents (F.contents files.old) (F.contents files.new) }
    ensures later { NoneFell (F.faults files.old) (F.faults files.new) }
{
    let bytes = load_front(alloc, files, name, limit + 1)?;
    if bytes.len() > limit {
        return Err(LoadError::TooLong);
    }
    Ok(bytes)
}

/// The first `most` bytes of the file, or all where it has fewer.
fn load_front<F: Files>(
    alloc: Global,
    files: &mut F,
    name: &str,
    most: usize,
) -> Result<Vec<u8>, LoadError>
    ensures front { IfOk result (λ bytes.
        IfSome (F.contents files.old name.now) (λ all. bytes.items ≡ take most all)) }
    ensures within { IfOk result (λ bytes. length bytes.items ≤ most) }
    ensures never_too_long { result ≢ Err LoadError.TooLong }
    ensures fault { result ≡ Err LoadError.ReadFault
        → Rose (F.faults files.old name.now) (F.faults files.new name.now) }
    ensures same { SameContents (F.contents files.old) (F.contents files.new) }
    ensures later { NoneFell (F.faults files.old) (F.faults files.new) }
{
    let mut bytes = Vec::new(alloc);
    let mut buffer = [0; PART];
    while bytes.len() < most {
        let at = bytes.len();
        let part = &mut buffer[..PART.min(most - at)];
        let n = files.read_at(name, at as u64, part)?;
        if n == 0 {
            break;
        }
        bytes.extend_from_slice(&part[..n])?;
    }
    Ok(bytes)
}
