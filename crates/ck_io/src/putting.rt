// A whole text put into a sink, part by part.
ghost use Rattle.std.specs.Prelude.{◌≡◌, ◌<◌, ◌≤◌, length, take, IfErr, OnOk, OnErr};
ghost use Rattle.std.specs.Io.KnownBytes.{Appends};
ghost use Rattle.ck_io.specs.Faults.{Rose};

use crate::fault::WriteFault;
use crate::files::Failed;
use crate::sink::Sink;

/// Puts all bytes, in as many pieces as the sink asks for. It takes no memory.
pub fn put_all<O: Sink>(sink: &mut O, bytes: &[u8]) -> Result<(), WriteFault>
    ensures all { OnOk result (Appends (O.written sink.old) (O.written sink.new) bytes.now) }
    ensures front { IfErr result (λ fault.
        Appends (O.written sink.old) (O.written sink.new) (take fault.written bytes.now)) }
    ensures fewer { IfErr result (λ fault. fault.written < length bytes.now) }
    ensures cause { OnErr result (Rose (O.faults sink.old) (O.faults sink.new)) }
    ensures later { O.faults sink.old ≤ O.faults sink.new }
{
    let mut written = 0;
    while written < bytes.len() {
        match sink.put(&bytes[written..]) {
            Ok(n) => written += n,
            Err(Failed) => return Err(WriteFault { written }),
        }
    }
    Ok(())
}
