// An answer told: output, line of a refusal, status.
ghost use Rattle.std.specs.Prelude.{◌≤◌, ◌<◌, length, take, IfErr, OnOk, OnErr};
ghost use Rattle.std.specs.Io.KnownBytes.{Appends};
ghost use Rattle.ck_io.specs.Faults.{Rose};
ghost use Rattle.ck_tool.specs.Ran.{Tells, ended, sunk};

use ck_base::Status;
use ck_io::{Sink, WriteFault, put_all};

/// Puts the line and its end. It takes no memory.
fn put_line<S: Sink>(sink: &mut S, line: &[u8]) -> Result<(), WriteFault>
    ensures all { OnOk result (Appends (S.written sink.old) (S.written sink.new) (ended line.now)) }
    ensures front { IfErr result (λ fault.
        Appends (S.written sink.old) (S.written sink.new) (take fault.written (ended line.now))) }
    ensures fewer { IfErr result (λ fault. fault.written < length (ended line.now)) }
    ensures cause { OnErr result (Rose (S.faults sink.old) (S.faults sink.new)) }
    ensures later { S.faults sink.old ≤ S.faults sink.new }
{
    put_all(sink, line)?;
    match put_all(sink, b"\n") {
        Ok(()) => Ok(()),
        Err(_) => Err(WriteFault {
            written: line.len(),
        }),
    }
}

/// Puts the line, and says how the run ends: in `status`, where the sink took it.
pub(crate) fn tell<S: Sink>(sink: &mut S, line: &[u8], status: Status) -> Status
    ensures { Tells line.now status (sunk S.written S.faults sink.old sink.new) result }
{
    match put_line(sink, line) {
        Ok(()) => status,
        Err(_) => Status::Device,
    }
}
