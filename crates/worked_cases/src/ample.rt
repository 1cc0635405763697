// Calls with ample memory of what no case reaches.
use anyhow::{Result, bail};
use ck_base::{Bits, NoMemory, SetNumbers};
use ck_io::{Files, LoadError, NeverFails, WriteFault};
use std::alloc::Global;

/// Calls what can want memory and no case reaches, with ample memory. A contract can't say that
/// memory suffices, so a body that only wants memory would meet it.
pub(crate) fn call_all(alloc: Global) -> Result<()> {
    let Ok(answered) = all_answer(alloc) else {
        bail!("memory was wanting");
    };
    if !answered || !messages_hold(alloc)? {
        bail!("a call answers something else");
    }
    Ok(())
}

/// Whether the errors of files and sinks have their messages.
fn messages_hold(alloc: Global) -> Result<bool> {
    let read = format!(in alloc; "{}", LoadError::ReadFault)?;
    let long = format!(in alloc; "{}", LoadError::TooLong)?;
    let memory = format!(in alloc; "{}", LoadError::NoMemory)?;
    let write = format!(in alloc; "{}", WriteFault { written: 3 })?;
    Ok(
        read.as_str() == "read fault"
            && long.as_str() == "too long"
            && memory.as_str() == "out of memory"
            && write.as_str() == "write fault",
    )
}

/// Whether each call answers what its contract says.
fn all_answer(alloc: Global) -> Result<bool, NoMemory> {
    let set = Bits::new(alloc, 70)?;
    let mut sets = SetNumbers::new(alloc);
    let first = sets.intern(set.words())?;
    let again = sets.intern(set.words())?;
    let mut files = NeverFails::new(alloc);
    files.add("f", b"x")?;
    let mut byte = [0];
    let read = files.read_at("f", 0, &mut byte);
    Ok(set.is_empty() && first == again && read == Ok(1) && byte == [b'x'])
}
