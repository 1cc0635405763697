// The top call: words, files, stage, output, status.
ghost use Rattle.std.specs.Prelude.{◌≡◌, ◌+◌, ◌^◌, ◌<◌, ◌≤◌, ◌⊎◌, ℕ, List, length, map, string_bytes, IfOk, IfErr, OnOk};
ghost use Rattle.ck_io.specs.Contents.{IsLonger, IsTold, SameContents};
ghost use Rattle.ck_io.specs.Faults.{Rose, NoneFell};
ghost use Rattle.ck_base.specs.Found.{HasNo};
ghost use Rattle.ck_chain.specs.Answers.{Misses};
ghost use Rattle.ck_chain.specs.Outcome.{Outcome};
ghost use Rattle.ck_chain.specs.Promise.{tools_of};
ghost use Rattle.ck_tool.specs.Ran.{Answers, NoneRose, Ran, UsageExactly, WantedMemory, WritesOnlyDone, sunk};
ghost use Rattle.ck_tool.specs.Wanted.{AreTold, ReadFailed, Wanted};
ghost use Rattle.ck_tool.specs.Words.{NeedMemory};
ghost use Rattle.ck_tool.specs.within.Stops.{Explains, IsAsked, IsMissing, IsStopOfRead, Meets, answer_in};

use crate::stop::Stop;
use crate::telling::tell;
use crate::words::{Command, command_of};
use bumpalo::Bump;
use ck_base::{MEMORY_LINE, NoMemory, READ_LINE, Refusal, Status, USAGE_LINE, WRITE_LINE};
use ck_chain::{Refused, Stage, Toolset, accept, meaning, without_section};
use ck_io::{Files, LoadError, Sink, load, put_all};
use std::alloc::Global;

/// A specification has at most this many bytes.
const SPEC_LIMIT: usize = 1_048_576;
/// A source has at most this many bytes.
const SOURCE_LIMIT: usize = 4_194_304;

/// Runs a command line. `words` are those behind the program's name. The output goes to `out`, and
/// a line to `err` where there is none.
///
/// ```text
/// words            after it a stage, a specification and a source are named
/// specification    after it what it declares is known; a fault refuses it
/// its sections     after it the stage has what it needs; a missing section refuses it
/// source           after it what the stage makes of it is known; a bad place refuses it
/// output           only now is `out` written to
/// ```
pub fn cocktail<F: Files, O: Sink, E: Sink>(
    alloc: Global,
    words: &Vec<String>,
    files: &mut F,
    out: &mut O,
    err: &mut E,
) -> Status
    ensures run { let texts = map string_bytes words.now.items in
        let read_failed = ReadFailed F.contents F.faults texts files.old files.new in
        let to_out = sunk O.written O.faults out.old out.new in
        let to_err = sunk E.written E.faults err.old err.new in
        Ran texts (Wanted (F.contents files.old) texts) read_failed to_out to_err result }
    ensures exactly { let texts = map string_bytes words.now.items in
        let read_failed = ReadFailed F.contents F.faults texts files.old files.new in
        let to_out = sunk O.written O.faults out.old out.new in
        let to_err = sunk E.written E.faults err.old err.new in
        AreTold (F.contents files.old) texts → NoneRose read_failed to_out to_err
        → (answer : Outcome) → Wanted (F.contents files.old) texts answer
        → Answers answer to_out to_err result ⊎ WantedMemory texts to_out to_err result }
    ensures usage { let to_err = sunk E.written E.faults err.old err.new in
        UsageExactly (map string_bytes words.now.items) to_err result }
    ensures output { WritesOnlyDone (sunk O.written O.faults out.old out.new) result }
    ensures same { SameContents (F.contents files.old) (F.contents files.new) }
    ensures later { NoneFell (F.faults files.old) (F.faults files.new) }
{
    let Some(command) = command_of(words) else {
        return tell(err, USAGE_LINE, Status::Usage);
    };
    let found = answer_of(alloc, command, files);
    finish(alloc, found, out, err)
}

/// The output that the command asks for, or why there is none.
fn answer_of<F: Files>(alloc: Global, command: Command, files: &mut F) -> Result<Vec<u8>, Stop>
    ensures answer { (words : List (List ℕ)) → IsAsked words command.entry
        → Meets (Wanted (F.contents files.old) words)
        (ReadFailed F.contents F.faults words files.old files.new) result }
    ensures same { SameContents (F.contents files.old) (F.contents files.new) }
    ensures later { NoneFell (F.faults files.old) (F.faults files.new) }
{
    let spec = read(alloc, files, command.spec, SPEC_LIMIT, Refusal::SpecTooLong)?;
    let arena = Bump::new(alloc);
    let tools = accept(alloc, &arena, spec.as_slice())?;
    needs(alloc, &tools, command.stage)?;
    let source = read(
        alloc,
        files,
        command.source,
        SOURCE_LIMIT,
        Refusal::SourceTooLong,
    )?;
    let output = meaning(alloc, &tools, source.as_slice(), command.stage)?;
    Ok(output)
}

/// Whether the specification has all sections that the stage needs; else the refusal.
fn needs(alloc: Global, tools: &Toolset<'_>, stage: Stage) -> Result<(), Refused>
    ensures all { OnOk result (HasNo (Misses (tools_of tools.now) stage)) }
    ensures missing { IfErr result (IsMissing (tools_of tools.now) stage) }
{
    match tools.missing(stage) {
        Some(section) => Err(without_section(alloc, section)),
        None => Ok(()),
    }
}

/// All bytes of the file; `too_long` where it has more than `limit`.
fn read<F: Files>(
    alloc: Global,
    files: &mut F,
    name: &str,
    limit: usize,
    too_long: Refusal,
) -> Result<Vec<u8>, Stop>
    requires { limit < 2 ^ 32 }
    ensures all { IfOk result (λ bytes. IsTold (F.contents files.old name.now) bytes.items) }
    ensures within { IfOk result (λ bytes. length bytes.items ≤ limit) }
    ensures stop { IfErr result (IsStopOfRead too_long
        (IsLonger (F.contents files.old name.now) limit)
        (Rose (F.faults files.old name.now) (F.faults files.new name.now))) }
    ensures same { SameContents (F.contents files.old) (F.contents files.new) }
    ensures later { NoneFell (F.faults files.old) (F.faults files.new) }
{
    match load(alloc, files, name, limit) {
        Ok(bytes) => Ok(bytes),
        Err(LoadError::ReadFault) => Err(Stop::ReadFault),
        Err(LoadError::TooLong) => Err(Stop::Refused(too_long)),
        Err(LoadError::NoMemory) => Err(Stop::NoMemory),
    }
}

/// Writes the output, or the line that says why there is none.
fn finish<O: Sink, E: Sink>(
    alloc: Global,
    found: Result<Vec<u8>, Stop>,
    out: &mut O,
    err: &mut E,
) -> Status
    ensures { (words : List (List ℕ)) → NeedMemory words
        → Ran words (λ answer. answer_in found ≡ Some answer) (found ≡ Err Stop.ReadFault)
        (sunk O.written O.faults out.old out.new) (sunk E.written E.faults err.old err.new) result }
{
    match found {
        Ok(output) => match put_all(out, output.as_slice()) {
            Ok(()) => Status::Done,
            Err(_) => tell(err, WRITE_LINE, Status::Device),
        },
        Err(stop) => explain(alloc, stop, err),
    }
}

/// Puts the line that says why there is no output.
fn explain<E: Sink>(alloc: Global, stop: Stop, err: &mut E) -> Status
    ensures { Explains stop (sunk E.written E.faults err.old err.new) result }
{
    match stop {
        Stop::Refused(refusal) => match refusal.line(alloc) {
            Ok(line) => tell(err, line.as_slice(), refusal.status()),
            Err(NoMemory) => tell(err, MEMORY_LINE, Status::Memory),
        },
        Stop::ReadFault => tell(err, READ_LINE, Status::Device),
        Stop::NoMemory => tell(err, MEMORY_LINE, Status::Memory),
    }
}
