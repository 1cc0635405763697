// Cases read from their text.
use crate::case::{Case, File, Stream, Taking};
use crate::escapes::push_line;
use anyhow::{Context, Result, bail};
use std::alloc::Global;
use std::fs;

/// A text that several cases share.
#[derive(Drop)]
struct Text {
    name: String,
    bytes: Vec<u8>,
}

/// Where the lines behind `|` go: to the last text, or to a part of the last case.
#[derive(Clone, Copy)]
enum Block {
    None,
    Text,
    File,
    Out,
    Err,
}

/// What was read so far.
#[derive(Drop)]
struct Reader {
    texts: Vec<Text>,
    cases: Vec<Case>,
    block: Block,
}

/// The cases that the text of this file has.
pub(crate) fn cases_of(rt: &HostRuntime, file: &str, text: &str) -> Result<Vec<Case>> {
    let mut reader = Reader {
        texts: Vec::new(rt.alloc()),
        cases: Vec::new(rt.alloc()),
        block: Block::None,
    };
    for (i, line) in text.lines().enumerate() {
        let number = i.saturating_add(1);
        read_line(rt, &mut reader, line).context(format_args!("{file}, line {number}: {line}"))?;
    }
    Ok(reader.cases)
}

/// Reads one line.
fn read_line(rt: &HostRuntime, reader: &mut Reader, line: &str) -> Result<()> {
    if line.is_empty() || line.starts_with('#') {
        reader.block = Block::None;
        return Ok(());
    }
    if line == "|" {
        return push_content(reader, "");
    }
    if let Some(content) = line.strip_prefix("| ") {
        return push_content(reader, content);
    }
    let (key, rest) = line.split_once(' ').unwrap_or((line, ""));
    match key {
        "text" => begin_text(rt, reader, rest),
        "case" => {
            let name = String::from_str(rt.alloc(), rest)?;
            reader.cases.push(Case::new(rt.alloc(), name))?;
            reader.block = Block::None;
            Ok(())
        }
        _ => read_part(rt.alloc(), reader, key, rest),
    }
}

/// Appends a line behind `|` to the block.
fn push_content(reader: &mut Reader, content: &str) -> Result<()> {
    match reader.block {
        Block::None => bail!("the line belongs to nothing"),
        Block::Text => match reader.texts.last_mut() {
            Some(text) => push_line(&mut text.bytes, content),
            None => bail!("no text has begun"),
        },
        block => match reader.cases.last_mut() {
            Some(case) => push_to_case(case, block, content),
            None => bail!("no case has begun"),
        },
    }
}

/// Appends a line behind `|` to a part of the case.
fn push_to_case(case: &mut Case, block: Block, content: &str) -> Result<()> {
    match block {
        Block::Out => push_line(&mut case.wanted.out, content),
        Block::Err => push_line(&mut case.wanted.err, content),
        _ => match case.files.last_mut() {
            Some(file) => push_line(&mut file.bytes, content),
            None => bail!("no file has begun"),
        },
    }
}

/// Begins a shared text: `NAME`, or `NAME < PATH` for the bytes of a file.
fn begin_text(rt: &HostRuntime, reader: &mut Reader, rest: &str) -> Result<()> {
    let alloc = rt.alloc();
    let text = match rest.split_once(" < ") {
        Some((name, path)) => Text {
            name: String::from_str(alloc, name)?,
            bytes: fs::read(rt, path)?,
        },
        None => Text {
            name: String::from_str(alloc, rest)?,
            bytes: Vec::new(alloc),
        },
    };
    reader.texts.push(text)?;
    reader.block = Block::Text;
    Ok(())
}

/// Reads a line that says something of the last case.
fn read_part(alloc: Global, reader: &mut Reader, key: &str, rest: &str) -> Result<()> {
    let Some(case) = reader.cases.last_mut() else {
        bail!("no case has begun");
    };
    let texts = reader.texts.as_slice();
    reader.block = match key {
        "file" => read_file(alloc, case, texts, rest)?,
        "out" => read_stream(
            &mut case.wanted.out,
            &mut case.devices.out,
            texts,
            rest,
            Block::Out,
        )?,
        "err" => read_stream(
            &mut case.wanted.err,
            &mut case.devices.err,
            texts,
            rest,
            Block::Err,
        )?,
        _ => {
            read_setting(alloc, case, key, rest)?;
            Block::None
        }
    };
    Ok(())
}

/// Reads `NAME`, whose bytes follow, or `NAME = TEXT`.
fn read_file(alloc: Global, case: &mut Case, texts: &[Text], rest: &str) -> Result<Block> {
    let (name, bytes) = match rest.split_once(" = ") {
        Some((name, text)) => (name, Vec::from_slice(alloc, bytes_of(texts, text)?)?),
        None => (rest, Vec::new(alloc)),
    };
    let name = String::from_str(alloc, unquoted(name))?;
    case.files.push(File { name, bytes })?;
    Ok(Block::File)
}

/// Reads what follows `out` or `err`: nothing, where lines follow; `= TEXT`; `takes N`; or `fails N`.
fn read_stream(
    wanted: &mut Vec<u8>,
    taking: &mut Taking,
    texts: &[Text],
    rest: &str,
    block: Block,
) -> Result<Block> {
    match rest.split_once(' ') {
        None if rest.is_empty() => return Ok(block),
        Some(("=", text)) => wanted.extend_from_slice(bytes_of(texts, text)?)?,
        Some(("takes", count)) => taking.per_call = count.parse::<usize>()?,
        Some(("fails", call)) => taking.failing = call.parse::<u64>()?,
        _ => bail!("neither `= TEXT` nor `takes N` nor `fails N`"),
    }
    Ok(Block::None)
}

/// Reads a line of one setting.
fn read_setting(alloc: Global, case: &mut Case, key: &str, rest: &str) -> Result<()> {
    match (key, rest) {
        ("words", _) => {
            for word in rest.split_whitespace() {
                case.words.push(String::from_str(alloc, word)?)?;
            }
        }
        ("word", _) => case.words.push(String::from_str(alloc, unquoted(rest))?)?,
        ("status", _) => case.wanted.status = rest.parse::<u8>()?,
        ("failing-read", _) => case.devices.failing_read = rest.parse::<u64>()?,
        ("read-before", _) => case.read_before = Some(String::from_str(alloc, rest)?),
        ("cut", "out") => case.cut = Some(Stream::Out),
        ("cut", "err") => case.cut = Some(Stream::Err),
        _ => bail!("no line begins like this"),
    }
    Ok(())
}

/// What stands between quotes, where the text begins and ends with one; else the text.
fn unquoted(text: &str) -> &str {
    let Some(inner) = text.strip_prefix('"') else {
        return text;
    };
    inner.strip_suffix('"').unwrap_or(text)
}

/// The bytes of the text of this name.
fn bytes_of<'t>(texts: &'t [Text], name: &str) -> Result<&'t [u8]> {
    for text in texts {
        if text.name.as_str() == name {
            return Ok(text.bytes.as_slice());
        }
    }
    bail!("no text has the name {name}")
}
