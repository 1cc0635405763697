// Texts in print, quoted byte by byte.
ghost use Rattle.std.specs.Prelude.{◌≡◌, ◌<◌, ◌++◌, OnOk};
ghost use Rattle.quoting.specs.Quoted.{hex_digit, quoted_byte, quoted};

use value_store::NoMemory;

/// Appends the text in quotes.
pub fn push_quoted(out: &mut Vec<u8>, text: &[u8]) -> Result<(), NoMemory>
    ensures { OnOk result (out.new.items ≡ out.old.items ++ quoted text.now) }
{
    out.push(b'"')?;
    for byte in text {
        push_quoted_byte(out, *byte)?;
    }
    out.push(b'"')?;
    Ok(())
}

/// Appends the byte as it stands in quotes.
fn push_quoted_byte(out: &mut Vec<u8>, byte: u8) -> Result<(), NoMemory>
    ensures { OnOk result (out.new.items ≡ out.old.items ++ quoted_byte byte) }
{
    match byte {
        b'"' | b'\\' => out.extend_from_slice(&[b'\\', byte])?,
        b' '..=b'~' => out.push(byte)?,
        _ => out.extend_from_slice(&[b'\\', b'x', digit(byte / 16), digit(byte % 16)])?,
    }
    Ok(())
}

/// The hexadecimal digit of a number below 16.
fn digit(n: u8) -> u8
    requires { n < 16 }
    ensures { result ≡ hex_digit n }
{
    if n < 10 { b'0' + n } else { b'a' - 10 + n }
}
