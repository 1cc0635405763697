// Numbers in print.
ghost use Rattle.std.specs.Prelude.{◌≡◌, ◌++◌, decimal, OnOk};
ghost use Rattle.std.specs.Fmt.{signed_decimal};

use itoa::Buffer;
use value_store::NoMemory;

/// Appends the number in decimal digits.
pub fn push_decimal(out: &mut Vec<u8>, n: u64) -> Result<(), NoMemory>
    ensures { OnOk result (out.new.items ≡ out.old.items ++ decimal n) }
{
    let mut digits = Buffer::new();
    out.extend_from_slice(digits.format(n).as_bytes())?;
    Ok(())
}

/// Appends the number in decimal digits, behind `-` where it is less than 0.
pub fn push_int(out: &mut Vec<u8>, n: i64) -> Result<(), NoMemory>
    ensures { OnOk result (out.new.items ≡ out.old.items ++ signed_decimal n) }
{
    let mut printed = Buffer::new();
    out.extend_from_slice(printed.format(n).as_bytes())?;
    Ok(())
}
