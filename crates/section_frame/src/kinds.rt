// The first fault in the order of kinds, from the first line of each.
ghost use Rattle.std.specs.Prelude.{◌≡◌, None, IfOk, IfErr, MatchOption};
ghost use Rattle.ck_base.specs.declared.fault.SpecFault.TheVariants.{Bad as bad};
ghost use Rattle.section_frame.specs.Stages.{FirstOf, at_head_or};

use ck_base::{Kind, SpecFault};

/// Where the first line of each kind stands: the fault of the first kind with one.
pub fn stages(
    twice: Option<u32>,
    unknown: Option<u32>,
    typing: Option<u32>,
    limit: Option<u32>,
) -> Result<(), SpecFault>
    ensures none { IfOk result (λ done.
        (twice ≡ None) × (unknown ≡ None) × (typing ≡ None) × (limit ≡ None)) }
    ensures fault { IfErr result (FirstOf twice unknown typing limit) }
{
    passes(twice, Kind::Twice)?;
    passes(unknown, Kind::Unknown)?;
    passes(typing, Kind::Typing)?;
    passes(limit, Kind::Limit)
}

/// That no line was found; else its fault of the kind.
fn passes(found: Option<u32>, kind: Kind) -> Result<(), SpecFault>
    ensures none { IfOk result (λ done. found ≡ None) }
    ensures fault { IfErr result (λ fault.
        MatchOption found ⊥ (λ line. fault ≡ bad line kind)) }
{
    match found {
        Some(line) => Err(SpecFault::Bad { line, kind }),
        None => Ok(()),
    }
}

/// The earlier one of a line that was found and the head's line, where that is at fault.
pub fn with_head(at_fault: bool, head: u32, found: Option<u32>) -> Option<u32>
    ensures { result ≡ at_head_or at_fault head found }
{
    if !at_fault {
        return found;
    }
    let Some(line) = found else {
        return Some(head);
    };
    Some(head.min(line))
}
