// The names `$1`, `$2`, .. of a rule's symbols.
ghost use Rattle.std.specs.Prelude.{◌≡◌, IfOk};
ghost use Rattle.node_spec.specs.AstBuilds.{dollar_names as the_dollar_names};
ghost use Rattle.expr_read.specs.Resolving.{dollar_name as the_dollar_name};

use ck_base::NoMemory;
use std::alloc::Global;
use value_store::Name;

/// The names `$1`, `$2`, .. of so many symbols.
pub(crate) fn dollar_names(alloc: Global, n: u32) -> Result<Vec<Name>, NoMemory>
    ensures { IfOk result (λ names. names.items ≡ the_dollar_names n) }
{
    let mut names = Vec::new(alloc);
    for i in 0..n {
        let name = dollar_name(alloc, i + 1)?;
        names.push(name)?;
    }
    Ok(names)
}

/// The name `$n`.
fn dollar_name(alloc: Global, n: u32) -> Result<Name, NoMemory>
    ensures { IfOk result (λ name. name ≡ the_dollar_name n) }
{
    let text = format!(in alloc; "${n}")?;
    Name::from_bytes(alloc, text.as_bytes())
}
