// The earlier of two places that may be missing.
ghost use Rattle.std.specs.Prelude.{◌≡◌};
ghost use Rattle.node_spec.specs.within.AstSteps.{earlier_of};

/// The earlier one of two lines, where there are two.
pub(crate) fn earlier(a: Option<u32>, b: Option<u32>) -> Option<u32>
    ensures { result ≡ earlier_of a b }
{
    let Some(first) = a else {
        return b;
    };
    let Some(second) = b else {
        return a;
    };
    Some(first.min(second))
}
