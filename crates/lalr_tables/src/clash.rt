// The first conflict in the order of reports.
ghost use Rattle.std.specs.Prelude.{◌≡◌, ◌↔◌, IsTrue};
ghost use Rattle.cfg_model.specs.LalrConflicts.{NotAfter};
ghost use Rattle.lalr_tables.specs.within.Clashes.{IsLesser, IsLesserOf, Precedes};

/// On a terminal the complete item of a rule stands beside a shift (`None`) or beside the complete
/// item of another rule. Rules count from 1, and rule 0 stands for the whole list.
#[derive(Clone, Copy)]
pub(crate) struct Clash {
    pub(crate) terminal: u32,
    pub(crate) rule: u32,
    pub(crate) other: Option<u32>,
}

/// The clash that is reported where one more is met: of `rule` on `terminal`, beside `other`.
pub(crate) fn with_clash(
    best: Option<Clash>,
    terminal: u32,
    rule: u32,
    other: Option<u32>,
) -> Option<Clash>
    ensures { IsLesser best (record {
      terminal = terminal;
      rule = rule;
      other = other;
    }) result }
{
    lesser(
        best,
        Clash {
            terminal,
            rule,
            other,
        },
    )
}

/// The one that is reported of two.
fn lesser(best: Option<Clash>, other: Clash) -> Option<Clash>
    ensures { IsLesser best other result }
{
    match best {
        Some(b) if precedes(b, other) => best,
        _ => Some(other),
    }
}

/// The one that is reported of what two searches found.
pub(crate) fn lesser_of(best: Option<Clash>, other: Option<Clash>) -> Option<Clash>
    ensures { IsLesserOf best other result }
{
    match other {
        Some(clash) => lesser(best, clash),
        None => best,
    }
}

/// Whether the first is reported before the second, or they are the same.
fn precedes(a: Clash, b: Clash) -> bool
    ensures { IsTrue result ↔ Precedes a b }
{
    if a.terminal != b.terminal {
        return a.terminal < b.terminal;
    }
    if a.rule != b.rule {
        return a.rule < b.rule;
    }
    is_not_after(a.other, b.other)
}

/// Whether the first stands before the second, or they are the same: a shift (`None`) before each
/// rule.
fn is_not_after(a: Option<u32>, b: Option<u32>) -> bool
    ensures { IsTrue result ↔ NotAfter a b }
{
    match (a, b) {
        (None, _) => true,
        (Some(_), None) => false,
        (Some(rule), Some(other)) => rule <= other,
    }
}
