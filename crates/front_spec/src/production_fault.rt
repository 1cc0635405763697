// The first fault of a grammar section, kind by kind.
ghost use Rattle.std.specs.Prelude.{◌≡◌, ◌+◌, ◌<◌, ◌^◌, length, map, IfOk, None};
ghost use Rattle.ck_base.specs.declared.fault.Kind.TheVariants.{Limit as limit, Twice as twice, Unknown as unknown};
ghost use Rattle.section_frame.specs.Declares.{Grow};
ghost use Rattle.section_frame.specs.Passes.{FirstWith, judged_by, numbered};
ghost use Rattle.front_spec.specs.GrammarFaults.{GrammarFault, labels_in, nonterminals_in};
ghost use Rattle.front_spec.specs.GrammarSteps.{produced};

use crate::production::Production;
use ck_base::{Names, NoMemory};
use section_frame::{
    Adding, Again, Among, AnyOf, Both, Counted, CountedNames, Missing, Naming, Numbered, Uses,
    Words, first_line,
};
use std::alloc::Global;

/// Rules are called by their labels.
#[derive(Clone, Copy)]
pub(crate) struct ByLabel;

impl<'s> Naming<Production<'s>> for ByLabel {
    ghost use Rattle.front_spec.specs.GrammarShapes.{SaidProduction};
    ghost use Rattle.front_spec.specs.GrammarFaults.{label_name};
    ghost use Rattle.front_spec.specs.GrammarSteps.{produced};

    ghost Said = { SaidProduction };

    ghost seen = { produced };

    ghost name = { label_name };

    fn name_of<'t>(&self, says: &'t Production<'s>) -> Option<&'t [u8]> {
        Some(says.label)
    }
}

/// Nonterminals are called by the left sides of their rules.
#[derive(Clone, Copy)]
pub(crate) struct ByLeft;

impl<'s> Naming<Production<'s>> for ByLeft {
    ghost use Rattle.front_spec.specs.GrammarShapes.{SaidProduction};
    ghost use Rattle.front_spec.specs.GrammarFaults.{left_name};
    ghost use Rattle.front_spec.specs.GrammarSteps.{produced};

    ghost Said = { SaidProduction };

    ghost seen = { produced };

    ghost name = { left_name };

    fn name_of<'t>(&self, says: &'t Production<'s>) -> Option<&'t [u8]> {
        Some(says.left)
    }
}

/// Rules use the symbols of their right sides.
#[derive(Clone, Copy)]
pub(crate) struct RightSide;

impl<'s> Uses<Production<'s>> for RightSide {
    ghost use Rattle.front_spec.specs.GrammarShapes.{SaidProduction};
    ghost use Rattle.front_spec.specs.GrammarSteps.{produced};

    ghost Said = { SaidProduction };

    ghost seen = { produced };

    ghost uses = { λ said. said.right };

    fn count(&self, says: &Production<'s>) -> usize {
        says.right.len()
    }

    fn used<'t>(&self, says: &'t Production<'s>, place: usize) -> &'t [u8] {
        says.right[place]
    }
}

/// Each rule is one.
#[derive(Clone, Copy)]
pub(crate) struct OneEach;

impl<'s> Adding<Production<'s>> for OneEach {
    ghost use Rattle.front_spec.specs.GrammarShapes.{SaidProduction};
    ghost use Rattle.front_spec.specs.GrammarFaults.{one};
    ghost use Rattle.front_spec.specs.GrammarSteps.{produced};

    ghost Said = { SaidProduction };

    ghost seen = { produced };

    ghost adds = { one };

    fn added(&self, _says: &Production<'s>) -> u32 {
        1
    }
}

/// The labels of the rules, and the first rule whose label is there already, or whose left side is
/// a token or END.
pub(crate) fn twice_in(
    alloc: Global,
    tokens: &Names,
    list: &[Numbered<Production<'_>>],
) -> Result<(Names, Option<u32>), NoMemory>
    requires few { length list.now + 1 < 2 ^ 32 }
    requires grow { Grow (map numbered list.now) }
    ensures first { let ds = map (judged_by produced) list.now in
        IfOk result (λ found. FirstWith ds (GrammarFault tokens.now ds twice) found.1) }
    ensures labels { let ds = map (judged_by produced) list.now in
        IfOk result (λ found. found.1 ≡ None → found.0 ≡ labels_in ds) }
{
    let end = [b"END".as_slice()];
    let by_label = Again {
        names: Names::new(alloc),
        naming: ByLabel,
    };
    let by_token = Among {
        words: tokens,
        naming: ByLeft,
    };
    let by_end = Among {
        words: Words { list: &end },
        naming: ByLeft,
    };
    let mut test = Both {
        first: by_label,
        second: Both {
            first: by_token,
            second: by_end,
        },
    };
    let found = first_line(list, &mut test)?;
    Ok((test.first.names, found))
}

/// The first rule with a symbol that is neither a token nor a nonterminal.
pub(crate) fn unknown_in(
    tokens: &Names,
    nonterminals: &Names,
    list: &[Numbered<Production<'_>>],
) -> Result<Option<u32>, NoMemory>
    requires names { nonterminals.now ≡ nonterminals_in (map (judged_by produced) list.now) }
    requires few { length list.now + 1 < 2 ^ 32 }
    requires grow { Grow (map numbered list.now) }
    ensures first { let ds = map (judged_by produced) list.now in
        IfOk result (FirstWith ds (GrammarFault tokens.now ds unknown)) }
{
    let words = AnyOf {
        first: tokens,
        second: nonterminals,
    };
    let mut test = Missing {
        words,
        uses: RightSide,
    };
    first_line(list, &mut test)
}

/// The line by which there are more than 1,024 rules, or more than 512 symbols with END.
pub(crate) fn limit_in(
    alloc: Global,
    tokens: &Names,
    list: &[Numbered<Production<'_>>],
) -> Result<Option<u32>, NoMemory>
    requires few { length list.now + 1 < 2 ^ 32 }
    requires grow { Grow (map numbered list.now) }
    ensures first { let ds = map (judged_by produced) list.now in
        IfOk result (FirstWith ds (GrammarFault tokens.now ds limit)) }
{
    let rules = Counted {
        count: 0,
        limit: 1024,
        adding: OneEach,
    };
    let symbols = CountedNames {
        names: Names::new(alloc),
        before: u64::from(tokens.len()) + 1,
        limit: 512,
        naming: ByLeft,
    };
    let mut test = Both {
        first: rules,
        second: symbols,
    };
    first_line(list, &mut test)
}
