// The first fault of a section AG, kind by kind.
ghost use Rattle.std.specs.Prelude.{◌≡◌, ◌+◌, ◌<◌, ◌^◌, length, map, IfOk};
ghost use Rattle.ck_base.specs.declared.fault.Kind.TheVariants.{Limit as limit, Twice as twice, Unknown as unknown};
ghost use Rattle.section_frame.specs.Declares.{Grow};
ghost use Rattle.section_frame.specs.Passes.{FirstWith, judged_by, numbered};
ghost use Rattle.ag_spec.specs.AgFaults.{AgFault as ag_fault, item_names};
ghost use Rattle.ag_spec.specs.within.AgSeen.{saying_seen};

use crate::crowded::Crowded;
use crate::known::{FamilyNames, NodeNames};
use crate::line::Saying;
use crate::naming::{AttributeTypes, ByCalled, ByName, Families, Holders};
use crate::unknown_makers::UnknownMakers;
use ck_base::{Names, NoMemory};
use node_model::TypeNames;
use section_frame::{Again, Among, AnyOf, Both, Missing, Numbered, Words, first_line};
use std::alloc::Global;

/// The words that no attribute may be called by.
const RESERVED: [&[u8]; 17] = [
    b"int", b"bool", b"text", b"map", b"if", b"then", b"else", b"true", b"false", b"line", b"col",
    b"empty", b"put", b"get", b"has", b"size", b"_",
];

/// The types that an attribute may have.
const TYPES: [&[u8]; 4] = [b"int", b"bool", b"text", b"map"];

/// The first attribute that a line before has declared, that is called as an item of a type of its
/// family, or by a reserved word. `items` are the items of types, called as attributes are.
pub(crate) fn twice_in(
    alloc: Global,
    table: &TypeNames<'_>,
    items: &Names,
    list: &[Numbered<Saying<'_>>],
) -> Result<Option<u32>, NoMemory>
    requires items { items.now ≡ item_names table.now }
    requires few { length list.now + 1 < 2 ^ 32 }
    requires grow { Grow (map numbered list.now) }
    ensures first { let ds = map (judged_by saying_seen) list.now in
        IfOk result (FirstWith ds (ag_fault table.now ds twice)) }
{
    let again = Again {
        names: Names::new(alloc),
        naming: ByCalled,
    };
    let item = Among {
        words: items,
        naming: ByCalled,
    };
    let word = Among {
        words: Words { list: &RESERVED },
        naming: ByName,
    };
    let mut test = Both {
        first: again,
        second: Both {
            first: item,
            second: word,
        },
    };
    first_line(list, &mut test)
}

/// The first line with a family, a type, a holder or a maker that isn't there.
pub(crate) fn unknown_in(
    table: &TypeNames<'_>,
    list: &[Numbered<Saying<'_>>],
) -> Result<Option<u32>, NoMemory>
    requires few { length list.now + 1 < 2 ^ 32 }
    requires grow { Grow (map numbered list.now) }
    ensures first { let ds = map (judged_by saying_seen) list.now in
        IfOk result (FirstWith ds (ag_fault table.now ds unknown)) }
{
    let families = FamilyNames { names: table };
    let types = NodeNames { names: table };
    let family = Missing {
        words: families,
        uses: Families,
    };
    let of = Missing {
        words: AnyOf {
            first: Words { list: &TYPES },
            second: families,
        },
        uses: AttributeTypes,
    };
    let holder = Missing {
        words: AnyOf {
            first: types,
            second: families,
        },
        uses: Holders,
    };
    let mut test = Both {
        first: family,
        second: Both {
            first: of,
            second: Both {
                first: holder,
                second: UnknownMakers { types },
            },
        },
    };
    first_line(list, &mut test)
}

/// The line by which a family has more than 16 attributes.
pub(crate) fn limit_in(
    alloc: Global,
    table: &TypeNames<'_>,
    families: u32,
    list: &[Numbered<Saying<'_>>],
) -> Result<Option<u32>, NoMemory>
    requires families { families ≡ length table.now.families }
    requires few { length list.now + 1 < 2 ^ 32 }
    requires grow { Grow (map numbered list.now) }
    ensures first { let ds = map (judged_by saying_seen) list.now in
        IfOk result (FirstWith ds (ag_fault table.now ds limit)) }
{
    let counts = vec![in alloc; 0; families as usize]?;
    let mut test = Crowded { table, counts };
    first_line(list, &mut test)
}
