// The tokens of a source that a derivation has shifted.
ghost use Rattle.rex_model.specs.Place.{IsPlace};
ghost use Rattle.std.specs.Prelude.{◌≡◌, ◌+◌, ◌^◌, ◌<◌, ◌++◌, ◌∷◌, [], All, length, map, IfOk};
ghost use Rattle.tree_build.specs.Built.{token_place, LiesInSource};
ghost use Rattle.tree_build.specs.within.Spans.{span_of};
ghost use Rattle.tree_build.specs.within.Replaying.{shifted_by};

use parse_driver::Step;
use rex_model::Place;
use std::alloc::Global;
use value_store::{NoMemory, Text, TextOf};

/// The tokens of a source: of each one its span, and its line and column.
#[derive(Drop)]
pub struct TokenList {
    pub spans: Vec<Text>,
    pub places: Vec<(u32, u32)>,
}

impl TokenList {
    /// The tokens that the steps shift. It goes over the source once where they stand in its order.
    pub(crate) fn of(alloc: Global, source: &[u8], steps: &[Step]) -> Result<TokenList, NoMemory>
        requires inside { All (LiesInSource source.now) steps.now }
        requires few { length source.now + 1 < 2 ^ 32 }
        ensures spans { IfOk result (λ list.
            list.spans.items ≡ map span_of (shifted_by steps.now)) }
        ensures places { IfOk result (λ list.
            list.places.items ≡ map (token_place source.now) (shifted_by steps.now)) }
    {
        let mut spans = Vec::new(alloc);
        let mut places = Vec::new(alloc);
        let mut place = Place::START;
        for step in steps {
            place = add_token(source, step, place, &mut spans, &mut places)?;
        }
        Ok(TokenList { spans, places })
    }
}

/// Adds the token that the step shifts, if it shifts one; gives the place that was reached.
fn add_token(
    source: &[u8],
    step: &Step,
    place: Place,
    spans: &mut Vec<Text>,
    places: &mut Vec<(u32, u32)>,
) -> Result<Place, NoMemory>
    requires inside { LiesInSource source.now step.now }
    requires few { length source.now + 1 < 2 ^ 32 }
    requires place { IsPlace source.now place }
    ensures place { IfOk result (IsPlace source.now) }
    ensures spans { IfOk result (λ _.
        spans.new.items ≡ spans.old.items ++ map span_of (shifted_by (step.now ∷ []))) }
    ensures places { IfOk result (λ _. places.new.items
        ≡ places.old.items ++ map (token_place source.now) (shifted_by (step.now ∷ []))) }
{
    let Step::Shift(token) = step else {
        return Ok(place);
    };
    let place = place.go_to(source, token.from as usize);
    spans.push(Text {
        of: TextOf::Source,
        from: token.from,
        to: token.to,
    })?;
    places.push((place.line, place.col))?;
    Ok(place)
}
