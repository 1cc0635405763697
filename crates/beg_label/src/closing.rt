// Offers are taken in rounds until none is better.
ghost use Rattle.std.specs.Prelude.{◌≡◌, ◌<◌, ◌^◌, ◌||◌, length, All, slice_get, Some};
ghost use Rattle.beg_label.specs.within.Offers.{Improves, NoneBetter, Passed};

use crate::offers::{Best, Offer, improve};

/// Takes each offer in turn; whether one was better.
fn pass(offers: &[Offer], row: &mut [Best]) -> bool
    requires within { All (λ o. o.left < length row.old) offers.now }
    requires rules { All (λ o. o.rule < 2 ^ 32) offers.now }
    ensures same { Passed offers.now row.old row.new result }
{
    let mut changed = false;
    for i in 0..offers.len() {
        let o = offer_at(offers, i);
        let better = improve(o, row);
        changed = either(changed, better);
    }
    changed
}

/// Takes offers until none is better.
pub(crate) fn close(offers: &[Offer], row: &mut [Best])
    requires within { All (λ o. o.left < length row.old) offers.now }
    requires rules { All (λ o. o.rule < 2 ^ 32) offers.now }
    ensures improved { Improves offers.now row.old row.new }
    ensures closed { NoneBetter offers.now row.new }
{
    loop {
        let changed = pass(offers, row);
        if !changed {
            break;
        }
    }
}

fn either(a: bool, b: bool) -> bool
    ensures { result ≡ (a || b) }
{
    a || b
}

/// The offer at a place that there is.
fn offer_at(offers: &[Offer], i: usize) -> &Offer
    requires { i < length offers.now }
    ensures { slice_get offers.now i ≡ Some result.now }
{
    &offers[i]
}
