// Offers, the best of them, and when one is better.
ghost use Rattle.std.specs.Prelude.{◌≡◌, ◌+◌, ◌<◌, length};
ghost use Rattle.beg_label.specs.within.Offers.{capped, better, best_at, offer_cost, improves, improved};

/// More than any least cost.
pub const NOTHING: u64 = 1_099_511_627_776;

/// The best cost so far of a node for a nonterminal, and the first rule that offers it. The cost
/// `NOTHING` stands for none.
#[derive(Clone, Copy)]
pub struct Best {
    pub cost: u64,
    pub rule: u32,
}

/// What a rule offers at a node: its left side is covered at this cost, to which that of the
/// operand is added where the operand is the node itself, for this nonterminal.
#[derive(Drop)]
pub struct Offer {
    pub left: u32,
    pub rule: u32,
    pub cost: u64,
    pub operand: Option<u32>,
}

/// The sum, or `NOTHING` where it isn't less.
pub(crate) fn added(a: u64, b: u64) -> u64
    ensures { result ≡ capped (a + b) }
{
    a.saturating_add(b).min(NOTHING)
}

/// The best of the nonterminal; nothing for one that isn't there.
fn best_of(row: &[Best], x: u32) -> Best
    ensures { result ≡ best_at row.now x }
{
    match row.get(x as usize) {
        Some(best) => *best,
        None => Best {
            cost: NOTHING,
            rule: 0,
        },
    }
}

/// What the offer comes to with the best of the row.
fn cost_of(o: &Offer, row: &[Best]) -> u64
    ensures { result ≡ offer_cost o.now row.now }
{
    match o.operand {
        Some(y) => added(o.cost, best_of(row, y).cost),
        None => added(o.cost, 0),
    }
}

/// Whether cost and rule are better than the best so far.
fn is_better(cost: u64, rule: u32, old: Best) -> bool
    ensures { result ≡ better cost rule old }
{
    cost < NOTHING && (cost < old.cost || (cost == old.cost && rule < old.rule))
}

/// Puts the offer into the row where it is better; whether it is.
pub(crate) fn improve(o: &Offer, row: &mut [Best]) -> bool
    requires within { o.now.left < length row.old }
    ensures told { result ≡ improves o.now row.old }
    ensures row { row.new ≡ improved o.now row.old }
{
    let cost = cost_of(o, row);
    let old = best_of(row, o.left);
    let rule = o.rule;
    let at = o.left as usize;
    let is = is_better(cost, rule, old);
    if is {
        row[at] = Best { cost, rule };
        return true;
    }
    false
}
