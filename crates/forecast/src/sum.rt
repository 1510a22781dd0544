// Who takes the components of a table: adds up what each of them adds to the rows, and keeps the most pairs that one of them has.
ghost use Rattle.std.specs.Prelude.{◌≡◌};
ghost use Rattle.std.specs.Int.Count.{ones};
ghost use Rattle.rules.specs.Forecasts.{factorial};
ghost use Rattle.forecast.specs.Figures.{AddedUp, added_same};

use components::marked::Taker;

// The orders of no pair to eight pairs: a set is a byte.
const ORDERS: [usize; 9] = [1, 1, 2, 6, 24, 120, 720, 5040, 40320];

// How many orders the pairs of a set have.
fn orders_of(set: u8) -> usize
    ensures { result ≡ factorial (ones set) }
{
    ORDERS[set.count_ones() as usize]
}

// The figures of the components so far. The sum wraps, so that no step needs a bound: that the rows of a table never reach 2^64 is known once
// all components are taken.
#[derive(Drop)]
pub(crate) struct Sum {
    pub(crate) rows: usize,
    pub(crate) pairs: u32,
}

impl Taker for Sum {
    ghost holds = { λ x es s marks done. AddedUp s marks done x.rows x.pairs };

    fn take(&mut self, members: &[u16], set: u8, _entries: &mut [u16]) {
        let added = members.len().wrapping_mul(orders_of(set));
        self.rows = self.rows.wrapping_add(added);
        self.pairs = self.pairs.max(set.count_ones());
    }

    ghost lasts = { λ x es es' s marks done done' h l same entries. added_same s marks done done' h same };
}
