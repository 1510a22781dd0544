// Index appearance records by value: an ordering of pairs as one code, three bits for each place, 0 in a place that is not used.
// It rests on `rules`. Every method takes any record and any byte and states its whole result, by the definitions of the rules
// over the record's places.
#![tactic(auto)]

ghost use Rattle.std.specs.Prelude.{◌≡◌, not, ◌∷◌, suc, ◌≤◌, ◌<◌, ◌*◌, ◌+◌, ◌/◌, ◌^◌, length, get_or};
ghost use Rattle.rules.specs.Basics.{pick, keep, tabulate};
ghost use Rattle.rules.specs.Records.{as_they_stood, moved, priority, decimal};
ghost use Rattle.records.specs.Packed.{limit, base, is_pair, is_marked, marks_by, packed, places, pairs_in};

// The number of a pair, from 1; 0 is no pair.
#[derive(Clone, Copy)]
pub struct PairNumber(pub u8);

// A position in a record, from 1; 0 is no position.
#[derive(Clone, Copy)]
pub struct Position(pub u8);

// An ordering of pairs: the pair at position p in the three bits from 3 · (p − 1) on.
#[derive(Clone, Copy)]
pub struct Record {
    pub code: u32,
}

// The record of all pairs, rising: in octal, each place is a digit, the first place the last one.
const ALL_RISING: u32 = 0o654321;

impl PairNumber {
    // The pair is in the set: bit i − 1 for pair i.
    pub fn is_in(self, mask: u8) -> bool
        ensures { result ≡ is_marked mask self.0 }
    {
        let i = self.0;
        let bit = 1u32 << (i % 16);
        let set = 2 * u32::from(mask);
        (i < 16) & (set & bit != 0)
    }
}

impl Record {
    // The most pairs that a record holds.
    pub const LIMIT: u8 = 6;

    // The pairs of the set, rising.
    pub fn rising(mask: u8) -> Self
        ensures { result.code ≡ packed (keep (is_marked mask) (tabulate limit 1 (λ i. i))) }
    {
        let all = Record { code: ALL_RISING };
        let code = all.front(mask);
        Record { code }
    }

    // The pair at a position; 0 where there is none, and no Option: it is promised for any position, and a place that is not used holds 0 itself.
    pub fn pair_at(self, at: Position) -> PairNumber
        ensures { result.0 ≡ get_or (0 ∷ places self.code) at.0 0 }
    {
        let p = at.0;
        if (p == 0) | (Record::LIMIT < p) {
            return PairNumber(0);
        }
        let shift = 3 * (p - 1);
        PairNumber(((self.code >> shift) % 8) as u8)
    }

    // The priority of an inside transition with these marks, by the record before the move: position by position, the last pair with
    // either mark decides.
    pub fn priority(self, prohibited: u8, required: u8) -> u8
        ensures { result ≡ priority (marks_by prohibited required) (places self.code) }
    {
        let mut best = 1;
        // best is the priority by the positions below p
        for p in 1..=Record::LIMIT {
            let pair = self.pair_at(Position(p));
            let odd = pair.is_in(prohibited);
            let even = pair.is_in(required);
            best = decided(best, Position(p), odd, even);
        }
        best
    }

    // The record after the pairs of the set have moved to the front.
    pub fn moved(self, mask: u8) -> Self
        ensures { result.code ≡ packed (moved as_they_stood (is_marked mask) (places self.code)) }
    {
        let front = self.front(mask);
        let rear = self.rear(mask);
        Record { code: front + rear }
    }

    // The code of the pairs of the set, from the first place on.
    fn front(self, mask: u8) -> u32
        ensures { result ≡ packed (keep (is_marked mask) (places self.code)) }
    {
        let mut code = 0;
        // code has the pairs of the set at the positions above p
        for p in (1..=Record::LIMIT).rev() {
            let pair = self.pair_at(Position(p));
            if pair.is_in(mask) {
                code = with_first(code, pair);
            }
        }
        code
    }

    // The code of the pairs that are not in the set, moved up to the last place.
    fn rear(self, mask: u8) -> u32
        ensures { result ≡ base ^ length (keep (is_marked mask) (places self.code)) * packed (keep (λ i. not (is_marked mask i)) (places self.code)) }
    {
        let mut code = 0;
        // the last places of code have the pairs at the positions below p that are not in the set
        for p in 1..=Record::LIMIT {
            let pair = self.pair_at(Position(p));
            if !pair.is_in(mask) {
                code = with_last(code, pair);
            }
        }
        code
    }

    // The pair numbers read as one decimal number; 0 where there are none.
    pub fn number(self) -> u32
        ensures { result ≡ decimal (pairs_in self.code) }
    {
        let mut number = 0;
        // number is that of the pairs at the positions below p
        for p in 1..=Record::LIMIT {
            number = with_digit(number, self.pair_at(Position(p)));
        }
        number
    }
}

// The priority that a pair at a position makes of the one found before it.
fn decided(best: u8, at: Position, odd: bool, even: bool) -> u8
    requires { at.0 ≤ limit }
    ensures { result ≡ pick odd (suc (2 * at.0)) (pick even (2 * at.0) best) }
{
    if odd {
        return 2 * at.0 + 1;
    }
    if even { 2 * at.0 } else { best }
}

// The code with the pair in front. The pair is one that a place can hold, here and below: `PairNumber` takes any byte, since `is_in` promises for each.
fn with_first(code: u32, pair: PairNumber) -> u32
    requires { (code < 32768) × (pair.0 < base) }
    ensures { result ≡ pair.0 + base * code }
{
    u32::from(pair.0) + 8 * code
}

// The code with the pair in the last place, the others one place nearer to the front.
fn with_last(code: u32, pair: PairNumber) -> u32
    requires { (code < 262144) × (pair.0 < base) }
    ensures { result ≡ code / base + 32768 * pair.0 }
{
    code / 8 + 32768 * u32::from(pair.0)
}

// The number with the pair as one more digit; the number itself for no pair.
fn with_digit(number: u32, pair: PairNumber) -> u32
    requires { (number < 16777216) × (pair.0 < base) }
    ensures { result ≡ pick (is_pair pair.0) (10 * number + pair.0) number }
{
    if pair.0 == 0 {
        number
    } else {
        10 * number + u32::from(pair.0)
    }
}
