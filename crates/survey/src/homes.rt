// Components as bytes.
ghost use Rattle.std.specs.Prelude.{◌≡◌, ℕ, ◌<◌, ◌≤◌, length, get_or};
ghost use Rattle.rules.specs.Basics.{tabulate};
ghost use Rattle.rules.specs.Says.{over};

// The numbers as bytes, at the front of an array that has room. A loop: the library copies only between arrays of one type.
pub(crate) fn narrow(numbers: &[u16], out: &mut [u8])
    requires { (length numbers.now ≤ length out.old) × ((q : ℕ) → q < length numbers.now → get_or numbers.now q 0 < 256) }
    ensures { out.new ≡ over (tabulate (length numbers.now) 0 (λ q. get_or numbers.now q 0)) out.old }
{
    for (q, number) in numbers.iter().enumerate() {
        out[q] = *number as u8;
    }
}
