// Compact numbers.
ghost use Rattle.std.specs.Prelude.{◌≡◌, ◌^◌, ◌<◌};
ghost use Rattle.form.specs.Numbers.{negated};
ghost use Rattle.payload.specs.Compact.{at_most7};

use crate::bits;

// A width over seven counts as seven.
pub(crate) fn capped(width: usize) -> usize
    ensures { result ≡ at_most7 width }
{
    if width <= 7 { width } else { 7 }
}

// The bits of the negated number. Below 2^56 the negation is in the range of an i64.
pub(crate) fn negate(x: u64) -> u64
    requires { x < 2 ^ 56 }
    ensures { result ≡ negated x }
{
    let negative = -(x as i64);
    bits::of_i64(negative)
}
