// Numbers of a width.
ghost use Rattle.std.specs.Prelude.{◌≡◌, ◌≤◌, length, take, drop};
ghost use Rattle.std.specs.Int.{w32, w64};
ghost use Rattle.std.proofs.Common.{to_z};
ghost use Rattle.form.specs.Numbers.{le};
ghost use Rattle.form.specs.Readers.{at as read_at};
ghost use Rattle.form.specs.Reading.{num};
ghost use Rattle.payload.specs.Answers.{read_as};

use crate::answers::Read;

// The little-endian number of width bytes at a place, built from the highest byte down.
pub(crate) fn spelled(bytes: &[u8], at: usize, width: usize) -> u64
    requires { (width ≤ 8) × (width ≤ length (drop at bytes.now)) }
    ensures { result ≡ le (take width (drop at bytes.now)) }
{
    let mut x: u64 = 0;
    for i in (0..width).rev() {
        x = x * 256 + bytes[at + i] as u64;
    }
    x
}

// The number of width bytes at a place.
pub(crate) fn read_width(bytes: &[u8], at: usize, width: usize) -> Read<u64>
    requires { width ≤ 8 }
    ensures { read_as (λ x. x) result ≡ read_at (num width) bytes.now at }
{
    let (_, next) = crate::read_bytes(bytes, at, width)?;
    let x = spelled(bytes, at, width);
    Ok((x, next))
}

// The same, where the number fits into 32 bits.
pub(crate) fn read_width32(bytes: &[u8], at: usize, width: usize) -> Read<u32>
    requires { width ≤ 4 }
    ensures { read_as (λ x. x) result ≡ read_at (num width) bytes.now at }
{
    let (x, next) = read_width(bytes, at, width)?;
    Ok((x as u32, next))
}

// The number that 32 bits spell in two's complement.
pub(crate) fn signed32(x: u64) -> i32
    requires { x ≤ 4294967295 }
    ensures { result ≡ to_z w32 x }
{
    (x as u32).cast_signed()
}

// The number that 64 bits spell in two's complement.
pub fn signed64(x: u64) -> i64
    ensures { result ≡ to_z w64 x }
{
    x.cast_signed()
}
