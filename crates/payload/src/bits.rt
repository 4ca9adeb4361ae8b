// A number's bits, as an unsigned number.
ghost use Rattle.std.specs.Prelude.{◌≡◌};
ghost use Rattle.std.specs.Int.{w32, w64};
ghost use Rattle.std.proofs.Common.{of_z};
ghost use Rattle.form.specs.Spelling.{bit};

// 1 for true, 0 for false.
pub fn of_bool(x: bool) -> u64
    ensures { result ≡ bit x }
{
    u64::from(x)
}

// The 32 bits of a signed number, in two's complement.
pub fn of_i32(x: i32) -> u64
    ensures { result ≡ of_z w32 x }
{
    u64::from(x.cast_unsigned())
}

// The 64 bits of a signed number, in two's complement.
pub fn of_i64(x: i64) -> u64
    ensures { result ≡ of_z w64 x }
{
    x.cast_unsigned()
}
