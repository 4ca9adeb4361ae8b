// Eight held bytes.
ghost use Rattle.std.specs.Prelude.{◌≡◌, ◌++◌, ◌+◌, ◌≤◌, length, take, drop};
ghost use Rattle.form.specs.Numbers.{le_bytes};

// So many bytes of the window over the front of those held.
pub(crate) fn hold(window: &[u8], from: usize, count: usize, held: [u8; 8]) -> [u8; 8]
    requires { (count ≤ 8) × (from + count ≤ length window.now) }
    ensures { result ≡ take count (drop from window.now) ++ drop count held }
{
    let mut bytes = held;
    bytes[..count].copy_from_slice(&window[from..from + count]);
    bytes
}

// The eight bytes of a number.
pub(crate) fn spell(x: u64) -> [u8; 8]
    ensures { result ≡ le_bytes 8 x }
{
    x.to_le_bytes()
}
