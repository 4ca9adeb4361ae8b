// Writes the dump of standard input, of up to 32,768 bytes, to standard output.
#![tactic(auto)]

ghost use Rattle.std.specs.Prelude.{◌≤◌, ◌≡◌, length};
ghost use Rattle.form.specs.Writing.{written, leaves};
ghost use Rattle.form.specs.Listing.{listing};

// The dump of a save at the front of out, which has room for every dump; its length.
fn dump(bytes: &[u8], out: &mut [u8]) -> usize
    requires { (length bytes.now ≤ 32768) × (442431 ≤ length out.old) }
    ensures len { result ≡ length (listing bytes.now) }
    ensures output { out.new ≡ leaves (written (listing bytes.now)) out.old }
{
    listing::list(bytes, out).unwrap()
}

// Writes the dump of a save by way of out.
fn show(rt: &HostRuntime, bytes: &[u8], out: &mut [u8])
    requires { (length bytes.now ≤ 32768) × (442431 ≤ length out.old) }
{
    let n = dump(bytes, out);
    stdio::print(rt, &out[..n]);
}

fn main(rt: HostRuntime) {
    let mut bytes = [0u8; 32769];
    // Room for every dump: 27 bytes for each two of the save, and 63 for the last line.
    let mut out = [0u8; 442431];
    match stdio::read_all(&mut rt.stdin(), &mut bytes) {
        Ok(n) if n <= 32768 => show(&rt, &bytes[..n], &mut out),
        Ok(_) => {
            stdio::print(&rt, b"too long\n");
        }
        Err(_) => {
            stdio::write_all(&mut rt.stderr(), b"cannot read\n");
        }
    }
}
