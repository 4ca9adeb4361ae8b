// The stand-in for Read: bytes of a supply, handed over as a schedule says.
ghost use Rattle.std.specs.Prelude.{◌≡◌, ◌+◌, ◌≤◌, length, take, drop};
ghost use Rattle.std.proofs.lemmas.List.Edits.{sets};
ghost use Rattle.source.specs.Reads.{one, fill};

// What reads gave: so many bytes, by so many entries of the schedule; the last of them may have failed.
#[derive(Clone, Copy)]
pub(crate) struct Reads {
    pub got: usize,
    pub used: usize,
    pub failed: bool,
}

// All of src from a place on. A library's copy of so many bytes would be `memmove`, which nothing else asks for, and a call for a single byte.
fn store(out: &mut [u8], at: usize, src: &[u8])
    requires { at + length src.now ≤ length out.old }
    ensures { out.new ≡ sets out.old at src.now }
{
    for i in 0..src.len() {
        out[at + i] = src[i];
    }
}

// The len bytes from start, moved to the front; the two parts may overlap. By two places and what is left: as a `for`, or by the library's move,
// it takes up to 2.7 times the time where the bytes are at the front already.
pub(crate) fn slide(buffer: &mut [u8], start: usize, len: usize)
    requires { start + len ≤ length buffer.old }
    ensures { buffer.new ≡ sets buffer.old 0 (take len (drop start buffer.old)) }
{
    let mut j = start;
    let mut i: usize = 0;
    let mut left = len;
    while 0 < left {
        buffer[i] = buffer[j];
        j += 1;
        i += 1;
        left -= 1;
    }
}

// What the read by the next entry gives, with so much room and so many bytes left.
#[tactic(auto, using(crate::proofs::Filling::one_past))]
fn grant(schedule: &[u32], room: usize, left: usize) -> Reads
    ensures { result ≡ one room left schedule.now }
{
    let most = room.min(left);
    let Some(&e) = schedule.first() else {
        return Reads {
            got: most,
            used: 0,
            failed: false,
        };
    };
    if e == u32::MAX {
        return Reads {
            got: 0,
            used: 1,
            failed: true,
        };
    }
    Reads {
        got: (e as usize).min(most),
        used: 1,
        failed: false,
    }
}

// One read into the buffer.
pub(crate) fn read_once(buffer: &mut [u8], supply: &[u8], schedule: &[u32]) -> Reads
    ensures reads { result ≡ one (length buffer.old) (length supply.now) schedule.now }
    ensures bytes { buffer.new ≡ sets buffer.old 0 (take result.got supply.now) }
{
    let r = grant(schedule, buffer.len(), supply.len());
    store(buffer, 0, &supply[..r.got]);
    r
}

// Reads until the buffer is full, a read gives nothing or a read fails.
pub(crate) fn fill_up(buffer: &mut [u8], supply: &[u8], schedule: &[u32]) -> Reads
    ensures reads { result ≡ fill (length buffer.old) (length supply.now) schedule.now }
    ensures bytes { buffer.new ≡ sets buffer.old 0 (take result.got supply.now) }
{
    let mut got = 0;
    let mut used = 0;
    while got < buffer.len() {
        let r = read_once(&mut buffer[got..], &supply[got..], &schedule[used..]);
        used += r.used;
        if r.got == 0 {
            let failed = r.failed;
            return Reads { got, used, failed };
        }
        got += r.got;
    }
    Reads {
        got,
        used,
        failed: false,
    }
}
