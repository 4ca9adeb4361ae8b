// Text into a lent output. Past the end of the output nothing is stored, and the place still counts, up to the
// largest number: so the same methods measure, on an output of no bytes, and write.
#![tactic(auto)]

ghost use Rattle.std.specs.Prelude.{◌≡◌, [], ◌∷◌, ◌<◌};
ghost use Rattle.form.specs.Numbers.{le_bytes};
ghost use Rattle.form.specs.Put.{Put};
ghost use Rattle.form.specs.Ascii.{ascii, digit as Ascii·digit, decimal, signed, hex, hex_or_dash, truth, spaced, line};
ghost use Rattle.text.specs.Puts.{Puts};

// A lent output, and the place of the next byte in it.
#[derive(Drop)]
pub struct Printer<'a> {
    pub out: &'a mut [u8],
    pub at: usize,
}

// The digit d, below 16.
fn digit(d: u8) -> u8
    requires { d < 16 }
    ensures { result ≡ Ascii·digit d }
{
    if d < 10 { b'0' + d } else { b'a' + (d - 10) }
}

// Bytes in hex, from a place on; the place after them. It has a printer of its own, whose place is kept in a register.
fn hex_at(out: &mut [u8], at: usize, src: &[u8]) -> usize
    ensures { Put out.old at (hex src.now) out.new result }
{
    let mut p = Printer { out, at };
    for b in src {
        p.put_pair(*b);
    }
    p.at
}

impl Printer<'_> {
    // One byte.
    pub fn put(&mut self, b: u8)
        ensures { Puts self.old self.new (b ∷ []) }
    {
        if self.at < self.out.len() {
            self.out[self.at] = b;
        }
        self.at = self.at.saturating_add(1);
    }

    // All of src.
    pub fn put_all(&mut self, src: &[u8])
        ensures { Puts self.old self.new src.now }
    {
        for b in src {
            self.put(*b);
        }
    }

    // The decimal digits of x.
    pub fn put_decimal(&mut self, x: u64)
        ensures { Puts self.old self.new (decimal x) }
    {
        if 10 <= x {
            self.put_decimal(x / 10);
        }
        self.put(b'0' + (x % 10) as u8);
    }

    // The decimal digits of x, after a minus where it is below zero.
    pub fn put_signed(&mut self, x: i64)
        ensures { Puts self.old self.new (signed x) }
    {
        if x < 0 {
            self.put(b'-');
        }
        self.put_decimal(x.unsigned_abs());
    }

    // The two digits of a byte.
    fn put_pair(&mut self, b: u8)
        ensures { Puts self.old self.new (hex (b ∷ [])) }
    {
        self.put(digit(b / 16));
        self.put(digit(b % 16));
    }

    fn put_hex(&mut self, src: &[u8])
        ensures { Puts self.old self.new (hex src.now) }
    {
        self.at = hex_at(self.out, self.at, src);
    }

    // The bytes of a text in hex, or `-` for none.
    pub fn put_text(&mut self, src: &[u8])
        ensures { Puts self.old self.new (hex_or_dash src.now) }
    {
        match src {
            [] => self.put(b'-'),
            _ => self.put_hex(src),
        }
    }

    // The low `width` bytes of x in hex, the lowest first.
    pub fn put_le(&mut self, width: usize, x: u64)
        ensures { Puts self.old self.new (hex (le_bytes width x)) }
    {
        let mut rest = x;
        for _ in 0..width {
            self.put_pair((rest % 256) as u8);
            rest /= 256;
        }
    }

    // The word `true` or `false`.
    #[tactic(auto, unfolding(form::specs::Ascii::truth))]
    pub fn put_truth(&mut self, b: bool)
        ensures { Puts self.old self.new (truth b) }
    {
        if b {
            self.put_all(b"true");
        } else {
            self.put_all(b"false");
        }
    }

    // A number with a space in front.
    pub fn put_number(&mut self, x: u64)
        ensures { Puts self.old self.new (spaced (decimal x ∷ [])) }
    {
        self.put(b' ');
        self.put_decimal(x);
    }

    // A word with a space in front.
    pub fn put_word(&mut self, word: &[u8])
        ensures { Puts self.old self.new (spaced (word.now ∷ [])) }
    {
        self.put(b' ');
        self.put_all(word);
    }

    // A word and a number, each with a space in front.
    pub fn put_field(&mut self, word: &[u8], x: u64)
        ensures { Puts self.old self.new (spaced (word.now ∷ decimal x ∷ [])) }
    {
        self.put_word(word);
        self.put_number(x);
    }

    // The line `error`, a word and a number.
    pub fn put_error(&mut self, word: &[u8], x: u64)
        ensures { Puts self.old self.new (line (ascii "error") (word.now ∷ decimal x ∷ [])) }
    {
        self.put_all(b"error");
        self.put_field(word, x);
        self.put(b'\n');
    }
}
