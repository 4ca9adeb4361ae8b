// Bytes into a lent output, one after the other.
ghost use Rattle.std.specs.Prelude.{◌+◌, ◌≡◌, ◌≤◌, length};
ghost use Rattle.std.proofs.lemmas.List.Edits.{sets};
ghost use Rattle.form.specs.Numbers.{le_bytes};
ghost use Rattle.form.specs.Spelling.{spelled_channel};
ghost use Rattle.writer.specs.Layouts.{id_number as Layouts·id_number, id_text as Layouts·id_text, colour_end as Layouts·colour_end, channels as Layouts·channels, id_colour as Layouts·id_colour, spelled_by};
ghost use Rattle.writer.specs.Pens.{Room, Puts};

use crate::layout::Layout;
use lexeme::LexemeId;
use payload::Rgb;

// The low width bytes of x from a place on, the lowest first. It has no pen, whose place would be stored and loaded for each of them.
fn store_number(out: &mut [u8], at: usize, width: usize, x: u64)
    requires { at + width ≤ length out.old }
    ensures { out.new ≡ sets out.old at (le_bytes width x) }
{
    let end = at + width;
    let mut rest = x;
    for i in at..end {
        out[i] = (rest % 256) as u8;
        rest = rest / 256;
    }
}

// All of src from a place on. A library's copy of so many bytes would be `memmove`, which nothing else asks for, and a call for a single byte.
fn store(out: &mut [u8], at: usize, src: &[u8])
    requires { at + length src.now ≤ length out.old }
    ensures { out.new ≡ sets out.old at src.now }
{
    for i in 0..src.len() {
        out[at + i] = src[i];
    }
}

// A lent output, and the place of the next byte in it.
#[derive(Drop)]
pub(crate) struct Pen<'a> {
    pub(crate) out: &'a mut [u8],
    pub(crate) at: usize,
}

impl Pen<'_> {
    // The low width bytes of x, the lowest first.
    fn number(&mut self, width: usize, x: u64)
        requires { Room self.old width }
        ensures { Puts self.old self.new (le_bytes width x) }
    {
        store_number(self.out, self.at, width, x);
        self.at += width;
    }

    // All of src.
    pub(crate) fn all(&mut self, src: &[u8])
        requires { Room self.old (length src.now) }
        ensures { Puts self.old self.new src.now }
    {
        store(self.out, self.at, src);
        self.at += src.len();
    }

    fn id(&mut self, x: LexemeId)
        requires { Room self.old 2 }
        ensures { Puts self.old self.new (le_bytes 2 x.0) }
    {
        self.number(2, x.0 as u64);
    }

    // An id, and a number after it.
    pub(crate) fn id_number(&mut self, x: LexemeId, width: usize, n: u64)
        requires { Room self.old (2 + width) }
        ensures { Puts self.old self.new (Layouts·id_number x.0 width n) }
    {
        self.id(x);
        self.number(width, n);
    }

    // An id, and a text after its length.
    fn id_text(&mut self, x: LexemeId, text: &[u8])
        requires { Room self.old (4 + length text.now) }
        ensures { Puts self.old self.new (Layouts·id_text x.0 text.now) }
    {
        self.id(x);
        self.number(2, text.len() as u64);
        self.all(text);
    }

    fn channel(&mut self, n: u32)
        requires { Room self.old 6 }
        ensures { Puts self.old self.new (spelled_channel n) }
    {
        self.id_number(LexemeId::U32, 4, n as u64);
    }

    // The end of a colour: its alpha, where it has one, and Close.
    fn colour_end(&mut self, a: Option<u32>)
        requires { Room self.old (length (Layouts·colour_end a)) }
        ensures { Puts self.old self.new (Layouts·colour_end a) }
    {
        if let Some(x) = a {
            self.channel(x);
        }
        self.id(LexemeId::CLOSE);
    }

    // The channels of a colour, and its end.
    fn channels(&mut self, c: Rgb)
        requires { Room self.old (length (Layouts·channels c)) }
        ensures { Puts self.old self.new (Layouts·channels c) }
    {
        self.channel(c.r);
        self.channel(c.g);
        self.channel(c.b);
        self.colour_end(c.a);
    }

    fn id_colour(&mut self, c: Rgb)
        requires { Room self.old (length (Layouts·id_colour c)) }
        ensures { Puts self.old self.new (Layouts·id_colour c) }
    {
        self.id(LexemeId::RGB);
        self.id(LexemeId::OPEN);
        self.channels(c);
    }

    // A token by its layout; its text stands in bytes.
    pub(crate) fn layout(&mut self, bytes: &[u8], p: Layout)
        requires { Room self.old (length (spelled_by bytes.now p)) }
        ensures { Puts self.old self.new (spelled_by bytes.now p) }
    {
        match p {
            Layout::Number(x, width, n) => self.id_number(x, width as usize, n),
            Layout::Text(x, t) => self.id_text(x, token::text_part(bytes, t)),
            Layout::Empty(_) => self.id(LexemeId::EMPTY_STRING),
            Layout::Lookup(n) => self.id_number(LexemeId::LOOKUP_U24, 3, n as u64),
            Layout::Rgb(c) => self.id_colour(c),
            Layout::Id(x) => self.id(LexemeId::new(x)),
        }
    }
}
