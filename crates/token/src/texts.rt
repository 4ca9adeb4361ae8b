// The text of a string token.
ghost use Rattle.std.specs.Prelude.{◌≡◌};
ghost use Rattle.payload.specs.Texts.{part_of};
ghost use Rattle.token.specs.Texts.{place_answer, place_of};

use payload::Text;

// A text does not lie within the bytes; it is named by its start.
#[derive(Clone, Copy, Debug, PartialEq, Eq)]
pub struct BadPlace(pub usize);

// Whether the bytes hold the text.
pub fn text(bytes: &[u8], t: Text) -> Result<(), BadPlace>
    ensures { place_answer result ≡ place_of bytes.now t }
{
    let start = t.start;
    let len = t.len;
    if start <= bytes.len() {
        if len <= bytes.len() - start {
            return Ok(());
        }
    }
    Err(BadPlace(start))
}

// The part of the bytes that holds the text; none of them at a bad place.
pub fn text_part(bytes: &[u8], t: Text) -> &[u8]
    ensures { result.now ≡ part_of bytes.now t }
{
    let start = t.start;
    let len = t.len;
    if start <= bytes.len() {
        if len <= bytes.len() - start {
            &bytes[start..start + len]
        } else {
            &bytes[..0]
        }
    } else {
        &bytes[..0]
    }
}
