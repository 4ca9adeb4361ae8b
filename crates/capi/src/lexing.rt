// The lexer's calls, from the cursor at a place of an input that begins at an offset.
ghost use Rattle.std.specs.Prelude.{◌≡◌};
ghost use Rattle.form.specs.Readers.{at as read_at};
ghost use Rattle.form.specs.Reading.{num, rgb};
ghost use Rattle.form.specs.Skipping.{skip_container, skip_value};
ghost use Rattle.form.specs.Calls.{cursor_in, positions, reads, nexts, peeks, skips};
ghost use Rattle.form.specs.Finding.{finds};
ghost use Rattle.token.specs.Tokens.{token_at};
ghost use Rattle.lexer.specs.Calls.{bool_at, i32_at, i64_at, string_at, bytes_at, remainder_of};
ghost use Rattle.capi.specs.Replies.{reply_of, reply_or_none, returned, into};
ghost use Rattle.capi.specs.Words.{no_words, number_words, bool_words, signed_words, text_words, colour_words, token_words};

use crate::{lexer_replies, replies};
use lexeme::LexemeId;
use lexer::Lexer;

// The position of the cursor in the file.
#[unsafe(no_mangle)]
pub extern "C" fn stivlaheim_position(
    bytes: &[u8],
    at: usize,
    offset: usize,
    answer: &mut [u64],
) -> u32
    ensures { returned result answer.new ≡ into answer.old (reply_of number_words (positions bytes.now (cursor_in offset at))) }
{
    let c = Lexer { at, offset };
    replies::store(answer, lexer_replies::of_place(c, c.position(bytes)))
}

// An id: two bytes.
#[unsafe(no_mangle)]
pub extern "C" fn stivlaheim_read_id(
    bytes: &[u8],
    at: usize,
    offset: usize,
    answer: &mut [u64],
) -> u32
    ensures { returned result answer.new ≡ into answer.old (reply_of number_words (reads (read_at (num 2)) bytes.now (cursor_in offset at))) }
{
    let c = Lexer { at, offset };
    replies::store(answer, lexer_replies::of_read(c, c.read_id(bytes)))
}

// The next id; none at the end.
#[unsafe(no_mangle)]
pub extern "C" fn stivlaheim_next_id(
    bytes: &[u8],
    at: usize,
    offset: usize,
    answer: &mut [u64],
) -> u32
    ensures { returned result answer.new ≡ into answer.old (reply_or_none number_words (nexts (read_at (num 2)) bytes.now (cursor_in offset at))) }
{
    let c = Lexer { at, offset };
    replies::store(answer, lexer_replies::of_next(c, c.next_id(bytes)))
}

// The next id, with the cursor left where it is; none where it is refused.
#[unsafe(no_mangle)]
pub extern "C" fn stivlaheim_peek_id(
    bytes: &[u8],
    at: usize,
    offset: usize,
    answer: &mut [u64],
) -> u32
    ensures { returned result answer.new ≡ into answer.old (reply_or_none number_words (peeks (read_at (num 2)) bytes.now (cursor_in offset at))) }
{
    let c = Lexer { at, offset };
    replies::store(answer, lexer_replies::of_peek(c, c.peek_id(bytes)))
}

// A token: an id and its payload.
#[unsafe(no_mangle)]
pub extern "C" fn stivlaheim_read_token(
    bytes: &[u8],
    at: usize,
    offset: usize,
    answer: &mut [u64],
) -> u32
    ensures { returned result answer.new ≡ into answer.old (reply_of token_words (reads token_at bytes.now (cursor_in offset at))) }
{
    let c = Lexer { at, offset };
    replies::store(answer, lexer_replies::of_read(c, c.read_token(bytes)))
}

// The next token; none at the end.
#[unsafe(no_mangle)]
pub extern "C" fn stivlaheim_next_token(
    bytes: &[u8],
    at: usize,
    offset: usize,
    answer: &mut [u64],
) -> u32
    ensures { returned result answer.new ≡ into answer.old (reply_or_none token_words (nexts token_at bytes.now (cursor_in offset at))) }
{
    let c = Lexer { at, offset };
    replies::store(answer, lexer_replies::of_next(c, c.next_token(bytes)))
}

// The next token, with the cursor left where it is; none where it is refused.
#[unsafe(no_mangle)]
pub extern "C" fn stivlaheim_peek_token(
    bytes: &[u8],
    at: usize,
    offset: usize,
    answer: &mut [u64],
) -> u32
    ensures { returned result answer.new ≡ into answer.old (reply_or_none token_words (peeks token_at bytes.now (cursor_in offset at))) }
{
    let c = Lexer { at, offset };
    replies::store(answer, lexer_replies::of_peek(c, c.peek_token(bytes)))
}

// A string, after its id: the part that holds its text.
#[unsafe(no_mangle)]
pub extern "C" fn stivlaheim_read_string(
    bytes: &[u8],
    at: usize,
    offset: usize,
    answer: &mut [u64],
) -> u32
    ensures { returned result answer.new ≡ into answer.old (reply_of text_words (reads string_at bytes.now (cursor_in offset at))) }
{
    let c = Lexer { at, offset };
    replies::store(answer, lexer_replies::of_read(c, c.read_string(bytes)))
}

// A bool: one byte, true where it is not zero.
#[unsafe(no_mangle)]
pub extern "C" fn stivlaheim_read_bool(
    bytes: &[u8],
    at: usize,
    offset: usize,
    answer: &mut [u64],
) -> u32
    ensures { returned result answer.new ≡ into answer.old (reply_of bool_words (reads bool_at bytes.now (cursor_in offset at))) }
{
    let c = Lexer { at, offset };
    replies::store(answer, lexer_replies::of_read(c, c.read_bool(bytes)))
}

// A lookup of one byte.
#[unsafe(no_mangle)]
pub extern "C" fn stivlaheim_read_lookup_u8(
    bytes: &[u8],
    at: usize,
    offset: usize,
    answer: &mut [u64],
) -> u32
    ensures { returned result answer.new ≡ into answer.old (reply_of number_words (reads (read_at (num 1)) bytes.now (cursor_in offset at))) }
{
    let c = Lexer { at, offset };
    replies::store(answer, lexer_replies::of_read(c, c.read_lookup_u8(bytes)))
}

// A lookup of two bytes.
#[unsafe(no_mangle)]
pub extern "C" fn stivlaheim_read_lookup_u16(
    bytes: &[u8],
    at: usize,
    offset: usize,
    answer: &mut [u64],
) -> u32
    ensures { returned result answer.new ≡ into answer.old (reply_of number_words (reads (read_at (num 2)) bytes.now (cursor_in offset at))) }
{
    let c = Lexer { at, offset };
    replies::store(answer, lexer_replies::of_read(c, c.read_lookup_u16(bytes)))
}

// A lookup of three bytes.
#[unsafe(no_mangle)]
pub extern "C" fn stivlaheim_read_lookup_u24(
    bytes: &[u8],
    at: usize,
    offset: usize,
    answer: &mut [u64],
) -> u32
    ensures { returned result answer.new ≡ into answer.old (reply_of number_words (reads (read_at (num 3)) bytes.now (cursor_in offset at))) }
{
    let c = Lexer { at, offset };
    replies::store(answer, lexer_replies::of_read(c, c.read_lookup_u24(bytes)))
}

// A lookup of four bytes.
#[unsafe(no_mangle)]
pub extern "C" fn stivlaheim_read_lookup_u32(
    bytes: &[u8],
    at: usize,
    offset: usize,
    answer: &mut [u64],
) -> u32
    ensures { returned result answer.new ≡ into answer.old (reply_of number_words (reads (read_at (num 4)) bytes.now (cursor_in offset at))) }
{
    let c = Lexer { at, offset };
    replies::store(answer, lexer_replies::of_read(c, c.read_lookup_u32(bytes)))
}

// An unsigned number of four bytes.
#[unsafe(no_mangle)]
pub extern "C" fn stivlaheim_read_u32(
    bytes: &[u8],
    at: usize,
    offset: usize,
    answer: &mut [u64],
) -> u32
    ensures { returned result answer.new ≡ into answer.old (reply_of number_words (reads (read_at (num 4)) bytes.now (cursor_in offset at))) }
{
    let c = Lexer { at, offset };
    replies::store(answer, lexer_replies::of_read(c, c.read_u32(bytes)))
}

// An unsigned number of eight bytes.
#[unsafe(no_mangle)]
pub extern "C" fn stivlaheim_read_u64(
    bytes: &[u8],
    at: usize,
    offset: usize,
    answer: &mut [u64],
) -> u32
    ensures { returned result answer.new ≡ into answer.old (reply_of number_words (reads (read_at (num 8)) bytes.now (cursor_in offset at))) }
{
    let c = Lexer { at, offset };
    replies::store(answer, lexer_replies::of_read(c, c.read_u64(bytes)))
}

// A signed number of four bytes, as the bits of one of eight.
#[unsafe(no_mangle)]
pub extern "C" fn stivlaheim_read_i32(
    bytes: &[u8],
    at: usize,
    offset: usize,
    answer: &mut [u64],
) -> u32
    ensures { returned result answer.new ≡ into answer.old (reply_of signed_words (reads i32_at bytes.now (cursor_in offset at))) }
{
    let c = Lexer { at, offset };
    replies::store(answer, lexer_replies::of_read(c, c.read_i32(bytes)))
}

// A signed number of eight bytes, as its bits.
#[unsafe(no_mangle)]
pub extern "C" fn stivlaheim_read_i64(
    bytes: &[u8],
    at: usize,
    offset: usize,
    answer: &mut [u64],
) -> u32
    ensures { returned result answer.new ≡ into answer.old (reply_of signed_words (reads i64_at bytes.now (cursor_in offset at))) }
{
    let c = Lexer { at, offset };
    replies::store(answer, lexer_replies::of_read(c, c.read_i64(bytes)))
}

// The number that the four bytes of a float spell.
#[unsafe(no_mangle)]
pub extern "C" fn stivlaheim_read_f32(
    bytes: &[u8],
    at: usize,
    offset: usize,
    answer: &mut [u64],
) -> u32
    ensures { returned result answer.new ≡ into answer.old (reply_of number_words (reads (read_at (num 4)) bytes.now (cursor_in offset at))) }
{
    let c = Lexer { at, offset };
    replies::store(answer, lexer_replies::of_read(c, c.read_f32(bytes)))
}

// The number that the eight bytes of a float spell.
#[unsafe(no_mangle)]
pub extern "C" fn stivlaheim_read_f64(
    bytes: &[u8],
    at: usize,
    offset: usize,
    answer: &mut [u64],
) -> u32
    ensures { returned result answer.new ≡ into answer.old (reply_of number_words (reads (read_at (num 8)) bytes.now (cursor_in offset at))) }
{
    let c = Lexer { at, offset };
    replies::store(answer, lexer_replies::of_read(c, c.read_f64(bytes)))
}

// A colour, after its id.
#[unsafe(no_mangle)]
pub extern "C" fn stivlaheim_read_rgb(
    bytes: &[u8],
    at: usize,
    offset: usize,
    answer: &mut [u64],
) -> u32
    ensures { returned result answer.new ≡ into answer.old (reply_of colour_words (reads (read_at rgb) bytes.now (cursor_in offset at))) }
{
    let c = Lexer { at, offset };
    replies::store(answer, lexer_replies::of_read(c, c.read_rgb(bytes)))
}

// The part that is left.
#[unsafe(no_mangle)]
pub extern "C" fn stivlaheim_remainder(
    bytes: &[u8],
    at: usize,
    offset: usize,
    answer: &mut [u64],
) -> u32
    ensures { returned result answer.new ≡ into answer.old (reply_of text_words (remainder_of bytes.now (cursor_in offset at))) }
{
    let c = Lexer { at, offset };
    replies::store(answer, lexer_replies::of_read(c, c.remainder(bytes)))
}

// The part that is the next bytes, so many.
#[unsafe(no_mangle)]
pub extern "C" fn stivlaheim_read_bytes(
    bytes: &[u8],
    at: usize,
    offset: usize,
    count: usize,
    answer: &mut [u64],
) -> u32
    ensures { returned result answer.new ≡ into answer.old (reply_of text_words (reads (bytes_at count) bytes.now (cursor_in offset at))) }
{
    let c = Lexer { at, offset };
    replies::store(
        answer,
        lexer_replies::of_read(c, c.read_bytes(bytes, count)),
    )
}

// From inside a container to the place after its end.
#[unsafe(no_mangle)]
pub extern "C" fn stivlaheim_skip_container(
    bytes: &[u8],
    at: usize,
    offset: usize,
    answer: &mut [u64],
) -> u32
    ensures { returned result answer.new ≡ into answer.old (reply_of no_words (skips skip_container bytes.now (cursor_in offset at))) }
{
    let c = Lexer { at, offset };
    replies::store(answer, lexer_replies::of_skip(c.skip_container(bytes)))
}

// Past the value whose id was read just before the cursor.
#[unsafe(no_mangle)]
pub extern "C" fn stivlaheim_skip_value(
    bytes: &[u8],
    at: usize,
    offset: usize,
    id: u16,
    answer: &mut [u64],
) -> u32
    ensures { returned result answer.new ≡ into answer.old (reply_of no_words (skips (skip_value id) bytes.now (cursor_in offset at))) }
{
    let c = Lexer { at, offset };
    replies::store(
        answer,
        lexer_replies::of_skip(c.skip_value(bytes, LexemeId(id))),
    )
}

// The position of the first key that is a plain id, from the cursor on; none if it is no key.
#[unsafe(no_mangle)]
pub extern "C" fn stivlaheim_find_key(
    bytes: &[u8],
    at: usize,
    offset: usize,
    id: u16,
    answer: &mut [u64],
) -> u32
    ensures { returned result answer.new ≡ into answer.old (reply_or_none number_words (finds id bytes.now (cursor_in offset at))) }
{
    let c = Lexer { at, offset };
    replies::store(
        answer,
        lexer_replies::of_peek(c, c.find_key(bytes, LexemeId(id))),
    )
}
