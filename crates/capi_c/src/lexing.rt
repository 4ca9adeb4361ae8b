// The lexer's calls, from the cursor at a place of an input that begins at an offset.
ghost use Rattle.std.specs.Prelude.{◌≡◌};
ghost use Rattle.form.specs.Readers.{at as read_at};
ghost use Rattle.form.specs.Reading.{num, rgb};
ghost use Rattle.form.specs.Skipping.{skip_container, skip_value};
ghost use Rattle.form.specs.Calls.{cursor_in, positions, reads, nexts, peeks, skips};
ghost use Rattle.form.specs.Finding.{finds};
ghost use Rattle.token.specs.Tokens.{token_at};
ghost use Rattle.lexer.specs.Calls.{bool_at, i32_at, i64_at, string_at, bytes_at, remainder_of};
ghost use Rattle.capi.specs.Replies.{reply_of, reply_or_none, returned, into};
ghost use Rattle.capi.specs.Words.{no_words, number_words, bool_words, signed_words, text_words, colour_words, token_words};

// The position of the cursor in the file.
#[unsafe(no_mangle)]
pub extern "C" fn stivlaheim_position(
    bytes: &[u8],
    at: usize,
    offset: usize,
    answer: &mut [u64],
) -> u32
    ensures { returned result answer.new ≡ into answer.old (reply_of number_words (positions bytes.now (cursor_in offset at))) }
{
    capi::lexing::stivlaheim_position(bytes, at, offset, answer)
}

// An id: two bytes.
#[unsafe(no_mangle)]
pub extern "C" fn stivlaheim_read_id(
    bytes: &[u8],
    at: usize,
    offset: usize,
    answer: &mut [u64],
) -> u32
    ensures { returned result answer.new ≡ into answer.old (reply_of number_words (reads (read_at (num 2)) bytes.now (cursor_in offset at))) }
{
    capi::lexing::stivlaheim_read_id(bytes, at, offset, answer)
}

// The next id; none at the end.
#[unsafe(no_mangle)]
pub extern "C" fn stivlaheim_next_id(
    bytes: &[u8],
    at: usize,
    offset: usize,
    answer: &mut [u64],
) -> u32
    ensures { returned result answer.new ≡ into answer.old (reply_or_none number_words (nexts (read_at (num 2)) bytes.now (cursor_in offset at))) }
{
    capi::lexing::stivlaheim_next_id(bytes, at, offset, answer)
}

// The next id, with the cursor left where it is; none where it is refused.
#[unsafe(no_mangle)]
pub extern "C" fn stivlaheim_peek_id(
    bytes: &[u8],
    at: usize,
    offset: usize,
    answer: &mut [u64],
) -> u32
    ensures { returned result answer.new ≡ into answer.old (reply_or_none number_words (peeks (read_at (num 2)) bytes.now (cursor_in offset at))) }
{
    capi::lexing::stivlaheim_peek_id(bytes, at, offset, answer)
}

// A token: an id and its payload.
#[unsafe(no_mangle)]
pub extern "C" fn stivlaheim_read_token(
    bytes: &[u8],
    at: usize,
    offset: usize,
    answer: &mut [u64],
) -> u32
    ensures { returned result answer.new ≡ into answer.old (reply_of token_words (reads token_at bytes.now (cursor_in offset at))) }
{
    capi::lexing::stivlaheim_read_token(bytes, at, offset, answer)
}

// The next token; none at the end.
#[unsafe(no_mangle)]
pub extern "C" fn stivlaheim_next_token(
    bytes: &[u8],
    at: usize,
    offset: usize,
    answer: &mut [u64],
) -> u32
    ensures { returned result answer.new ≡ into answer.old (reply_or_none token_words (nexts token_at bytes.now (cursor_in offset at))) }
{
    capi::lexing::stivlaheim_next_token(bytes, at, offset, answer)
}

// The next token, with the cursor left where it is; none where it is refused.
#[unsafe(no_mangle)]
pub extern "C" fn stivlaheim_peek_token(
    bytes: &[u8],
    at: usize,
    offset: usize,
    answer: &mut [u64],
) -> u32
    ensures { returned result answer.new ≡ into answer.old (reply_or_none token_words (peeks token_at bytes.now (cursor_in offset at))) }
{
    capi::lexing::stivlaheim_peek_token(bytes, at, offset, answer)
}

// A string, after its id: the part that holds its text.
#[unsafe(no_mangle)]
pub extern "C" fn stivlaheim_read_string(
    bytes: &[u8],
    at: usize,
    offset: usize,
    answer: &mut [u64],
) -> u32
    ensures { returned result answer.new ≡ into answer.old (reply_of text_words (reads string_at bytes.now (cursor_in offset at))) }
{
    capi::lexing::stivlaheim_read_string(bytes, at, offset, answer)
}

// A bool: one byte, true where it is not zero.
#[unsafe(no_mangle)]
pub extern "C" fn stivlaheim_read_bool(
    bytes: &[u8],
    at: usize,
    offset: usize,
    answer: &mut [u64],
) -> u32
    ensures { returned result answer.new ≡ into answer.old (reply_of bool_words (reads bool_at bytes.now (cursor_in offset at))) }
{
    capi::lexing::stivlaheim_read_bool(bytes, at, offset, answer)
}

// A lookup of one byte.
#[unsafe(no_mangle)]
pub extern "C" fn stivlaheim_read_lookup_u8(
    bytes: &[u8],
    at: usize,
    offset: usize,
    answer: &mut [u64],
) -> u32
    ensures { returned result answer.new ≡ into answer.old (reply_of number_words (reads (read_at (num 1)) bytes.now (cursor_in offset at))) }
{
    capi::lexing::stivlaheim_read_lookup_u8(bytes, at, offset, answer)
}

// A lookup of two bytes.
#[unsafe(no_mangle)]
pub extern "C" fn stivlaheim_read_lookup_u16(
    bytes: &[u8],
    at: usize,
    offset: usize,
    answer: &mut [u64],
) -> u32
    ensures { returned result answer.new ≡ into answer.old (reply_of number_words (reads (read_at (num 2)) bytes.now (cursor_in offset at))) }
{
    capi::lexing::stivlaheim_read_lookup_u16(bytes, at, offset, answer)
}

// A lookup of three bytes.
#[unsafe(no_mangle)]
pub extern "C" fn stivlaheim_read_lookup_u24(
    bytes: &[u8],
    at: usize,
    offset: usize,
    answer: &mut [u64],
) -> u32
    ensures { returned result answer.new ≡ into answer.old (reply_of number_words (reads (read_at (num 3)) bytes.now (cursor_in offset at))) }
{
    capi::lexing::stivlaheim_read_lookup_u24(bytes, at, offset, answer)
}

// A lookup of four bytes.
#[unsafe(no_mangle)]
pub extern "C" fn stivlaheim_read_lookup_u32(
    bytes: &[u8],
    at: usize,
    offset: usize,
    answer: &mut [u64],
) -> u32
    ensures { returned result answer.new ≡ into answer.old (reply_of number_words (reads (read_at (num 4)) bytes.now (cursor_in offset at))) }
{
    capi::lexing::stivlaheim_read_lookup_u32(bytes, at, offset, answer)
}

// An unsigned number of four bytes.
#[unsafe(no_mangle)]
pub extern "C" fn stivlaheim_read_u32(
    bytes: &[u8],
    at: usize,
    offset: usize,
    answer: &mut [u64],
) -> u32
    ensures { returned result answer.new ≡ into answer.old (reply_of number_words (reads (read_at (num 4)) bytes.now (cursor_in offset at))) }
{
    capi::lexing::stivlaheim_read_u32(bytes, at, offset, answer)
}

// An unsigned number of eight bytes.
#[unsafe(no_mangle)]
pub extern "C" fn stivlaheim_read_u64(
    bytes: &[u8],
    at: usize,
    offset: usize,
    answer: &mut [u64],
) -> u32
    ensures { returned result answer.new ≡ into answer.old (reply_of number_words (reads (read_at (num 8)) bytes.now (cursor_in offset at))) }
{
    capi::lexing::stivlaheim_read_u64(bytes, at, offset, answer)
}

// A signed number of four bytes, as the bits of one of eight.
#[unsafe(no_mangle)]
pub extern "C" fn stivlaheim_read_i32(
    bytes: &[u8],
    at: usize,
    offset: usize,
    answer: &mut [u64],
) -> u32
    ensures { returned result answer.new ≡ into answer.old (reply_of signed_words (reads i32_at bytes.now (cursor_in offset at))) }
{
    capi::lexing::stivlaheim_read_i32(bytes, at, offset, answer)
}

// A signed number of eight bytes, as its bits.
#[unsafe(no_mangle)]
pub extern "C" fn stivlaheim_read_i64(
    bytes: &[u8],
    at: usize,
    offset: usize,
    answer: &mut [u64],
) -> u32
    ensures { returned result answer.new ≡ into answer.old (reply_of signed_words (reads i64_at bytes.now (cursor_in offset at))) }
{
    capi::lexing::stivlaheim_read_i64(bytes, at, offset, answer)
}

// The number that the four bytes of a float spell.
#[unsafe(no_mangle)]
pub extern "C" fn stivlaheim_read_f32(
    bytes: &[u8],
    at: usize,
    offset: usize,
    answer: &mut [u64],
) -> u32
    ensures { returned result answer.new ≡ into answer.old (reply_of number_words (reads (read_at (num 4)) bytes.now (cursor_in offset at))) }
{
    capi::lexing::stivlaheim_read_f32(bytes, at, offset, answer)
}

// The number that the eight bytes of a float spell.
#[unsafe(no_mangle)]
pub extern "C" fn stivlaheim_read_f64(
    bytes: &[u8],
    at: usize,
    offset: usize,
    answer: &mut [u64],
) -> u32
    ensures { returned result answer.new ≡ into answer.old (reply_of number_words (reads (read_at (num 8)) bytes.now (cursor_in offset at))) }
{
    capi::lexing::stivlaheim_read_f64(bytes, at, offset, answer)
}

// A colour, after its id.
#[unsafe(no_mangle)]
pub extern "C" fn stivlaheim_read_rgb(
    bytes: &[u8],
    at: usize,
    offset: usize,
    answer: &mut [u64],
) -> u32
    ensures { returned result answer.new ≡ into answer.old (reply_of colour_words (reads (read_at rgb) bytes.now (cursor_in offset at))) }
{
    capi::lexing::stivlaheim_read_rgb(bytes, at, offset, answer)
}

// The part that is left.
#[unsafe(no_mangle)]
pub extern "C" fn stivlaheim_remainder(
    bytes: &[u8],
    at: usize,
    offset: usize,
    answer: &mut [u64],
) -> u32
    ensures { returned result answer.new ≡ into answer.old (reply_of text_words (remainder_of bytes.now (cursor_in offset at))) }
{
    capi::lexing::stivlaheim_remainder(bytes, at, offset, answer)
}

// The part that is the next bytes, so many.
#[unsafe(no_mangle)]
pub extern "C" fn stivlaheim_read_bytes(
    bytes: &[u8],
    at: usize,
    offset: usize,
    count: usize,
    answer: &mut [u64],
) -> u32
    ensures { returned result answer.new ≡ into answer.old (reply_of text_words (reads (bytes_at count) bytes.now (cursor_in offset at))) }
{
    capi::lexing::stivlaheim_read_bytes(bytes, at, offset, count, answer)
}

// From inside a container to the place after its end.
#[unsafe(no_mangle)]
pub extern "C" fn stivlaheim_skip_container(
    bytes: &[u8],
    at: usize,
    offset: usize,
    answer: &mut [u64],
) -> u32
    ensures { returned result answer.new ≡ into answer.old (reply_of no_words (skips skip_container bytes.now (cursor_in offset at))) }
{
    capi::lexing::stivlaheim_skip_container(bytes, at, offset, answer)
}

// Past the value whose id was read just before the cursor.
#[unsafe(no_mangle)]
pub extern "C" fn stivlaheim_skip_value(
    bytes: &[u8],
    at: usize,
    offset: usize,
    id: u16,
    answer: &mut [u64],
) -> u32
    ensures { returned result answer.new ≡ into answer.old (reply_of no_words (skips (skip_value id) bytes.now (cursor_in offset at))) }
{
    capi::lexing::stivlaheim_skip_value(bytes, at, offset, id, answer)
}

// The position of the first key that is a plain id, from the cursor on; none if it is no key.
#[unsafe(no_mangle)]
pub extern "C" fn stivlaheim_find_key(
    bytes: &[u8],
    at: usize,
    offset: usize,
    id: u16,
    answer: &mut [u64],
) -> u32
    ensures { returned result answer.new ≡ into answer.old (reply_or_none number_words (finds id bytes.now (cursor_in offset at))) }
{
    capi::lexing::stivlaheim_find_key(bytes, at, offset, id, answer)
}
