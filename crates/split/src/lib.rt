// Splitting bytes after a count.
#![tactic(auto)]

ghost use Rattle.std.specs.Prelude.{◌≡◌, length, drop};
ghost use Rattle.split.specs.Splits.{splits, split_at, head_of, rest_of};

// Whether there are so many bytes to split after.
pub fn get_split(bytes: &[u8], count: usize) -> Option<usize>
    ensures { result ≡ split_at bytes.now count }
{
    if count <= bytes.len() {
        Some(count)
    } else {
        None
    }
}

// Whether so many bytes stand from a place on.
pub fn has(bytes: &[u8], at: usize, count: usize) -> bool
    ensures { result ≡ splits (drop at bytes.now) count }
{
    let len = bytes.len();
    if len < at {
        return count == 0;
    }
    count <= len - at
}

// How many bytes stand from a place on.
pub fn left(bytes: &[u8], at: usize) -> usize
    ensures { result ≡ length (drop at bytes.now) }
{
    let len = bytes.len();
    if len < at { 0 } else { len - at }
}

// The bytes before the split; none where there is nothing to split.
pub fn split_head(bytes: &[u8], count: usize) -> &[u8]
    ensures { result.now ≡ head_of bytes.now count }
{
    if count <= bytes.len() {
        &bytes[..count]
    } else {
        &bytes[..0]
    }
}

// The bytes after the split; none where there is nothing to split.
pub fn split_rest(bytes: &[u8], count: usize) -> &[u8]
    ensures { result.now ≡ rest_of bytes.now count }
{
    if count <= bytes.len() {
        &bytes[count..]
    } else {
        &bytes[..0]
    }
}
