// The file that keeps a list: a version, the number of bytes that follow, and the numbers, the highest byte first.
ghost use Rattle.std.specs.Prelude.{◌≡◌, ◌+◌, ◌*◌, ◌/◌, ◌^◌, ◌≤◌, ◌<◌, ◌∷◌, length, take, drop, map};
ghost use Rattle.std.proofs.lemmas.List.Edits.{sets};
ghost use Rattle.form.specs.Writing.{over, outcome, Follows};
ghost use Rattle.form.specs.Contents.{big, big_number, file, filling_outcome, write_numbers, write_file, read_file};
ghost use Rattle.contents.specs.Answers.{entry_of, written_outcome, opened_outcome, Fills, FillsEntries};
ghost use Rattle.contents.specs.Files.{judged, entry_in, is_headed};
ghost use Rattle.contents.specs.Slots.{entry_put, Gets};
ghost use Rattle.contents.specs.declared.file.WriteError.TheVariants as Unwritten;
ghost use Rattle.contents.specs.declared.file.ReadError.TheVariants as Unread;

use crate::Entry;
use crate::searching::{BadIndex, search_in};
use crate::slots::{Slot, copy, whole};

// Why no file is written; the output is left as it is.
#[derive(Clone, Copy, Debug, PartialEq, Eq)]
pub enum WriteError {
    BadIndex,
    TooLong(usize),
    NoRoom(usize),
}

impl From<BadIndex> for WriteError {
    ghost from_gives = { λ _ r. r ≡ Unwritten.BadIndex };

    fn from(_e: BadIndex) -> WriteError {
        WriteError::BadIndex
    }
}

// Why no file is read; the list is left as it is.
#[derive(Clone, Copy, Debug, PartialEq, Eq)]
pub enum ReadError {
    BadIndex,
    ListFull(usize),
}

impl From<BadIndex> for ReadError {
    ghost from_gives = { λ _ r. r ≡ Unread.BadIndex };

    fn from(_e: BadIndex) -> ReadError {
        ReadError::BadIndex
    }
}

// So many entries that their bytes are no number of four bytes.
const MANY: usize = 536870912;

// The length of a file of n entries, with room for so many bytes.
fn judge(n: usize, room: usize) -> Result<usize, WriteError>
    ensures { result ≡ judged n room }
{
    if MANY <= n {
        return Err(WriteError::TooLong(n));
    }
    let need = 5 + 8 * n;
    if room < need {
        return Err(WriteError::NoRoom(need));
    }
    Ok(need)
}

// A number of four bytes at a place, the highest byte first.
fn put_number(out: &mut [u8], at: usize, x: u32)
    requires { at + 4 ≤ length out.old }
    ensures { out.new ≡ sets out.old at (big x) }
{
    out[at..at + 4].copy_from_slice(&x.to_be_bytes());
}

// The file's first five bytes, for n entries.
fn put_head(out: &mut [u8], n: usize)
    requires { (5 ≤ length out.old) × (n < 536870912) }
    ensures { out.new ≡ sets out.old 0 (1 ∷ big (8 * n)) }
{
    out[0] = 1;
    put_number(out, 1, (8 * n) as u32);
}

// Where the entry after i others stands.
fn place(i: usize) -> usize
    requires { 5 + 8 * i < 2 ^ 64 }
    ensures { result ≡ 5 + 8 * i }
{
    5 + 8 * i
}

// The entry after i others.
pub(crate) fn put_entry(out: &mut [u8], i: usize, e: Entry)
    requires { 5 + 8 * i + 8 ≤ length out.old }
    ensures { out.new ≡ entry_put i (entry_of e) out.old }
{
    put_number(out, place(i), e.start);
    put_number(out, place(i) + 4, e.end);
}

// The length of the file of a list, with room for so many bytes.
fn measure<T: Slot>(list: &[T], room: usize) -> Result<usize, WriteError>
    ensures { written_outcome result ≡ outcome (write_file room (T.entries list.now)) }
{
    search_in(list, 0)?;
    judge(T::count(list), room)
}

// The file of a list at the front of the output.
fn put_file<T: Slot>(list: &[T], out: &mut [u8])
    requires few { length (T.entries list.now) < 536870912 }
    requires room { 5 + 8 * length (T.entries list.now) ≤ length out.old }
    ensures { out.new ≡ over (file (T.entries list.now)) out.old }
{
    let n = T::count(list);
    put_head(out, n);
    copy(list, n, out);
}

// The file of a list at the front of the output, or a refusal that leaves the output as it is.
fn write_list<T: Slot>(list: &[T], out: &mut [u8]) -> Result<usize, WriteError>
    ensures { Follows (write_file (length out.old) (T.entries list.now)) (written_outcome result) out.old out.new }
{
    let need = measure(list, out.len())?;
    put_file(list, out);
    Ok(need)
}

// The file of a list of numbers at the front of the output, or a refusal that leaves the output as it is.
pub fn write(list: &[u32], out: &mut [u8]) -> Result<usize, WriteError>
    ensures { Follows (write_numbers (length out.old) list.now) (written_outcome result) out.old out.new }
{
    whole(list)?;
    write_list(list, out)
}

// The file of a list of entries at the front of the output, or a refusal that leaves the output as it is.
pub fn write_entries(list: &[Entry], out: &mut [u8]) -> Result<usize, WriteError>
    ensures { Follows (write_file (length out.old) (map entry_of list.now)) (written_outcome result) out.old out.new }
{
    write_list(list, out)
}

// The number of four bytes at a place, the highest byte first.
fn number_at(file: &[u8], at: usize) -> u32
    requires { at + 4 ≤ length file.now }
    ensures { result ≡ big_number (take 4 (drop at file.now)) }
{
    u32::from_be_bytes([file[at], file[at + 1], file[at + 2], file[at + 3]])
}

// The entry after i others.
pub(crate) fn entry_at(file: &[u8], i: usize) -> Entry
    requires { 5 + 8 * i + 8 ≤ length file.now }
    ensures { result ≡ entry_in file.now i }
{
    let at = place(i);
    Entry {
        start: number_at(file, at),
        end: number_at(file, at + 4),
    }
}

// Whether the first five bytes are those of a file of this length.
fn is_headed(file: &[u8]) -> bool
    ensures { result ≡ is_headed file.now }
{
    let len = file.len();
    if len < 5 {
        return false;
    }
    if file[0] != 1 {
        return false;
    }
    if number_at(file, 1) as usize != len - 5 {
        return false;
    }
    (len - 5) % 8 == 0
}

// How many entries a file has, into a list with room for so many.
fn admit(file: &[u8], room: usize) -> Result<usize, ReadError>
    ensures { opened_outcome result ≡ filling_outcome (read_file room file.now) }
{
    if !is_headed(file) {
        return Err(ReadError::BadIndex);
    }
    search_in(file, 0)?;
    let n = u8::count(file);
    if room < n {
        return Err(ReadError::ListFull(n));
    }
    Ok(n)
}

// The entries of a file at the front of the list, or a refusal that leaves the list as it is.
fn read_list<T: Slot>(file: &[u8], list: &mut [T]) -> Result<usize, ReadError>
    ensures { Gets T.put (read_file (length (T.entries list.old)) file.now) (opened_outcome result) list.old list.new }
{
    let n = admit(file, T::count(list))?;
    copy(file, n, list);
    Ok(n)
}

// The entries of a file at the front of a list of numbers, two for each, or a refusal that leaves the list as it is.
pub fn read(file: &[u8], list: &mut [u32]) -> Result<usize, ReadError>
    ensures { Fills (read_file (length list.old / 2) file.now) (opened_outcome result) list.old list.new }
{
    read_list(file, list)
}

// The entries of a file at the front of the list, or a refusal that leaves the list as it is.
pub fn read_entries(file: &[u8], list: &mut [Entry]) -> Result<usize, ReadError>
    ensures { FillsEntries (read_file (length list.old) file.now) (opened_outcome result) list.old list.new }
{
    read_list(file, list)
}
