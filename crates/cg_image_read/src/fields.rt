// The parts of items, each with the bytes behind it.

ghost use Rattle.std.specs.Prelude.{◌≡◌, ◌≤◌, ℕ, List, [], length, IfOk, Result};
ghost use Rattle.cg_image_read.specs.Answer.{Gives};
ghost use Rattle.cg_image_read.specs.Fields.{place, bytes_at, number_at, ranged_at, entry_at, text_at, items_at, limited_at};
ghost use Rattle.cg_image_read.specs.declared.error.ImageError.{ImageError};

use crate::error::ImageError;
use lu_base::Sequence;
use std::alloc::Global;

/// Where the rest of an image of `end` bytes begins.
pub(crate) fn place(end: usize, rest: &[u8]) -> usize
    ensures { result ≡ place end rest.now }
{
    end.saturating_sub(rest.len())
}

/// So many bytes.
pub(crate) fn split_bytes(count: usize, bytes: &[u8]) -> Result<(&[u8], &[u8]), ImageError>
    ensures read { Gives (λ x. (x.0.now, x.1.now)) result (bytes_at count bytes.now) }
    ensures long { IfOk result (λ x. length x.0.now ≡ count) }
{
    if bytes.len() < count {
        return Err(ImageError::Truncated);
    }
    Ok(bytes.split_at(count))
}

pub(crate) fn split_number(bytes: &[u8]) -> Result<(u32, &[u8]), ImageError>
    ensures { Gives (λ x. (x.0, x.1.now)) result (number_at bytes.now) }
{
    if bytes.len() < 4 {
        return Err(ImageError::Truncated);
    }
    let (front, rest) = bytes.split_at(4);
    Ok((
        u32::from_le_bytes([front[0], front[1], front[2], front[3]]),
        rest,
    ))
}

/// A number from `low` to `high`, of an item that begins at `at`.
#[tactic(auto, unfolding(crate::specs::Fields::ranged_at))]
pub(crate) fn split_ranged(
    low: usize,
    high: usize,
    at: usize,
    bytes: &[u8],
) -> Result<(u32, &[u8]), ImageError>
    ensures read { Gives (λ x. (x.0, x.1.now)) result (ranged_at low high at bytes.now) }
    ensures low { IfOk result (λ x. low ≤ x.0) }
    ensures high { IfOk result (λ x. x.0 ≤ high) }
{
    let (number, rest) = split_number(bytes)?;
    if low <= number as usize && number as usize <= high {
        return Ok((number, rest));
    }
    Err(ImageError::Table { at })
}

/// The number of one of `count` entries, in an item that begins at `at`.
#[tactic(auto, unfolding(crate::specs::Fields::entry_at))]
pub(crate) fn split_entry(count: usize, at: usize, bytes: &[u8]) -> Result<(u32, &[u8]), ImageError>
    ensures { Gives (λ x. (x.0, x.1.now)) result (entry_at count at bytes.now) }
{
    let (number, rest) = split_number(bytes)?;
    if (number as usize) < count {
        return Ok((number, rest));
    }
    Err(ImageError::Table { at })
}

/// A list of bytes.
#[tactic(auto, unfolding(crate::specs::Fields::text_at))]
pub(crate) fn split_text(bytes: &[u8]) -> Result<(&[u8], &[u8]), ImageError>
    ensures { Gives (λ x. (x.0.now, x.1.now)) result (text_at bytes.now) }
{
    let (count, rest) = split_number(bytes)?;
    split_bytes(count as usize, rest)
}

/// Reads the items of a list, each by itself.
pub(crate) trait ReadItem<T> {
    // The item at the front of bytes that begin there.
    ghost item_at: { Self → ℕ → List ℕ → Result (T × List ℕ) ImageError };

    fn read<'a>(
        &self,
        alloc: Global,
        at: usize,
        bytes: &'a [u8],
    ) -> Result<(T, &'a [u8]), ImageError>
        ensures { Gives (λ x. (x.0, x.1.now)) result (item_at self.now at bytes.now) };
}

/// So many items, in an image of `end` bytes.
pub(crate) fn read_items<'a, T: Drop, R: ReadItem<T>>(
    alloc: Global,
    reader: &R,
    end: usize,
    count: u32,
    bytes: &'a [u8],
) -> Result<(Sequence<T>, &'a [u8]), ImageError>
    ensures { Gives (λ x. (x.0, x.1.now)) result (items_at (λ _. R.item_at reader.now) end [] count bytes.now) }
{
    let mut items = Vec::new(alloc);
    let mut rest = bytes;
    for _ in 0..count {
        let (item, behind) = reader.read(alloc, place(end, rest), rest)?;
        items.push(item)?;
        rest = behind;
    }
    Ok((Sequence::from_vec(items), rest))
}

/// The items of a list of `count`, of which at most `limit` may be.
#[tactic(auto, unfolding(crate::specs::Fields::limited_at))]
pub(crate) fn read_limited<'a, T: Drop, R: ReadItem<T>>(
    alloc: Global,
    reader: &R,
    limit: u32,
    end: usize,
    count: u32,
    bytes: &'a [u8],
) -> Result<(Sequence<T>, &'a [u8]), ImageError>
    ensures { Gives (λ x. (x.0, x.1.now)) result (limited_at (λ _. R.item_at reader.now) limit end count bytes.now) }
{
    if count <= limit {
        return read_items(alloc, reader, end, count, bytes);
    }
    let (_, rest) = read_items(alloc, reader, end, limit, bytes)?;
    Err(ImageError::Table {
        at: place(end, rest),
    })
}
