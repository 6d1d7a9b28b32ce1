// Words in bytes.

ghost use Rattle.std.specs.Prelude.{◌≡◌, ◌++◌, drop, OnOk};
ghost use Rattle.lu_scan.specs.Scan.{word_at, pointer_words};

use c_types::Ty;
use lu_base::Memory;

/// The number in the first 4 bytes, the lowest first; 0 where there are fewer.
pub fn word_at(bytes: &[u8]) -> u32
    ensures { result ≡ word_at bytes.now }
{
    match bytes {
        [a, b, c, d, ..] => u32::from_le_bytes([*a, *b, *c, *d]),
        _ => 0,
    }
}

/// The bytes from a place on; none where there are fewer.
pub fn bytes_from(bytes: &[u8], start: u32) -> &[u8]
    ensures { result.now ≡ drop start bytes.now }
{
    let start = start as usize;
    if start <= bytes.len() {
        &bytes[start..]
    } else {
        &[]
    }
}

/// Puts the word of a pointer behind the others, unless it is null or has no new type.
pub fn put_pointer(words: &mut Vec<u32>, new: Option<Ty>, bytes: &[u8]) -> Result<(), Memory>
    ensures { OnOk result (words.new.items ≡ words.old.items ++ pointer_words new bytes.now) }
{
    if new.is_some() {
        let word = word_at(bytes);
        if word != 0 {
            words.push(word)?;
        }
    }
    Ok(())
}
