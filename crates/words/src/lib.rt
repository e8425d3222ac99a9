// Words: numbers in eight bytes, the lowest byte first, as they stand in the host's answer buffer. This is not the spelling of tables and scripts. (9.4)
#![tactic(auto)]

ghost use Rattle.std.specs.Prelude.{◌≡◌, length};
ghost use Rattle.words.specs.Words.{put_word, rest_with, word_at};

use kinds::{Refusal, RefusedAt};
use numbers::Number;

// The length of a word in bytes. (9.4)
pub const WORD: usize = 8;

// Writes a number into the first eight bytes of `rest` and keeps the bytes after them. Where `rest` has fewer than eight bytes, the answer is refusal 12, and
// `rest` is unchanged. (9.4, 10.7)
pub fn put(rest: &mut [u8], value: u64) -> Result<usize, Refusal>
    ensures { (result ≡ put_word (length rest.old)) × (rest.new ≡ rest_with result value rest.old) }
{
    if rest.len() < WORD {
        return Err(Refusal::NoRoom);
    }
    rest[..WORD].copy_from_slice(&value.to_le_bytes());
    Ok(WORD)
}

// Reads the number in the eight bytes at a place. Where fewer than eight stand there, the answer is refusal 1 at that place. (9.4, 10.7)
pub fn get(bytes: &[u8], at: usize) -> Result<Number, RefusedAt>
    ensures { result ≡ word_at bytes.now at }
{
    // Nothing stands past the end of the bytes.
    let rest = &bytes[at.min(bytes.len())..];
    let Some(word) = rest.first_chunk() else {
        return Err(Refusal::Misspelled.at(at));
    };
    Ok(Number {
        value: u64::from_le_bytes(*word),
        next: at + WORD,
    })
}
