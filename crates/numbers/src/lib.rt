// Numbers as bytes. A number is spelled in groups of seven bits, one group a byte, the lowest group first. The top bit of a byte is set when another byte
// of the same number follows. A number has at most six groups, and the last group of a longer number is not zero. So each number from 0 to 2^42 − 1 has one
// spelling. (2.1 to 2.5)
#![tactic(auto)]

ghost use Rattle.std.specs.Prelude.{◌≡◌, ◌≤◌, leb, length};
ghost use Rattle.numbers.specs.Spelling.{max_groups, max_number, spelling};
ghost use Rattle.numbers.specs.Reading.{read_at};
ghost use Rattle.numbers.specs.Writing.{length_of, written, buffer_after};

use kinds::{Refusal, RefusedAt};

// A number that was read: its value, and the place right after its last byte. (2.6)
#[derive(Clone, Copy)]
pub struct Number {
    pub value: u64,
    pub next: usize,
}

impl Number {
    // The largest number that can be spelled, 2^42 − 1. (2.4)
    pub const MAX: u64 = 0x3FF_FFFF_FFFF;
    // The most groups that a number may have. (2.2)
    pub const MAX_GROUPS: usize = 6;

    // Returns the code's largest number, so that the contract can say that it equals the rules' largest number. (2.4)
    pub fn max() -> u64
        ensures { result ≡ max_number }
    {
        Number::MAX
    }

    // Returns the code's largest count of groups, so that the contract can say that it equals the rules' count. (2.2)
    pub fn max_groups() -> usize
        ensures { result ≡ max_groups }
    {
        Number::MAX_GROUPS
    }
}

// The number at a place and the place after it, or refusal 1 at the bad byte: the superfluous zero group, the sixth group that asks for more, or the end of the
// bytes where the number is cut off. (2.7, 2.8)
pub fn read(bytes: &[u8], at: usize) -> Result<Number, RefusedAt>
    ensures { result ≡ read_at bytes.now at }
{
    if at >= bytes.len() {
        return Err(Refusal::Misspelled.at(bytes.len()));
    }
    let first = bytes[at] as u64;
    if first < 128 {
        return Ok(Number {
            value: first,
            next: at + 1,
        });
    }
    let mut value = first - 128;
    let mut weight: u64 = 128;
    for groups in 1..Number::MAX_GROUPS {
        let i = at + groups;
        if i >= bytes.len() {
            return Err(Refusal::Misspelled.at(bytes.len()));
        }
        let group = bytes[i] as u64;
        if group == 0 {
            return Err(Refusal::Misspelled.at(i));
        }
        if group < 128 {
            return Ok(Number {
                value: value + weight * group,
                next: i + 1,
            });
        }
        value += weight * (group - 128);
        weight *= 128;
    }
    Err(Refusal::Misspelled.at(at + Number::MAX_GROUPS - 1))
}

// The length in bytes of the spelling of a number of at most 2^42 − 1.
fn spelled_length(value: u64) -> usize
    requires { value ≤ max_number }
    ensures { result ≡ length (spelling value) }
{
    // The loop ends by the number that is left, and `n` counts its divisions: there is no range to go through.
    let mut rest = value;
    let mut n: usize = 1;
    while 128 <= rest {
        rest /= 128;
        n += 1;
    }
    n
}

// Answers the length in bytes of a number's spelling, or refusal 25 where the number is above 2^42 − 1. (10.7)
pub fn length_of(value: u64) -> Result<usize, Refusal>
    ensures { result ≡ length_of value }
{
    if value > Number::MAX {
        return Err(Refusal::NumberTooBig);
    }
    Ok(spelled_length(value))
}

// Whether the spelling of a number of at most 2^42 − 1 has room in so many bytes. It has at most six, so it is measured only where there are fewer. (2.2)
fn has_room(value: u64, room: usize) -> bool
    requires { value ≤ max_number }
    ensures { result ≡ leb (length (spelling value)) room }
{
    if Number::MAX_GROUPS <= room {
        return true;
    }
    spelled_length(value) <= room
}

// Writes a number's spelling at the buffer's start, keeps the rest of the buffer as it was, and answers the spelling's length. A number above 2^42 − 1 is
// refusal 25, and after that a spelling longer than the buffer is refusal 12. With either refusal the whole buffer is unchanged. (2.12 to 2.14)
pub fn write(buffer: &mut [u8], value: u64) -> Result<usize, Refusal>
    ensures { (result ≡ written value (length buffer.old))
        × (buffer.new ≡ buffer_after result value buffer.old) }
{
    if value > Number::MAX {
        return Err(Refusal::NumberTooBig);
    }
    if !has_room(value, buffer.len()) {
        return Err(Refusal::NoRoom);
    }
    // This loop too ends by the number that is left. A `for` over the buffer would need an answer for a buffer that ends first, and none does.
    let mut rest = value;
    let mut i: usize = 0;
    while 128 <= rest {
        buffer[i] = (rest % 128 + 128) as u8;
        rest /= 128;
        i += 1;
    }
    buffer[i] = rest as u8;
    Ok(i + 1)
}
