// The record writer: it writes one record of a log into the unused rest of the log buffer. (docs/RULES.md, 8.8 to 8.10.)
#![tactic(auto)]

ghost use Rattle.std.specs.Prelude.{◌≡◌, length};
ghost use Rattle.logs.specs.Log.{values_of, all_in_range, written_record, rest_after};

use kinds::{Finish, Refusal};
use numbers::Number;

// The five numbers of a record, left to right. (8.8)
fn values_of(job: Finish) -> [u64; 5]
    ensures { result ≡ values_of job }
{
    [
        job.serial.0,
        job.row.0,
        job.release.0,
        job.due.0,
        job.finish.0,
    ]
}

// Whether each of five numbers is at most 2^42 - 1, so that it has a spelling. (2.4)
fn all_in_range(values: [u64; 5]) -> bool
    ensures { result ≡ all_in_range values }
{
    values.iter().all(|&v| v <= Number::MAX)
}

// Does what `write_record` does. It measures the whole record before it writes the first number, so that it serves a rest that may be too short for it.
fn write_measured(rest: &mut [u8], job: Finish) -> Result<usize, Refusal>
    ensures { (result ≡ written_record job (length rest.old))
        × (rest.new ≡ rest_after result job rest.old) }
{
    let values = values_of(job);
    let mut room: usize = 0;
    for value in values {
        room += numbers::length_of(value)?;
    }
    if rest.len() < room {
        return Err(Refusal::NoRoom);
    }
    let mut at: usize = 0;
    for v in values {
        // No number is refused here, because each has a spelling and there is room for it.
        at += numbers::write(&mut rest[at..], v)?;
    }
    Ok(at)
}

// Writes one record at the start of the rest of a log, keeps what comes after it, and answers its length. A number above 2^42 - 1 is refused with 25, and then
// a record longer than the rest with 12. A refusal leaves the rest unchanged. A record has at most thirty bytes. Where the rest has as many, the record is not
// measured, and each number is written at once, into six bytes. (2.2, 8.9, 8.10)
pub fn write_record(rest: &mut [u8], job: Finish) -> Result<usize, Refusal>
    ensures { (result ≡ written_record job (length rest.old))
        × (rest.new ≡ rest_after result job rest.old) }
{
    if rest.len() < 5 * Number::MAX_GROUPS {
        return write_measured(rest, job);
    }
    let values = values_of(job);
    if !all_in_range(values) {
        return Err(Refusal::NumberTooBig);
    }
    let mut at: usize = 0;
    for v in values {
        let end = at + Number::MAX_GROUPS;
        // No number is refused here, because each has a spelling, and a spelling has at most six bytes.
        at += numbers::write(&mut rest[at..end], v)?;
    }
    Ok(at)
}
