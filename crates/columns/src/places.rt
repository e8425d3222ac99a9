// The places of pending jobs in arrays: where they stand, where a job that is put in goes, and how room is made for it. (docs/RULES.md, 6.7 and 6.10 to 6.13.)
ghost use Rattle.std.specs.Prelude.{◌≡◌, ◌+◌, ◌-◌, ◌≤◌, ◌<◌, min, take, drop, length};
ghost use Rattle.jobs.specs.Places.{max_places};
ghost use Rattle.columns.specs.Columns.{max_entries, due_before, behind, moved_down, opened_up};
ghost use Rattle.columns.specs.Ticks.{units_to_go};

use crate::ROOM;
use jobs::Pending;

// The entry at which the first of so many jobs stands. Where they would reach past the end, they are the last entries.
pub(crate) fn start_of(first: usize, count: usize) -> usize
    requires { count ≤ max_places }
    ensures { result ≡ min first (max_entries - count) }
{
    first.min(ROOM - count)
}

// The units that a job gets before it finishes: its units left, and at least one. (6.13)
pub(crate) fn units_to_go(left: u64) -> u64
    ensures { result ≡ units_to_go left }
{
    left.max(1)
}

// A job is chosen before another if its due time is earlier. Among equal due times the lower serial is chosen. (6.11)
fn goes_before(due: u64, serial: u64, other: u64, its: u64) -> bool
    ensures { result ≡ due_before due serial other its }
{
    (due, serial) < (other, its)
}

// The entry at which a job with this due time and serial goes in, among the jobs that stand from `first` on: the jobs behind it are all chosen after it. It is
// looked for from the last job on, since a new job is mostly due after the others. (6.11)
pub(crate) fn place_for(
    dues: &[u64; ROOM],
    serials: &[u64; ROOM],
    first: usize,
    count: usize,
    due: u64,
    serial: u64,
) -> usize
    requires { first + count ≤ max_entries }
    ensures { (result ≤ first + count)
        × (result ≡ first + (count - behind due serial (take count (drop first dues.now)) (take count (drop first serials.now)))) }
{
    for last in (first..first + count).rev() {
        if !goes_before(due, serial, dues[last], serials[last]) {
            return last + 1;
        }
    }
    first
}

// Moves so many entries from `first` on to the front. The others stay as they were.
pub(crate) fn move_down(values: &mut [u64; ROOM], first: usize, count: usize)
    requires { first + count ≤ max_entries }
    ensures { values.new ≡ moved_down first count values.old }
{
    values.copy_within(first..first + count, 0);
}

// Puts a value in at a place. The entries from there on move up by one place, up to `end`.
pub(crate) fn open_up(values: &mut [u64; ROOM], at: usize, end: usize, value: u64)
    requires { (at ≤ end) × (end < max_entries) }
    ensures { values.new ≡ opened_up at end value values.old }
{
    values.copy_within(at..end, at + 1);
    values[at] = value;
}
