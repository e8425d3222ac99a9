// The quick search for many terms. From one length to the next the demand rises only at the terms' steps and where the timer takes a tick. So the rises at the
// lengths of a block are filled into an array from each term's steps, and then one pass adds them up and compares each sum with its length. A length costs the
// same however many terms there are. (docs/RULES.md, 5.4 to 5.9.)
ghost use Rattle.std.specs.Prelude.{◌≡◌, length, ◌+◌, ◌-◌, ◌%◌, ◌≤◌, ◌<◌};
ghost use Rattle.table.specs.Limits.{max_p};
ghost use Rattle.verdict.specs.QuickVerdict.{SmallestOrNone};
ghost use Rattle.verdict.specs.Blocks.{block_size, terms_demand, InBlock, RisesOf};
ghost use Rattle.verdict.specs.Searched.{held_by};

use crate::stretch::Stretch;
use crate::terms::{GROUP, Terms};

// The most lengths that one block has.
const BLOCK: usize = 4096;

// The lengths of one block: `size` lengths from `base` on.
#[derive(Clone, Copy)]
struct Block {
    base: u64,
    size: usize,
    ghost within: { InBlock base size },
}

// Adds w at each step of term i in a block. Its step number n is the least length whose v has n · b ≤ a · v. The step's remainder is a · v − n · b. The gap
// to the next step is b/a where the remainder is b mod a or more, and b/a + 1 where it is less.
fn add_steps(rises: &mut [u64; BLOCK], terms: &Terms, i: usize, block: Block)
    requires { (i < terms.now.count) × (RisesOf (terms_demand terms.now.entries i) block.base block.size rises.old) }
    ensures { RisesOf (terms_demand terms.now.entries (i + 1)) block.base block.size rises.new }
{
    let at = GROUP * i + GROUP;
    let w = terms.entries[at + 1];
    let up = terms.entries[at + 2];
    let down = terms.entries[at + 3];
    let b = terms.entries[at + 4];
    let a = terms.entries[at + 5];
    let end = (block.base + block.size as u64 + up).saturating_sub(down);
    if a * end == 0 {
        return;
    }
    let start = (block.base - 1 + up).saturating_sub(down);
    let number = a * start / b + 1;
    let first = (number * b + (a - 1)) / a;
    let gap = (b / a) as usize;
    let part = b % a;
    let mut remainder = a * first - number * b;
    let mut k = (first + down - (block.base + up)) as usize;
    // k goes from step to step by unequal gaps, so no `for` counts this loop.
    while k < block.size {
        rises[k] += w;
        if remainder < part {
            remainder += a - part;
            k += gap + 1;
        } else {
            remainder -= part;
            k += gap;
        }
    }
}

// Fills the rises of all terms at the lengths of a block into the array.
fn fill(rises: &mut [u64; BLOCK], terms: &Terms, block: Block)
    requires { length rises.old ≡ block_size }
    ensures { RisesOf (terms_demand terms.now.entries terms.now.count) block.base block.size rises.new }
{
    rises[..block.size].fill(0);
    for i in 0..terms.count {
        add_steps(rises, terms, i, block);
    }
}

// The ticks that the timer takes of one tick: 1 if so few ticks of its p came before it that it is taken, and otherwise 0. (5.3)
fn taken_at(rest: u64, s: u64) -> u64
    ensures { (rest < s → result ≡ 1) × (s ≤ rest → result ≡ 0) }
{
    if rest < s { 1 } else { 0 }
}

// The rest by p of the next tick, where the last rest is p − 1.
fn rest_after(rest: u64, last: u64) -> u64
    requires { (rest ≤ last) × (last < max_p) }
    ensures { result ≡ (rest + 1) % (last + 1) }
{
    if rest == last { 0 } else { rest + 1 }
}

// The smallest length of a block that fails, if one does. The rises and the ticks that the timer takes are added up from the demand before the block.
fn look(rises: &[u64; BLOCK], terms: &Terms, block: Block) -> Option<u64>
    requires { RisesOf (terms_demand terms.now.entries terms.now.count) block.base block.size rises.now }
    ensures { SmallestOrNone (held_by terms.now) block.base (block.base + block.size - 1) result }
{
    let s = terms.entries[0];
    let last = terms.entries[1] - 1;
    let mut sum = terms.demand(block.base - 1);
    let mut rest = (block.base - 1) % terms.entries[1];
    for k in 0..block.size {
        sum += rises[k] + taken_at(rest, s);
        let length = block.base + k as u64;
        if length < sum {
            return Some(length);
        }
        rest = rest_after(rest, last);
    }
    None
}

// The smallest length of a stretch that fails, if one does. One block after another is filled and looked at.
pub(crate) fn blocks(terms: &Terms, stretch: Stretch) -> Option<u64>
    ensures { SmallestOrNone (held_by terms.now) stretch.lo stretch.hi result }
{
    let mut rises: [u64; BLOCK] = [0; BLOCK];
    let mut base = stretch.lo;
    while base <= stretch.hi {
        let block = Block {
            base,
            size: ((stretch.hi - base) as usize + 1).min(BLOCK),
        };
        fill(&mut rises, terms, block);
        if let Some(found) = look(&rises, terms, block) {
            return Some(found);
        }
        base += block.size as u64;
    }
    None
}
