// The demand of a table in one array of numbers, so that it can be lent and is never copied, and so that no length costs a division. The array has groups of
// six numbers. The first group holds the timer's s, its p and the reciprocal of p. Each later group holds one term, which is a server or a row: its reciprocal,
// w, up, down, b and a. (docs/RULES.md, 5.3.)
ghost use Rattle.std.specs.Prelude.{◌≡◌, length, ℕ, ◌+◌, ◌-◌, ◌≤◌, ◌<◌};
ghost use Rattle.theory.specs.Ticks.{timer_takes};
ghost use Rattle.theory.specs.Terms.{reciprocal};
ghost use Rattle.table.specs.Limits.{max_sources};
ghost use Rattle.table.specs.Timer.{GoodTimer};
ghost use Rattle.table.specs.Tables.{InRange};
ghost use Rattle.verdict.specs.Demand.{table_demand, largest_d};
ghost use Rattle.verdict.specs.HeldTerms.{parts, max_searched, held_entries, held_s, held_p, held_term, held_demand, GoodTerm, Held, with_term};
ghost use Rattle.verdict.specs.HeldParts.{PeriodOf, Repeats};

use table::Table;

// The numbers of one group.
pub(crate) const GROUP: usize = 6;

// The entries of the array: one group for the timer, and one for each term that a table may have.
pub(crate) const ROOM: usize = GROUP * (Table::MAX_ROWS + Table::MAX_SERVERS + 1);

// Reciprocals are in parts of this. A number that is multiplied by the reciprocal of a b is so small that b times that number is below it.
const PARTS: u64 = 8589934592;

// A timer and the terms of a demand: the array, and how many terms stand in it.
// The groups stand in one array of numbers, which each definition of the demand reads.
#[derive(Drop)]
pub(crate) struct Terms {
    pub(crate) entries: [u64; ROOM],
    pub(crate) count: usize,
    ghost held: { Held entries count },
}

impl Terms {
    // A timer whose p has the reciprocal m, and no terms yet.
    fn of_timer(s: u64, p: u64, m: u64) -> Self
        requires { (GoodTimer s p) × (m ≡ reciprocal parts 1 p) }
        ensures { (length result.entries ≡ held_entries) × (result.count ≡ 0) × (held_p result.entries ≡ p)
            × ((L : ℕ) → held_demand result.entries 0 L ≡ timer_takes s p L) }
    {
        let mut entries: [u64; ROOM] = [0; ROOM];
        entries[0] = s;
        entries[1] = p;
        entries[2] = m;
        Terms { entries, count: 0 }
    }

    // The same in the place of what stands here: a part is made anew for each way that is tried, and no array is cleared or copied for it.
    pub(crate) fn restart(&mut self, s: u64, p: u64, m: u64)
        requires { (GoodTimer s p) × (m ≡ reciprocal parts 1 p) }
        ensures { (length self.new.entries ≡ held_entries) × (self.new.count ≡ 0) × (held_p self.new.entries ≡ p)
            × ((L : ℕ) → held_demand self.new.entries 0 L ≡ timer_takes s p L) }
    {
        self.entries[0] = s;
        self.entries[1] = p;
        self.entries[2] = m;
        self.count = 0;
    }

    // One term more. The one division by b is here.
    pub(crate) fn put(&mut self, b: u64, a: u64, w: u64, up: u64, down: u64)
        requires { (self.old.count < max_sources) × (GoodTerm (reciprocal parts a b) w up b a) }
        ensures { (self.new.entries ≡ with_term self.old.count b a w up down self.old.entries) × (self.new.count ≡ self.old.count + 1) }
    {
        let at = GROUP * self.count + GROUP;
        self.entries[at] = a * PARTS / b + 1;
        self.entries[at + 1] = w;
        self.entries[at + 2] = up;
        self.entries[at + 3] = down;
        self.entries[at + 4] = b;
        self.entries[at + 5] = a;
        self.count += 1;
    }

    // The terms of a table: after its timer come its servers, and then its rows. (5.3)
    pub(crate) fn of_table(table: Table) -> Self
        requires { InRange table }
        ensures { ((L : ℕ) → held_demand result.entries result.count L ≡ table_demand table L)
            × ((period : ℕ) → PeriodOf table period → Repeats result.entries result.count (largest_d table) period) }
    {
        let mut terms = Terms::of_timer(table.s, table.p, PARTS / table.p + 1);
        for k in 0..table.serving {
            let server = table.servers[k];
            terms.put(server.b, server.a, 1, 0, 0);
        }
        for i in 0..table.count {
            let row = table.rows[i];
            terms.put(
                row.y,
                1,
                row.x * row.c,
                row.y.saturating_sub(row.d),
                row.d.saturating_sub(row.y),
            );
        }
        terms
    }

    // The demand of one term: floor(a · v / b) · w, where v is the length + up − down, or 0 if that is below 0. The reciprocal does the division.
    // That the length may be searched is a clause: a length is a sum of other numbers, and a type of its own would be made anew at each look.
    fn term_demand(&self, i: usize, length: u64) -> u64
        requires { (i < self.now.count) × (length ≤ max_searched) }
        ensures { result ≡ held_term self.now.entries i length }
    {
        let at = GROUP * i + GROUP;
        let v = (length + self.entries[at + 2]).saturating_sub(self.entries[at + 3]);
        v * self.entries[at] / PARTS * self.entries[at + 1]
    }

    // The timer takes s ticks of each whole p, and of the rest as many as there are, but at most s. (5.3)
    // The scan's `timer_takes` divides, and this has the reciprocal, since a quick verdict would be too slow with a division at each look.
    fn taken(&self, length: u64) -> u64
        requires { length ≤ max_searched }
        ensures { result ≡ timer_takes (held_s self.now.entries) (held_p self.now.entries) length }
    {
        let s = self.entries[0];
        let whole = length * self.entries[2] / PARTS;
        let rest = length - whole * self.entries[1];
        whole * s + rest.min(s)
    }

    // The demand in a length. (5.3)
    pub(crate) fn demand(&self, length: u64) -> u64
        requires { length ≤ max_searched }
        ensures { result ≡ held_demand self.now.entries self.now.count length }
    {
        let mut sum = self.taken(length);
        for i in 0..self.count {
            sum += self.term_demand(i, length);
        }
        sum
    }
}
