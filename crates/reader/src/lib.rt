// The script reader keeps hold of a lent script and of its place in it, and yields one record at a time. (docs/RULES.md, 7.7.)
#![tactic(auto)]

ghost use Rattle.std.specs.Prelude.{◌≡◌};
ghost use Rattle.reader.specs.Reader.{yielded, found_by, moved};

use kinds::RefusedAt;
use script::RecordAt;

// A script reader holds the lent script and its place in it. (7.7)
#[derive(Clone, Copy)]
pub struct ScriptReader<'a> {
    pub script: &'a [u8],
    pub at: usize,
}

// One step of a script reader: what it found, and its place afterwards. (7.7)
#[derive(Clone, Copy)]
pub struct Yielded {
    pub found: Result<Option<RecordAt>, RefusedAt>,
    pub at: usize,
}

impl<'a> ScriptReader<'a> {
    // A script reader at the start of a script. It holds the very reference that was lent, and not only the same bytes. (7.7)
    pub fn new(script: &'a [u8]) -> ScriptReader<'a>
        ensures { (result.script ≡ script.entry) × (result.at ≡ 0) }
    {
        ScriptReader { script, at: 0 }
    }

    // Yields what `record_at` finds at the reader's place. After a record the place is the one right after it; on a refusal and at the end it is kept. The
    // reader keeps the same reference to the script. (7.7)
    // A script reader is no `Iterator`, because it answers the same refusal for ever, and so a loop over it would not end.
    pub fn next(&mut self) -> Result<Option<RecordAt>, RefusedAt>
        ensures { (result ≡ found_by self.old) × (self.new ≡ moved self.old) }
    {
        let found = script::record_at(self.script, self.at);
        match found {
            Ok(Some(r)) => self.at = r.next,
            Ok(None) | Err(_) => {}
        }
        found
    }
}

// One step of a script reader that holds this script at this place. Its parameters are plain, so that code can use it which has no reader. (7.7)
pub fn read_through(script: &[u8], at: usize) -> Yielded
    ensures { result ≡ yielded script.now at }
{
    let mut reader = ScriptReader { script, at };
    let found = reader.next();
    Yielded {
        found,
        at: reader.at,
    }
}
