// What a record keeps of an answer: code, running and released. Of all that an answer may say a tape carries these
// three alone, and a judge compares them alone. And the three in one number, as C hosts get them.
#![tactic(auto)]

ghost use Rattle.std.specs.Prelude.{◌≡◌};
ghost use Rattle.record_kept.specs.Kept.{kept_of, kept_on, alike, packed};

use kernel::{Answer, TaskID};
use record::Record;

#[derive(Clone, Copy)]
pub struct Kept {
    pub code: u8,
    pub running: TaskID,
    pub released: TaskID,
}

// What is kept of a step's answer.
impl From<Answer> for Kept {
    ghost from_gives = { λ a k. k ≡ kept_of a };

    fn from(a: Answer) -> Kept {
        Kept {
            code: a.code,
            running: a.running,
            released: a.released,
        }
    }
}

// What a record has of it.
impl From<Record> for Kept {
    ghost from_gives = { λ r k. k ≡ kept_on r };

    fn from(r: Record) -> Kept {
        Kept {
            code: r.code,
            running: TaskID(r.running),
            released: TaskID(r.released),
        }
    }
}

impl Kept {
    // Whether two are the same.
    pub fn same(self, other: Kept) -> bool
        ensures { result ≡ alike self other }
    {
        (self.code == other.code)
            & (self.running.0 == other.running.0)
            & (self.released.0 == other.released.0)
    }

    // In one number: code + 256 * running + 65536 * released.
    pub fn pack(self) -> u32
        ensures { result ≡ packed self }
    {
        u32::from(self.code) + 256 * u32::from(self.running.0) + 65536 * u32::from(self.released.0)
    }
}
