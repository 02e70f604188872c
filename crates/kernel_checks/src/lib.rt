// A command: its kind, what Range asks of its operands, and the first check that refuses it. What the checks look
// at is lent to be read, or goes by value, and every command gets an answer, whatever the tables hold.
#![tactic(auto)]

ghost use Rattle.std.specs.Prelude.{◌≡◌, cond};
ghost use Rattle.rules.specs.Kinds.{kind};
ghost use Rattle.rules.specs.Refusals.{fits, barrier, unused, formed_as};
ghost use Rattle.kernel_checks.specs.Shown.{to_rules};

pub use rules::{End, Kind, Whose};
use rules::{FOR_ENTRY, FOR_OPEN};

mod refusals;

pub use refusals::checked;

// The tasks, the objects and the priorities run to these.
pub const LAST_TASK: u8 = 31;

pub const LAST_OBJECT: u8 = 7;

pub const TOP_PRIORITY: u8 = 15;

// Any numbers: an op that is none is refused, and so is an operand out of its range.
#[derive(Clone, Copy)]
pub struct Command {
    pub op: u8,
    pub a: u8,
    pub b: u8,
    pub value: u64,
}

// The ends of a body by their words: in which way the object was held, whether a barrier serves who waits, and whose
// exception is set.
const CLOSEP: End = End {
    way: FOR_OPEN,
    serves: true,
    whose: Whose::Nobody,
};

const CLOSEF: End = End {
    way: FOR_OPEN,
    serves: false,
    whose: Whose::Nobody,
};

const DONE: End = End {
    way: FOR_ENTRY,
    serves: true,
    whose: Whose::Nobody,
};

const FAILP: End = End {
    way: FOR_OPEN,
    serves: true,
    whose: Whose::Runner,
};

const FAILF: End = End {
    way: FOR_OPEN,
    serves: false,
    whose: Whose::Runner,
};

const FAILE: End = End {
    way: FOR_ENTRY,
    serves: true,
    whose: Whose::Runner,
};

const FAILW: End = End {
    way: FOR_OPEN,
    serves: true,
    whose: Whose::Released,
};

impl Command {
    // The kind of its op.
    pub fn kind(self) -> Kind
        ensures { result ≡ kind (to_rules self) }
    {
        let op = self.op;
        match op {
            1 => Kind::Creating,
            2 => Kind::Declaring,
            3 => Kind::Starting,
            4 => Kind::Delaying,
            5 => Kind::Waking,
            6 => Kind::Advancing,
            7 => Kind::Opening,
            8 => Kind::Ending(CLOSEP),
            9 => Kind::Ending(CLOSEF),
            10 => Kind::Entering,
            11 => Kind::Ending(DONE),
            12 => Kind::Ending(FAILP),
            13 => Kind::Ending(FAILF),
            14 => Kind::Ending(FAILE),
            15 => Kind::Ending(FAILW),
            _ => Kind::NoKind,
        }
    }
}

// Range: each operand of a command of that kind is what it may be.
fn formed(k: Kind, c: Command) -> bool
    ensures { result ≡ formed_as k (to_rules c) }
{
    let a = c.a;
    let b = c.b;
    let task = (1 <= a) & (a <= LAST_TASK);
    let object = (1 <= a) & (a <= LAST_OBJECT);
    let priority = (1 <= b) & (b <= TOP_PRIORITY);
    let none = c.value == 0;
    match k {
        Kind::NoKind => false,
        Kind::Creating => task & priority & none,
        Kind::Declaring => object & priority & none,
        Kind::Starting => (a == 0) & (b == 0) & none,
        Kind::Delaying => (a == 0) & (b == 0),
        Kind::Waking => (a == 0) & (b == 0) & none,
        Kind::Advancing => (a == 0) & (b == 0),
        Kind::Opening => object & (b == 0) & none,
        Kind::Entering => object & (b <= 1) & none,
        Kind::Ending(e) => object & barred(e.serves, b) & none,
    }
}

// A barrier where the end of a body serves by one, else no operand.
fn barred(serves: bool, b: u8) -> bool
    ensures { result ≡ fits (cond serves barrier unused) b }
{
    if serves { b <= 1 } else { b == 0 }
}
