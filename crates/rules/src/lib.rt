// Document 01's machine stands in specs/, as definitions. Here are only the refusals and the kinds of command:
// definitions and code go by the same types.
#![tactic(auto)]

ghost use Rattle.std.specs.Prelude.{◌≡◌};
ghost use Rattle.rules.specs.Numbers.{number_of, code_of};

// The refusals, by their names and in the order of their numbers.
#[derive(Clone, Copy, PartialEq, Eq)]
pub enum Refusal {
    Shape = 1,
    Early,
    Late,
    Range,
    Taken,
    Missing,
    Idle,
    Inside,
    Outside,
    Ceiling,
    Held,
    Queue,
    Clock,
    Line,
    Record,
    Room,
    Seed,
    Profile,
}

impl Refusal {
    pub fn number(self) -> u8
        ensures { result ≡ number_of self }
    {
        self as u8
    }
}

// What an answer says of a check: 0 where nothing is refused.
pub fn code(checked: Result<(), Refusal>) -> u8
    ensures { result ≡ code_of checked }
{
    match checked {
        Ok(()) => 0,
        Err(refusal) => refusal.number(),
    }
}

// The ways in which an object is held: for a procedure or function, and for an entry. (0 where none is held.)
pub const FOR_OPEN: u8 = 1;

pub const FOR_ENTRY: u8 = 2;

// Whose exception the end of a body sets: nobody's, that of the runner, which ends the body, or that of the task that
// is released.
#[derive(Clone, Copy)]
pub enum Whose {
    Nobody,
    Runner,
    Released,
}

// The end of a body: the way in which the object is held; whether the command gives a barrier, by which a task that
// waits is served; and whose exception it sets.
#[derive(Clone, Copy)]
pub struct End {
    pub way: u8,
    pub serves: bool,
    pub whose: Whose,
}

// What an op asks for, whatever its number is. NoKind is of what is no op. Opening begins a procedure or function,
// Entering an entry.
#[derive(Clone, Copy)]
pub enum Kind {
    NoKind,
    Creating,
    Declaring,
    Starting,
    Delaying,
    Waking,
    Advancing,
    Opening,
    Entering,
    Ending(End),
}
