// One record of a tape of document 01: its fields, and whether they are a header or a command record at a place. (Its
// 16 bytes, read and written: crate record_bytes.)
//
// No public function has a `requires`. specs/ says what each answer is.
#![tactic(auto)]

ghost use Rattle.std.specs.Prelude.{◌≡◌};
ghost use Rattle.record.specs.Form.{header_fields, is_seed, in_command, command_fields};
ghost use Rattle.record.specs.Form.{header_of};
ghost use Rattle.record.specs.Fault.{header_fault, command_fault, fault_of};

use rules::Refusal;

// The length of a record.
pub const RECORD_BYTES: usize = 16;

// The ranges of the fields, each in this one place (and in specs/Form).
const LAST_EDITION: u8 = 2;

const LAST_OP: u8 = 15;

const LAST_CODE: u8 = 13;

const LAST_TASK: u8 = 31;

const LAST_SEED: u64 = 4294967295;

// A header or a command with its answer. Any values fit; which of them are a record, and where, the writer and the
// reader judge.
#[derive(Clone, Copy, PartialEq, Eq)]
pub struct Record {
    pub op: u8,
    pub a: u8,
    pub b: u8,
    pub code: u8,
    pub running: u8,
    pub released: u8,
    pub value: u64,
}

// The header of a tape of that edition, made with `seed`. A bad edition or seed is the writer's to refuse.
pub fn header(edition: u8, seed: u64) -> Record
    ensures { result ≡ header_of edition seed }
{
    Record {
        op: 0,
        a: edition,
        b: 0,
        code: 0,
        running: 0,
        released: 0,
        value: seed,
    }
}

// The fields that make a header, its value aside.
pub fn header_fields(r: Record) -> bool
    ensures { result ≡ header_fields r }
{
    (r.op == 0)
        & ((1 <= r.a) & (r.a <= LAST_EDITION))
        & (r.b == 0)
        & (r.code == 0)
        & (r.running == 0)
        & (r.released == 0)
}

// The fields that make a command record; the others may hold anything.
pub fn in_command(op: u8, code: u8, running: u8, released: u8) -> bool
    ensures { result ≡ in_command op code running released }
{
    (1 <= op)
        & (op <= LAST_OP)
        & (code <= LAST_CODE)
        & (running <= LAST_TASK)
        & (released <= LAST_TASK)
}

fn command_fields(r: Record) -> bool
    ensures { result ≡ command_fields r }
{
    in_command(r.op, r.code, r.running, r.released)
}

// A seed: a header's value.
pub fn is_seed(v: u64) -> bool
    ensures { result ≡ is_seed v }
{
    (1 <= v) & (v <= LAST_SEED)
}

fn header_fault(r: Record) -> Result<(), Refusal>
    ensures { result ≡ header_fault r }
{
    if !header_fields(r) {
        return Err(Refusal::Record);
    }
    if !is_seed(r.value) {
        return Err(Refusal::Seed);
    }
    Ok(())
}

fn command_fault(r: Record) -> Result<(), Refusal>
    ensures { result ≡ command_fault r }
{
    if !command_fields(r) {
        return Err(Refusal::Record);
    }
    Ok(())
}

// What fields at a place are refused with; reader and writer judge by it. It branches, where each record would be judged
// both ways: that took 1.7 times as long to read as C.
#[tactic(auto, unfolding(crate::specs::Fault::fault_of))]
pub fn fault(at: usize, r: Record) -> Result<(), Refusal>
    ensures { result ≡ fault_of at r }
{
    if at == 0 {
        header_fault(r)
    } else {
        command_fault(r)
    }
}
