// Tables of 32 tasks and 8 objects, and lines of tasks in them: look up, store, count. (Placing in a line: crate
// kernel_place. Its front taken off: crate kernel_front. The ready line: crate kernel_ready. The tests of a whole line:
// crate kernel_order.)
// Each function is total: a lookup past the end is 0, a store past the end does nothing. No table of 32 goes into a
// call inside a loop over 32. A table or line that changes is lent and changed where it lies. A lent array that is
// looked at as a slice has its length, so no caller has to promise it.
#![tactic(auto)]

ghost use Rattle.std.specs.Prelude.{◌≡◌, eqb, get_or, set};
ghost use Rattle.rules.specs.Line.{at, count};
ghost use Rattle.kernel_line.specs.Tables.{lead, level, more, time_in, with_time};

// A task's number, 0 for idle.
#[derive(Clone, Copy, PartialEq, Eq)]
pub struct TaskID(pub u8);

// A protected object's number, 0 for the null object.
#[derive(Clone, Copy, PartialEq, Eq)]
pub struct POId(pub u8);

// ---- look up and store

// The cell of a table at a number, and `none` past its end: of any table, whatever its cells are and however many.
pub fn cell<T: Copy, const N: usize>(table: &[T; N], i: u8, none: T) -> T
    ensures { result ≡ get_or table.now i none }
{
    table.get(usize::from(i)).copied().unwrap_or(none)
}

// A table with another in that cell: as it was, past its end.
pub fn set_cell<T: Copy, const N: usize>(table: &mut [T; N], i: u8, v: T)
    ensures { table.new ≡ set table.old i v }
{
    let i = usize::from(i);
    if i < N {
        table[i] = v;
    }
}

pub fn of_task(table: &[u8; 32], t: TaskID) -> u8
    ensures { result ≡ at table.now t.0 }
{
    cell(table, t.0, 0)
}

// A task's time, 0 for what is no task.
pub fn time_of(until: &[u64; 32], t: TaskID) -> u64
    ensures { result ≡ time_in until.now t.0 }
{
    cell(until, t.0, 0)
}

pub fn of_object(table: [u8; 8], o: POId) -> u8
    ensures { result ≡ at table o.0 }
{
    cell(&table, o.0, 0)
}

// A task's active priority: the ceiling of the object that it holds, else its base.
pub fn level(base: &[u8; 32], ceiling: [u8; 8], held: &[u8; 32], t: TaskID) -> u8
    ensures { result ≡ level base.now ceiling held.now t.0 }
{
    let o = of_task(held, t);
    if o == 0 {
        of_task(base, t)
    } else {
        of_object(ceiling, POId(o))
    }
}

pub fn set_task(table: &mut [u8; 32], t: TaskID, v: u8)
    ensures { table.new ≡ set table.old t.0 v }
{
    set_cell(table, t.0, v);
}

pub fn set_time(until: &mut [u64; 32], t: TaskID, v: u64)
    ensures { until.new ≡ with_time until.old t.0 v }
{
    set_cell(until, t.0, v);
}

pub fn set_object(table: &mut [u8; 8], o: POId, v: u8)
    ensures { table.new ≡ set table.old o.0 v }
{
    set_cell(table, o.0, v);
}

// How many stand before t.
pub fn lead_task(line: [u8; 32], t: TaskID) -> u8
    ensures { result ≡ lead (eqb t.0) line }
{
    for (n, x) in line.iter().enumerate() {
        if t.0 == *x {
            return n as u8;
        }
    }
    32
}

// ---- count

// How many tasks hold the object.
pub fn holders(held: &[u8; 32], o: POId) -> u8
    ensures { result ≡ count o.0 held.now }
{
    let mut n = 0u8;
    for x in held {
        if o.0 == *x {
            n += 1;
        }
    }
    n
}

// One more, up to what a byte holds.
pub fn one_more(n: u8) -> u8
    ensures { result ≡ more n }
{
    n.saturating_add(1)
}
