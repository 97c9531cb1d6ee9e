// The records by their slots.
ghost use Rattle.std.specs.Prelude.{◌≡◌, ltb, length, get_or, set, replicate};
ghost use Rattle.machine.specs.Machine.{most_records};
ghost use Rattle.machine.specs.bridge.Holding.{blank_record};

use machine::{Machine, Record};

// More records than may be lent.
pub fn is_too_long(records: usize) -> bool
    ensures { result ≡ ltb most_records records }
{
    Machine::RECORDS < records
}

// A record of zeros.
pub fn blank() -> Record
    ensures { result ≡ blank_record }
{
    Record::blank()
}

// A blank one past the last.
pub fn at(stack: &[Record], slot: usize) -> Record
    ensures { result ≡ get_or stack.now slot blank_record }
{
    stack.get(slot).copied().unwrap_or(blank())
}

// A slot past the last changes nothing.
pub fn put(stack: &mut [Record], slot: usize, entry: Record)
    ensures { stack.new ≡ set stack.old slot entry }
{
    if slot < stack.len() {
        stack[slot] = entry;
    }
}

// Every record becomes zeros.
pub fn wipe(stack: &mut [Record])
    ensures { stack.new ≡ replicate (length stack.old) blank_record }
{
    stack.fill(blank());
}
