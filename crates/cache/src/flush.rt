// The two flushes of a switch: the kernel's sets, and L1. Each counts what it empties, since that
// is what its ticks depend on. And a line that is emptied without cost.
ghost use Rattle.std.specs.Prelude.{◌≡◌, ◌+◌, ◌≤◌, length};
ghost use Rattle.lists.specs.Part.{part};
ghost use Rattle.cache.specs.Lines.{is_dirty, is_valid, kernel_entries, l1_length, table_length};
ghost use Rattle.cache.specs.Flush.{count_where, kernel_flushed, kernel_flush_ticks, l1_flushed};
ghost use Rattle.cache.specs.Flush.{l1_flush_ticks, line_emptied};

use crate::limits::{
    DIRTY_LINE_TICKS, DIRTY_MARK, FLUSH_TICKS, KERNEL_INDEX, L1_LENGTH, SET_COUNT, WAYS_PER_SET,
};

// The dirty lines among `left` numbers from an index on, as its contract has them. A loop of its
// own, as `count_valid` has one: the paper speaks of two counts, and each has its contract.
fn count_dirty(numbers: &[u16], at: usize, left: usize) -> u64
    requires { (length numbers.now ≡ l1_length) × (at + left ≤ l1_length) }
    ensures { result ≡ count_where is_dirty (part at left numbers.now) }
{
    let mut dirty = 0;
    for &number in &numbers[at..at + left] {
        dirty += u64::from(DIRTY_MARK < number);
    }
    dirty
}

// The valid lines among `left` numbers from an index on.
fn count_valid(numbers: &[u16], at: usize, left: usize) -> u64
    requires { (length numbers.now ≡ kernel_entries) × (at + left ≤ kernel_entries) }
    ensures { result ≡ count_where is_valid (part at left numbers.now) }
{
    let mut valid = 0;
    for &number in &numbers[at..at + left] {
        valid += u64::from(0 < number);
    }
    valid
}

// Empties the kernel's sets, the last of the table, and answers the ticks that it takes. They end
// where the table does: with a constant for their number the compiler would join the flush's own
// ticks with the count of the first, and count the others piece by piece, which takes longer.
pub fn flush_kernel(table: &mut [u16]) -> u64
    requires { length table.old ≡ table_length }
    ensures { (result ≡ kernel_flush_ticks table.old)
        × (table.new ≡ kernel_flushed table.old) }
{
    let from = KERNEL_INDEX;
    let to = table.len();
    let valid = count_valid(&table[from..to], 0, to - from);
    table[from..to].fill(0);
    FLUSH_TICKS + valid
}

// Empties L1, and answers the ticks that it takes. Its count is multiplied before ticks are added,
// so a constant does no harm here.
pub fn flush_l1(table: &mut [u16]) -> u64
    requires { length table.old ≡ table_length }
    ensures { (result ≡ l1_flush_ticks table.old)
        × (table.new ≡ l1_flushed table.old) }
{
    let dirty = count_dirty(&table[..L1_LENGTH], 0, L1_LENGTH);
    table[..L1_LENGTH].fill(0);
    FLUSH_TICKS + DIRTY_LINE_TICKS * dirty
}

// Empties a line that was just accessed: its L1 index and the front of its set.
pub fn empty_line(table: &mut [u16], line: u16)
    requires { length table.old ≡ table_length }
    ensures { table.new ≡ line_emptied line table.old }
{
    let index = line as usize % L1_LENGTH;
    let front = L1_LENGTH + WAYS_PER_SET * (line as usize % SET_COUNT);
    table[index] = 0;
    table[front] = 0;
}
