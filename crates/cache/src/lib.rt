// The cache table: L1, then the sets of L2. An access of a line; the two flushes of a switch, and a
// line that is emptied, stand in `flush`.
#![tactic(auto)]

pub mod flush;
pub mod limits;
mod sets;

ghost use Rattle.std.specs.Prelude.{◌≡◌, ℕ, ◌≤◌, ◌<◌, length};
ghost use Rattle.lists.specs.Part.{part};
ghost use Rattle.cache.specs.Access.{access_of, line_used, write_back_of, written_back};
ghost use Rattle.cache.specs.Lines.{clean_entry, dirty_mark, most_line, set_index, set_of};
ghost use Rattle.cache.specs.Lines.{table_length, ways_per_set};
ghost use Rattle.cache.specs.Sets.{has};

use crate::limits::{
    DIRTY_MARK, DIRTY_TICKS, HIT1_TICKS, HIT2_TICKS, L1_LENGTH, MISS_TICKS, SET_COUNT, WAYS_PER_SET,
};

// How an access found its line.
#[derive(Drop)]
pub enum AccessKind {
    Hit1,
    Hit2,
    Miss,
}

// What an access answers: how it found its line, what it took, and the dirty line that it put out
// of L1 and wrote back into its L2 set, if any.
#[derive(Drop)]
pub struct AccessResult {
    pub found: AccessKind,
    pub ticks: u64,
    pub back: Option<u16>,
}

// Makes a line the most recent of its set, whose ways are lent on to be rewritten. Answers whether
// the set had it.
fn use_line(table: &mut [u16], line: u16) -> bool
    requires { (length table.old ≡ table_length) × (line < dirty_mark) }
    ensures { (result ≡ has (clean_entry line) (part (set_index (set_of line)) ways_per_set table.old))
        × (table.new ≡ line_used line table.old) }
{
    let from = L1_LENGTH + WAYS_PER_SET * (line as usize % SET_COUNT);
    let to = from + WAYS_PER_SET;
    sets::move_to_front(&mut table[from..to], line + 1)
}

// What is put out where another line takes the place of an L1 number: its line, if dirty.
#[tactic(auto, using(crate::proofs::Outcome::clean_back, crate::proofs::Outcome::dirty_back))]
fn put_out(held: u16) -> Option<u16>
    ensures { result ≡ write_back_of held }
{
    if held <= DIRTY_MARK {
        None
    } else {
        Some((held - 1) % DIRTY_MARK)
    }
}

// Writes back what is put out.
fn write_back(table: &mut [u16], back: Option<u16>)
    requires { (length table.old ≡ table_length)
        × ((other : ℕ) → back ≡ Some other → other < dirty_mark) }
    ensures { table.new ≡ written_back back table.old }
{
    match back {
        None => {}
        Some(other) => {
            use_line(table, other);
        }
    }
}

// Seeks a line that L1 lacks: what it puts out is written back first.
fn seek(table: &mut [u16], back: Option<u16>, line: u16) -> bool
    requires { (length table.old ≡ table_length)
        × (line < dirty_mark)
        × ((other : ℕ) → back ≡ Some other → other < dirty_mark) }
    ensures { (result ≡ has (clean_entry line)
        (part (set_index (set_of line)) ways_per_set (written_back back table.old)))
        × (table.new ≡ line_used line (written_back back table.old)) }
{
    write_back(table, back);
    use_line(table, line)
}

// An access of a line. L2 is touched only where L1 lacks the line: a dirty line in its place is
// written back before the line is sought. Each of the three answers is built in its own branch, so
// that a caller's match on the kind is settled there.
pub fn access(table: &mut [u16], line: u16, writes: bool) -> AccessResult
    requires { (length table.old ≡ table_length) × (line ≤ most_line) }
    ensures { (result.found ≡ (access_of writes line table.old).found)
        × (result.ticks ≡ (access_of writes line table.old).ticks)
        × (result.back ≡ (access_of writes line table.old).back)
        × (table.new ≡ (access_of writes line table.old).table) }
{
    let clean = line + 1;
    let dirty = line + 1 + DIRTY_MARK;
    let index = line as usize % L1_LENGTH;
    let held = table[index];
    if (held == clean) | (held == dirty) {
        table[index] = if writes { dirty } else { held };
        return AccessResult {
            found: AccessKind::Hit1,
            ticks: HIT1_TICKS,
            back: None,
        };
    }
    let back = put_out(held);
    let known = seek(table, back, line);
    table[index] = if writes { dirty } else { clean };
    let replaced = if DIRTY_MARK < held { DIRTY_TICKS } else { 0 };
    if known {
        AccessResult {
            found: AccessKind::Hit2,
            ticks: HIT2_TICKS + replaced,
            back,
        }
    } else {
        AccessResult {
            found: AccessKind::Miss,
            ticks: MISS_TICKS + replaced,
            back,
        }
    }
}
