// Table validity (13): of a lent cache table and lent boxes.
ghost use Rattle.std.specs.Prelude.{◌≡◌, true, ◌+◌, ◌≤◌, ◌<◌, drop, get_or, length};
ghost use Rattle.plan.specs.Colours.{mask_at};
ghost use Rattle.plan.specs.Validity.{plan_valid};
ghost use Rattle.plan.specs.Sums.{all_below};
ghost use Rattle.cache.specs.Lines.{l1_length, set_count, table_length};
ghost use Rattle.cache.specs.Sets.{has};
ghost use Rattle.ops.specs.Ops.{boxes_length};
ghost use Rattle.state.specs.TableValidity.{all_empty, box_valid, l1_entry_valid, set_valid};
ghost use Rattle.state.specs.TableValidity.{stands_for_line, tables_valid, unmarked, way_valid};
ghost use Rattle.state.specs.TableValidity.{ways_valid};
ghost use Rattle.state.specs.World.{ended_of, running_of};

use crate::State;
use cache::limits::{
    DIRTY_MARK, KERNEL_COLOUR, L1_LENGTH, MOST_LINE, SET_COUNT, SETS_PER_COLOUR, WAYS_PER_SET,
};
use ops::limits::BOXES_LENGTH;
use plan::Plan;
use plan::limits::DOMAIN_ENTRIES;
use plan::sharing::has_bit;
use plan::timing::{window_owner, windows_total};
use script::limits::MOST_WORD;

// How many sets are looked at together: for speed alone, it stands for nothing in the paper. It
// divides the number of sets, so that no block reaches past the last.
const SETS_PER_BLOCK: usize = 8;

// An L1 number without its dirty mark, which the definition `unmarked` takes off. No
// `saturating_sub`: a number below the mark stays as it is.
fn without_mark(entry: u16) -> u16
    ensures { result ≡ unmarked entry }
{
    if DIRTY_MARK <= entry {
        entry - DIRTY_MARK
    } else {
        entry
    }
}

// Whether a number stands for a line.
fn is_line(entry: u16) -> bool
    ensures { result ≡ stands_for_line entry }
{
    (1 <= entry) & (entry <= MOST_LINE + 1)
}

// Whether an L1 number is valid, by whether the run has ended and by the running domain's mask. The
// mask is no Option: the definition `l1_entry_valid` asks for both, of an ended run too.
fn l1_entry_valid(cache: &[u16], index: usize, ended: bool, mask: u16) -> bool
    requires { index < length cache.now }
    ensures { (plan : Plan) (state : State)
        → ended_of plan state ≡ ended
        → mask_at plan (running_of plan state) ≡ mask
        → result ≡ l1_entry_valid plan state cache.now index }
{
    let entry = cache[index];
    if entry == 0 {
        return true;
    }
    let number = without_mark(entry);
    if !is_line(number) {
        return false;
    }
    let line = (number - 1) as usize;
    let colour = line % SET_COUNT / SETS_PER_COLOUR;
    let owned = has_bit(u32::from(mask), colour as u32);
    (line % L1_LENGTH == index) & (owned | (colour == KERNEL_COLOUR)) & !ended
}

// Whether every L1 number is valid.
fn l1_valid(cache: &[u16], ended: bool, mask: u16) -> bool
    requires { length cache.now ≡ table_length }
    ensures { (plan : Plan) (state : State)
        → ended_of plan state ≡ ended
        → mask_at plan (running_of plan state) ≡ mask
        → result ≡ all_below (l1_entry_valid plan state cache.now) l1_length }
{
    (0..L1_LENGTH).all(|index| l1_entry_valid(cache, index, ended, mask))
}

// Whether a full way of a set is a line of this set that no way behind it repeats.
fn way_valid(ways: &[u16], way: usize, set: usize) -> bool
    requires { way < length ways.now }
    ensures { result
        ≡ way_valid set (get_or ways.now way 0) (drop (way + 1) ways.now) }
{
    let entry = ways[way];
    if !is_line(entry) {
        return false;
    }
    let repeated = ways[way + 1..].contains(&entry);
    ((entry - 1) as usize % SET_COUNT == set) & !repeated
}

// Whether the ways of a set, of any number, are valid. No iterator: a way is looked at beside all
// that stand behind it.
fn ways_valid(ways: &[u16], set: usize) -> bool
    ensures { result ≡ ways_valid set ways.now }
{
    for way in 0..ways.len() {
        if ways[way] == 0 {
            return ways[way + 1..].iter().all(|&behind| behind == 0);
        }
        if !way_valid(ways, way, set) {
            return false;
        }
    }
    true
}

// Whether a set is valid.
fn set_valid(cache: &[u16], set: usize) -> bool
    requires { (length cache.now ≡ table_length) × (set < set_count) }
    ensures { result ≡ set_valid cache.now set }
{
    let from = L1_LENGTH + WAYS_PER_SET * set;
    let to = from + WAYS_PER_SET;
    ways_valid(&cache[from..to], set)
}

// Whether the sets of a block are valid: `count` sets from `first` on. Most blocks hold no line:
// that is seen at once, before the sets are walked. All numbers are looked at, with no way out
// before the last, so that the compiler can look at several at once. The walk is no `all`: tried,
// and the proof for the sets from `first` on did not close.
fn block_valid(cache: &[u16], first: usize, count: usize) -> bool
    requires { (length cache.now ≡ table_length) × (first + count ≤ set_count) }
    ensures { result ≡ all_below (λ k. set_valid cache.now (first + k)) count }
{
    let from = L1_LENGTH + WAYS_PER_SET * first;
    let to = from + WAYS_PER_SET * count;
    let none_held = cache[from..to]
        .iter()
        .fold(true, |none, &number| none & (number == 0));
    if none_held {
        return true;
    }
    for set in 0..count {
        if !set_valid(cache, first + set) {
            return false;
        }
    }
    true
}

// Whether every set is valid, block by block. A `for`: its proof goes by whole blocks, while an
// `all` would tell of their first sets alone.
fn sets_valid(cache: &[u16]) -> bool
    requires { length cache.now ≡ table_length }
    ensures { result ≡ all_below (set_valid cache.now) set_count }
{
    for first in (0..SET_COUNT).step_by(SETS_PER_BLOCK) {
        if !block_valid(cache, first, SETS_PER_BLOCK) {
            return false;
        }
    }
    true
}

// Whether a box is valid.
fn box_valid(rights: &[u32; DOMAIN_ENTRIES], boxes: &[u32], index: usize) -> bool
    requires { (length boxes.now ≡ boxes_length) × (index < boxes_length) }
    ensures { (plan : Plan)
        → plan.rights ≡ rights.now
        → result ≡ box_valid plan boxes.now index }
{
    let number = boxes[index];
    if number == 0 {
        return true;
    }
    let sender = index / DOMAIN_ENTRIES;
    let recipient = index % DOMAIN_ENTRIES;
    let may = has_bit(rights[sender], recipient as u32);
    (number <= MOST_WORD + 1) & may
}

// Whether every box is valid. That all are empty is seen at once, before they are walked: as in
// `block_valid`, with no way out before the last.
fn boxes_valid(rights: &[u32; DOMAIN_ENTRIES], boxes: &[u32]) -> bool
    requires { length boxes.now ≡ boxes_length }
    ensures { (plan : Plan)
        → plan.rights ≡ rights.now
        → result ≡ all_below (box_valid plan boxes.now) boxes_length }
{
    let no_word = boxes
        .iter()
        .fold(true, |none, &number| none & (number == 0));
    no_word || (0..BOXES_LENGTH).all(|index| box_valid(rights, boxes, index))
}

// Whether a lent cache table and lent boxes are valid beside a state.
pub fn tables_valid(plan: Plan, state: State, cache: &[u16], boxes: &[u32]) -> bool
    requires { (plan_valid plan ≡ true)
        × (length cache.now ≡ table_length)
        × (length boxes.now ≡ boxes_length) }
    ensures { result ≡ tables_valid plan state cache.now boxes.now }
{
    let total = windows_total(plan);
    let windows = state.windows;
    let owner = window_owner(plan, windows) as usize;
    let masks = plan.masks;
    let rights = plan.rights;
    let l2 = sets_valid(cache);
    let l1 = l1_valid(cache, total <= windows, masks[owner]);
    let full = boxes_valid(&rights, boxes);
    l2 & l1 & full
}
