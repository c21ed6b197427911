// A state as numbers, each list of them at its offset. The functions here ask for slices of
// state_length numbers, since the definition all_fit tests the lengths together.
ghost use Rattle.std.specs.Prelude.{◌≡◌, ◌+◌, ◌≤◌, length};
ghost use Rattle.plan.specs.Limits.{most_domains};
ghost use Rattle.pirkvezo.specs.Numbers.{numbers_from, state_length, state_numbers, state_of};

use crate::offsets::{CLOCK_OFFSET, COMPLETED_OFFSET, POSITIONS_OFFSET, RECORDS_OFFSET};
use plan::limits::DOMAIN_ENTRIES;
use state::State;

// Eight numbers from an offset on. By index: with a copy of the slice a step takes up to a tenth
// longer.
fn take_counts(numbers: &[u64], first: usize) -> [u64; DOMAIN_ENTRIES]
    requires { first + most_domains ≤ length numbers.now }
    ensures { result ≡ numbers_from numbers.now first most_domains }
{
    let mut taken = [0u64; DOMAIN_ENTRIES];
    for i in 0..DOMAIN_ENTRIES {
        taken[i] = numbers[first + i];
    }
    taken
}

// The state that lent numbers stand for.
pub fn load_state(numbers: &[u64]) -> State
    requires { length numbers.now ≡ state_length }
    ensures { result ≡ state_of numbers.now }
{
    State {
        windows: numbers[COMPLETED_OFFSET],
        clock: numbers[CLOCK_OFFSET],
        positions: take_counts(numbers, POSITIONS_OFFSET),
        records: take_counts(numbers, RECORDS_OFFSET),
    }
}

// Writes a state's numbers.
pub fn store_state(numbers: &mut [u64], state: State)
    requires { length numbers.old ≡ state_length }
    ensures { numbers.new ≡ state_numbers state }
{
    numbers[COMPLETED_OFFSET] = state.windows;
    numbers[CLOCK_OFFSET] = state.clock;
    numbers[POSITIONS_OFFSET..POSITIONS_OFFSET + DOMAIN_ENTRIES].copy_from_slice(&state.positions);
    numbers[RECORDS_OFFSET..RECORDS_OFFSET + DOMAIN_ENTRIES].copy_from_slice(&state.records);
}
