// What the frame maker takes: as many windows as a plan may have, weights within their limit, not
// all 0.
ghost use Rattle.std.specs.Prelude.{◌≡◌};
ghost use Rattle.frame.specs.Frame.{inputs_valid, weights_within};

use crate::limits::MOST_WEIGHT;
use crate::quotas::total_weight;
use plan::limits::{DOMAIN_ENTRIES, LEAST_WINDOWS, MOST_WINDOWS};

// Whether every weight is within its limit.
fn weights_within(weights: [u32; DOMAIN_ENTRIES]) -> bool
    ensures { result ≡ weights_within weights }
{
    weights.iter().all(|weight| *weight <= MOST_WEIGHT)
}

// Whether the frame maker takes a number of windows and weights. Weights that are not all 0 are
// those whose total is not 0.
pub fn is_valid(count: u32, weights: [u32; DOMAIN_ENTRIES]) -> bool
    ensures { result ≡ inputs_valid count weights }
{
    if !weights_within(weights) {
        return false;
    }
    let total = total_weight(weights);
    (LEAST_WINDOWS <= count) & (count <= MOST_WINDOWS) & (0 < total)
}
