// An L2 set of any number of ways, most recently used first: one pass from the front serves both a
// line found and a line that comes in.
ghost use Rattle.std.specs.Prelude.{◌≡◌};
ghost use Rattle.cache.specs.Sets.{has, move_to_front};

// Puts an entry in front. Each way moves on by one, up to the way that held the entry, or to the
// last, which is dropped. Answers whether the set had it.
pub fn move_to_front(set: &mut [u16], entry: u16) -> bool
    ensures { (result ≡ has entry set.old)
        × (set.new ≡ move_to_front entry set.old) }
{
    let mut carry = entry;
    for way in set.iter_mut() {
        let held = *way;
        *way = carry;
        if held == entry {
            return true;
        }
        carry = held;
    }
    false
}
