// The pivots of a space, the highest first.
ghost use Rattle.std.specs.Prelude.{◌^◌, ◌<◌, count_ones};
ghost use Rattle.archive.specs.Writes.{Falling};

use crate::shape::MOST_QUBITS;
use arrayvec::ArrayVec;
use quadratic::bits::set_bits;

pub(crate) type Pivots = ArrayVec<usize, MOST_QUBITS>;

// The set bits of a mask.
pub(crate) fn pivots_of(mask: u64) -> Pivots
    requires { mask < 2 ^ MOST_QUBITS }
    ensures { Falling mask (count_ones mask) result.items }
{
    let mut pivots = Pivots::new();
    for p in set_bits(mask).rev() {
        pivots.push(p);
    }
    pivots
}
