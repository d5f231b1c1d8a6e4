// How many fields a state has, and where each begins.
ghost use Rattle.std.specs.Prelude.{◌≡◌, suc, ◌+◌, ◌*◌, ◌<◌, ◌≤◌};
ghost use Rattle.archive.specs.Layout.{pairs, bits_before_fill};
ghost use Rattle.archive.specs.Held.{shift_place, linear_place, place_of_coupling};
ghost use Rattle.archive.specs.declared.shape.TheConstants.{MOST_QUBITS};

// How many bits each field before the rows takes: the number of qubits, the dimension, the weight and the phase.
pub(crate) const QUBITS_WIDTH: usize = 6;

pub(crate) const DIMENSION_WIDTH: usize = 6;

pub(crate) const WEIGHT_WIDTH: usize = 13;

pub(crate) const PHASE_WIDTH: usize = 3;

// The place of each that is not the first, and of the rows.
pub(crate) const DIMENSION_PLACE: usize = QUBITS_WIDTH;

pub(crate) const WEIGHT_PLACE: usize = DIMENSION_PLACE + DIMENSION_WIDTH;

pub(crate) const PHASE_PLACE: usize = WEIGHT_PLACE + WEIGHT_WIDTH;

pub(crate) const ROWS_PLACE: usize = PHASE_PLACE + PHASE_WIDTH;

// How many bits half a linear coefficient takes.
pub(crate) const LINEAR_WIDTH: usize = 2;

// The highest values of the number of qubits and of the weight.
pub(crate) const MOST_QUBITS: usize = 48;

pub(crate) const MOST_LOSS: u64 = 4096;

// The number of qubits and the dimension of a state. The places are counted from the state's first bit.
#[derive(Clone, Copy)]
pub(crate) struct Shape {
    pub(crate) n: usize,
    pub(crate) k: usize,
    ghost few: { n ≤ MOST_QUBITS },
    ghost fewer: { k ≤ n },
}

// How many pairs of k rows there are.
fn pairs_of(k: usize) -> usize
    requires few { k ≤ MOST_QUBITS }
    ensures count { result ≡ pairs k }
    ensures most { result ≤ 1128 }
{
    k * k.saturating_sub(1) / 2
}

impl Shape {
    // How many couplings there are, one for each pair of rows.
    pub(crate) fn pairs(self) -> usize
        ensures count { result ≡ pairs self.k }
        ensures most { result ≤ 1128 }
    {
        pairs_of(self.k)
    }

    // The place of row a, and behind the last that of the shift.
    pub(crate) fn row(self, a: usize) -> usize
        requires { a ≤ self.k }
        ensures place { result ≡ ROWS_PLACE + a * self.n }
        ensures most { result ≤ 2332 }
    {
        ROWS_PLACE + a * self.n
    }

    pub(crate) fn shift(self) -> usize
        ensures place { result ≡ shift_place 0 self.n self.k }
        ensures most { result ≤ 2332 }
    {
        self.row(self.k)
    }

    // The place of the linear coefficient of row a, and behind the last that of the couplings.
    pub(crate) fn linear(self, a: usize) -> usize
        requires { a ≤ self.k }
        ensures place { result ≡ linear_place 0 self.n self.k a }
        ensures most { result ≤ 2476 }
    {
        self.shift() + self.n + a * LINEAR_WIDTH
    }

    // The place of the coupling of row a with the next.
    pub(crate) fn coupling(self, a: usize) -> usize
        requires { a < self.k }
        ensures place { result ≡ place_of_coupling 0 self.n self.k a (suc a) }
        ensures most { result ≤ 3604 }
    {
        self.linear(self.k) + (self.pairs() - pairs_of(self.k - a))
    }

    // How many bits a state takes before the fill.
    pub(crate) fn bit_count(self) -> usize
        ensures count { result ≡ bits_before_fill self.n self.k }
        ensures most { result ≤ 3604 }
        ensures least { ROWS_PLACE + self.n ≤ result }
    {
        self.linear(self.k) + self.pairs()
    }
}
