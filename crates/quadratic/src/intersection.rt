ghost use Rattle.std.specs.Prelude.{◌≡◌, ℕ};
ghost use Rattle.quadratic.specs.Meets.{dimension_in, phase_in, shift_inside, row_in, linear_in, coupling_in};

use crate::phased::PhasedSpace;

// The strings that two states share, with the difference of their phases: none, or those of a phased space. It is a type and no bare
// Option, since it has a space's methods, which answer none for the empty one.
#[derive(Clone, Copy)]
pub struct Intersection {
    pub space: Option<PhasedSpace>,
}

impl Intersection {
    // The number of rows; none where the intersection is empty.
    pub fn dimension(&self) -> Option<u64>
        ensures { result ≡ dimension_in self.now }
    {
        self.space.as_ref().map(|s| s.dimension())
    }

    pub fn phase(&self) -> Option<u64>
        ensures { result ≡ phase_in self.now }
    {
        self.space.as_ref().map(|s| s.phase())
    }

    pub fn shift(&self) -> Option<u64>
        ensures { result ≡ shift_inside self.now }
    {
        self.space.as_ref().map(|s| s.shift())
    }

    // Row a, counted from 1 at the highest pivot.
    pub fn row(&self, a: u64) -> Option<u64>
        ensures { result ≡ row_in self.now a }
    {
        self.space.as_ref()?.row(a)
    }

    // The linear coefficient of row a.
    pub fn linear(&self, a: u64) -> Option<u64>
        ensures { result ≡ linear_in self.now a }
    {
        self.space.as_ref()?.linear(a)
    }

    // The coupling of rows a and b.
    pub fn coupling(&self, a: u64, b: u64) -> Option<u64>
        ensures { result ≡ coupling_in self.now a b }
    {
        self.space.as_ref()?.coupling(a, b)
    }
}
