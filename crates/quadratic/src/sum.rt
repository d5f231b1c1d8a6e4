ghost use Rattle.std.specs.Prelude.{◌≡◌, ℕ, ◌+◌, ◌*◌, ◌^◌, ◌<◌, ◌≤◌, MatchOption, count_ones, slice_index};
ghost use Rattle.cyclotomic.specs.Adjoin.{omegas};
ghost use Rattle.cyclotomic.specs.Scalars.{triple_of, embedded};
ghost use Rattle.quadratic.specs.Bits.{bit as digit};
ghost use Rattle.quadratic.specs.Sums.{Bounded, Between, Vanishing, sum_over, total, Reduced, Cancelled, Stepped, Ended};

use crate::bits::{lowest, turned};
use crate::form::QuadraticForm;
use crate::intersection::Intersection;
use crate::phased::PhasedSpace;
use cyclotomic::scalar::Scalar;

// The sum of ω^value over all strings of the intersection, as a scalar; 0 where it is empty.
pub fn exponential_sum(x: &Intersection) -> Scalar
    ensures bounds { Bounded x.now result }
    ensures exact { embedded omegas (triple_of result) ≡ total omegas x.now }
    ensures zero { Vanishing x.now result }
{
    x.space.as_ref().map_or(Scalar::zero(), sum_of)
}

// The sum of ω^value over all strings of a space: the variables are summed out one or two at a time.
#[tactic(auto, using(crate::proofs::Eliminate::numbered))]
fn sum_of(s: &PhasedSpace) -> Scalar
    ensures bounds { Between (count_ones s.now.space.pivots) result }
    ensures exact { embedded omegas (triple_of result) ≡ sum_over omegas s.now }
{
    let mut sum = Remaining {
        form: s.form(),
        live: s.pivots(),
        power: 0,
    };
    match sum.finish() {
        Some(()) => Scalar::term(sum.power as i64, sum.form.phase()),
        None => Scalar::zero(),
    }
}

// What is left of a sum: 2^(power/2) times the sum of ω^value over the live variables, the others being 0.
#[derive(Drop)]
struct Remaining {
    form: QuadraticForm,
    live: u64,
    power: u64,
    ghost inside: { live < 2 ^ 48 },
    ghost few: { power + 2 * count_ones live ≤ 96 },
}

impl Remaining {
    // Sums out every live variable; None where the sum is 0. What is left stays in its place: handed on by value from step to step,
    // it made listings 13 to 83 percent slower.
    fn finish(&mut self) -> Option<()>
        ensures { MatchOption result (Cancelled self.old.form self.old.live self.old.power)
            (λ _. Ended self.old.form self.new.form self.old.live self.old.power self.new.power) }
    {
        while self.live != 0 {
            self.step()?;
        }
        Some(())
    }

    // Sums out one live variable, or two that are coupled; None where the sum is 0.
    fn step(&mut self) -> Option<()>
        requires { 0 < self.old.live }
        ensures { MatchOption result (Cancelled self.old.form self.old.live self.old.power)
            (λ _. Stepped self.old.form self.new.form self.old.live self.new.live self.old.power self.new.power) }
    {
        let odd = self.form.odd() & self.live;
        if odd != 0 {
            self.sum_odd(lowest(odd));
            return Some(());
        }
        let a = lowest(self.live);
        let partners = self.form.partners(a) & self.live;
        if partners != 0 {
            self.sum_pair(a, lowest(partners));
            return Some(());
        }
        if self.form.linear(a) != 0 {
            return None;
        }
        self.live = turned(self.live, a);
        self.power += 2;
        Some(())
    }

    // Sums out a variable whose linear coefficient is 2 or 6: 1 + ω^(2 + 4x) is √2 ω^(1 + 6x), and 1 + ω^(6 + 4x) is √2 ω^(7 + 2x).
    fn sum_odd(&mut self, a: usize)
        requires live { digit self.old.live a ≡ 1 }
        requires odd { digit self.old.form.odd a ≡ 1 }
        ensures { Reduced self.old.form self.new.form self.old.live self.new.live self.old.power self.new.power 1 1 }
    {
        let rest = turned(self.live, a);
        let row = self.form.partners(a) & rest;
        let own = self.form.linear(a) as u8;
        self.form.add_phase(1 + 6 * (own / 4));
        self.form.add_parity(4 - own / 2, row);
        self.live = rest;
        self.power += 1;
    }

    // Sums out two coupled variables whose linear coefficients are 4α and 4β: with x and y the parities of their rows on the rest,
    // the four terms come to 2 (-1)^((α + x)(β + y)).
    fn sum_pair(&mut self, a: usize, b: usize)
        requires first { digit self.old.live a ≡ 1 }
        requires second { digit self.old.live b ≡ 1 }
        requires first_even { digit self.old.form.odd a ≡ 0 }
        requires second_even { digit self.old.form.odd b ≡ 0 }
        requires coupled { digit (slice_index self.old.form.coupling a) b ≡ 1 }
        ensures { Reduced self.old.form self.new.form self.old.live self.new.live self.old.power self.new.power 2 2 }
    {
        let rest = turned(turned(self.live, a), b);
        let u = self.form.partners(a) & rest;
        let v = self.form.partners(b) & rest;
        let alpha = self.form.linear(a) as u8;
        let beta = self.form.linear(b) as u8;
        self.form.add_phase(alpha & beta);
        self.form.add_parity(alpha / 2, v);
        self.form.add_parity(beta / 2, u);
        self.form.add_product(u, v);
        self.live = rest;
        self.power += 2;
    }
}
