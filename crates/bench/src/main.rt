// Times nothing itself, but does what is timed: bench MODE ROUNDS, with an archive on standard input. It prints how many overlaps
// were taken or strings added, and a number made of every result.
#![tactic(auto)]

use archive::load::load;
use cyclotomic::mod17::Mod17;
use cyclotomic::quads::Cyclotomic64;
use cyclotomic::ring::Column;
use quadratic::intersection::Intersection;
use quadratic::running::total;
use stabilizer::overlap::{intersect, overlap};
use stabilizer::state::StabilizerState;
use std::io::Read;
use std::{env, io};

// The most dimensions of an intersection that is added up.
const MOST_DIMENSIONS: u64 = 12;

// How much was done, and a number made of the results.
#[derive(Clone, Copy, Default)]
struct Tally {
    count: u64,
    mixed: u64,
}

impl Tally {
    fn note(&mut self, res: u64) {
        self.mixed = self.mixed.rotate_left(7) ^ res;
    }

    // Takes the overlap of two states.
    fn overlap(&mut self, t: &StabilizerState, s: &StabilizerState) {
        if let Ok(x) = overlap(t, s) {
            self.count = self.count.wrapping_add(1);
            self.note(x.epsilon());
            self.note(x.power().unsigned_abs());
            self.note(x.turn());
        }
    }

    // Adds up the intersection of two states in both rings, unless it has too many dimensions.
    fn sum(&mut self, t: &StabilizerState, s: &StabilizerState) {
        let mut both = Intersection { space: None };
        if intersect(&mut both, t, s).is_err() {
            return;
        }
        if both
            .dimension()
            .is_none_or(|dimension| dimension > MOST_DIMENSIONS)
        {
            return;
        }
        let residues = total::<Mod17>(&both);
        let quads = total::<Cyclotomic64>(&both);
        self.count = self.count.wrapping_add(residues.count());
        self.count = self.count.wrapping_add(quads.count());
        self.note(u64::from(residues.value().digit(1)));
        self.note(quads.value().word(0));
    }
}

// What is done with a pair of states.
#[derive(Clone, Copy)]
struct Work<F>(F);

impl<F: Fn(&mut Tally, &StabilizerState, &StabilizerState)> Work<F> {
    // Does it with a state and each of those after it.
    fn pairs_of(&self, tally: &mut Tally, t: &StabilizerState, others: &[StabilizerState])
        requires { F.IsAlwaysCallable self.now.0 }
    {
        for s in others {
            (self.0)(tally, t, s);
        }
    }

    // Does it with each pair of states.
    fn round(&self, tally: &mut Tally, states: &[StabilizerState])
        requires { F.IsAlwaysCallable self.now.0 }
    {
        for (i, t) in states.iter().enumerate() {
            self.pairs_of(tally, t, &states[i + 1..]);
        }
    }

    // Does so many rounds of it.
    fn rounds(&self, count: u64, states: &[StabilizerState]) -> Tally
        requires { F.IsAlwaysCallable self.now.0 }
    {
        let mut tally = Tally::default();
        for _ in 0..count {
            self.round(&mut tally, states);
        }
        tally
    }
}

fn main(rt: HostRuntime) -> io::Result<()> {
    let mut words = env::args(&rt)?.skip(1);
    let mode = words.next();
    let count = match words.next() {
        Some(word) => word.as_str().parse().unwrap_or(1),
        None => 1,
    };
    let mut archive = Vec::new(rt.alloc());
    rt.stdin().read_to_end(&mut archive)?;
    let tally = match load(rt.alloc(), &archive) {
        Ok(states) => match mode.as_ref().map(|word| word.as_str()) {
            Some("overlap") => Work(Tally::overlap).rounds(count, &states),
            Some("sum") => Work(Tally::sum).rounds(count, &states),
            _ => Tally::default(),
        },
        Err(_) => Tally::default(),
    };
    println!(rt; "{} {:016x}", tally.count, tally.mixed)
}
