// Lists an archive: standard input has its bytes, standard output gets a line for each pair of its states. `describe` has a `main` like this
// one, since each program has its own.
#![tactic(auto)]

use listing::sheets::{Document, Listing};
use std::io;
use std::io::BufWriter;

fn main(rt: HostRuntime) -> io::Result<()> {
    let mut out = BufWriter::new(rt.alloc(), rt.stdout())?;
    Listing::render(rt.alloc(), &mut rt.stdin(), &mut out)
}
