// Describes an archive: standard input has its bytes, standard output gets a line for each of its states and for each pair of them.
// It is `list` with another document, since each program has a `main` of its own.
#![tactic(auto)]

use listing::description::Description;
use listing::sheets::Document;
use std::io;
use std::io::BufWriter;

fn main(rt: HostRuntime) -> io::Result<()> {
    let mut out = BufWriter::new(rt.alloc(), rt.stdout())?;
    Description::render(rt.alloc(), &mut rt.stdin(), &mut out)
}
