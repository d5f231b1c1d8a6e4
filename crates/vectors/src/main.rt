// Lists many archives: each line of standard input has the bytes of one as pairs of hexadecimal digits, `-` for none. Its listing goes to
// standard output, with an empty line after it.
#![tactic(auto)]

use listing::hex::Hex;
use listing::sheets::{Document, Listing};
use std::io;
use std::io::{BufRead, BufReader, BufWriter, Write};
use worked::worked_examples;

fn main(rt: HostRuntime) -> io::Result<()> {
    worked_examples();
    let mut input = BufReader::new(rt.alloc(), rt.stdin())?;
    let mut out = BufWriter::new(rt.alloc(), rt.stdout())?;
    let mut line = Vec::new(rt.alloc());
    let mut archive = Vec::new(rt.alloc());
    // a count, since no contract says that standard input has an end
    for _ in 0..u64::MAX {
        line.clear();
        if input.read_until(b'\n', &mut line)? == 0 {
            break;
        }
        match Hex::new(line.strip_suffix(b"\n").unwrap_or(&line)) {
            Some(digits) => {
                digits.decode(&mut archive)?;
                Listing::write(rt.alloc(), &mut out, &archive)?;
            }
            None => out.write_all(b"? pairs of hexadecimal digits are wanted, or - for none\n")?,
        }
        out.write_all(b"\n")?;
    }
    out.flush()
}
