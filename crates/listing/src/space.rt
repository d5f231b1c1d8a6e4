ghost use Rattle.std.specs.Prelude.{ℕ, ◌≤◌, IfSome, List, Some, min};
ghost use Rattle.std.specs.Fmt.{WritesOnOk};
ghost use Rattle.listing.specs.Fields.{behind, bits_text, coupling_texts, dimension_of, following, joined, linear_text, row_text, Shows, space_text, up_to};

use quadratic::phased::PhasedSpace;
use std::fmt;

// The most bits that a string has.
const LONGEST: u64 = 48;

// A space with its phases as it is shown: phase, rows, shift, linear coefficients, couplings. Strings have a bit for each qubit.
#[derive(Clone, Copy)]
pub struct SpaceText<'a> {
    pub space: &'a PhasedSpace,
    pub qubits: u64,
}

impl fmt::Display for SpaceText<'_> {
    ghost output = { λ x. Some (space_text (min x.qubits 48) x.space.now) };

    fn fmt<W: fmt::Write>(&self, f: &mut fmt::Formatter<W>) -> fmt::Result {
        let space = self.space;
        let phase = space.phase();
        let rows = RowsText {
            space,
            qubits: self.qubits,
        };
        let shift = BitsText {
            string: space.shift(),
            length: self.qubits,
        };
        let linear = LinearText(space);
        let couplings = CouplingsText(space);
        write!(f, "{phase} {rows} {shift} {linear} {couplings}")
    }
}

// The lowest bits of a string as they are shown, qubit 1 first.
#[derive(Clone, Copy)]
struct BitsText {
    string: u64,
    length: u64,
}

impl fmt::Display for BitsText {
    ghost output = { λ x. Some (bits_text (min x.length 48) x.string) };

    fn fmt<W: fmt::Write>(&self, f: &mut fmt::Formatter<W>) -> fmt::Result {
        let length = self.length.min(LONGEST) as usize;
        // a width of 0 would still show a digit
        if length == 0 {
            return Ok(());
        }
        let lowest = self.string % (1 << length);
        write!(f, "{lowest:0length$b}")
    }
}

// The rows, joined by commas.
#[derive(Clone, Copy)]
struct RowsText<'a> {
    space: &'a PhasedSpace,
    qubits: u64,
}

impl fmt::Display for RowsText<'_> {
    ghost output = { λ x. Some (joined (up_to (row_text (min x.qubits 48) x.space.now) (dimension_of x.space.now))) };

    fn fmt<W: fmt::Write>(&self, f: &mut fmt::Formatter<W>) -> fmt::Result {
        let space = self.space;
        let length = self.qubits;
        write_joined(
            f,
            space.dimension(),
            |a| BitsText {
                string: space.row(a).unwrap_or(0),
                length,
            },
        )
    }
}

// The linear coefficients, joined by commas.
#[derive(Clone, Copy)]
struct LinearText<'a>(&'a PhasedSpace);

impl fmt::Display for LinearText<'_> {
    ghost output = { λ x. Some (joined (up_to (linear_text x.0.now) (dimension_of x.0.now))) };

    fn fmt<W: fmt::Write>(&self, f: &mut fmt::Formatter<W>) -> fmt::Result {
        let space = self.0;
        write_joined(f, space.dimension(), |a| space.linear(a).unwrap_or(0))
    }
}

// The couplings, joined by commas, those of row 1 first.
#[derive(Clone, Copy)]
struct CouplingsText<'a>(&'a PhasedSpace);

impl fmt::Display for CouplingsText<'_> {
    ghost output = { λ x. Some (joined (coupling_texts x.0.now (dimension_of x.0.now))) };

    fn fmt<W: fmt::Write>(&self, f: &mut fmt::Formatter<W>) -> fmt::Result {
        let space = self.0;
        let dimension = space.dimension();
        if dimension < 2 {
            return f.write_str("-");
        }
        // a row goes with those after it, and its number counts them
        for a in 1..dimension {
            write_items(f, a > 1, dimension - a, |b| {
                space.coupling(a, a + b).unwrap_or(0)
            })?;
        }
        Ok(())
    }
}

// Writes the items 1 to count, joined by commas; `-` stands for none.
fn write_joined<W: fmt::Write, D: fmt::Display + Drop, F: Fn(u64) -> D>(
    f: &mut fmt::Formatter<W>,
    count: u64,
    item: F,
) -> fmt::Result
    requires { (a : ℕ) → a ≤ count → F.pre item a }
    ensures { (text : ℕ → List ℕ) → Shows count D.output (F.post item) text
        → WritesOnOk W.Write.write_str_gives f.old result (joined (up_to text count)) f.new }
{
    if count == 0 {
        return f.write_str("-");
    }
    write_items(f, false, count, item)
}

// Writes the items 1 to count, each behind a comma, the first only if others are before it.
fn write_items<W: fmt::Write, D: fmt::Display + Drop, F: Fn(u64) -> D>(
    f: &mut fmt::Formatter<W>,
    others: bool,
    count: u64,
    item: F,
) -> fmt::Result
    requires { (a : ℕ) → a ≤ count → F.pre item a }
    ensures { (text : ℕ → List ℕ) → Shows count D.output (F.post item) text
        → WritesOnOk W.Write.write_str_gives f.old result (following others (up_to text count)) f.new }
{
    for a in 1..=count {
        write_item(f, others || a > 1, item(a))?;
    }
    Ok(())
}

// Writes an item of a list, with a comma before it if others are.
fn write_item<W: fmt::Write, D: fmt::Display + Drop>(
    f: &mut fmt::Formatter<W>,
    more: bool,
    item: D,
) -> fmt::Result
    ensures { IfSome (D.output item) (λ text. WritesOnOk W.Write.write_str_gives f.old result (behind more text) f.new) }
{
    if more {
        f.write_str(",")?;
    }
    f.write(item)
}
