// Whether the bits from a place on are those of a state: field by field, up to the first fault.
ghost use Rattle.std.specs.Prelude.{◌≡◌, ℕ, ◌+◌, ◌-◌, ◌*◌, ◌/◌, ◌%◌, ◌^◌, ◌<◌, ◌≤◌, ◌&&◌, ltb, [], ◌∷◌, length, if◌then◌else◌, Some, None, IfOk, OnOk, ◌==◌, bit_and, nat_lt};
ghost use Rattle.archive.specs.Cursors.{Moved, fault_at};
ghost use Rattle.archive.specs.First.{Blames};
ghost use Rattle.archive.specs.Layout.{rows, shift, lead, off_leads, size_at, rank_at, header};
ghost use Rattle.archive.specs.Layout.{state_fault, end_of_state};

use crate::cursor::Cursor;
use crate::fault::{Field, Rule, StateFault};
use crate::shape::{
    DIMENSION_WIDTH, LINEAR_WIDTH, MOST_LOSS, MOST_QUBITS, PHASE_WIDTH, QUBITS_WIDTH, ROWS_PLACE,
    Shape, WEIGHT_WIDTH,
};

// The pivot of a row, the position of its highest bit, if it lies below a bound where a number has a 0.
#[tactic(auto, using(crate::proofs::Leads::lead_log))]
fn pivot_of(row: u64, bound: usize, taken: u64) -> Option<usize>
    ensures { result ≡ (if ltb 0 row && (nat_lt (lead row) bound && taken / 2 ^ lead row % 2 == 0) then Some (lead row) else None) }
{
    if row == 0 {
        return None;
    }
    let pivot = row.ilog2() as usize;
    if pivot >= bound || (taken >> pivot) % 2 == 1 {
        return None;
    }
    Some(pivot)
}

impl Cursor<'_> {
    // The state's shape, from the fields before the rows.
    fn header(&mut self) -> Result<Shape, StateFault>
        requires place { self.old.at ≡ self.old.start }
        ensures verdict { Blames result (fault_at self.old (header (size_at self.old.bytes.now self.old.start))) }
        ensures moved { OnOk result (Moved self.old self.new ROWS_PLACE) }
        ensures size { IfOk result (λ s. s.n ≡ size_at self.old.bytes.now self.old.start) }
        ensures rank { IfOk result (λ s. s.k ≡ rank_at self.old.bytes.now self.old.start) }
    {
        let n = self.number_in(
            Field::Qubits,
            QUBITS_WIDTH,
            1,
            MOST_QUBITS as u64,
            Rule::QubitRange,
        )?;
        let k = self.number_in(
            Field::Dimension,
            DIMENSION_WIDTH,
            0,
            n,
            Rule::DimensionRange,
        )?;
        self.number_in(Field::Weight, WEIGHT_WIDTH, 0, MOST_LOSS, Rule::WeightRange)?;
        self.skip(Field::Phase, PHASE_WIDTH)?;
        Ok(Shape {
            n: n as usize,
            k: k as usize,
        })
    }

    // The pivots of the rows, as a mask.
    fn pivots(&mut self, shape: Shape) -> Result<u64, StateFault>
        requires place { self.old.at ≡ self.old.start + ROWS_PLACE }
        ensures verdict { Blames result (fault_at self.old (rows self.old.bytes.now self.old.start shape.n 0 shape.k)) }
        ensures moved { OnOk result (Moved self.old self.new (shape.k * shape.n)) }
        ensures mask { IfOk result (λ m. (v : ℕ) → off_leads self.old.bytes.now self.old.start shape.n v shape.k ≡ (bit_and v m == 0)) }
    {
        let mut above = 64;
        let mut seen = 0;
        let mut leads = 0;
        for _ in 0..shape.k {
            let place = self.at;
            let row = self.number(Field::Row, shape.n)?;
            let Some(pivot) = pivot_of(row, above, seen) else {
                return Err(StateFault::Broken {
                    rule: Rule::EchelonForm,
                    field: Field::Row,
                    place,
                });
            };
            above = pivot;
            seen |= row;
            leads |= 1 << pivot;
        }
        Ok(leads)
    }

    // Steps over the shift, if it has a 0 at each of the rows' pivots.
    fn shift(&mut self, shape: Shape, leads: u64) -> Result<(), StateFault>
        requires near { self.old.at ≤ 2 ^ 32 }
        requires mask { (v : ℕ) → off_leads self.old.bytes.now self.old.start shape.n v shape.k ≡ (bit_and v leads == 0) }
        ensures verdict { Blames result (fault_at self.old (shift self.old.bytes.now self.old.start shape.n shape.k ∷ [])) }
        ensures moved { OnOk result (Moved self.old self.new shape.n) }
    {
        let place = self.at;
        let value = self.number(Field::Shift, shape.n)?;
        if value & leads != 0 {
            return Err(StateFault::Broken {
                rule: Rule::EchelonForm,
                field: Field::Shift,
                place,
            });
        }
        Ok(())
    }
}

// Whether a state stands at the start, without a fault; then the place where it ends.
pub(crate) fn state_end(bytes: &[u8], start: usize) -> Result<usize, StateFault>
    requires { start ≤ 2 ^ 31 }
    ensures verdict { Blames result (state_fault bytes.now start) }
    ensures end { IfOk result (λ q. q ≡ end_of_state bytes.now start) }
    ensures near { IfOk result (λ q. q ≤ start + 4096) }
    ensures inside { IfOk result (λ q. q ≤ 8 * length bytes.now) }
{
    let mut cursor = Cursor {
        bytes,
        start,
        at: start,
    };
    let shape = cursor.header()?;
    let leads = cursor.pivots(shape)?;
    cursor.shift(shape, leads)?;
    cursor.skip_all(Field::Linear, LINEAR_WIDTH, shape.k)?;
    cursor.skip_all(Field::Coupling, 1, shape.pairs())?;
    let fill = (8 - cursor.at % 8) % 8;
    cursor.number_in(Field::Fill, fill, 0, 0, Rule::ZeroFill)?;
    Ok(cursor.at)
}
