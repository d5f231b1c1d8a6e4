// The bits of a state, whose fields are read one after another.
ghost use Rattle.std.specs.Prelude.{◌≡◌, ◌+◌, ◌*◌, ◌^◌, ◌<◌, ◌≤◌, [], ◌∷◌, length, IfErr, IfOk, OnOk};
ghost use Rattle.archive.specs.Bits.{bits_from};
ghost use Rattle.archive.specs.First.{Blames};
ghost use Rattle.archive.specs.Layout.{copies, free, ranged};

use crate::bits::bits_at;
use crate::fault::{BitsFault, Field, Rule, StateFault};

// Where the state begins, and where the next field does. Only the first is near the front by the type: a step from the last near place
// would break that of the second.
#[derive(Clone, Copy)]
pub(crate) struct Cursor<'a> {
    pub(crate) bytes: &'a [u8],
    pub(crate) start: usize,
    pub(crate) at: usize,
    ghost near: { start ≤ 2 ^ 31 },
}

// A width is a number with a premise, and goes beside its field: each call takes both from its own kind of field, and a type of the two
// would be made for one call and taken apart in it.
impl Cursor<'_> {
    ghost use Rattle.archive.specs.Cursors.{Moved, fault_at};

    // Steps over a field, if its bits are all there.
    pub(crate) fn skip(&mut self, field: Field, width: usize) -> Result<(), BitsFault>
        requires narrow { width ≤ 64 }
        requires near { self.old.at ≤ 2 ^ 32 }
        ensures moved { OnOk result (Moved self.old self.new width) }
        ensures there { OnOk result (self.old.at + width ≤ 8 * length self.old.bytes.now) }
        ensures short { IfErr result (λ _. 8 * length self.old.bytes.now < self.old.at + width) }
        ensures fault { IfErr result (λ f. f ≡ record { field = field; place = self.old.at }) }
    {
        if (self.at + width).div_ceil(8) > self.bytes.len() {
            return Err(BitsFault {
                field,
                place: self.at,
            });
        }
        self.at += width;
        Ok(())
    }

    // The number in a field, and a step over it.
    pub(crate) fn number(&mut self, field: Field, width: usize) -> Result<u64, BitsFault>
        requires narrow { width ≤ 64 }
        requires near { self.old.at ≤ 2 ^ 32 }
        ensures moved { OnOk result (Moved self.old self.new width) }
        ensures there { OnOk result (self.old.at + width ≤ 8 * length self.old.bytes.now) }
        ensures value { IfOk result (λ v. v ≡ bits_from self.old.bytes.now self.old.at width) }
        ensures short { IfErr result (λ _. 8 * length self.old.bytes.now < self.old.at + width) }
        ensures fault { IfErr result (λ f. f ≡ record { field = field; place = self.old.at }) }
    {
        let at = self.at;
        self.skip(field, width)?;
        Ok(bits_at(self.bytes, at, width))
    }

    // The number in a field whose values go from a lowest to a highest, and a step over it.
    pub(crate) fn number_in(
        &mut self,
        field: Field,
        width: usize,
        low: u64,
        high: u64,
        rule: Rule,
    ) -> Result<u64, StateFault>
        requires narrow { width ≤ 64 }
        requires near { self.old.at ≤ 2 ^ 32 }
        ensures verdict { Blames result (fault_at self.old (ranged field width low high rule ∷ [])) }
        ensures moved { OnOk result (Moved self.old self.new width) }
        ensures there { OnOk result (self.old.at + width ≤ 8 * length self.old.bytes.now) }
        ensures value { IfOk result (λ v. v ≡ bits_from self.old.bytes.now self.old.at width) }
        ensures least { IfOk result (λ v. low ≤ v) }
        ensures most { IfOk result (λ v. v ≤ high) }
    {
        let place = self.at;
        let value = self.number(field, width)?;
        if value < low || value > high {
            return Err(StateFault::Broken { rule, field, place });
        }
        Ok(value)
    }

    // Steps over a number of fields alike, if their bits are all there.
    pub(crate) fn skip_all(
        &mut self,
        field: Field,
        width: usize,
        count: usize,
    ) -> Result<(), StateFault>
        requires narrow { width ≤ 2 }
        requires few { count ≤ 2048 }
        requires near { self.old.at ≤ 2 ^ 31 + 2 ^ 12 }
        ensures verdict { Blames result (fault_at self.old (copies count (free field width))) }
        ensures moved { OnOk result (Moved self.old self.new (count * width)) }
    {
        for _ in 0..count {
            self.skip(field, width)?;
        }
        Ok(())
    }
}
