// The bits of a run of bytes, the most significant bit of a byte first.
ghost use Rattle.std.specs.Prelude.{◌≡◌, ℕ, ◌+◌, ◌-◌, ◌*◌, ◌/◌, ◌%◌, ◌^◌, ◌<◌, ◌≤◌, length, ◌≢◌};
ghost use Rattle.archive.specs.Bits.{bit_at, bits_from, Framed};

// The number in the bits from a place on, read a byte at a time. The first and the last step may be shorter than the others, so there
// are no equal parts to go over. The width is a number with a premise, as of `<<`: a type for it would be unwrapped in each line.
pub(crate) fn bits_at(bytes: &[u8], at: usize, width: usize) -> u64
    requires there { at + width ≤ 8 * length bytes.now }
    requires narrow { width ≤ 64 }
    requires near { at ≤ 2 ^ 32 }
    ensures { result ≡ bits_from bytes.now at width }
{
    let mut value: u64 = 0;
    let mut done = 0;
    while done < width {
        let room = 8 - (at + done) % 8;
        let step = room.min(width - done);
        let chunk = u64::from(bytes[(at + done) / 8] >> (room - step)) % (1 << step);
        value = value * (1 << step) + chunk;
        done += step;
    }
    value
}

// Puts a bit in its place; every other bit stays.
fn put_bit(bytes: &mut [u8], i: usize, bit: u8)
    requires inside { i < 8 * length bytes.old }
    requires digit { bit < 2 }
    ensures there { bit_at bytes.new i ≡ bit }
    ensures others { (q : ℕ) → (q ≢ i) → bit_at bytes.new q ≡ bit_at bytes.old q }
{
    let s = 7 - i % 8;
    let old = bytes[i / 8];
    let low = old % (1 << s);
    bytes[i / 8] = ((old >> s) / 2 * 2 + bit << s) + low;
}

// Puts a number into the bits from a place on; every other bit stays. Bit by bit: a field may begin and end inside a byte, so by bytes
// the parts would not be equal, and each bit's place and value come from its number.
pub(crate) fn put_bits(bytes: &mut [u8], at: usize, width: usize, value: u64)
    requires room { at + width ≤ 8 * length bytes.old }
    requires narrow { width ≤ 64 }
    requires near { at ≤ 2 ^ 32 }
    requires fits { value < 2 ^ width }
    ensures there { bits_from bytes.new at width ≡ value }
    ensures framed { Framed bytes.old bytes.new at (at + width) }
{
    for j in 0..width {
        put_bit(bytes, at + j, ((value >> (width - 1 - j)) % 2) as u8);
    }
}
