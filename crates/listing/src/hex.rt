ghost use Rattle.std.specs.Prelude.{◌≡◌, ◌%◌, ◌<◌, IfSome, Some, MatchBool, MatchOption, OnOk};
ghost use Rattle.std.specs.Fmt.{WritesOnOk};
ghost use Rattle.cyclotomic.specs.Columns.{glyph_of};
ghost use Rattle.listing.specs.Digits.{nibble_of, Digits, Paired, digits_of, Decoded, byte_text, hex_text};

use std::alloc::AllocError;
use std::fmt;

// The small hexadecimal digit of a number below 16, and of any other number its last digit.
pub fn glyph(digit: u8) -> u8
    ensures small { digit < 16 → result ≡ glyph_of digit }
    ensures ascii { result < 128 }
    ensures last { result ≡ glyph_of (digit % 16) }
{
    match digit % 16 {
        d if d < 10 => b'0' + d,
        d => b'a' - 10 + d,
    }
}

// The number that a hexadecimal digit stands for.
pub fn nibble(digit: u8) -> Option<u8>
    ensures value { result ≡ nibble_of digit }
    ensures small { IfSome result (λ d. d < 16) }
{
    let value = (digit as char).to_digit(16)?;
    Some(value as u8)
}

// Bytes as a run of hexadecimal digits, a pair to a byte; `-` stands for none.
#[derive(Clone, Copy)]
pub struct Hex<'a> {
    digits: &'a [u8],
}

impl<'a> Hex<'a> {
    // The word as such a run, if it is one.
    pub fn new(word: &'a [u8]) -> Option<Hex<'a>>
        ensures paired { MatchOption result (Paired word.now → ⊥) (λ _. Paired word.now) }
        ensures digits { IfSome result (λ h. h.digits.now ≡ digits_of word.now) }
    {
        match word {
            [b'-'] => Some(Hex { digits: &[] }),
            [_, ..] if word.len() % 2 == 0 && all_digits(word) => Some(Hex { digits: word }),
            _ => None,
        }
    }

    // Puts the bytes into `out`, in place of what it held.
    pub fn decode(self, out: &mut Vec<u8>) -> Result<(), AllocError>
        ensures { OnOk result (Decoded self.entry.digits.now out.new.items) }
    {
        out.clear();
        let mut digits = self.digits;
        while let [high, low, rest @ ..] = digits {
            out.push(16 * nibble(*high).unwrap_or(0) + nibble(*low).unwrap_or(0))?;
            digits = rest;
        }
        Ok(())
    }
}

// Whether each byte is a hexadecimal digit. By a loop: with `all` and `nibble` a long word took two thirds longer to read.
fn all_digits(word: &[u8]) -> bool
    ensures { MatchBool result (Digits word.now) (Digits word.now → ⊥) }
{
    for byte in word {
        if !byte.is_ascii_hexdigit() {
            return false;
        }
    }
    true
}

// Bytes as they are printed: pairs of small hexadecimal digits, `-` for none.
#[derive(Clone, Copy)]
pub struct HexBytes<'a>(pub &'a [u8]);

impl fmt::Display for HexBytes<'_> {
    ghost output = { λ x. Some (hex_text x.0.now) };

    fn fmt<W: fmt::Write>(&self, f: &mut fmt::Formatter<W>) -> fmt::Result {
        if self.0.is_empty() {
            return f.write_str("-");
        }
        for &byte in self.0 {
            write_byte(f, byte)?;
        }
        Ok(())
    }
}

// Writes a byte as a pair of digits. By `{:02x}` it took twice the instructions.
fn write_byte<W: fmt::Write>(f: &mut fmt::Formatter<W>, byte: u8) -> fmt::Result
    ensures { WritesOnOk W.Write.write_str_gives f.old result (byte_text byte) f.new }
{
    let digits = [glyph(byte / 16), glyph(byte % 16)];
    write_ascii(f, &digits)
}

// Writes text that is given as bytes.
pub fn write_ascii<W: fmt::Write>(f: &mut fmt::Formatter<W>, bytes: &[u8]) -> fmt::Result
    ensures { WritesOnOk W.Write.write_str_gives f.old result bytes.now f.new }
{
    match std::str::from_utf8(bytes) {
        Ok(text) => f.write_str(text),
        Err(_) => Err(fmt::Error),
    }
}
