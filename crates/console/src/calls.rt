ghost use Rattle.std.specs.Prelude.{◌≡◌, [], ◌∷◌, ◌++◌, IfOk, OnOk, IfSome, codes, map};
ghost use Rattle.circuit.specs.Made.{call_of};
ghost use Rattle.circuit.specs.declared.call.Call.{Call};
ghost use Rattle.console.specs.Parts.{AreCalls, IsCall, IsText};

use crate::problem::Problem;
use crate::words::number_of;
use circuit::call::Call;
use listing::hex::Hex;

// Puts the calls that a word stands for into `out`, in place of what it held: `-` for none, else calls with a semicolon between them.
pub(crate) fn read_calls(word: &[u8], out: &mut Vec<Call>) -> Result<(), Problem>
    ensures { OnOk result (AreCalls (map call_of out.new.items) word.now) }
{
    out.clear();
    if let [b'-'] = word {
        return Ok(());
    }
    for call in word.split(|byte| *byte == b';') {
        push_call(call, out)?;
    }
    Ok(())
}

// One call more: `g:KIND:J:L` for a gate, and `p:TEXT` for a projection.
fn push_call(word: &[u8], out: &mut Vec<Call>) -> Result<(), Problem>
    ensures { OnOk result ((call : Call) × (out.new.items ≡ out.old.items ++ call ∷ []) × IsCall (call_of call) word.now) }
{
    let call = match word {
        [b'g', b':', numbers @ ..] => gate_of(numbers)?,
        [b'p', b':', text @ ..] => {
            let mut bytes = Vec::new(*out.allocator());
            read_text(text, &mut bytes)?;
            Call::Project(bytes)
        }
        _ => return Err(Problem::NoCall),
    };
    out.push(call)?;
    Ok(())
}

// The gate with a kind, a first and a second qubit, with colons between them.
fn gate_of(numbers: &[u8]) -> Result<Call, Problem>
    ensures { IfOk result (λ call. IsCall (call_of call) (codes "g:" ++ numbers.now)) }
{
    let (kind, qubits) = cut(numbers).ok_or(Problem::NoCall)?;
    let (first, second) = cut(qubits).ok_or(Problem::NoCall)?;
    Ok(Call::Gate {
        kind: number_of(kind)?,
        first: number_of(first)?,
        second: number_of(second)?,
    })
}

// Puts the bytes of a Pauli text into `out`, in place of what it held: after `x:` as pairs of hexadecimal digits, else as they stand.
pub(crate) fn read_text(word: &[u8], out: &mut Vec<u8>) -> Result<(), Problem>
    ensures { OnOk result (IsText out.new.items word.now) }
{
    if let [b'x', b':', digits @ ..] = word {
        Hex::new(digits).ok_or(Problem::NoPairs)?.decode(out)?;
        return Ok(());
    }
    out.clear();
    out.extend_from_slice(word)?;
    Ok(())
}

// What stands before the first colon, and what stands after it.
fn cut(text: &[u8]) -> Option<(&[u8], &[u8])>
    ensures { IfSome result (λ parts. text.now ≡ parts.0.now ++ (codes ":" ++ parts.1.now)) }
{
    let at = text.iter().position(|byte| *byte == b':')?;
    Some((&text[..at], &text[at + 1..]))
}
