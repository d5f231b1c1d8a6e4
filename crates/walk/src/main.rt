// Divides a sample circuit between two states at every place, and prints what each division comes to: the same scalar on every line, as
// the mark behind it says.
#![tactic(auto)]

use circuit::call::Call;
use circuit::division::split;
use listing::comparison::Mark;
use stabilizer::gate::Gate;
use stabilizer::state::StabilizerState;

const QUBITS: u64 = 3;

fn main(rt: HostRuntime) -> anyhow::Result<()> {
    let mut s = StabilizerState::new();
    if let Err(refusal) = s.open(QUBITS) {
        println!(rt; "{refusal}")?;
        return Ok(());
    }
    let t = s;
    let mut calls = Vec::new(rt.alloc());
    push_calls(&mut calls)?;
    let mut first = None;
    for place in 0..=calls.len() as u64 {
        match split(&s, &t, &calls, place) {
            Ok(Some(scalar)) => {
                let mark = Mark(first.get_or_insert(scalar).same(&scalar));
                println!(rt; "{place}: {scalar} {mark}")?;
            }
            Ok(None) => println!(rt; "{place}: aside")?,
            Err(refusal) => println!(rt; "{place}: {refusal}")?,
        }
    }
    Ok(())
}

// Three qubits are entangled, turned, and taken apart again; the call that no qubit fits counts as none.
fn push_calls(calls: &mut Vec<Call>) -> anyhow::Result<()> {
    push_projection(calls, b"+XII")?;
    push_gate(calls, Gate::CNot, 1, 2)?;
    push_gate(calls, Gate::CNot, 2, 3)?;
    push_gate(calls, Gate::S, 3, 0)?;
    push_gate(calls, Gate::X, 4, 0)?;
    push_gate(calls, Gate::CZ, 1, 3)?;
    push_projection(calls, b"-IYX")?;
    push_gate(calls, Gate::SDagger, 2, 0)?;
    push_gate(calls, Gate::Z, 1, 0)?;
    push_projection(calls, b"+XXI")
}

fn push_gate(calls: &mut Vec<Call>, gate: Gate, first: u64, second: u64) -> anyhow::Result<()> {
    calls.push(Call::Gate {
        kind: gate.number(),
        first,
        second,
    })?;
    Ok(())
}

fn push_projection(calls: &mut Vec<Call>, text: &[u8]) -> anyhow::Result<()> {
    let mut bytes = Vec::new(*calls.allocator());
    bytes.extend_from_slice(text)?;
    calls.push(Call::Project(bytes))?;
    Ok(())
}
