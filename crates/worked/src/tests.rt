// Worked examples, run.
use archive::codec::{read, write};
use archive::fault::Fault;
use cyclotomic::mod17::Mod17;
use cyclotomic::quads::Cyclotomic64;
use cyclotomic::refusal::Refusal;
use cyclotomic::ring::Ring;
use listing::sheets::{Document, Listing};
use listing::text::ColumnText;
use stabilizer::overlap::overlap;
use stabilizer::state::StabilizerState;
use std::io;

// One qubit: both amplitudes 1/2, and the same with the second turned to i/2.
const LEVEL: [u8; 4] = [0x04, 0x10, 0x00, 0x88];

const TURNED: [u8; 4] = [0x04, 0x10, 0x00, 0x89];
// One qubit, weight -4096, amplitude at the string 0 alone.
const SPENT: [u8; 4] = [0x04, 0x08, 0x00, 0x00];

// The state with these bytes; the built-in one where there is none.
fn state_of(bytes: &[u8]) -> StabilizerState {
    let mut state = StabilizerState::new();
    let _ = read(&mut state, bytes);
    state
}

// The first four bytes of a state.
fn bytes_of(state: &StabilizerState) -> [u8; 4] {
    let mut buffer = [0; 4];
    let _ = write(state, &mut buffer);
    buffer
}

#[test]
fn opens_1_to_48_qubits(rt: HostRuntime) {
    let mut state = StabilizerState::new();
    for (qubits, answer) in [(49, Err(2)), (0, Err(2)), (48, Ok(())), (1, Ok(()))] {
        assert_eq!(rt;
            state.open(qubits).map_err(Refusal::number),
            answer,
            "at {qubits}"
        );
    }
    assert_eq!(rt; bytes_of(&state), [0x04, 0, 0, 0]);
}

#[test]
fn projects_one_qubit(rt: HostRuntime) {
    let opened = [0x04, 0, 0, 0];
    for (bytes, text, answer, left) in [
        (opened, *b"+X", Ok(()), LEVEL),
        (opened, *b"+Y", Ok(()), TURNED),
        (opened, *b"-Z", Err(21), opened),
        (opened, *b"-I", Err(21), opened),
        (LEVEL, *b"+Y", Ok(()), [0x04, 0x10, 0x01, 0x79]),
        (SPENT, *b"+X", Err(22), SPENT),
        (SPENT, *b"-Z", Err(21), SPENT),
        (SPENT, *b"+Z", Ok(()), SPENT),
        (SPENT, *b"*Z", Err(12), SPENT),
    ] {
        let mut state = state_of(&bytes);
        assert_eq!(rt;
            state.project(&text).map_err(Refusal::number),
            answer,
            "at {}",
            text[1]
        );
        assert_eq!(rt; bytes_of(&state), left, "at {}", text[1]);
    }
}

#[test]
fn overlaps_are_conjugate(rt: HostRuntime) {
    let level = state_of(&LEVEL);
    let turned = state_of(&TURNED);
    for (t, s, turn) in [(level, turned, 1), (turned, level, 7)] {
        let triple = overlap(&t, &s).map(|x| (x.epsilon(), x.power(), x.turn()));
        assert_eq!(rt; triple, Ok((1, -3, turn)));
    }
}

#[test]
fn refuses_a_weight_field_of_4097(rt: HostRuntime) {
    let mut state = state_of(&LEVEL);
    let answer = read(&mut state, &[0x04, 0x08, 0x00, 0x80]);
    assert_eq!(rt;
        answer.map_err(|fault| (fault.number(), fault.place())),
        Err((4, 12))
    );
    assert_eq!(rt; bytes_of(&state), LEVEL);
}

#[test]
fn answers_c_in_four_bytes(rt: HostRuntime) {
    for (t, s, number, start) in [
        (LEVEL, LEVEL, 0, [0x80, 0x04, 0, 0]),
        (LEVEL, TURNED, 0, [0x80, 0x06, 0x40, 0]),
        ([0x04, 0x10, 0, 0x8c], LEVEL, 5, [9; 4]),
        (LEVEL, [0x08, 0, 0, 0], 23, [9; 4]),
    ] {
        let mut answer = [9; 6];
        assert_eq!(rt; host::overlap(&t, &s, &mut answer), number);
        assert!(rt; &answer[..4] == start.as_slice(), "at {number}");
        assert!(rt; &answer[4..] == [9; 2].as_slice());
    }
    assert_eq!(rt; host::overlap(&LEVEL, &[], &mut [0; 4]), 1);
    assert_eq!(rt; host::overlap(&[], &[], &mut [0; 3]), 13);
}

#[test]
fn lists_two_states(rt: HostRuntime) -> io::Result<()> {
    let mut text = Vec::new(rt.alloc());
    Listing::write(
        rt.alloc(),
        &mut text,
        &[2, 0x04, 0x10, 0x00, 0x88, 0x04, 0x10, 0x00, 0x89],
    )?;
    let listing =
        "sheets 2\n1 2 1 -3 1 05 0000000000000001000000000000000000000000000000010000000000000000 .\n";
    assert!(rt; text.as_slice() == listing.as_bytes());
    text.clear();
    Listing::write(rt.alloc(), &mut text, &[2, 0x04, 0x10, 0x00, 0x88])?;
    assert!(rt; text.as_slice() == "fault 1 1 2 1 40\n".as_bytes());
    Ok(())
}

#[test]
fn prints_columns_by_their_digits(rt: HostRuntime) -> io::Result<()> {
    let heap = rt.alloc();
    let residue = format!(in heap; "{}", ColumnText(Mod17::omega().negative()))?;
    assert!(rt; residue.as_str() == "0f");
    let quad = format!(in heap; "{}", ColumnText(Cyclotomic64::omega()))?;
    assert!(rt;
        quad.as_str() == "0000000000000000000000000000000100000000000000000000000000000000"
    );
    Ok(())
}
