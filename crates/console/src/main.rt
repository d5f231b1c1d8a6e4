// Looks into states and archives: commands on standard input, one to a line, and a line of answer for each on standard output.
#![tactic(auto)]

ghost use Rattle.std.specs.Prelude.{◌≡◌, IfOk, IsOk, OnOk, OnErr};
ghost use Rattle.console.specs.Answers.{Denies};
ghost use Rattle.console.specs.Lines.{words_of, IsSilent, Does, Replied};

mod answer;
mod calls;
mod command;
mod problem;
mod session;
mod words;

use answer::{Answer, Reply};
use command::Operands;
use session::Session;
use std::alloc::AllocError;
use std::io;
use std::io::{BufRead, BufReader, BufWriter, Write};

fn main(rt: HostRuntime) -> io::Result<()> {
    let mut input = BufReader::new(rt.alloc(), rt.stdin())?;
    let mut out = BufWriter::new(rt.alloc(), rt.stdout())?;
    let mut session = Session::new();
    let mut operands = Operands::new(rt.alloc());
    let mut line = Vec::new(rt.alloc());
    // a loop is proved to end, and no input has more lines than this
    for _ in 0..u64::MAX {
        line.clear();
        if input.read_until(b'\n', &mut line)? == 0 {
            break;
        }
        answer_line(&mut session, &mut operands, &mut out, &line)?;
        if input.buffer().is_empty() {
            out.flush()?;
        }
    }
    out.flush()
}

// Writes the answer to a line; none to an empty line or a comment.
fn answer_line<O: Write>(
    session: &mut Session,
    operands: &mut Operands,
    out: &mut O,
    line: &[u8],
) -> io::Result<()>
    ensures silent { IsSilent (words_of line.now) → IsOk result }
    ensures idle { IsSilent (words_of line.now) → session.new ≡ session.old }
    ensures unwritten { IsSilent (words_of line.now) → out.new ≡ out.old }
    ensures replied { OnOk result ((IsSilent (words_of line.now) → ⊥)
        → Replied (words_of line.now) session.old session.new (O.contents out.old) (O.contents out.new)) }
{
    match without_end(line) {
        [] | [b'#', ..] => Ok(()),
        words => {
            let answer = answer_of(session, operands, words)?;
            let reply = Reply {
                answer,
                buffer: &operands.buffer,
            };
            writeln!(out, "{reply}")
        }
    }
}

// Does what a line asks for. The answer of `run` is handed on, and `kept` with it: the clause is the promise.
fn answer_of(
    session: &mut Session,
    operands: &mut Operands,
    words: &[u8],
) -> Result<Answer, AllocError>
    ensures done { IfOk result (λ a. Does words.now session.old a operands.new session.new) }
    ensures kept { IfOk result (λ a. Denies a → session.new ≡ session.old) }
    ensures memory { OnErr result (session.new ≡ session.old) }
{
    match command::parse(words, operands) {
        Ok(command) => session.run(command, operands),
        Err(problem) => Ok(Answer::Unreadable(problem)),
    }
}

// The line without its line break.
fn without_end(line: &[u8]) -> &[u8]
    ensures { result.now ≡ words_of line.now }
{
    match line {
        [text @ .., b'\r', b'\n'] | [text @ .., b'\n'] | [text @ .., b'\r'] => text,
        text => text,
    }
}
