// The program that a box runs: it reads a line from standard input, answers it, and only then reads the next. It
// holds one ledger and one line, which its answer replaces, and nothing more, so that it can run where memory is
// short. Any number of lines may be typed.
#![tactic(auto)]

ghost use Rattle.std.specs.Prelude.{◌≡◌, ◌<◌, length};
ghost use Rattle.forms.specs.Form.{line_limit};
ghost use Rattle.forms.specs.Calls.{line_call};
ghost use Rattle.answers.specs.Answers.{reply_meaning, reply_text};
ghost use Rattle.answers.specs.Input.{line_step, line_reply};
ghost use Rattle.answers.specs.Typed.{LeftByLines};
ghost use Rattle.panel.specs.Steps.{Kept};

use answers::line::{Reply, answer_line, put_reply};
use ledger::Ledger;
use std::io;
use std::io::{ErrorKind, Read};
use std::process::ExitCode;

// One byte more than a line may have, so that a longer one is seen: the rest of it is read and not kept.
const ROOM: usize = forms::LINE_LIMIT + 1;

// Every loop has to end: this is more bytes and more lines than anybody types.
const TURNS: u64 = 0xffff_ffff_ffff_ffff;

// The exit status where nobody reads the answers any more: the one that a shell gives a program which ends at that.
const READER_ENDED: u8 = 141;

// Reads to an LF or the end of the input, keeps the first bytes, as many as there is room for, and answers how many
// they are, or None where the input has ended. A read that fails counts as the end of the input.
fn next_line(input: &mut impl Read, buffer: &mut [u8]) -> Option<usize>
    ensures { Kept buffer.new result }
{
    let mut byte = [0; 1];
    let mut count = 0;
    for _ in 0..TURNS {
        let read = input.read(&mut byte).unwrap_or(0);
        if read == 0 && count == 0 {
            return None;
        }
        if read == 0 || byte[0] == b'\n' {
            break;
        }
        if count < buffer.len() {
            buffer[count] = byte[0];
            count += 1;
        }
    }
    Some(count)
}

// What each turn has to meet: of a ledger that lines left, this line leaves that one and has this reply. It is for
// the prover alone and does nothing; the compiler leaves it out, and with it the copies of its arguments.
fn turn_meets(line: &[u8], before: &Ledger, after: &Ledger, reply: &Reply)
    requires left_by_lines { LeftByLines before.now }
    requires after_value { after.now ≡ line_step before.now (line_call line.now) }
    requires reply_value { reply_meaning reply.now ≡ line_reply before.now (line_call line.now) }
{}

// Writes the text of a reply. The reply is for the prover alone. The loop is by hand, since std's `write_all` has a
// text of an error, which the box would have to hold.
fn print(rt: &impl Print, text: &[u8], reply: &Reply) -> io::Result<()>
    requires { text.now ≡ reply_text (reply_meaning reply.now) }
{
    let mut rest = text;
    while !rest.is_empty() {
        let written = rt.write_some(rest)?;
        if written == 0 {
            break;
        }
        rest = &rest[written..];
    }
    Ok(())
}

// Answers lines until the input ends, or until nobody reads the answers any more, which is an error. Where a write
// fails otherwise, the rest of that answer is lost, and the next line is answered.
fn answer_lines(input: &mut impl Read, rt: &impl Print, buffer: &mut [u8]) -> io::Result<()>
    requires { line_limit < length buffer.old }
{
    let mut ledger = Ledger::new();
    for _ in 0..TURNS {
        let Some(count) = next_line(input, buffer) else {
            break;
        };
        let line = &buffer[..count];
        let before = ledger;
        let reply = answer_line(&mut ledger, line);
        turn_meets(line, &before, &ledger, &reply);
        let end = put_reply(buffer, 0, &reply).unwrap();
        if let Err(e) = print(rt, &buffer[..end], &reply)
            && e.kind() == ErrorKind::BrokenPipe
        {
            return Err(e);
        }
    }
    Ok(())
}

fn main(rt: HostRuntime) -> ExitCode {
    let mut buffer = [0; ROOM];
    match answer_lines(&mut rt.stdin(), &rt, &mut buffer) {
        Ok(()) => ExitCode::SUCCESS,
        Err(_) => ExitCode::from(READER_ENDED),
    }
}
