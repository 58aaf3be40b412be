// The text that the program tally reads, and its answers: a whole input to a whole output (document 01,
// "The text the program tally reads").
#![tactic(auto)]

pub mod line;

ghost use Rattle.std.specs.Prelude.{◌≡◌, ◌*◌, ◌≤◌, length};
ghost use Rattle.text.specs.Buffer.{put_at};
ghost use Rattle.answers.specs.Input.{input_limit, bytes_for_each, output, written, buffer_after};

use ledger::Ledger;

// The most bytes of an input.
pub const INPUT_LIMIT: usize = 65_536;

// The bytes that a buffer needs for each byte of an input, and for the refusal of a longer one.
pub const BYTES_FOR_EACH: usize = 18;

pub const BYTES_OF_REFUSAL: usize = 11;

// Answers the lines of an input one after the other, each by the ledger that the lines before it left.
fn answer_lines(input: &[u8], buffer: &mut [u8]) -> usize
    requires input_len_bound { length input.now ≤ input_limit }
    requires input_in_bounds { bytes_for_each * length input.now ≤ length buffer.old }
    ensures value { result ≡ length (output input.now) }
    ensures buffer_after { buffer.new ≡ put_at buffer.old 0 (output input.now) }
{
    let mut ledger = Ledger::new();
    let mut at = 0;
    for line in input.split_inclusive(|byte| *byte == b'\n') {
        let line = line.strip_suffix(b"\n").unwrap_or(line);
        let reply = line::answer_line(&mut ledger, line);
        at = line::put_reply(buffer, at, &reply).unwrap();
    }
    at
}

// Answers a whole input: how many bytes of the buffer are its output. A buffer below 18 bytes for each byte of the
// input, or 11 for an input above 65,536 bytes, might be too short: then nothing is written.
pub fn answer_input(input: &[u8], buffer: &mut [u8]) -> Option<usize>
    ensures value { result ≡ written input.now (length buffer.old) }
    ensures buffer_after { buffer.new ≡ buffer_after buffer.old input.now }
{
    if input.len() > INPUT_LIMIT {
        if buffer.len() < BYTES_OF_REFUSAL {
            return None;
        }
        return Some(text::put_word(buffer, 0, b"refused 14\n").unwrap());
    }
    if buffer.len() < BYTES_FOR_EACH * input.len() {
        return None;
    }
    Some(answer_lines(input, buffer))
}
