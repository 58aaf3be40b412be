// Reads standard input to its end and prints the answers to its lines.
#![tactic(auto)]

ghost use Rattle.std.specs.Prelude.{◌≡◌, ◌+◌, ◌*◌, ◌≤◌, length, IfOk};
ghost use Rattle.answers.specs.Input.{input_limit, bytes_for_each};

use answers::{BYTES_FOR_EACH, INPUT_LIMIT};
use std::io;
use std::io::Read;

// One byte more than an input may have, so that a longer one is seen; and what the longest one needs.
const INPUT_BYTES: usize = INPUT_LIMIT + 1;

const OUTPUT_BYTES: usize = BYTES_FOR_EACH * INPUT_LIMIT;

// A buffer of zeros. Only its length is stated, so that the array need not be computed in a proof.
fn zeros<const N: usize>() -> [u8; N]
    ensures { length result ≡ N }
{
    [0; N]
}

// The buffers of the constants above, whose lengths are the rules': a shorter one for the input would take a longer
// input for one that ends at the limit.
fn input_buffer() -> [u8; INPUT_BYTES]
    ensures { input_limit + 1 ≡ length result }
{
    zeros()
}

fn output_buffer() -> [u8; OUTPUT_BYTES]
    ensures { bytes_for_each * input_limit ≡ length result }
{
    zeros()
}

// Reads until the buffer is full or the input ends, and answers how many bytes were read. The loop is by hand, since
// std's `read_exact` fails where the input ends before, and `read_to_end` puts what it reads on a heap.
fn read_full(input: &mut impl Read, buffer: &mut [u8]) -> io::Result<usize>
    ensures count_in_bounds { IfOk result (λ count. count ≤ length buffer.new) }
{
    let mut count = 0;
    while count < buffer.len() {
        let read = input.read(&mut buffer[count..])?;
        if read == 0 {
            break;
        }
        count += read;
    }
    Ok(count)
}

fn main(rt: HostRuntime) -> io::Result<()> {
    let mut input = input_buffer();
    let count = read_full(&mut rt.stdin(), &mut input)?;
    let mut buffer = output_buffer();
    let length = answers::answer_input(&input[..count], &mut buffer).unwrap();
    rt.write_all(&buffer[..length])
}
