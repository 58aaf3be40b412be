// A quotient: its operation, a, b and d. The operations are a ÷ d up (0) and down (1), and a × b ÷ d up (2)
// and down (3). Writes the quotient, or that it is too large.
use crate::lines::{Fields, direction, read_line};
use std::io;
use std::io::Read;

// None where the quotient is too large.
fn quotient(line: &[u8]) -> Option<u64> {
    let mut fields = Fields::new(line);
    let operation = fields.next_u64();
    let a = fields.next_u64();
    let b = fields.next_u32();
    if operation < 2 {
        return Some(rounding::divide(direction(operation), a, fields.next_u64()));
    }
    rounding::multiply_divide(direction(operation), a, b, fields.next_u32())
}

pub fn answer_line(input: &mut impl Read, rt: &impl Print) -> io::Result<bool> {
    let Some(line) = read_line::<68>(input)? else {
        return Ok(false);
    };
    match quotient(&line) {
        Some(number) => println!(rt; "{number}")?,
        None => println!(rt; "too large")?,
    }
    Ok(true)
}
