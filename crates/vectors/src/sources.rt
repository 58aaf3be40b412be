// The meters of a source: its direction, up (0) or down (1), its number of meters, and four meters, each by its
// ratio, its sign, + (0) or - (1), its kind, whole (0) or single (1), and its first and last reading. Writes the
// source's energy, or the number of the refusal.
use crate::lines::{Fields, read_line, write_result};
use rounding::Refusal;
use std::io;
use std::io::Read;

fn energy(line: &[u8]) -> Result<u64, Refusal> {
    let mut fields = Fields::new(line);
    let direction = fields.direction();
    let count = fields.next_u8();
    let readings = metering::judge_meters(&fields.meters(), count, direction)?;
    metering::settle_energy(readings)
}

pub fn answer_line(input: &mut impl Read, rt: &impl Print) -> io::Result<bool> {
    let Some(line) = read_line::<374>(input)? else {
        return Ok(false);
    };
    write_result(rt, energy(&line))?;
    Ok(true)
}
