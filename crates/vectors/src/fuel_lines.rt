// A fuel line: a direction, up (0) or down (1), and the line's kind, energy (0), mass (1) or volume (2), and
// three figures: Q, V and C; Q, W and one that is not read; Q, the density and W. Writes its milligrams of CO2,
// or that it is refused.
use crate::lines::{Fields, read_line, write_result};
use rounding::Direction;
use std::io;
use std::io::Read;

pub fn answer_line(input: &mut impl Read, rt: &impl Print) -> io::Result<bool> {
    let Some(line) = read_line::<85>(input)? else {
        return Ok(false);
    };
    let mut fields = Fields::new(&line);
    let direction = fields.direction();
    let both = fields.fuel_line().milligrams();
    let rounded = match direction {
        Direction::Up => both.map(|both| both.up),
        Direction::Down => both.map(|both| both.down),
    };
    write_result(rt, rounded)?;
    Ok(true)
}
