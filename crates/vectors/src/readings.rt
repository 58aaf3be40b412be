// A reading: its meter's ratio, its kind, whole (0) or single (1), and its count of watt-hours or its register's
// bits. Writes its watt-hours down and up, or the number of the refusal.
use crate::lines::{Fields, read_line, write_result};
use metering::Reading;
use rounding::Direction;
use std::io;
use std::io::Read;

fn reading(fields: &mut Fields<'_>) -> Reading {
    match fields.next_u64() {
        0 => Reading::Whole(fields.next_u64()),
        _ => Reading::Single(fields.register()),
    }
}

// Every reading is read in both directions, so a refusal in one of them alone shows.
fn answer(rt: &impl Print, reading: Reading, ratio: u16) -> io::Result<()> {
    if let Ok(down) = metering::watt_hours(reading, ratio, Direction::Down) {
        print!(rt; "{down} ")?;
    }
    write_result(rt, metering::watt_hours(reading, ratio, Direction::Up))
}

pub fn answer_line(input: &mut impl Read, rt: &impl Print) -> io::Result<bool> {
    let Some(line) = read_line::<51>(input)? else {
        return Ok(false);
    };
    let mut fields = Fields::new(&line);
    let ratio = fields.next_u16();
    answer(rt, reading(&mut fields), ratio)?;
    Ok(true)
}
