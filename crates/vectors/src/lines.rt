// A line of 64-bit fields, each of 16 lower-case hexadecimal digits, with a space between two and a line feed
// at the end. Every line of one kind has the same number of fields.
use fuel::{FuelKind, FuelLine};
use metering::{Interval, Meter, Registers, Sign};
use rounding::{Direction, Refusal};
use std::fmt::Display;
use std::io;
use std::io::{ErrorKind, Read};

// The bytes of a field with what follows it, and its digits alone.
const FIELD: usize = 17;

const DIGITS: usize = 16;

// A line of N bytes, or none where there are not so many.
pub fn read_line<const N: usize>(input: &mut impl Read) -> io::Result<Option<[u8; N]>> {
    let mut line = [0u8; N];
    match input.read_exact(&mut line) {
        Ok(()) => Ok(Some(line)),
        Err(e) if e.kind() == ErrorKind::UnexpectedEof => Ok(None),
        Err(e) => Err(e),
    }
}

// The value of a hexadecimal digit. The code of a letter is 64 and more, and its last four bits are 1 for
// `a`, which stands for 10.
fn digit_value(digit: u8) -> u64 {
    let code = u64::from(digit);
    (code % 16 + code / 64 * 9) % 16
}

// Up where the number is even, down where it is odd.
pub fn direction(number: u64) -> Direction {
    if number % 2 == 0 {
        Direction::Up
    } else {
        Direction::Down
    }
}

// The fields of a line, read one after the other.
#[derive(Drop)]
pub struct Fields<'a> {
    rest: &'a [u8],
}

impl<'a> Fields<'a> {
    pub fn new(line: &'a [u8]) -> Fields<'a> {
        Fields { rest: line }
    }

    // The next field, or 0 past the line's end. Of sixteen digits none falls off at the front.
    pub fn next_u64(&mut self) -> u64 {
        let Some((field, rest)) = self.rest.split_at_checked(FIELD) else {
            return 0;
        };
        self.rest = rest;
        let mut number: u64 = 0;
        for digit in field.iter().take(DIGITS) {
            number = number.wrapping_mul(16).wrapping_add(digit_value(*digit));
        }
        number
    }

    pub fn next_u8(&mut self) -> u8 {
        (self.next_u64() % 0x100) as u8
    }

    pub fn next_u16(&mut self) -> u16 {
        (self.next_u64() % 0x1_0000) as u16
    }

    pub fn next_u32(&mut self) -> u32 {
        (self.next_u64() % 0x1_0000_0000) as u32
    }

    pub fn direction(&mut self) -> Direction {
        direction(self.next_u64())
    }

    // A fuel line: its kind and three figures, as fuel_lines.rt says.
    pub fn fuel_line(&mut self) -> FuelLine {
        let number = self.next_u64();
        let quantity = self.next_u32();
        let second = self.next_u32();
        let third = self.next_u32();
        let kind = match number {
            0 => FuelKind::Energy {
                quantity,
                ncv: second,
                factor: third,
            },
            1 => FuelKind::Mass {
                quantity,
                carbon: second,
            },
            _ => FuelKind::Volume {
                quantity,
                density: second,
                carbon: third,
            },
        };
        FuelLine { kind }
    }

    // A sign: 0 is +, and 1 -.
    fn sign(&mut self) -> Sign {
        match self.next_u64() {
            0 => Sign::Plus,
            _ => Sign::Minus,
        }
    }

    // An interval: its kind, whole (0) or single (1), and its first and last reading.
    fn interval(&mut self) -> Interval {
        match self.next_u64() {
            0 => Interval::Counts(self.next_u64(), self.next_u64()),
            _ => Interval::Singles(Registers {
                first: self.register(),
                last: self.register(),
            }),
        }
    }

    // A register by its bits.
    pub fn register(&mut self) -> f32 {
        metering::register(self.next_u32())
    }

    // A meter: its ratio, its sign and its interval.
    fn meter(&mut self) -> Meter {
        Meter {
            ratio: self.next_u16(),
            sign: self.sign(),
            interval: self.interval(),
        }
    }

    pub fn meters(&mut self) -> [Meter; Meter::PLACES] {
        [self.meter(), self.meter(), self.meter(), self.meter()]
    }
}

// Writes a line with what was given, or with the number of the refusal.
pub fn write_result<T: Display + Drop>(
    rt: &impl Print,
    answer: Result<T, Refusal>,
) -> io::Result<()> {
    match answer {
        Ok(given) => println!(rt; "{given}"),
        Err(refusal) => println!(rt; "refused {}", refusal.number()),
    }
}
