// Meters: from register to a source's energy in whole watt-hours (document 01, "From register to
// watt-hours"; document 02, wish 4). We take it that the box has no floating-point unit: a register is read by
// the integers of its bits.
#![tactic(auto)]

ghost use Rattle.std.specs.Prelude.{◌≡◌, true, ◌*◌, ◌≤◌, ◌<◌, ltb, length};
ghost use Rattle.std.specs.List.{list_all};
ghost use Rattle.std.specs.Float.{binary32};
ghost use Rattle.std.specs.Float.Ieee.{of_bits};
ghost use Rattle.rounding.specs.Outcome.{outcome_of};
ghost use Rattle.metering.specs.Reading.{exact_register, is_readable_register, ratio_fits, watt_hours};
ghost use Rattle.metering.specs.Energy.{
  first_of,
  last_of,
  adding,
  taking,
  has_ratio,
  runs_back,
  judged_meters,
  settled_energy,
  no_meter,
  meters_limit,
};
ghost use Rattle.metering.specs.Steps.{magnitude, rounded_both_ways, is_read, meter_read, meters_read};

use rounding::{Direction, Refusal};

// A meter reading: a whole count of watt-hours, or a binary32 register in kWh.
#[derive(Clone, Copy)]
pub enum Reading {
    Whole(u64),
    Single(f32),
}

impl Reading {
    // The largest accepted reading, times its meter's ratio, and the largest accepted energy of a source, in
    // watt-hours.
    pub const LIMIT: u64 = 100_000_000_000;
}

// The first and the last register of a single meter, in kWh.
#[derive(Clone, Copy)]
pub struct Registers {
    pub first: f32,
    pub last: f32,
}

// Whether a meter's energy adds to its source's energy or is taken from it.
#[derive(Clone, Copy)]
pub enum Sign {
    Plus,
    Minus,
}

// A meter's first and last reading, both of one kind.
#[derive(Clone, Copy)]
pub enum Interval {
    Counts(u64, u64),
    Singles(Registers),
}

// A meter behind a transformer counts a part of the energy: what its readings stand for is their value times
// the ratio. Without a transformer the ratio is 1.
#[derive(Clone, Copy)]
pub struct Meter {
    pub ratio: u16,
    pub sign: Sign,
    pub interval: Interval,
}

impl Meter {
    // The most meters of a source, and the places for them in an entry.
    pub const COUNT_LIMIT: u8 = 4;

    pub const PLACES: usize = Meter::COUNT_LIMIT as usize;

    // The largest ratio. The least is 1.
    pub const RATIO_LIMIT: u16 = 10_000;
}

// The readings that add to a source's energy and those that are taken from it, rounded and summed up.
#[derive(Clone, Copy)]
pub struct RoundedReadings {
    pub adds: u64,
    pub takes: u64,
}

// The bit pattern of -0: those above it are of registers below zero, or of no number.
const MINUS_ZERO: u32 = 0x8000_0000;

// The bit pattern of infinity: those above it are of no number.
const INFINITY: u32 = 0x7f80_0000;

// The register with this bit pattern. Every NaN pattern gives a NaN.
pub fn register(bits: u32) -> f32
    ensures { result ≡ of_bits binary32 bits }
{
    if bits % 0x8000_0000 > INFINITY {
        return f32::NAN;
    }
    f32::from_bits(bits)
}

// An exact value in whole watt-hours, rounded down and up.
#[derive(Clone, Copy)]
struct Bounds {
    down: u64,
    up: u64,
}

// A finite register's magnitude times a ratio, rounded both ways. Its significand, the digits with a leading
// one, counts 1,000 × 2^(field - 150) Wh, which is 8,000 × 2^(field - 153): up to field 153 a shift to the
// right. Field 0 has no leading one and counts as field 1 does. The count is below 2^53, so a shift by 63 loses
// all of it, as the longer ones of small fields would.
fn round_both_ways(field: u32, digits: u32, ratio: u16) -> Bounds
    requires { (field ≤ 153) × (digits < 8388608) }
    ensures { result ≡ rounded_both_ways (magnitude field digits * ratio) }
{
    let significand = if field == 0 {
        digits
    } else {
        digits + 0x80_0000
    };
    let count = significand as u64 * 8000 * ratio as u64;
    let shift = if field < 90 { 63 } else { 153 - field };
    let down = count >> shift;
    let up = if down << shift == count {
        down
    } else {
        down + 1
    };
    Bounds { down, up }
}

// Whether a ratio is in its range.
fn ratio_fits(ratio: u16) -> bool
    ensures { result ≡ ratio_fits ratio }
{
    (1..=Meter::RATIO_LIMIT).contains(&ratio)
}

// The whole watt-hours of the register with this bit pattern, times the ratio. The limit is on the exact product,
// which is above it exactly where the product rounded up is.
fn register_watt_hours(bits: u32, ratio: u16, direction: Direction) -> Result<u64, Refusal>
    requires { ratio_fits ratio ≡ true }
    ensures { outcome_of result ≡ watt_hours direction ratio (Reading.Single (of_bits binary32 bits)) }
{
    let field = bits % 0x8000_0000 / 0x80_0000;
    // Patterns above that of -0 are those of registers below zero and of no number. From field 154 on they are 2^27 kWh
    // and more, or no number: beyond the limit by every ratio, and beyond what the shift takes.
    if bits > MINUS_ZERO || field > 153 {
        return Err(Refusal::UnreadableReading);
    }
    let bounds = round_both_ways(field, bits % 0x80_0000, ratio);
    if bounds.up > Reading::LIMIT {
        return Err(Refusal::UnreadableReading);
    }
    match direction {
        Direction::Up => Ok(bounds.up),
        Direction::Down => Ok(bounds.down),
    }
}

// The whole watt-hours of a reading times its ratio, in the direction.
pub fn watt_hours(reading: Reading, ratio: u16, direction: Direction) -> Result<u64, Refusal>
    ensures { outcome_of result ≡ watt_hours direction ratio reading }
{
    if !ratio_fits(ratio) {
        return Err(Refusal::OutOfLimits);
    }
    match reading {
        Reading::Whole(count) => {
            // A count above the limit is so by every ratio, and its product may not fit. A checked product would take a
            // division.
            if count > Reading::LIMIT || count * ratio as u64 > Reading::LIMIT {
                return Err(Refusal::UnreadableReading);
            }
            Ok(count * ratio as u64)
        }
        // A NaN has no pattern of its own.
        Reading::Single(x) if x.is_nan() => Err(Refusal::UnreadableReading),
        Reading::Single(x) => register_watt_hours(x.to_bits(), ratio, direction),
    }
}

impl Interval {
    fn first(&self) -> Reading
        ensures { result ≡ first_of self.now }
    {
        match *self {
            Interval::Counts(first, _) => Reading::Whole(first),
            Interval::Singles(registers) => Reading::Single(registers.first),
        }
    }

    fn last(&self) -> Reading
        ensures { result ≡ last_of self.now }
    {
        match *self {
            Interval::Counts(_, last) => Reading::Whole(last),
            Interval::Singles(registers) => Reading::Single(registers.last),
        }
    }
}

impl Registers {
    // Whether the last register is below the first. The patterns of numbers from zero, read as integers
    // without the sign, which only -0 has, are in the order of the values. Other registers are refused
    // before, so they are ruled out here: below zero the order is the opposite, and a NaN has none.
    fn run_back(self) -> bool
        requires { (is_readable_register self.first ≡ true) × (is_readable_register self.last ≡ true) }
        ensures { result ≡ ltb (exact_register self.last) (exact_register self.first) }
    {
        self.last.to_bits() % 0x8000_0000 < self.first.to_bits() % 0x8000_0000
    }
}

impl Meter {
    // The empty meter: what a place for a meter holds where there is none.
    pub fn empty() -> Meter
        ensures { result ≡ no_meter }
    {
        Meter {
            ratio: 1,
            sign: Sign::Plus,
            interval: Interval::Counts(0, 0),
        }
    }

    // The reading that adds to the source's energy.
    fn adding(&self) -> Reading
        ensures { result ≡ adding self.now }
    {
        match self.sign {
            Sign::Plus => self.interval.last(),
            Sign::Minus => self.interval.first(),
        }
    }

    // The reading that is taken from it.
    fn taking(&self) -> Reading
        ensures { result ≡ taking self.now }
    {
        match self.sign {
            Sign::Plus => self.interval.first(),
            Sign::Minus => self.interval.last(),
        }
    }

    // Whether the last reading is below the first, by exact value: both times one ratio, which is not 0, are
    // in the order of the readings. Numbers 2 and 3 come before number 4, so the meter is one that is read.
    fn runs_back(&self) -> bool
        requires { is_read self.now ≡ true }
        ensures { result ≡ runs_back self.now }
    {
        match self.interval {
            Interval::Counts(first, last) => last < first,
            Interval::Singles(registers) => registers.run_back(),
        }
    }
}

// The readings of a meter or several, rounded, and whether one runs back.
#[derive(Clone, Copy)]
struct Moved {
    readings: RoundedReadings,
    back: bool,
}

// One meter: what adds is rounded in the source's direction, what is taken in the opposite one, both times the
// meter's ratio.
fn read_meter(meter: &Meter, direction: Direction) -> Result<Moved, Refusal>
    requires { has_ratio meter.now ≡ true }
    ensures { outcome_of result ≡ meter_read direction meter.now }
{
    let takes = watt_hours(meter.taking(), meter.ratio, direction.reversed())?;
    let adds = watt_hours(meter.adding(), meter.ratio, direction)?;
    Ok(Moved {
        readings: RoundedReadings { adds, takes },
        back: meter.runs_back(),
    })
}

// All meters together. A meter that runs back does not end the loop: number 3 is tested over all meters before
// number 4.
fn read_meters(meters: &[Meter], direction: Direction) -> Result<Moved, Refusal>
    requires few { length meters.now ≤ meters_limit }
    requires ratios { list_all has_ratio meters.now ≡ true }
    ensures { outcome_of result ≡ meters_read direction meters.now }
{
    let mut adds = 0;
    let mut takes = 0;
    let mut back = false;
    for meter in meters {
        let moved = read_meter(meter, direction)?;
        adds += moved.readings.adds;
        takes += moved.readings.takes;
        back |= moved.back;
    }
    Ok(Moved {
        readings: RoundedReadings { adds, takes },
        back,
    })
}

// Whether the ratios of all meters are in their range.
fn ratios_fit(meters: &[Meter]) -> bool
    ensures { result ≡ list_all has_ratio meters.now }
{
    for meter in meters {
        if !ratio_fits(meter.ratio) {
            return false;
        }
    }
    true
}

// The rounded readings of a source's meters, the first `count` of the four, or the first refusal of 2, 3
// and 4 that is due (document 01, "Source entry"). Number 2 is tested over all meters before number 3 of any.
#[tactic(auto, unfolding(crate::specs::Energy::judged_meters, crate::specs::Energy::judged_readings))]
pub fn judge_meters(
    meters: &[Meter; Meter::PLACES],
    count: u8,
    direction: Direction,
) -> Result<RoundedReadings, Refusal>
    ensures { outcome_of result ≡ judged_meters direction count meters.now }
{
    if !(1..=Meter::COUNT_LIMIT).contains(&count) {
        return Err(Refusal::OutOfLimits);
    }
    let meters = &meters[..count as usize];
    if !ratios_fit(meters) {
        return Err(Refusal::OutOfLimits);
    }
    let moved = read_meters(meters, direction)?;
    if moved.back {
        return Err(Refusal::RunsBack);
    }
    Ok(moved.readings)
}

// A source's energy from its rounded readings, or refusal 6.
#[tactic(auto, unfolding(crate::specs::Energy::settled_energy))]
pub fn settle_energy(readings: RoundedReadings) -> Result<u64, Refusal>
    ensures { outcome_of result ≡ settled_energy readings.adds readings.takes }
{
    readings
        .adds
        .checked_sub(readings.takes)
        .filter(|energy| *energy <= Reading::LIMIT)
        .ok_or(Refusal::EnergyOutOfLimits)
}
