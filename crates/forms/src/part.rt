// The parts of a form, each read at the start of a text, with the rest of the text after it (document 01, "The text
// the program tally reads": "Forms"). The templates are those of the crate `text`: # is the place of a decimal, %
// that of a register.
ghost use Rattle.std.specs.Prelude.{◌≡◌, ℕ, List, length, Option, Some};
ghost use Rattle.text.specs.Read.{Read, map_read, read_meaning};
ghost use Rattle.forms.specs.Form.{whole, single};
ghost use Rattle.forms.specs.Reading.{
  one_of,
  kinds,
  sides,
  supplies,
  losses,
  plain_meters,
  ratio_meters,
  meters,
  fuels,
  optional_of,
  heats,
};
ghost use Rattle.forms.specs.Calls.{
  meter_of,
  heat_of,
  byte_field,
  half_field,
  word_field,
  fitted_supply,
  fitted_loss,
  fitted_meter_of,
  fitted_line,
};
ghost use Rattle.forms.specs.Steps.{parts_in, placed_from};

use emissions::{GridKind, Loss, Side, Supply};
use fuel::{FuelKind, FuelLine};
use metering::{Interval, Meter, Registers, Sign};

// A part of a form.
pub trait Part: Sized {
    ghost part_in: { List ℕ → Option (Read Self) };

    // Reads the part at the start of a text, and answers the rest of the text with it.
    fn read(text: &[u8]) -> Option<(Self, &[u8])>
        ensures { read_meaning result ≡ part_in text.now };
}

// The ratio of a meter that is written without one (document 02, wish 4: "left out, it is 1").
const RATIO_LEFT_OUT: u16 = 1;

// The heat of a plant that is written without one (document 02, wish 5: "H zero or unstated means as before").
const HEAT_LEFT_OUT: u64 = 0;

// A number in its field: the largest of the field where it is larger. That is above every limit, and above what
// weights sum to, so that an entry refuses it alike. One line for each width is plainer than a trait of their largest
// numbers.
pub fn byte_field(number: u64) -> u8
    ensures { result ≡ byte_field number }
{
    number.min(u8::MAX as u64) as u8
}

fn half_field(number: u64) -> u16
    ensures { result ≡ half_field number }
{
    number.min(u16::MAX as u64) as u16
}

pub fn word_field(number: u64) -> u32
    ensures { result ≡ word_field number }
{
    number.min(u32::MAX as u64) as u32
}

impl Part for GridKind {
    ghost part_in = { λ t. one_of kinds t };

    #[tactic(auto, unfolding(crate::specs::Reading::one_of, crate::specs::Reading::kinds))]
    fn read(text: &[u8]) -> Option<(GridKind, &[u8])> {
        if let Some((_, rest)) = text::read_template(text, b"thermal") {
            return Some((GridKind::Thermal, rest));
        }
        if let Some((_, rest)) = text::read_template(text, b"hydro") {
            return Some((GridKind::Hydro, rest));
        }
        None
    }
}

impl Part for Side {
    ghost part_in = { λ t. one_of sides t };

    #[tactic(auto, unfolding(crate::specs::Reading::one_of, crate::specs::Reading::sides))]
    fn read(text: &[u8]) -> Option<(Side, &[u8])> {
        if let Some((_, rest)) = text::read_template(text, b"project") {
            return Some((Side::Project, rest));
        }
        if let Some((_, rest)) = text::read_template(text, b"leakage") {
            return Some((Side::Leakage, rest));
        }
        if let Some((_, rest)) = text::read_template(text, b"baseline") {
            return Some((Side::Baseline, rest));
        }
        None
    }
}

impl Part for Supply {
    ghost part_in = { λ t. map_read fitted_supply (one_of supplies t) };

    fn read(text: &[u8]) -> Option<(Supply, &[u8])> {
        if let Some((_, rest)) = text::read_template(text, b" (combined)") {
            return Some((Supply::Combined, rest));
        }
        if let Some((_, rest)) = text::read_template(text, b" (griddefault)") {
            return Some((Supply::GridDefault, rest));
        }
        if let Some((numbers, rest)) = text::read_template(text, b" (captive #)") {
            return Some((Supply::Captive(byte_field(numbers.first)), rest));
        }
        if let Some((_, rest)) = text::read_template(text, b" (captivedefault)") {
            return Some((Supply::CaptiveDefault, rest));
        }
        if let Some((numbers, rest)) = text::read_template(text, b" (either #)") {
            return Some((Supply::Either(byte_field(numbers.first)), rest));
        }
        None
    }
}

impl Part for Loss {
    ghost part_in = { λ t. map_read fitted_loss (one_of losses t) };

    fn read(text: &[u8]) -> Option<(Loss, &[u8])> {
        if let Some((numbers, rest)) = text::read_template(text, b" (loss #)") {
            return Some((Loss::Measured(half_field(numbers.first)), rest));
        }
        if let Some((_, rest)) = text::read_template(text, b" (default20)") {
            return Some((Loss::Default20, rest));
        }
        if let Some((_, rest)) = text::read_template(text, b" (default3)") {
            return Some((Loss::Default3, rest));
        }
        if let Some((_, rest)) = text::read_template(text, b" (none)") {
            return Some((Loss::Nothing, rest));
        }
        None
    }
}

fn whole_meter(ratio: u16, sign: Sign, first: u64, last: u64) -> Meter
    ensures { result ≡ meter_of (whole (Some ratio) sign first last) }
{
    Meter {
        ratio,
        sign,
        interval: Interval::Counts(first, last),
    }
}

fn single_meter(ratio: u16, sign: Sign, first: u64, last: u64) -> Meter
    ensures { result ≡ meter_of (single (Some ratio) sign (word_field first) (word_field last)) }
{
    Meter {
        ratio,
        sign,
        interval: Interval::Singles(Registers {
            first: metering::register(word_field(first)),
            last: metering::register(word_field(last)),
        }),
    }
}

// A meter whose ratio is left out.
fn read_plain_meter(text: &[u8]) -> Option<(Meter, &[u8])>
    ensures { read_meaning result ≡ map_read fitted_meter_of (one_of plain_meters text.now) }
{
    if let Some((numbers, rest)) = text::read_template(text, b" (whole + # #)") {
        let meter = whole_meter(RATIO_LEFT_OUT, Sign::Plus, numbers.first, numbers.second);
        return Some((meter, rest));
    }
    if let Some((numbers, rest)) = text::read_template(text, b" (whole - # #)") {
        let meter = whole_meter(RATIO_LEFT_OUT, Sign::Minus, numbers.first, numbers.second);
        return Some((meter, rest));
    }
    if let Some((numbers, rest)) = text::read_template(text, b" (single + % %)") {
        let meter = single_meter(RATIO_LEFT_OUT, Sign::Plus, numbers.first, numbers.second);
        return Some((meter, rest));
    }
    if let Some((numbers, rest)) = text::read_template(text, b" (single - % %)") {
        let meter = single_meter(RATIO_LEFT_OUT, Sign::Minus, numbers.first, numbers.second);
        return Some((meter, rest));
    }
    None
}

// A meter with a ratio before its sign.
fn read_ratio_meter(text: &[u8]) -> Option<(Meter, &[u8])>
    ensures { read_meaning result ≡ map_read fitted_meter_of (one_of ratio_meters text.now) }
{
    if let Some((numbers, rest)) = text::read_template(text, b" (whole # + # #)") {
        let ratio = half_field(numbers.first);
        let meter = whole_meter(ratio, Sign::Plus, numbers.second, numbers.third);
        return Some((meter, rest));
    }
    if let Some((numbers, rest)) = text::read_template(text, b" (whole # - # #)") {
        let ratio = half_field(numbers.first);
        let meter = whole_meter(ratio, Sign::Minus, numbers.second, numbers.third);
        return Some((meter, rest));
    }
    if let Some((numbers, rest)) = text::read_template(text, b" (single # + % %)") {
        let ratio = half_field(numbers.first);
        let meter = single_meter(ratio, Sign::Plus, numbers.second, numbers.third);
        return Some((meter, rest));
    }
    if let Some((numbers, rest)) = text::read_template(text, b" (single # - % %)") {
        let ratio = half_field(numbers.first);
        let meter = single_meter(ratio, Sign::Minus, numbers.second, numbers.third);
        return Some((meter, rest));
    }
    None
}

impl Part for Meter {
    ghost part_in = { λ t. map_read fitted_meter_of (one_of meters t) };

    fn read(text: &[u8]) -> Option<(Meter, &[u8])> {
        read_plain_meter(text).or_else(|| read_ratio_meter(text))
    }
}

impl Part for FuelLine {
    ghost part_in = { λ t. map_read fitted_line (one_of fuels t) };

    fn read(text: &[u8]) -> Option<(FuelLine, &[u8])> {
        if let Some((numbers, rest)) = text::read_template(text, b" (fuel # # #)") {
            let quantity = word_field(numbers.first);
            let ncv = word_field(numbers.second);
            let factor = word_field(numbers.third);
            let kind = FuelKind::Energy {
                quantity,
                ncv,
                factor,
            };
            return Some((FuelLine { kind }, rest));
        }
        if let Some((numbers, rest)) = text::read_template(text, b" (mass # #)") {
            let quantity = word_field(numbers.first);
            let carbon = word_field(numbers.second);
            let kind = FuelKind::Mass { quantity, carbon };
            return Some((FuelLine { kind }, rest));
        }
        if let Some((numbers, rest)) = text::read_template(text, b" (volume # # #)") {
            let quantity = word_field(numbers.first);
            let density = word_field(numbers.second);
            let carbon = word_field(numbers.third);
            let kind = FuelKind::Volume {
                quantity,
                density,
                carbon,
            };
            return Some((FuelLine { kind }, rest));
        }
        None
    }
}

// The heat of a plant in kJ, and the rest of the text, which is all of it where no heat is written. Heat has a field
// that holds every decimal.
#[tactic(auto, unfolding(crate::specs::Reading::one_of, crate::specs::Reading::heats))]
pub fn read_heat(text: &[u8]) -> (u64, &[u8])
    ensures heat { result.0 ≡ heat_of (optional_of heats text.now).value }
    ensures rest { result.1.now ≡ (optional_of heats text.now).rest }
{
    if let Some((numbers, rest)) = text::read_template(text, b" (heat #)") {
        return (numbers.first, rest);
    }
    (HEAT_LEFT_OUT, text)
}

// Reads into places as many parts as a text begins with: their count, and the rest of the text. An entry has four
// places and counts all parts (document 01: "Any count of fuel lines or meters, none included, is a form").
pub fn read_parts<'a, T: Part + Copy>(places: &mut [T], text: &'a [u8]) -> (usize, &'a [u8])
    ensures places { places.new ≡ placed_from 0 places.old (parts_in T.part_in text.now).value }
    ensures count { result.0 ≡ length (parts_in T.part_in text.now).value }
    ensures rest { result.1.now ≡ (parts_in T.part_in text.now).rest }
{
    let mut count = 0;
    let mut rest = text;
    // A text has no more parts than bytes.
    for _ in text {
        let Some((part, after)) = T::read(rest) else {
            break;
        };
        if count < places.len() {
            places[count] = part;
        }
        count += 1;
        rest = after;
    }
    (count, rest)
}
