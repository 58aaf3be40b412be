// A line read as the call that it makes (document 01, "The text the program tally reads": "Forms"). The
// templates are those of the crate `text`: # is the place of a decimal.
#![tactic(auto)]

mod part;

ghost use Rattle.std.specs.Prelude.{◌≡◌, option_map};
ghost use Rattle.text.specs.Read.{map_read};
ghost use Rattle.forms.specs.Reading.{
  one_of,
  grid_in,
  margins_in,
  plant_in,
  source_in,
  others,
  opening_in,
  is_closing,
  line_form,
};
ghost use Rattle.forms.specs.Calls.{fitted_call, call_meaning};
ghost use Rattle.forms.specs.Steps.{opening_meaning};

use crate::part::{Part, byte_field, read_heat, read_parts, word_field};
use emissions::{CombinedMargin, GridEntry, GridKind, Loss, Margins, Side, Supply, Weights};
use fuel::FuelLine;
use metering::Meter;
use records::{Plant, SourceEntry};

// A call: what a line enters, drops or asks for. A plant and a source have their number.
#[derive(Clone, Copy)]
pub enum Call {
    EnterGrid(GridEntry),
    EnterPlant(u8, Plant),
    EnterSource(u8, SourceEntry),
    DropPlant(u8),
    DropSource(u8),
    Report,
}

// The most bytes of a line, without its LF.
pub const LINE_LIMIT: usize = 256;

fn read_grid(line: &[u8]) -> Option<(Call, &[u8])>
    ensures { opening_meaning result ≡ map_read fitted_call (grid_in line.now) }
{
    let (numbers, rest) = text::read_template(line, b"(grid # ")?;
    let (kind, rest) = GridKind::read(rest)?;
    let margin = CombinedMargin::Stated(word_field(numbers.first));
    Some((Call::EnterGrid(GridEntry { margin, kind }), rest))
}

fn read_margins(line: &[u8]) -> Option<(Call, &[u8])>
    ensures { opening_meaning result ≡ map_read fitted_call (margins_in line.now) }
{
    let (figures, rest) = text::read_template(line, b"(grid margins # # ")?;
    let (percents, rest) = text::read_template(rest, b"# # ")?;
    let (kind, rest) = GridKind::read(rest)?;
    let margin = CombinedMargin::Mean(Margins {
        operating: word_field(figures.first),
        build: word_field(figures.second),
        weights: Weights {
            operating: byte_field(percents.first),
            build: byte_field(percents.second),
        },
    });
    Some((Call::EnterGrid(GridEntry { margin, kind }), rest))
}

fn read_plant(line: &[u8]) -> Option<(Call, &[u8])>
    ensures { opening_meaning result ≡ map_read fitted_call (plant_in line.now) }
{
    let (numbers, rest) = text::read_template(line, b"(plant # # #")?;
    let (heat, rest) = read_heat(rest);
    let mut lines = [FuelLine::empty(); Plant::LINE_PLACES];
    let (line_count, rest) = read_parts(&mut lines, rest);
    let plant = Plant {
        site: byte_field(numbers.second),
        generation: word_field(numbers.third),
        heat,
        lines,
        count: byte_field(line_count as u64),
    };
    Some((Call::EnterPlant(byte_field(numbers.first), plant), rest))
}

fn read_source(line: &[u8]) -> Option<(Call, &[u8])>
    ensures { opening_meaning result ≡ map_read fitted_call (source_in line.now) }
{
    let (numbers, rest) = text::read_template(line, b"(source # ")?;
    let (side, rest) = Side::read(rest)?;
    let (supply, rest) = Supply::read(rest)?;
    let (loss, rest) = Loss::read(rest)?;
    let mut meters = [Meter::empty(); Meter::PLACES];
    let (meter_count, rest) = read_parts(&mut meters, rest);
    let entry = SourceEntry {
        side,
        supply,
        loss,
        meters,
        count: byte_field(meter_count as u64),
    };
    Some((Call::EnterSource(byte_field(numbers.first), entry), rest))
}

// Reads a drop or a report.
fn read_other(line: &[u8]) -> Option<(Call, &[u8])>
    ensures { opening_meaning result ≡ map_read fitted_call (one_of others line.now) }
{
    if let Some((numbers, rest)) = text::read_template(line, b"(drop source #") {
        return Some((Call::DropSource(byte_field(numbers.first)), rest));
    }
    if let Some((numbers, rest)) = text::read_template(line, b"(drop plant #") {
        return Some((Call::DropPlant(byte_field(numbers.first)), rest));
    }
    if let Some((_, rest)) = text::read_template(line, b"(report") {
        return Some((Call::Report, rest));
    }
    None
}

// Reads what a line opens with: all of a form but the bracket that closes it. By `or_else` each reader would be a
// closure with a copy of the call: 650 bytes of the box's stack and 9,000 cycles a line, above both goals.
fn read_opening(line: &[u8]) -> Option<(Call, &[u8])>
    ensures { opening_meaning result ≡ map_read fitted_call (opening_in line.now) }
{
    let grid = read_grid(line);
    if grid.is_some() {
        return grid;
    }
    let margins = read_margins(line);
    if margins.is_some() {
        return margins;
    }
    let plant = read_plant(line);
    if plant.is_some() {
        return plant;
    }
    let source = read_source(line);
    if source.is_some() {
        return source;
    }
    read_other(line)
}

// Whether the bracket that closes a form is all that is left.
#[tactic(auto, unfolding(crate::specs::Reading::is_closing))]
fn closes(rest: &[u8]) -> bool
    ensures { result ≡ is_closing rest.now }
{
    matches!(rest, [b')'])
}

// Reads a line, given without its LF: the call that it makes, where it is a form. A form ends at its last byte,
// the bracket, and a line above 256 bytes is none.
pub fn read_line(line: &[u8]) -> Option<Call>
    ensures { option_map call_meaning result ≡ option_map fitted_call (line_form line.now) }
{
    if line.len() > LINE_LIMIT {
        return None;
    }
    let (call, rest) = read_opening(line)?;
    if closes(rest) { Some(call) } else { None }
}
