// The records of a ledger: one of the grid, one under each number of a plant and of a source. Each operation
// is judged here, and changes the one record that it names (document 01, "How each operation declines"; document
// 02, wish 5).
#![tactic(auto)]

ghost use Rattle.std.specs.Prelude.{◌≡◌, ◌≤◌, ◌&&◌, leb, cond, length};
ghost use Rattle.rounding.specs.Outcome.{outcome_of};
ghost use Rattle.fuel.specs.Fuel.{states_energy, all_lines};
ghost use Rattle.records.specs.Heat.{fuel_energy, heat_judged};
ghost use Rattle.records.specs.Judging.{
  lines_of,
  last_plant,
  last_source,
  lines_limit,
  generation_limit,
  answer_of,
  all_within_limits,
  plant_judged,
  supply_within_limits,
  loss_within_limits,
  is_nothing,
  loss_matches,
  source_judged,
  is_there,
  drop_judged,
  where_given,
};

use emissions::{Loss, Side, Supply};
use fuel::FuelLine;
use metering::Meter;
use rounding::Refusal;

// A captive plant as entered: its site, its generation in kWh, the heat that it also makes in kJ, and its fuel
// lines, of which the first `count` count. No slice has that count where it is above the places, which is refused 2.
#[derive(Clone, Copy)]
pub struct Plant {
    pub site: u8,
    pub count: u8,
    pub generation: u32,
    pub heat: u64,
    pub lines: [FuelLine; Plant::LINE_PLACES],
}

// A source as entered: its meters are the first `count` of the four, and more than four are refused 2, as of lines.
#[derive(Clone, Copy)]
pub struct SourceEntry {
    pub side: Side,
    pub count: u8,
    pub supply: Supply,
    pub loss: Loss,
    pub meters: [Meter; Meter::PLACES],
}

// A source as kept: its energy E in watt-hours in place of its meters.
#[derive(Clone, Copy)]
pub struct Source {
    pub side: Side,
    pub supply: Supply,
    pub loss: Loss,
    pub energy: u64,
}

impl Plant {
    // The last number of a plant, how many numbers there are, and the places for them in a ledger.
    pub const LAST: u8 = 7;

    pub const NUMBERS: u8 = Plant::LAST + 1;

    pub const PLACES: usize = Plant::NUMBERS as usize;

    // The last site, how many sites there are, and the places for them in a table.
    pub const SITE_LIMIT: u8 = 3;

    pub const SITES: u8 = Plant::SITE_LIMIT + 1;

    pub const SITE_PLACES: usize = Plant::SITES as usize;

    // The most fuel lines, and the places for them in an entry.
    pub const LINES_LIMIT: u8 = 4;

    pub const LINE_PLACES: usize = Plant::LINES_LIMIT as usize;

    pub const GENERATION_LIMIT: u32 = 100_000_000;

    // Whether the number of fuel lines and the generation are within their limits.
    pub fn figures_fit(&self) -> bool
        ensures { result ≡ (leb self.now.count lines_limit && leb self.now.generation generation_limit) }
    {
        self.count <= Plant::LINES_LIMIT && self.generation <= Plant::GENERATION_LIMIT
    }

    // The energy J that the heat is a part of, or none where no heat is made; or the heat's refusals 16 and 17, of
    // lines within their limits. Lines out of them are refused with 2 before, and count here as lines that state no
    // energy, so that no sum wraps.
    #[tactic(auto, unfolding(crate::specs::Judging::lines_of))]
    pub fn heat_judged(&self) -> Result<Option<u64>, Refusal>
        ensures { outcome_of result ≡ heat_judged self.now.heat self.now.count (lines_of self.now) }
    {
        if self.heat == 0 {
            return Ok(None);
        }
        if self.count > Plant::LINES_LIMIT {
            return Err(Refusal::HeatBesideCarbon);
        }
        let lines = &self.lines[..self.count as usize];
        let total = stated_energy(lines).ok_or(Refusal::HeatBesideCarbon)?;
        if self.heat > total {
            return Err(Refusal::HeatAboveFuel);
        }
        Ok(Some(total))
    }

    // The plant as it is kept, or the entry's refusals 1, 2, 16 and 17 (document 01, "Plant entry"; document 02,
    // wish 5).
    #[tactic(auto, using(crate::proofs::Judged::plant_found))]
    pub fn judged(&self, number: u8) -> Result<Plant, Refusal>
        ensures { outcome_of result ≡ plant_judged number self.now }
    {
        if number > Plant::LAST || self.site > Plant::SITE_LIMIT {
            return Err(Refusal::NumberOutOfRange);
        }
        if !self.figures_fit() || !are_within_limits(&self.lines[..self.count as usize]) {
            return Err(Refusal::OutOfLimits);
        }
        self.heat_judged()?;
        Ok(*self)
    }

    // Enters a plant in the place of its number, over what stands there; a refusal leaves the place as it was
    // (document 01, "Plant entry").
    pub fn enter(place: &mut Option<Plant>, number: u8, plant: &Plant) -> Result<(), Refusal>
        ensures place { place.new ≡ where_given (plant_judged number plant.now) Some place.old }
        ensures answer { outcome_of result ≡ answer_of (plant_judged number plant.now) }
    {
        enter(place, plant.judged(number))
    }

    // Empties the place of a plant's number; a refusal leaves the place as it was (document 01, "Drop").
    pub fn remove(place: &mut Option<Plant>, number: u8) -> Result<(), Refusal>
        ensures place { place.new ≡ where_given (drop_judged last_plant (is_there place.old) number) (λ a. None) place.old }
        ensures answer { outcome_of result ≡ drop_judged last_plant (is_there place.old) number }
    {
        remove(place, Plant::LAST, number)
    }
}

// The energy of all the fuel lines together, none where one of them states none.
fn stated_energy(lines: &[FuelLine]) -> Option<u64>
    requires { length lines.now ≤ lines_limit }
    ensures { result ≡ cond (all_lines states_energy lines.now) (Some (fuel_energy lines.now)) None }
{
    let mut total: u64 = 0;
    for line in lines {
        total += line.energy()?;
    }
    Some(total)
}

// Whether each fuel line is within its limits.
#[tactic(auto, unfolding(fuel::specs::Fuel::all_lines))]
fn are_within_limits(lines: &[FuelLine]) -> bool
    ensures { result ≡ all_within_limits lines.now }
{
    for line in lines {
        if !line.is_within_limits() {
            return false;
        }
    }
    true
}

// Whether the site that a supply names, if it names one, is in range.
fn supply_is_within_limits(supply: Supply) -> bool
    ensures { result ≡ supply_within_limits supply }
{
    match supply {
        Supply::Captive(site) | Supply::Either(site) => site <= Plant::SITE_LIMIT,
        Supply::Combined | Supply::GridDefault | Supply::CaptiveDefault => true,
    }
}

// Whether a measured loss is within its limit.
pub fn loss_is_within_limits(loss: Loss) -> bool
    ensures { result ≡ loss_within_limits loss }
{
    match loss {
        Loss::Measured(measured) => measured <= Loss::LIMIT,
        Loss::Nothing | Loss::Default20 | Loss::Default3 => true,
    }
}

pub fn is_nothing(loss: Loss) -> bool
    ensures { result ≡ is_nothing loss }
{
    matches!(loss, Loss::Nothing)
}

// Whether the loss goes with the supply: captive supplies carry none, the others carry one.
fn is_matched(supply: Supply, loss: Loss) -> bool
    ensures { result ≡ loss_matches supply loss }
{
    let is_captive = matches!(supply, Supply::Captive(_) | Supply::CaptiveDefault);
    is_nothing(loss) == is_captive
}

impl SourceEntry {
    // The source that is kept, or the entry's refusals 1 to 6 in their order (document 01, "Source entry").
    #[tactic(auto, unfolding(crate::specs::Judging::source_judged))]
    pub fn judged(&self, number: u8) -> Result<Source, Refusal>
        ensures { outcome_of result ≡ source_judged number self.now }
    {
        if number > Source::LAST || !supply_is_within_limits(self.supply) {
            return Err(Refusal::NumberOutOfRange);
        }
        if !loss_is_within_limits(self.loss) {
            return Err(Refusal::OutOfLimits);
        }
        let readings = metering::judge_meters(&self.meters, self.count, self.side.direction())?;
        if !is_matched(self.supply, self.loss) {
            return Err(Refusal::UnmatchedLoss);
        }
        let energy = metering::settle_energy(readings)?;
        Ok(Source {
            side: self.side,
            supply: self.supply,
            loss: self.loss,
            energy,
        })
    }
}

impl Source {
    // The last number of a source, how many numbers there are, and the places for them in a ledger.
    pub const LAST: u8 = 31;

    pub const NUMBERS: u8 = Source::LAST + 1;

    pub const PLACES: usize = Source::NUMBERS as usize;

    // Enters a source in the place of its number, over what stands there; a refusal leaves the place as it was
    // (document 01, "Source entry").
    pub fn enter(place: &mut Option<Source>, number: u8, entry: &SourceEntry) -> Result<(), Refusal>
        ensures place { place.new ≡ where_given (source_judged number entry.now) Some place.old }
        ensures answer { outcome_of result ≡ answer_of (source_judged number entry.now) }
    {
        enter(place, entry.judged(number))
    }

    // Empties the place of a source's number; a refusal leaves the place as it was (document 01, "Drop").
    pub fn remove(place: &mut Option<Source>, number: u8) -> Result<(), Refusal>
        ensures place { place.new ≡ where_given (drop_judged last_source (is_there place.old) number) (λ a. None) place.old }
        ensures answer { outcome_of result ≡ drop_judged last_source (is_there place.old) number }
    {
        remove(place, Source::LAST, number)
    }
}

// Puts what an entry gives in its place, over what stands there; a refusal leaves the place as it was.
pub fn enter<T: Copy>(place: &mut Option<T>, judged: Result<T, Refusal>) -> Result<(), Refusal>
    ensures place { place.new ≡ where_given (outcome_of judged) Some place.old }
    ensures answer { outcome_of result ≡ answer_of (outcome_of judged) }
{
    *place = Some(judged?);
    Ok(())
}

// Empties the place of a number, where numbers go up to the last one (document 01, "Drop"); a refusal leaves the
// place as it was.
#[tactic(auto, unfolding(crate::specs::Judging::drop_judged))]
pub fn remove<T: Copy>(place: &mut Option<T>, last: u8, number: u8) -> Result<(), Refusal>
    ensures place { place.new ≡ where_given (drop_judged last (is_there place.old) number) (λ a. None) place.old }
    ensures answer { outcome_of result ≡ drop_judged last (is_there place.old) number }
{
    if number > last {
        return Err(Refusal::NumberOutOfRange);
    }
    place.take().ok_or(Refusal::NothingStands)?;
    Ok(())
}
