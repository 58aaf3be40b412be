// The report on what stands (document 01, "Losses and factors" and "Report"; document 02, wishes 3 and 5). The sources
// are summed up, then the plants, and whether each is such as an entry leaves is looked at in the same pass. So the
// table of site factors and the walk over the sources are given what meets the limits of accepted entries.
#![tactic(auto)]

ghost use Rattle.std.specs.Prelude.{◌≡◌, true, ◌&&◌, ◌+◌, ◌<◌, ◌≤◌, length, IfSome, IfOk};
ghost use Rattle.rounding.specs.Outcome.{outcome_of, map_given};
ghost use Rattle.emissions.specs.Factor.{direction, site_named};
ghost use Rattle.emissions.specs.Figure.{energy_limit};
ghost use Rattle.emissions.specs.Grid.{grid_intact};
ghost use Rattle.records.specs.Judging.{last_plant, last_source, lines_limit, supply_within_limits, loss_matches};
ghost use Rattle.report.specs.Heat.{allocated};
ghost use Rattle.report.specs.Report.{compares_factor, compares_loss, checked_report_of, input_of_records};
ghost use Rattle.report.specs.Intact.{source_intact, sources_intact};
ghost use Rattle.report.specs.Answers.{side_meaning, report_meaning};
ghost use Rattle.report.specs.Steps.{
  plant_bound,
  figure_bound,
  tonnes_bound,
  of_direction,
  summed,
  ConsumptionWithin,
  no_totals,
  TotalsWithin,
  totals_with,
  totals_summed,
  site_plus,
  SiteWithin,
  lines_summed,
  LinesWithin,
  electricity_of,
  plant_summed,
  SitesOf,
  column_for,
  row_for,
  RowOf,
  TableOf,
  TableWithin,
  TableFull,
  CaptiveWithin,
  grams_at,
  table_reply,
  one_more,
  with_grams,
  SideBounded,
  Bounded,
  walked_meaning,
  side_judged,
  reduction_of,
  reported_of,
};

use emissions::{Consumption, Grid, Loss, Side, Supply};
use fuel::{BothWays, FuelLine};
use metering::Reading;
use records::{Plant, Source};
use rounding::{Direction, Refusal};

// P and B, which the default factor compares, and P' and B', which the default losses compare.
#[derive(Clone, Copy)]
struct Totals {
    factor: Consumption,
    loss: Consumption,
}

// The milligrams of plants, rounded up and down, and their generation in kWh.
#[derive(Clone, Copy, Default)]
struct SiteSums {
    up: u64,
    down: u64,
    generation: u64,
}

// A side's grams and the number of its standing sources, which has 64 bits so that no byte is padding.
#[derive(Clone, Copy, Default)]
struct SideSum {
    grams: u64,
    sources: u64,
}

#[derive(Clone, Copy, Default)]
struct Sums {
    project: SideSum,
    leakage: SideSum,
    baseline: SideSum,
}

// A side of the report.
#[derive(Clone, Copy)]
pub struct SideReport {
    pub tonnes: u64,
    pub grams: u64,
    pub sources: u8,
}

#[derive(Clone, Copy)]
pub struct Report {
    pub project: SideReport,
    pub leakage: SideReport,
    pub baseline: SideReport,
    pub reduction: i64,
}

// Why there is no report: a ledger that no list of calls leaves, a refusal, or a refusal at the source of a number.
#[derive(Clone, Copy)]
pub enum NoReport {
    Damaged,
    Refused(Refusal),
    RefusedAt(Refusal, u8),
}

impl From<Refusal> for NoReport {
    ghost use Rattle.report.specs.declared.NoReport.TheVariants.{Refused};

    ghost from_gives = { λ refusal made. made ≡ Refused refusal };

    fn from(refusal: Refusal) -> NoReport {
        NoReport::Refused(refusal)
    }
}

// Whether a source with this supply counts in P and B. This and the next are two rules of the paper, a line each.
fn compares_factor(supply: Supply) -> bool
    ensures { result ≡ compares_factor supply }
{
    matches!(supply, Supply::Combined | Supply::GridDefault)
}

// Whether a source with this supply counts in P' and B'.
fn compares_loss(supply: Supply) -> bool
    ensures { result ≡ compares_loss supply }
{
    matches!(
        supply,
        Supply::Combined | Supply::GridDefault | Supply::Either(_)
    )
}

// Adds a source that counts.
fn add_source(sums: &mut Consumption, side: Side, energy: u64)
    requires { ConsumptionWithin last_source sums.old × (energy ≤ energy_limit) }
    ensures { sums.new ≡ summed sums.old (of_direction (direction side) energy) }
{
    match side.direction() {
        Direction::Up => {
            sums.project += energy;
            sums.projects += 1;
        }
        Direction::Down => {
            sums.baseline += energy;
            sums.baselines += 1;
        }
    }
}

impl Totals {
    fn empty() -> Totals
        ensures { result ≡ no_totals }
    {
        let none = Consumption {
            project: 0,
            baseline: 0,
            projects: 0,
            baselines: 0,
        };
        Totals {
            factor: none,
            loss: none,
        }
    }

    // Adds a source where its supply counts.
    fn add(&mut self, source: &Source)
        requires { TotalsWithin last_source self.old × (source.now.energy ≤ energy_limit) }
        ensures { self.new ≡ totals_with self.old (Some source.now) }
    {
        if compares_factor(source.supply) {
            add_source(&mut self.factor, source.side, source.energy);
        }
        if compares_loss(source.supply) {
            add_source(&mut self.loss, source.side, source.energy);
        }
    }
}

// Whether the site that a supply names, if it names one, is in range and the loss goes with the supply: by one
// match, since every source is tested in every report.
fn is_matched_in_range(supply: Supply, loss: Loss) -> bool
    ensures { result ≡ (supply_within_limits supply && loss_matches supply loss) }
{
    let none = records::is_nothing(loss);
    match supply {
        Supply::Combined | Supply::GridDefault => !none,
        Supply::Captive(site) => none && site <= Plant::SITE_LIMIT,
        Supply::CaptiveDefault => none,
        Supply::Either(site) => !none && site <= Plant::SITE_LIMIT,
    }
}

// Whether a source is such as an entry leaves: within the limits of an accepted entry.
fn source_is_intact(source: &Source) -> bool
    ensures { result ≡ source_intact (Some source.now) }
{
    source.energy <= Reading::LIMIT
        && is_matched_in_range(source.supply, source.loss)
        && records::loss_is_within_limits(source.loss)
}

// P, B, P' and B' of the sources that stand, in one pass; none where one of them is not such as an entry leaves.
fn totals_of(sources: &[Option<Source>; Source::PLACES]) -> Option<Totals>
    ensures { result ≡ totals_summed sources.now }
{
    let mut totals = Totals::empty();
    for held in sources {
        if let Some(source) = held {
            if !source_is_intact(source) {
                return None;
            }
            totals.add(source);
        }
    }
    Some(totals)
}

// The milligrams of fuel lines, each rounded both ways. A line that is refused is out of its limits, so that no
// other pass has to test them.
fn lines_summed(lines: &[FuelLine]) -> Option<BothWays>
    requires { length lines.now ≤ lines_limit }
    ensures summed { result ≡ lines_summed lines.now }
    ensures bound { IfSome result LinesWithin }
{
    let mut sums = BothWays { up: 0, down: 0 };
    for line in lines {
        let rounded = line.milligrams().ok()?;
        sums.up += rounded.up;
        sums.down += rounded.down;
    }
    Some(sums)
}

// The milligrams of a plant with heat that count for its electricity: the fuel lines' emission factor, by their
// energy, times the energy that is no heat. Both products fit 64 bits because the milligrams of four lines do.
fn allocate(energy: u64, heat: u64, milligrams: u64) -> u64
    requires { (0 < heat) × (heat ≤ energy) × (milligrams ≤ plant_bound) }
    ensures { (result ≡ allocated energy heat milligrams) × (result ≤ milligrams) }
{
    let factor = rounding::divide(Direction::Down, milligrams * 1_000, energy);
    rounding::divide(Direction::Down, (energy - heat) * factor, 1_000)
}

// What counts of a plant's milligrams, rounded down, for baseline (document 02, wish 5); none where its heat is not
// such as an entry leaves.
fn baseline_milligrams(plant: &Plant, milligrams: u64) -> Option<u64>
    requires { milligrams ≤ plant_bound }
    ensures counted { result ≡ electricity_of plant.now milligrams }
    ensures bound { IfSome result (λ counted. counted ≤ plant_bound) }
{
    match plant.heat_judged().ok()? {
        None => Some(milligrams),
        Some(energy) => Some(allocate(energy, plant.heat, milligrams)),
    }
}

// What a plant adds at its site; none where it is not such as an entry leaves.
fn plant_summed(plant: &Plant) -> Option<SiteSums>
    ensures summed { result ≡ plant_summed plant.now }
    ensures bound { IfSome result (SiteWithin 1) }
{
    if plant.site > Plant::SITE_LIMIT || !plant.figures_fit() {
        return None;
    }
    let sums = lines_summed(&plant.lines[..plant.count as usize])?;
    let down = baseline_milligrams(plant, sums.down)?;
    Some(SiteSums {
        up: sums.up,
        down,
        generation: plant.generation as u64,
    })
}

impl SiteSums {
    // Adds a plant.
    fn add(&mut self, plant: &SiteSums)
        requires { SiteWithin last_plant self.old × SiteWithin 1 plant.now }
        ensures { self.new ≡ site_plus self.old plant.now }
    {
        self.up += plant.up;
        self.down += plant.down;
        self.generation += plant.generation;
    }
}

// The sums of the plants at each site, in one pass; none where a plant is not such as an entry leaves.
fn site_sums(plants: &[Option<Plant>; Plant::PLACES]) -> Option<[SiteSums; Plant::SITE_PLACES]>
    ensures { SitesOf plants.now result }
{
    let mut sites = [SiteSums::default(); Plant::SITE_PLACES];
    for held in plants {
        if let Some(plant) = held {
            let more = plant_summed(plant)?;
            sites[plant.site as usize].add(&more);
        }
    }
    Some(sites)
}

// The captive factors of a site, rounded up and down, each of them or refusal 9 or 10.
fn site_row(sums: &SiteSums) -> [Result<u32, Refusal>; 2]
    ensures { RowOf sums.now result }
{
    let up = emissions::captive_factor(Direction::Up, sums.up, sums.generation);
    let down = emissions::captive_factor(Direction::Down, sums.down, sums.generation);
    [up, down]
}

// The table of site factors: a row for each site, whether a source names it or not.
fn site_factors(
    sites: &[SiteSums; Plant::SITE_PLACES],
) -> [[Result<u32, Refusal>; 2]; Plant::SITE_PLACES]
    ensures factors { TableOf sites.now result }
    ensures bound { TableWithin result }
    ensures full { TableFull result }
{
    [
        site_row(&sites[0]),
        site_row(&sites[1]),
        site_row(&sites[2]),
        site_row(&sites[3]),
    ]
}

// The row of the table for a supply: that of the site that it names. Where it names none, the first is as good as
// any, because its factor is not asked for.
fn row_for(supply: Supply) -> usize
    ensures { result ≡ row_for (site_named supply) }
{
    match supply {
        Supply::Combined | Supply::GridDefault | Supply::CaptiveDefault => 0,
        Supply::Captive(site) | Supply::Either(site) => site as usize,
    }
}

// The column of the table for a direction.
fn column_for(direction: Direction) -> usize
    ensures { result ≡ column_for direction }
{
    match direction {
        Direction::Up => 0,
        Direction::Down => 1,
    }
}

// The grams of a source: its factor, then its loss, then its figure, by the captive factor of the site that it
// names. The factor, the loss and the energy of an intact source are within the limits at which grams are worked out.
fn source_grams(
    grid: Option<Grid>,
    captive: Result<u32, Refusal>,
    totals: &Totals,
    source: &Source,
) -> Result<u64, Refusal>
    requires grid { grid_intact grid ≡ true }
    requires captive { CaptiveWithin (outcome_of captive) }
    requires source { source_intact (Some source.now) ≡ true }
    ensures grams { outcome_of result ≡ grams_at grid (λ S. outcome_of captive) totals.now source.now }
    ensures bound { IfOk result (λ grams. grams ≤ figure_bound) }
{
    let direction = source.side.direction();
    let factor = source
        .supply
        .factor(direction, grid, captive, totals.factor)?;
    let loss = source.loss.judged(direction, totals.loss)?;
    let emissions = emissions::emissions_of(direction, source.energy, loss, factor).unwrap();
    Ok(emissions.grams)
}

impl SideSum {
    // The most grams of a side.
    const GRAMS_LIMIT: u64 = 1_000_000_000_000_000;

    // Adds a source with so many grams.
    fn add(&mut self, grams: u64)
        requires { SideBounded last_source self.old × (grams ≤ figure_bound) }
        ensures { self.new ≡ one_more self.old grams }
    {
        self.grams += grams;
        self.sources += 1;
    }

    // The side of the report, its tonnes rounded as the side, or refusal 13.
    fn reported(&self, side: Side) -> Result<SideReport, Refusal>
        requires { SideBounded (last_source + 1) self.now }
        ensures { map_given side_meaning (outcome_of result) ≡ side_judged side self.now }
    {
        if self.grams > SideSum::GRAMS_LIMIT {
            return Err(Refusal::SideAboveLimit);
        }
        Ok(SideReport {
            tonnes: rounding::divide(side.direction(), self.grams, 1_000_000),
            grams: self.grams,
            sources: self.sources as u8,
        })
    }
}

// Baseline less project less leakage tonnes.
fn reduction(baseline: u64, project: u64, leakage: u64) -> i64
    requires { (baseline ≤ tonnes_bound) × (project ≤ tonnes_bound) × (leakage ≤ tonnes_bound) }
    ensures { result ≡ reduction_of baseline project leakage }
{
    baseline as i64 - project as i64 - leakage as i64
}

impl Sums {
    // Adds a source on a side.
    fn add(&mut self, side: Side, grams: u64)
        requires { Bounded last_source self.old × (grams ≤ figure_bound) }
        ensures { self.new ≡ with_grams self.old side grams }
    {
        match side {
            Side::Project => self.project.add(grams),
            Side::Leakage => self.leakage.add(grams),
            Side::Baseline => self.baseline.add(grams),
        }
    }

    // The report, or refusal 13 for a side above 1,000,000,000,000,000 grams.
    fn reported(&self) -> Result<Report, NoReport>
        requires { Bounded (last_source + 1) self.now }
        ensures { report_meaning result ≡ reported_of self.now }
    {
        let project = self.project.reported(Side::Project)?;
        let leakage = self.leakage.reported(Side::Leakage)?;
        let baseline = self.baseline.reported(Side::Baseline)?;
        Ok(Report {
            project,
            leakage,
            baseline,
            reduction: reduction(baseline.tonnes, project.tonnes, leakage.tonnes),
        })
    }
}

// The figures of the sources that stand, by rising number, summed by side; the first refusal ends it. A site's
// factor or refusal is read from the table for a source that names the site, and for no other.
fn walk(
    grid: Option<Grid>,
    factors: &[[Result<u32, Refusal>; 2]; Plant::SITE_PLACES],
    totals: &Totals,
    sources: &[Option<Source>; Source::PLACES],
) -> Result<Sums, NoReport>
    requires grid { grid_intact grid ≡ true }
    requires factors { TableWithin factors.now }
    requires full { TableFull factors.now }
    requires sources { sources_intact sources.now ≡ true }
    ensures walked { walked_meaning result ≡ table_reply grid factors.now totals.now sources.now }
    ensures bound { IfOk result (Bounded (last_source + 1)) }
{
    let mut sums = Sums::default();
    for (number, held) in sources.iter().enumerate() {
        if let Some(source) = held {
            let captive = factors[row_for(source.supply)][column_for(source.side.direction())];
            let number = number as u8;
            let grams = source_grams(grid, captive, totals, source).map_err(
                |refusal| NoReport::RefusedAt(refusal, number),
            )?;
            sums.add(source.side, grams);
        }
    }
    Ok(sums)
}

// Reports on records: on what stands, where everything that stands meets the limits of an accepted entry
// (document 01, "Report").
pub fn report_of(
    grid: Option<Grid>,
    plants: &[Option<Plant>; Plant::PLACES],
    sources: &[Option<Source>; Source::PLACES],
) -> Result<Report, NoReport>
    ensures { report_meaning result ≡ checked_report_of (input_of_records grid plants.now sources.now) }
{
    if !emissions::grid_is_intact(grid) {
        return Err(NoReport::Damaged);
    }
    let totals = totals_of(sources).ok_or(NoReport::Damaged)?;
    let sites = site_sums(plants).ok_or(NoReport::Damaged)?;
    walk(grid, &site_factors(&sites), &totals, sources)?.reported()
}
