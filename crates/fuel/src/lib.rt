// Fuel lines of a captive plant: their limits, their milligrams of CO2 and their energy (document 01, "Losses and
// factors", captive, and "Plant entry", number 2; document 02, wishes 2 and 5).
#![tactic(auto)]

ghost use Rattle.std.specs.Prelude.{◌≡◌, true};
ghost use Rattle.rounding.specs.Outcome.{map_given, outcome_of};
ghost use Rattle.rounding.specs.Ratio.{◌÷◌};
ghost use Rattle.rounding.specs.declared.Direction.TheVariants.{Up, Down};
ghost use Rattle.fuel.specs.Fuel.{no_line, within_limits, exact_milligrams, line_milligrams, stated_energy};

use rounding::{Direction, Refusal};

// The figures of a fuel line, by what the supplier states of the fuel.
#[derive(Clone, Copy)]
pub enum FuelKind {
    // The quantity burned, Q, in mass or volume units; the net calorific value, V, in kJ a unit; the CO2
    // emission factor, C, in mg a MJ.
    Energy {
        quantity: u32,
        ncv: u32,
        factor: u32,
    },
    // Q in kg; the carbon fraction by mass, W, in ten-thousandths.
    Mass {
        quantity: u32,
        carbon: u32,
    },
    // Q in litres; the density in g a litre; W.
    Volume {
        quantity: u32,
        density: u32,
        carbon: u32,
    },
}

// A fuel line as entered.
#[derive(Clone, Copy)]
pub struct FuelLine {
    pub kind: FuelKind,
}

// A line's milligrams of CO2 before they are rounded: the product over the divisor.
#[derive(Clone, Copy)]
struct Unrounded {
    product: u64,
    divisor: u64,
}

// A line's milligrams rounded up and down, for project and leakage and for baseline.
#[derive(Clone, Copy)]
pub struct BothWays {
    pub up: u64,
    pub down: u64,
}

impl FuelLine {
    pub const QUANTITY_LIMIT: u32 = 100_000_000;

    pub const NCV_LEAST: u32 = 1;

    pub const NCV_LIMIT: u32 = 150_000;

    pub const FACTOR_LIMIT: u32 = 200_000;

    pub const DENSITY_LIMIT: u32 = 2_000;

    pub const CARBON_LIMIT: u32 = 10_000;

    // The empty line: what a place for a line holds where there is none.
    pub fn empty() -> FuelLine
        ensures { result ≡ no_line }
    {
        FuelLine {
            kind: FuelKind::Energy {
                quantity: 0,
                ncv: 0,
                factor: 0,
            },
        }
    }

    // Whether the line is within its limits; number 2 refuses a plant with a line that is not.
    #[tactic(auto, unfolding(crate::specs::Fuel::within_limits))]
    pub fn is_within_limits(self) -> bool
        ensures { result ≡ within_limits self }
    {
        match self.kind {
            FuelKind::Energy {
                quantity,
                ncv,
                factor,
            } => quantity <= FuelLine::QUANTITY_LIMIT
                && (FuelLine::NCV_LEAST..=FuelLine::NCV_LIMIT).contains(&ncv)
                && factor <= FuelLine::FACTOR_LIMIT,
            FuelKind::Mass { quantity, carbon } => quantity <= FuelLine::QUANTITY_LIMIT
                && carbon <= FuelLine::CARBON_LIMIT,
            FuelKind::Volume {
                quantity,
                density,
                carbon,
            } => density <= FuelLine::DENSITY_LIMIT
                && quantity <= FuelLine::QUANTITY_LIMIT
                && carbon <= FuelLine::CARBON_LIMIT,
        }
    }

    // The milligrams of CO2 of the line by its kind. Carbon becomes 44/12 of its mass in CO2: in the units of
    // the figures 1,100/3 of Q × W by mass and 11/30 of Q × density × W by volume. Within the limits no
    // product wraps.
    #[tactic(auto, unfolding(crate::specs::Fuel::exact_milligrams, crate::specs::Fuel::within_limits))]
    fn unrounded(self) -> Unrounded
        requires { within_limits self ≡ true }
        ensures { (result.product ÷ result.divisor) ≡ exact_milligrams self }
    {
        match self.kind {
            FuelKind::Energy {
                quantity,
                ncv,
                factor,
            } => Unrounded {
                product: quantity as u64 * ncv as u64 * factor as u64,
                divisor: 1_000,
            },
            FuelKind::Mass { quantity, carbon } => Unrounded {
                product: quantity as u64 * carbon as u64 * 1_100,
                divisor: 3,
            },
            FuelKind::Volume {
                quantity,
                density,
                carbon,
            } => Unrounded {
                product: quantity as u64 * density as u64 * carbon as u64 * 11,
                divisor: 30,
            },
        }
    }

    // The milligrams of CO2 of the line, rounded both ways, so that the limits are tested once; or refusal 2. Out of
    // the limits nothing is computed, so that no product wraps at any value of the fields.
    #[tactic(auto, unfolding(crate::specs::Fuel::line_milligrams, crate::specs::Fuel::rounded_milligrams))]
    pub fn milligrams(self) -> Result<BothWays, Refusal>
        ensures up { map_given (λ b. b.up) (outcome_of result) ≡ line_milligrams Up self }
        ensures down { map_given (λ b. b.down) (outcome_of result) ≡ line_milligrams Down self }
    {
        if !self.is_within_limits() {
            return Err(Refusal::OutOfLimits);
        }
        let exact = self.unrounded();
        Ok(BothWays {
            up: rounding::divide(Direction::Up, exact.product, exact.divisor),
            down: rounding::divide(Direction::Down, exact.product, exact.divisor),
        })
    }

    // The energy that the line states, Q × V in kJ; none by carbon, or out of its limits, so that a caller can sum up
    // lines.
    #[tactic(auto, using(crate::proofs::Fuel::energy_by_kind))]
    pub fn energy(self) -> Option<u64>
        ensures { result ≡ stated_energy self }
    {
        match self.kind {
            FuelKind::Energy { quantity, ncv, .. } if self.is_within_limits() => {
                Some(quantity as u64 * ncv as u64)
            }
            _ => None,
        }
    }
}
