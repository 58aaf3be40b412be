// Why a call is refused (document 01, "How each operation declines"; document 02, wishes 1, 4 and 5).
ghost use Rattle.std.specs.Prelude.{◌≡◌};
ghost use Rattle.rounding.specs.Outcome.{number_of};

// Each case stands for the number that the documents give it.
#[derive(Clone, Copy)]
pub enum Refusal {
    NumberOutOfRange = 1,
    OutOfLimits = 2,
    UnreadableReading = 3,
    RunsBack = 4,
    UnmatchedLoss = 5,
    EnergyOutOfLimits = 6,
    NothingStands = 7,
    NoGrid = 8,
    TooLittleGeneration = 9,
    FactorAboveLimit = 10,
    EqualConsumption = 11,
    ClosedLoss = 12,
    SideAboveLimit = 13,
    NoForm = 14,
    UnevenWeights = 15,
    HeatBesideCarbon = 16,
    HeatAboveFuel = 17,
}

impl Refusal {
    pub fn number(self) -> u8
        ensures { result ≡ number_of self }
    {
        self as u8
    }
}
