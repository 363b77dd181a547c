// The refusals of document 01, "When the console says no", and of document 02, by name. A result carries one as its error.
#![tactic(auto)]

ghost use Rattle.std.specs.Prelude.{◌≡◌};
ghost use Rattle.refusal.specs.Refusal.{fault_number, number_of, position_of, located};

/// What is wrong with a record of a sheet.
#[derive(Clone, Copy, Debug, PartialEq, Eq)]
pub enum Fault {
    Outside,
    Missing,
    Excessive,
    NotRising,
    SixthWeak,
}

/// Why a sheet, a sum, a slip, a call, a range or a page is refused. A record's position is counted from 1.
#[derive(Clone, Copy, Debug, PartialEq, Eq)]
pub enum Refusal {
    Missized,
    ExcessiveSum,
    ShortSlip,
    Record { fault: Fault, position: usize },
    Unshared,
    ExcessiveRequirement,
    Unregistered,
    InDefault,
    ExcessiveLoss,
    Unready,
    Misranked,
    UnfitPayment,
    UnfitReplenishment,
    CallOutstanding,
    Unprintable,
    Miscounted,
    ExcessiveLosses,
    ReversedLosses,
    ShortRangeSlip,
}

impl Fault {
    /// The number that document 01 gives it.
    pub fn number(self) -> u8
        ensures { result ≡ fault_number self }
    {
        match self {
            Fault::Outside => 4,
            Fault::Missing => 5,
            Fault::Excessive => 6,
            Fault::NotRising => 7,
            Fault::SixthWeak => 8,
        }
    }
}

impl Refusal {
    /// The number that the papers give it. No `From<Refusal> for u8`: the number is printed, and `into` would hide which one.
    pub fn number(self) -> u8
        ensures { result ≡ number_of self }
    {
        match self {
            Refusal::Missized => 1,
            Refusal::ExcessiveSum => 2,
            Refusal::ShortSlip => 3,
            Refusal::Record { fault, .. } => fault.number(),
            Refusal::Unshared => 9,
            Refusal::ExcessiveRequirement => 10,
            Refusal::Unregistered => 11,
            Refusal::InDefault => 12,
            Refusal::ExcessiveLoss => 13,
            Refusal::Unready => 14,
            Refusal::Misranked => 15,
            Refusal::UnfitPayment => 16,
            Refusal::UnfitReplenishment => 17,
            Refusal::CallOutstanding => 18,
            Refusal::Unprintable => 20,
            Refusal::Miscounted => 21,
            Refusal::ExcessiveLosses => 22,
            Refusal::ReversedLosses => 23,
            Refusal::ShortRangeSlip => 24,
        }
    }

    /// The record's position; 0 where no record is meant. No Option: document 01 gives 0 there, and it is printed.
    pub fn position(self) -> usize
        ensures { result ≡ position_of self }
    {
        match self {
            Refusal::Record { position, .. } => position,
            _ => 0,
        }
    }
}

/// What was found of the record at a position.
pub fn located<T>(found: Result<T, Fault>, position: usize) -> Result<T, Refusal>
    ensures { result ≡ located position found }
{
    found.map_err(|fault| Refusal::Record { fault, position })
}
