// Why tables are refused, by name; document 01's number and place of each are `Refusal.antt`'s.
ghost use Rattle.std.specs.Prelude.{◌≡◌};
ghost use Rattle.records.specs.Refusal.{refusal_number, refusal_place};

// What is wrong with one step, in the order in which it is tested.
#[derive(Clone, Copy, Debug, PartialEq, Eq, Hash)]
pub enum StepFault {
    // A spare byte is not zero.
    SpareByte,
    // An antecedent is not earlier than the step's own clause.
    AntecedentNotEarlier,
    // Left lacks the positive pivot.
    LeftLacksPivot,
    // Right lacks the negative pivot.
    RightLacksPivot,
}

// Why a derivation is refused.
#[derive(Clone, Copy, Debug, PartialEq, Eq, Hash)]
pub enum Refusal {
    // A table's length is not a multiple of its record's: of A, of B, of the steps.
    LengthOfA,
    LengthOfB,
    LengthOfSteps,
    // There are too many clauses, results counted.
    TooManyClauses,
    // The work table is too short.
    WorkTooShort,
    // A step's fault, and the step.
    AtStep(StepFault, usize),
    // No clause is empty.
    NoEmptyClause,
}

impl Refusal {
    // Document 01's number.
    pub fn number(self) -> usize
        ensures { result ≡ refusal_number self }
    {
        match self {
            Refusal::LengthOfA => 1,
            Refusal::LengthOfB => 2,
            Refusal::LengthOfSteps => 3,
            Refusal::TooManyClauses => 4,
            Refusal::WorkTooShort => 5,
            Refusal::AtStep(StepFault::SpareByte, _) => 7,
            Refusal::AtStep(StepFault::AntecedentNotEarlier, _) => 8,
            Refusal::AtStep(StepFault::LeftLacksPivot, _) => 9,
            Refusal::AtStep(StepFault::RightLacksPivot, _) => 10,
            Refusal::NoEmptyClause => 11,
        }
    }

    // Its place: the step, or 0.
    pub fn place(self) -> usize
        ensures { result ≡ refusal_place self }
    {
        match self {
            Refusal::AtStep(_, step) => step,
            _ => 0,
        }
    }
}
