// Why an evaluation is refused, with document 01's number and place. A check's refusals stand with the check.
ghost use Rattle.std.specs.Prelude.{◌≡◌};
ghost use Rattle.circuits.specs.Malformed.{fault_number, malformed_number, malformed_place};

// What is wrong with a gate: its kind or a spare byte, or an input that does not stand before it.
#[derive(Clone, Copy, Debug, PartialEq, Eq, Hash)]
pub enum GateFault {
    Form,
    InputNotEarlier,
}

impl GateFault {
    // Document 01's number.
    pub fn number(self) -> usize
        ensures { result ≡ fault_number self }
    {
        match self {
            GateFault::Form => 22,
            GateFault::InputNotEarlier => 23,
        }
    }
}

// What is malformed: the length of the assignment or of the gate table, the first gate with a fault, or the root reference.
#[derive(Clone, Copy, Debug, PartialEq, Eq, Hash)]
pub enum Malformed {
    LengthOfAssignment,
    LengthOfGates,
    AtGate(GateFault, usize),
    RootNotThere,
}

impl Malformed {
    // Document 01's number.
    pub fn number(self) -> usize
        ensures { result ≡ malformed_number self }
    {
        match self {
            Malformed::LengthOfAssignment => 20,
            Malformed::LengthOfGates => 21,
            Malformed::AtGate(fault, _) => fault.number(),
            Malformed::RootNotThere => 24,
        }
    }

    // Its place: the gate, or 0.
    pub fn place(self) -> usize
        ensures { result ≡ malformed_place self }
    {
        match self {
            Malformed::AtGate(_, k) => k,
            _ => 0,
        }
    }
}
