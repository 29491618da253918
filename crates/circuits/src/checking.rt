// The check: tests 1 to 6 before anything is written, then the derivation, then the gates.
ghost use Rattle.std.specs.Prelude.{◌≡◌};
ghost use Rattle.circuits.specs.declared.checking.Refusal.TheVariants.{Derivation};
ghost use Rattle.circuits.specs.Check.{refusal_number, refusal_place, answer_of, plain_checked, Checks};

use crate::building::build;

// Why a check is refused: as its derivation is, or for the room of the gate table.
#[derive(Clone, Copy, Debug, PartialEq, Eq, Hash)]
pub enum Refusal {
    Derivation(records::Refusal),
    GatesTooShort,
}

impl Refusal {
    // Document 01's number.
    pub fn number(self) -> usize
        ensures { result ≡ refusal_number self }
    {
        match self {
            Refusal::Derivation(refusal) => refusal.number(),
            Refusal::GatesTooShort => 6,
        }
    }

    // Its place: the step, or 0.
    pub fn place(self) -> usize
        ensures { result ≡ refusal_place self }
    {
        match self {
            Refusal::Derivation(refusal) => refusal.place(),
            Refusal::GatesTooShort => 0,
        }
    }
}

impl From<records::Refusal> for Refusal {
    ghost from_gives = { λ refusal e. e ≡ Derivation refusal };

    fn from(refusal: records::Refusal) -> Refusal {
        Refusal::Derivation(refusal)
    }
}

// What a check leaves in the gate table: the root's clause number, its reference, and the number of gates.
#[derive(Clone, Copy, Debug, PartialEq, Eq, Hash)]
pub struct Circuit {
    pub clause: usize,
    pub root: usize,
    pub count: usize,
}

// Document 01's number and place, the root's reference and the number of gates.
#[repr(C)]
#[derive(Clone, Copy, Debug, PartialEq, Eq, Hash)]
pub struct Answer {
    pub number: usize,
    pub place: usize,
    pub root: usize,
    pub count: usize,
}

impl From<Result<Circuit, Refusal>> for Answer {
    ghost from_gives = { λ checked answer. answer ≡ answer_of checked };

    fn from(checked: Result<Circuit, Refusal>) -> Answer {
        match checked {
            Ok(circuit) => Answer {
                number: 0,
                place: circuit.clause,
                root: circuit.root,
                count: circuit.count,
            },
            Err(refusal) => Answer {
                number: refusal.number(),
                place: refusal.place(),
                root: 0,
                count: 0,
            },
        }
    }
}

// Checking a refutation and building its circuit: tables A and B, the steps, and the lent work table and gate table.
pub fn check(
    a: &[u8],
    b: &[u8],
    steps: &[u8],
    work: &mut [u8],
    gates: &mut [u8],
) -> Result<Circuit, Refusal>
    ensures { Checks (plain_checked 32 1024 a.now b.now steps.now work.old gates.old) (answer_of result) work.new gates.new }
{
    records::test_tables(a, b, steps)?;
    records::test_room(steps, work)?;
    if gates.len() / 24 < steps.len() / 8 {
        return Err(Refusal::GatesTooShort);
    }
    let derived = records::derive(a, b, steps, work);
    let clause = derived?;
    let built = build(a, b, steps, clause, gates);
    Ok(Circuit {
        clause,
        root: built.reference,
        count: built.count,
    })
}
