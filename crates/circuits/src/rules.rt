// The rule of a step, by where its pivot occurs.
ghost use Rattle.std.specs.Prelude.{◌≡◌, ◌<◌};
ghost use Rattle.records.specs.Table.{literals_of};
ghost use Rattle.circuits.specs.Rule.{symmetric};
ghost use Rattle.circuits.specs.Inside.{mentions};

use crate::kinds::Kind;

// "one gate, OR(L, R)" or "one gate, AND(L, R)"; or "three gates in this order: OR(xp, L), OR(not xp, R), AND of those two".
#[derive(Clone, Copy, Debug, PartialEq, Eq, Hash)]
pub(crate) enum Rule {
    One(Kind),
    Both,
}

impl Rule {
    // The symmetric system's rule of a pivot, by whether it occurs in A, and in B. Asked in this order: one gate's kind is then by A alone,
    // which the compiler makes an addition; a match of the pair took 2 % more instructions in a check.
    pub(crate) fn symmetric(in_a: bool, in_b: bool) -> Rule
        ensures { result ≡ symmetric in_a in_b }
    {
        if in_a && in_b {
            Rule::Both
        } else if in_a {
            Rule::One(Kind::Or)
        } else {
            Rule::One(Kind::And)
        }
    }
}

// The records of the literals of A and of B, made once and lent to each step.
#[derive(Drop)]
pub(crate) struct Literals {
    pub of_a: [u8; 64],
    pub of_b: [u8; 64],
}

impl Literals {
    // Those of tables A and B.
    pub(crate) fn new(a: &[u8], b: &[u8]) -> Literals
        ensures { result ≡ record { of_a = literals_of 32 a.now; of_b = literals_of 32 b.now } }
    {
        Literals {
            of_a: records::literals_of(a),
            of_b: records::literals_of(b),
        }
    }
}

// Whether a literal of variable v is in the record of a table's literals.
pub(crate) fn occurs_in(all: &[u8], v: usize) -> bool
    requires { v < 256 }
    ensures { result ≡ mentions 32 all.now v }
{
    let positive = records::has_literal(all, v);
    let negative = records::has_literal(all, 256 + v);
    positive | negative
}
