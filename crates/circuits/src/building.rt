// The build: the steps in order, "carrying the next free gate and the step number as one state".
ghost use Rattle.std.specs.Prelude.{◌≡◌, ◌+◌, ◌*◌, ◌<◌, ◌≤◌, [], length, take, slice_index};
ghost use Rattle.records.specs.Step.{step_at, step_count};
ghost use Rattle.records.specs.Derivation.{inputs};
ghost use Rattle.circuits.specs.Gate.{kind_byte};
ghost use Rattle.circuits.specs.Build.{plain, emit, emit_step, built, input_references, plain_build};
ghost use Rattle.circuits.specs.Inside.{rule_by, HasRoom, InReach, Puts, Adds, Turns, Buildable, StepsBuilt, Builds};

use crate::gates::put_gate;
use crate::kinds::Kind;
use crate::rules::{Literals, Rule, occurs_in};
use records::Step;

// The next free gate, and the number of the step to take. The tables are lent to its methods: these two numbers alone are the state. A builder,
// and what the two below hand on, is used once and let go.
#[derive(Drop)]
pub(crate) struct Builder {
    pub next: usize,
    pub step: usize,
}

// The builder once gates are added, and the reference of the last of them.
#[derive(Drop)]
pub(crate) struct Made {
    pub builder: Builder,
    pub reference: u16,
}

// The reference of a clause, and how many gates there are.
#[derive(Drop)]
pub(crate) struct Built {
    pub reference: usize,
    pub count: usize,
}

impl Builder {
    // One gate more, written in its record.
    fn add(mut self, gates: &mut [u8], kind: Kind, left: u16, right: u16) -> Builder
        requires { HasRoom 1 self gates.old }
        ensures { Puts self gates.old (record { kind = kind_byte kind; left = left; right = right }) result gates.new }
    {
        let next = self.next;
        put_gate(gates, next, u8::from(kind), left, right);
        self.next = next + 1;
        self
    }

    // One step more.
    fn advance(mut self) -> Builder
        requires { self.step < 1024 }
        ensures { (result.next ≡ self.next) × (result.step ≡ self.step + 1) }
    {
        self.step = self.step + 1;
        self
    }

    // One gate more, with its reference.
    fn emit(self, gates: &mut [u8], kind: Kind, left: u16, right: u16) -> Made
        requires { HasRoom 1 self gates.old }
        ensures { Adds self gates.old (plain 256 self.next (record { kind = kind_byte kind; left = left; right = right })) result gates.new }
    {
        let next = self.next;
        // It fits: there are at most 3,072 gates.
        let reference = 514 + (next as u16);
        let builder = self.add(gates, kind, left, right);
        Made { builder, reference }
    }

    // The gates of a step whose antecedents have the references left and right, by the rule of its pivot.
    fn resolve(self, gates: &mut [u8], rule: Rule, pivot: u16, left: u16, right: u16) -> Made
        requires { HasRoom 3 self gates.old × (pivot < 256) }
        ensures { Adds self gates.old (emit (plain 256) rule self.next pivot left right) result gates.new }
    {
        match rule {
            Rule::One(kind) => self.emit(gates, kind, left, right),
            Rule::Both => {
                let low = self.emit(gates, Kind::Or, 2 + 2 * pivot, left);
                let high = low.builder.emit(gates, Kind::Or, 3 + 2 * pivot, right);
                high.builder
                    .emit(gates, Kind::And, low.reference, high.reference)
            }
        }
    }

    // One step by the rule of its pivot: its gates, and its reference kept for the clause with number own.
    fn turn(
        self,
        gates: &mut [u8],
        references: &mut [u16; 1024],
        rule: Rule,
        step: Step,
        own: usize,
    ) -> Builder
        requires room { HasRoom 3 self gates.old × (self.step < 1024) }
        requires inside { InReach step × (own < 1024) }
        ensures { Turns self gates.old references.old own (emit_step (plain 256) rule self.next step references.old) result gates.new references.new }
    {
        let left = references[step.left];
        let right = references[step.right];
        // The pivot fits: it was a byte.
        let made = self.resolve(gates, rule, step.pivot as u16, left, right);
        references[own] = made.reference;
        made.builder.advance()
    }

    // The builder's step of the table, behind so many inputs. The tests of the pivot stand here: in a method of `Literals` they took up to three
    // instructions more a step.
    fn take_step(
        self,
        gates: &mut [u8],
        references: &mut [u16; 1024],
        steps: &[u8],
        literals: &Literals,
        inputs: usize,
    ) -> Builder
        requires room { HasRoom 3 self gates.old × (inputs + self.step < 1024) }
        requires inside { InReach (step_at steps.now self.step) }
        ensures { let step = step_at steps.now self.step in Turns self gates.old references.old (inputs + self.step) (emit_step (plain 256) (rule_by 32 literals.now step.pivot) self.next step references.old) result gates.new references.new }
    {
        let own = inputs + self.step;
        let step = records::read_step(steps, self.step);
        let rule = Rule::symmetric(
            occurs_in(&literals.of_a, step.pivot),
            occurs_in(&literals.of_b, step.pivot),
        );
        self.turn(gates, references, rule, step, own)
    }
}

// The references of the input clauses: 0 for each clause of A, then 1 for each of B.
fn start(in_a: usize, in_b: usize) -> [u16; 1024]
    requires { in_a + in_b ≤ 1024 }
    ensures { (length result ≡ 1024) × (take (in_a + in_b) result ≡ input_references in_a in_b) }
{
    let mut references = [0u16; 1024];
    references[in_a..in_a + in_b].fill(1);
    references
}

// All steps in order, behind so many inputs: how many gates they have. The builder has the step's number: a `for` would count it twice.
fn build_steps(
    gates: &mut [u8],
    references: &mut [u16; 1024],
    steps: &[u8],
    literals: &Literals,
    inputs: usize,
) -> usize
    requires { Buildable 32 inputs steps.now gates.old × (length references.old ≡ 1024) }
    ensures { StepsBuilt (built (plain 256) (rule_by 32 literals.now) 0 (record { references = take inputs references.old; gates = [] }) (step_at steps.now) (step_count steps.now)) (inputs + step_count steps.now) gates.old result gates.new references.new }
{
    let n = steps.len() / 8;
    let mut builder = Builder { next: 0, step: 0 };
    while builder.step < n {
        builder = builder.take_step(gates, references, steps, literals, inputs);
    }
    builder.next
}

// The circuit of tables A and B and of the steps, which are by the rule: its gates in the gate table, their number, and the
// reference of the clause with number root.
pub(crate) fn build(a: &[u8], b: &[u8], steps: &[u8], root: usize, gates: &mut [u8]) -> Built
    requires { Buildable 32 (inputs 32 a.now b.now) steps.now gates.old × (root < inputs 32 a.now b.now + step_count steps.now) }
    ensures { Builds (plain_build 32 a.now b.now steps.now) root gates.old result gates.new }
{
    let in_a = a.len() / 64;
    let in_b = b.len() / 64;
    let mut references = start(in_a, in_b);
    let literals = Literals::new(a, b);
    let count = build_steps(gates, &mut references, steps, &literals, in_a + in_b);
    let reference = usize::from(references[root]);
    Built { reference, count }
}
