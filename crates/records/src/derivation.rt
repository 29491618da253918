// The derivation: the steps in order, each resolvent straight into its own record of the work table, and then the root.
//
// It takes the half as a const parameter, so that it serves records of up to 128 bytes; `derive` fixes it.
ghost use Rattle.std.specs.Prelude.{◌≡◌, ◌+◌, ◌*◌, ◌≤◌, ◌<◌, length, take};
ghost use Rattle.records.specs.Lists.{found};
ghost use Rattle.records.specs.Table.{records};
ghost use Rattle.records.specs.Step.{step_at, step_count};
ghost use Rattle.records.specs.Derivation.{inputs, clause_at, root_of, and_then, ran, rooted, derived, Derives};
ghost use Rattle.records.specs.Refusal.{tested, verdict_of};
ghost use Rattle.records.specs.Inside.{Masks, Sized, faulted, OrderTested, PivotTaken, StepTaken};

use crate::clauses::{all_masks, mask_of, resolve_halves};
use crate::refusals::{Refusal, StepFault};
use crate::steps::{Step, read_step};
use crate::tables::{copy_record, first_empty_of};
use crate::tests::{test_room, test_tables};

// What every step reads: the tables A and B, whose records have HALF bytes for each sign, and the masks of all literals, which are laid
// down once.
#[derive(Clone, Copy)]
struct Derivation<'a, const HALF: usize> {
    a: &'a [u8],
    b: &'a [u8],
    masks: &'a [u8],
    ghost half_least: { 0 < HALF },
    ghost half_most: { HALF ≤ 64 },
    ghost laid: { Masks HALF masks.now },
}

// Tests 7 and 8 of a step whose own clause number is own.
fn test_order(step: &Step, own: usize) -> Result<(), StepFault>
    ensures { OrderTested step.now own (faulted result) }
{
    if !step.spare {
        return Err(StepFault::SpareByte);
    }
    if own <= step.left {
        return Err(StepFault::AntecedentNotEarlier);
    }
    if own <= step.right {
        return Err(StepFault::AntecedentNotEarlier);
    }
    Ok(())
}

impl<const HALF: usize> Derivation<'_, HALF> {
    // How many clauses A and B have.
    fn inputs(&self) -> usize
        ensures { result ≡ inputs HALF self.now.a.now self.now.b.now }
    {
        let size = 2 * HALF;
        self.a.len() / size + self.b.len() / size
    }

    // A copy of clause k, one of those that are there, to the front of a part.
    fn copy_clause(&self, results: &[u8], k: usize, part: &mut [u8; 128])
        requires { k < inputs HALF self.now.a.now self.now.b.now + records (2 * HALF) results.now }
        ensures { take (2 * HALF) part.new ≡ clause_at HALF self.now.a.now self.now.b.now results.now k }
    {
        let size = 2 * HALF;
        let in_a = self.a.len() / size;
        if k < in_a {
            copy_record(self.a, size, k, part);
            return;
        }
        let j = k - in_a;
        let in_b = self.b.len() / size;
        if j < in_b {
            copy_record(self.b, size, j, part);
            return;
        }
        copy_record(results, size, j - in_b, part);
    }

    // Tests 9 and 10 on the antecedents, by one mask, and then the resolvent in the part, of which no byte is written before.
    fn resolve_tested(
        &self,
        left: &[u8],
        right: &[u8],
        pivot: usize,
        part: &mut [u8],
    ) -> Result<(), StepFault>
        requires { (length left.now ≡ 2 * HALF) × (length right.now ≡ 2 * HALF) × (length part.old ≡ 2 * HALF) }
        ensures { PivotTaken HALF left.now right.now pivot part.old part.new (faulted result) }
    {
        let variables = 8 * HALF;
        if variables <= pivot {
            return Err(StepFault::LeftLacksPivot);
        }
        let at = pivot / 8;
        let mask = mask_of(pivot % 8);
        if left[at] & mask == 0 {
            return Err(StepFault::LeftLacksPivot);
        }
        if right[HALF + at] & mask == 0 {
            return Err(StepFault::RightLacksPivot);
        }
        resolve_halves(HALF, left, right, pivot, self.masks, part);
        Ok(())
    }

    // Step i, whose own clause number is own: its fault, or its resolvent in its own record. The antecedents are earlier, so that they
    // stand before the record that is written; they are copied, so that the compiler need not ask at each step whether they meet it.
    fn take_step(
        &self,
        step: Step,
        i: usize,
        own: usize,
        work: &mut [u8],
        left: &mut [u8; 128],
        right: &mut [u8; 128],
    ) -> Result<(), StepFault>
        requires sized { Sized HALF self.now.a.now self.now.b.now work.old (i + 1) }
        requires own_number { own ≡ inputs HALF self.now.a.now self.now.b.now + i }
        ensures { StepTaken HALF self.now.a.now self.now.b.now step i work.old work.new (faulted result) }
    {
        test_order(&step, own)?;
        let size = 2 * HALF;
        self.copy_clause(work, step.left, left);
        self.copy_clause(work, step.right, right);
        let start = size * i;
        let part = &mut work[start..start + size];
        self.resolve_tested(&left[..size], &right[..size], step.pivot, part)
    }

    // All steps in order up to the first that has a fault.
    fn run_steps(&self, steps: &[u8], work: &mut [u8]) -> Result<(), Refusal>
        requires { Sized HALF self.now.a.now self.now.b.now work.old (step_count steps.now) }
        ensures { Derives (ran HALF self.now.a.now self.now.b.now (step_at steps.now) (step_count steps.now) work.old) work.new (tested result) }
    {
        let mut left = [0u8; 128];
        let mut right = [0u8; 128];
        let inputs = self.inputs();
        let n = steps.len() / 8;
        for i in 0..n {
            let step = read_step(steps, i);
            // A closure for `map_err` would borrow the counter.
            if let Err(fault) = self.take_step(step, i, inputs + i, work, &mut left, &mut right) {
                return Err(Refusal::AtStep(fault, i));
            }
        }
        Ok(())
    }

    // The first empty clause of A, B and the first n results.
    fn find_root(&self, work: &[u8], n: usize) -> Option<usize>
        requires { Sized HALF self.now.a.now self.now.b.now work.now n }
        ensures { result ≡ found (inputs HALF self.now.a.now self.now.b.now + n) (root_of HALF self.now.a.now self.now.b.now work.now (inputs HALF self.now.a.now self.now.b.now + n)) }
    {
        let size = 2 * HALF;
        let in_a = self.a.len() / size;
        if let Some(k) = first_empty_of(self.a, size, in_a) {
            return Some(k);
        }
        let in_b = self.b.len() / size;
        if let Some(k) = first_empty_of(self.b, size, in_b) {
            return Some(in_a + k);
        }
        let k = first_empty_of(work, size, n)?;
        Some(in_a + in_b + k)
    }

    // The steps, and then the root.
    fn derive(&self, steps: &[u8], work: &mut [u8]) -> Result<usize, Refusal>
        requires { Sized HALF self.now.a.now self.now.b.now work.old (step_count steps.now) }
        ensures { Derives (and_then (ran HALF self.now.a.now self.now.b.now (step_at steps.now) (step_count steps.now) work.old) (rooted HALF self.now.a.now self.now.b.now (step_count steps.now))) work.new (verdict_of result) }
    {
        self.run_steps(steps, work)?;
        self.find_root(work, steps.len() / 8)
            .ok_or(Refusal::NoEmptyClause)
    }
}

// The derivation over tables A and B, the steps and the work table: the root's clause number, or why it is refused. Refusals of tests 1 to
// 5 write nothing, of 7 to 10 leave the resolvents of the steps before, of 11 all of them.
pub fn derive(a: &[u8], b: &[u8], steps: &[u8], work: &mut [u8]) -> Result<usize, Refusal>
    ensures { Derives (derived 32 1024 a.now b.now steps.now work.old) work.new (verdict_of result) }
{
    test_tables(a, b, steps)?;
    test_room(steps, work)?;
    let masks = all_masks();
    let derivation: Derivation<'_, 32> = Derivation {
        a,
        b,
        masks: &masks,
    };
    derivation.derive(steps, work)
}
