// The tests of the tables' lengths: 1 to 4, and 5. They write nothing.
ghost use Rattle.records.specs.Tests.{first_failed, table_tests, room_tests, Says};
ghost use Rattle.records.specs.Refusal.{tested};

use crate::refusals::Refusal;

// Tests 1 to 4: each length a multiple of its record's, and at most 1,024 clauses with the results.
pub fn test_tables(a: &[u8], b: &[u8], steps: &[u8]) -> Result<(), Refusal>
    ensures { Says (first_failed (table_tests 32 1024 a.now b.now steps.now)) (tested result) }
{
    if a.len() % 64 != 0 {
        return Err(Refusal::LengthOfA);
    }
    if b.len() % 64 != 0 {
        return Err(Refusal::LengthOfB);
    }
    if steps.len() % 8 != 0 {
        return Err(Refusal::LengthOfSteps);
    }
    if 1024 < a.len() / 64 + b.len() / 64 + steps.len() / 8 {
        return Err(Refusal::TooManyClauses);
    }
    Ok(())
}

// Test 5: the work table has 64 bytes for each step.
pub fn test_room(steps: &[u8], work: &[u8]) -> Result<(), Refusal>
    ensures { Says (first_failed (room_tests 32 steps.now work.now)) (tested result) }
{
    if work.len() / 64 < steps.len() / 8 {
        return Err(Refusal::WorkTooShort);
    }
    Ok(())
}
