// Steps: the only place that knows a step's eight bytes.
ghost use Rattle.records.specs.Step.{StepRead};

use crate::tables::record_of;

// A step: two clause numbers, the pivot variable, and whether its spare bytes are zero. What the other bytes say is read in either case, so
// that a flag stands beside it.
#[derive(Clone, Copy, Debug, PartialEq, Eq, Hash)]
pub struct Step {
    pub left: usize,
    pub right: usize,
    pub pivot: usize,
    pub spare: bool,
}

// Step i of a table. Past the table's end every byte reads as zero.
pub fn read_step(steps: &[u8], i: usize) -> Step
    ensures { StepRead steps.now i result }
{
    let s = record_of(steps, 8, i);
    if s.len() < 8 {
        return Step {
            left: 0,
            right: 0,
            pivot: 0,
            spare: true,
        };
    }
    Step {
        left: usize::from(u16::from_le_bytes([s[0], s[1]])),
        right: usize::from(u16::from_le_bytes([s[2], s[3]])),
        pivot: usize::from(s[4]),
        spare: s[5] | s[6] | s[7] == 0,
    }
}
