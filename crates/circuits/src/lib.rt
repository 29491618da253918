// The gate layer: gate records, the build of a refutation's circuit, the check, and evaluating a gate table under an assignment.
//
// Every public function is total: it has an answer for tables of any bytes and lengths, and its contract says which.
#![tactic(auto)]

mod building;
mod checking;
mod evaluation;
mod gates;
mod kinds;
mod refusals;
mod rules;

pub use checking::{Answer, Circuit, Refusal, check};
pub use evaluation::{Evaluated, evaluate, evaluate_gate};
pub use gates::write_gate;
pub use refusals::{GateFault, Malformed};
