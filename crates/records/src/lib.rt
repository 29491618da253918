// The step layer: clause records, the resolution rule, steps, the derivation over a work table, and its root.
//
// Every public function is total: it has an answer for tables of any bytes and lengths, and its contract says which.
#![tactic(auto)]

mod clauses;
mod derivation;
mod refusals;
mod steps;
mod tables;
mod tests;

pub use clauses::{has_literal, resolve};
pub use derivation::derive;
pub use refusals::{Refusal, StepFault};
pub use steps::{Step, read_step};
pub use tables::{first_empty, literals_of, record};
pub use tests::{test_room, test_tables};
