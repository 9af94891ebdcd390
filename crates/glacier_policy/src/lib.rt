//! The policies of vault locks: reading them, and what they deny.
#![tactic(auto)]

mod conditions;
mod days;
mod denial;
mod form;
pub mod laws;
mod patterns;
mod policy;
mod reading;
mod statements;
mod texts;

pub use policy::{Condition, Operator, Policy, PolicyFault, Statement};
pub use reading::POLICY_LIMIT;
