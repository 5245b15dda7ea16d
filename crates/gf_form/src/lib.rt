//! The strategic form of an extensive game: pure strategies, plays, payoffs and reduced strategies;
//! and what the players are paid if they choose given actions.
#![tactic(auto)]

mod division;
mod fault;
mod forms;
pub mod laws;
mod reduced;
mod reduced_form;
mod rows;
mod strategic_form;
mod strategies;
mod values;

pub use crate::fault::EvalFault;
pub use crate::forms::{Strategies, form_by};
pub use crate::reduced_form::table_reduced;
pub use crate::strategic_form::table;
pub use crate::strategies::valid::are_strategies;
pub use crate::values::expectation::expected;
pub use gf_token::FormFault;
