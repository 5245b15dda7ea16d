//! A refused file in words: where it is refused, what is wrong, the line with marks under the place,
//! and a hint. The same of a game that has no table, in a sentence.
#![tactic(auto)]

mod context;
mod excerpt;
mod fault_line;
mod hint;
mod line;
mod mistake;
mod place;
mod sentence;
mod shown;
mod spelling;
mod text;

pub use fault_line::{form_line, refusal_line};
pub use line::Line;
pub use shown::{Part, ShownText, push_line, shown_name};
pub use text::{form_explanation, refusal_explanation, said_after};
