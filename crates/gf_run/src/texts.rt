//! What is written: the texts of answers, and the line of a fault.

pub mod answer;
pub mod comparison;
pub mod game;
pub mod renumbering;
pub mod report;
pub mod table;
