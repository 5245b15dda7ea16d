//! The players' strategies and profiles by their numbers, and their labels.

pub(crate) mod counts;
pub(crate) mod label_text;
pub(crate) mod labels;
pub(crate) mod numbered;
pub(crate) mod profile_numbers;
pub(crate) mod valid;
