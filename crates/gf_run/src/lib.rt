//! The runs over inputs that are open: each reads its input whole, judges it, and writes the answer, and
//! fails with a fault that has an exit status and a line. They work over any readers and writers.
#![tactic(auto)]

mod fault;
mod run;
mod run_of_two;
mod streams;
mod texts;

pub use fault::{RunFault, Which, WriteFault, answer_status, is_of_second, status};
pub use run::{run_canon, run_canon_by, run_check, run_table, run_table_reduced};
pub use run_of_two::{run_same, run_same_by, run_same_map};
pub use streams::counted::Counted;
pub use streams::last_error::LastError;
pub use streams::sink::{Sink, push_all};
pub use streams::source::{LIMIT, Source, load};
pub use texts::answer::{Answer, answer_with, write_answer};
pub use texts::game::{are_canonical, canon, kind_line, kind_of};
pub use texts::report::{line_of, short_line_of, write_fault};
