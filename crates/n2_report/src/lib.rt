//! The texts of reports: how each core stands, what each UART was given, the verdict, turns and
//! transfers of a run, and lines of memory.
#![tactic(auto)]

mod ends;
mod flat;
pub mod laws;
mod of_flat;
mod of_run;
mod report;
mod stops;
mod transfers;

pub use ends::{CoreEnd, MemoryLine, UartEnd};
pub use flat::flat_text;
pub use of_flat::flat_report;
pub use of_run::{run_report, run_status};
pub use report::report_text;
pub use stops::status;
pub use transfers::Transfers;
