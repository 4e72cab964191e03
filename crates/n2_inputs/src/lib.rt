//! What commands ask for before a machine runs: boards, images, sources, orders and journals, fetched from
//! a folder and read, or the first thing that is refused, with its status and its row.
#![tactic(auto)]

mod boards;
mod files;
mod inputs;
mod journals;
mod orders;
mod refusal;
mod rows;
mod sources;

pub use boards::{image_in, read_board, read_images, read_machine};
pub use files::fetch_file;
pub use inputs::{Inputs, fit, read_inputs, read_replay, read_run};
pub use journals::read_journal;
pub use orders::read_order;
pub use refusal::{Failure, NoAnswer, Refusal, Role};
pub use rows::put_row;
pub use sources::{read_listing, read_source};
