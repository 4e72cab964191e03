//! One transfer of a run.

use n2_bus::{Reply, Request};

/// A transfer: the actor, whose number for the device actor is the number of cores, how many turns
/// it made since its last transfer, what it asked for and what the bus replied.
#[derive(Clone, Copy, Debug, PartialEq, Eq)]
pub struct Entry {
    pub local: u64,
    pub actor: u32,
    pub request: Request,
    pub reply: Reply,
}

const _: () = prove!(size_of::<Entry>() <= 96);
