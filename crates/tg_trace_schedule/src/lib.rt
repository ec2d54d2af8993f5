//! Basic blocks and traces (Appel, chapter 8): canonical statements become flat code.
//!
//! They are cut into blocks, whose order then lets most jumps fall away. Promises the choice of
//! instructions exactly the flat code of `specs/mirror/Cutting.antt` and
//! `specs/mirror/Laying.antt`.
#![tactic(auto)]

mod conditions;
mod cuts;
mod cutting;
mod emission;
mod flows;
mod laws;
mod orders;
mod placing;
mod traces;

pub use cutting::blocks;
pub use flows::{Block, Blocks, End};
pub use laws::{
    blocks_are_correct, blocks_are_well_formed, blocks_run, code_is_well_formed, names_stay,
    trace_is_bounded, traces_are_correct, traces_go_on,
};
pub use traces::trace;
