//! The inferrer: it proposes certificates, and nobody relies on it. Its plain search goes in rounds over states that are widened, with one
//! counter for each loop. The deep search drafts states first, and then finds budgets, ranking functions: which counters the loops have,
//! and what they weigh. Where neither finds a certificate, it says what was in the way.
#![tactic(auto)]

mod bases;
mod budgets;
mod candidates;
mod components;
mod deep;
mod draft;
mod groups;
mod inferrer;
mod loops;
mod open_loops;
mod paths;
mod plain;
mod plan;
mod ranking;
mod rounds;
mod sketch;
mod tangles;
mod trials;
mod walkers;
mod weights;

pub use bpf_infer_base::{
    CounterTrial, ForeseenCondition, InferError, Limit, Loss, Move, Obstacle, Quest, SearchStop,
    Sketch, Tangle, Unwatched, Watch,
};
pub use inferrer::{WantedCertificate, infer, propose, search, search_or_stop};
pub use open_loops::uncounted;
pub use ranking::ranked;
pub use sketch::sketch_of;
