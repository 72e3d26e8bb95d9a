//! The calls for hosts, on what C hands over, and the answers that C sees. Programs are judged, prepared, loaded and run;
//! filters are converted; certificates are proposed, and refusals explained. `bpf_host` exports them under C's names.
#![tactic(auto)]

mod advising;
mod answers;
mod asked;
mod certification;
mod certifying;
mod checked;
mod conversion;
mod convert_sizes;
mod converting;
mod explaining;
mod explanation;
mod following;
mod forms;
mod hardening;
mod host_advice_asked;
mod judged;
mod loaded;
mod outputs;
mod prepared;
mod proposal;
mod refusals;
mod running;
mod runs;
mod sizes;
mod texts;
mod trapping;
mod unconverted;

pub use advising::{answer_text, harden, infer, refusal_text};
pub use answers::{
    BAD_CALL, BAD_LENGTH, BAD_WORDS, BpfOutcome, BpfRefusal, BpfVerdict, NO, NO_MEMORY, TOO_LONG,
    TOO_SMALL, YES,
};
pub use asked::ConvertAsked;
pub use certification::{BpfCertified, BpfWish};
pub use certifying::certify;
pub use conversion::BpfConverted;
pub use convert_sizes::convert_size;
pub use converting::convert;
pub use explaining::{explain, explain_image, explain_search};
pub use following::follows;
pub use host_advice_asked::{
    BpfFollowing, CertifyAsked, ExplainAsked, FollowAsked, HardenAsked, RangeAsked, TrapAsked,
};
pub use running::{
    LoadAsked, load, loaded_size, prepare, prepared_size, run, run_checked, run_loaded,
    run_prepared, verify, version,
};
pub use sizes::{explain_size, infer_size};
pub use trapping::ends_at_trap;
