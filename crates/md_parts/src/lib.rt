//! Parts of answers, read and written as records.
#![tactic(auto)]

mod cuts;
mod fields;
mod first_record;
mod last_record;
mod mechanism;
mod multipliers;
mod numbers;
mod path;
mod profiles;
mod range;
mod reader;
mod refusal;
mod value;
mod version;

pub use cuts::{push_cuts, read_cuts};
pub use fields::Fields;
pub use first_record::{Head, push_first, read_first};
pub use last_record::{push_end, read_last};
pub use mechanism::{push_mechanism, push_pays, read_mechanism, read_pays};
pub use multipliers::{push_bound, push_face, read_bound, read_face};
pub use numbers::push_numbers;
pub use path::{
    push_entry, push_path, push_second, push_wide, read_entry, read_path, read_second, read_wide,
};
pub use range::Range;
pub use reader::Reader;
pub use refusal::AnswerRefusal;
pub use value::{push_value, read_value};
pub use version::Version;
