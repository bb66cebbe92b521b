//! Answers about the best deterministic mechanism of a setting: their check, their texts, and the check of a text leaf by leaf. A
//! search tree shows that none is better: each branch fixes an outcome at a profile, and each leaf has a certificate for the
//! program of what is fixed there.
#![tactic(auto)]

mod answer;
mod answer_judging;
mod certificates;
mod checking;
mod first;
mod fixed_pairs;
mod kind;
mod leaves;
mod node;
mod node_judging;
mod node_reading;
mod reading;
mod rule_judging;
mod texts;
mod tree;
mod tree_judging;
mod tree_reading;
mod tree_writing;
mod verdict;
mod walking;
mod worths;
mod writing;

pub use answer::DetAnswer;
pub use checking::check_determ;
pub use md_parts::AnswerRefusal;
pub use node::Node;
pub use reading::read_determ;
pub use texts::{check_text, read_text};
pub use tree::Tree;
pub use verdict::{DetReject, DetVerdict};
pub use writing::write_determ;
