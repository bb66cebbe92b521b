//! The commands that tell what stands in files, and draw from it: a mechanism is reported on and drawn from, interim odds are
//! realised, and units are awarded.
#![tactic(auto)]

mod award;
mod award_text;
mod conditions;
mod draw;
mod drawable;
mod profile;
mod realise;
mod report;
mod reported;
mod sale_answer;
mod sale_draw;
mod sale_report;
mod unit_answer;
mod unit_draw;
mod unit_report;

pub use award::Awarding;
pub use draw::Draw;
pub use drawable::Drawable;
pub use realise::Realise;
pub use report::Tell;
pub use reported::Reported;
pub use unit_draw::DrawUnits;
pub use unit_report::TellUnits;
