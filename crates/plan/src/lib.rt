// The plan: records that put any card into a wanted file, and the short one back to a saved file.
#![tactic(auto)]

mod chips;
mod planning;
mod records;
mod rows;
mod short_answer;
mod short_planning;
mod short_stages;
mod stages;

pub use chips::on_one_chip;
pub use planning::plan;
pub use short_answer::ShortAnswer;
pub use short_planning::short_plan;
