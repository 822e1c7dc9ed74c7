// The 14 words of an instruction of draft 0.5.0: translatable or not, and the 12 of draft 0.6.0 that they become.
#![tactic(auto)]

mod forms;
mod reasons;

pub use forms::translation;
pub use reasons::is_translatable;
