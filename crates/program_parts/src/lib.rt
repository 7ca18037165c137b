//! What the programs share: words of their input, standard input up to a limit, members of zeros, and how they end.
#![tactic(auto)]

pub mod ending;
pub mod input;
pub mod layout_kind;
pub mod line_error;
pub mod log_kind;
pub mod side;
pub mod zeros;
