//! Turns at one value: callers with passes take turns, and each turn leaves one entry in the value's history.
//! The value always stands for the history, in the sense that its type gives to that word (`Stands`).
#![tactic(auto)]

mod cell;
mod close;
mod lend;
mod made;
mod marks;
mod pass;
mod rule;
mod spare;
mod turn;

pub use cell::TurnCell;
pub use close::{CloseNo, ClosedCell};
pub use marks::{Mark, Marks, leave_mark, try_to_leave_mark};
pub use pass::Pass;
pub use rule::Stands;
pub use turn::{Busy, Turn};
