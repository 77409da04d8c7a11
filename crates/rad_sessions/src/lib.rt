//! The sessions of a network's access servers, the changes of them, and the log that a server writes of its changes.
//! The one model is a list of sessions in order of NAS and port, a change as a function of such lists, and the log as
//! octets of which only whole and exact lines count.
//! Above it stand the modules and programs that keep, ask and show sessions.
#![tactic(auto)]

mod change;
mod changing;
mod cut;
mod fault;
mod fields;
mod folding;
mod hexadecimal;
mod laws;
mod lines;
mod listed;
mod part;
mod part_change;
mod part_list;
mod parts;
mod session;
mod session_list;
mod sessions;
mod written;

pub use change::Change;
pub use fault::RoomFault;
pub use laws::{lines_are_read_back, logs_say_the_whole_pieces, sessions_stand_until_they_end};
pub use session::Session;
pub use session_list::SessionList;
pub use sessions::{Sessions, fold_log};
pub use written::line_of;
