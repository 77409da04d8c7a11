//! Modules: what a policy calls by name for a section of a server.
//! The one model is a module's meaning: for a dictionary and a section a function from a situation to a situation and a
//! code, where a situation is the scope, the sessions, the answers that devices are still to give and the effects so far.
//! Above it stand the kinds of modules, and policies, which are generic over the trait; what a policy reaches outside of
//! itself is that of `rad_world`, which it passes on.
#![tactic(auto)]

mod always;
mod laws;
mod method_set;
mod module;
mod stack;

pub use always::Always;
pub use laws::{modules_keep_their_frames, runs_are_joined};
pub use method_set::MethodSet;
pub use module::Module;
pub use rad_world::{Answers, AppendFault, ChangeFault, World};
pub use stack::Stack;
