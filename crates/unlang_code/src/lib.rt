//! The section tables of a site: what the source trees of its policies mean when they run over a request.
//! The one model is the list of servers that a table was made from; a section means a function from a situation to a
//! situation and a code, piece by piece, and `Table::run` gives what it means for every kind of modules, every world and
//! every observer.
//! Above it stand the programs that serve requests.
#![tactic(auto)]

mod arms;
mod judgement;
mod laws;
mod members;
mod observer;
mod progress;
mod run;
mod section_id;
mod table;
mod update;

pub use laws::{
    ListFact, found_sections_stand, groups_answer_as_their_children,
    ifs_run_the_first_arm_that_holds, load_balance_blocks_run_one_member,
    redundant_blocks_end_with_a_success, sections_keep_their_frames,
    sections_keep_what_their_statements_keep, updates_leave_other_lists,
};
pub use observer::{Observer, Silent};
pub use section_id::SectionId;
pub use table::{Table, compile};
pub use update::Said;
