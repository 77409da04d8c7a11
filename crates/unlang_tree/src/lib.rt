//! The policies of a site's virtual servers as source trees: what each section's statements are, after unlang(5), or the
//! first fault of the configuration in reading order.
//! The one model is `Policies`, seen as the list of servers, each with its sections, each with its statements; a reading
//! goes over the tree of blocks and pairs and knows nothing of its text. `Instances` are seen as a list, by whose places
//! calls name what they call.
//! Above it stand the tables that a server runs.
#![tactic(auto)]

mod actions;
mod arms;
mod calls;
mod depth;
mod fault;
mod groups;
mod instances;
mod laws;
mod policies;
mod policy_calls;
mod refusal;
mod servers;
mod site;
mod statement;
mod statements;
mod subsections;
mod tree;
mod update;
mod updates;
mod words;

pub use fault::{AddFault, TreeFault};
pub use instances::Instances;
pub use laws::{
    a_called_policy_is_read_where_it_stands, a_policy_that_calls_itself_is_a_loop,
    a_stray_else_is_an_unknown_keyword, a_written_group_is_read, a_written_if_is_read,
    a_written_site_is_read, each_call_can_be_made, the_33rd_block_is_too_deep,
    the_first_unknown_word_is_the_fault, what_holds_of_each_call_can_be_widened,
    written_calls_are_read,
};
pub use mod_base::MethodSet;
pub use policies::{Policies, SectionTree, Sections, ServerTree, Subsection, Subsections};
pub use statement::{
    Arm, Arms, Call, Group, GroupForm, Override, Overrides, Statement, StatementKind, Statements,
};
pub use tree::Tree;
pub use update::{Line, Lines, Right};
