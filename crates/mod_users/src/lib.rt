//! Users files, after users(5), and filter files: their entries, or the first fault at its line and column; which entries
//! match a request; and what the module `files` does by them.
//! The one model is `Users`, seen as the list of its entries in file order; a pattern means what its text does. The entries that
//! match are those of `entries`, in order, each tried in the lists that those before it left; the code finds them by an index
//! of names.
//! Above it stand the sites, whose authorize sections run `files`, and filters.
#![tactic(auto)]

mod draft;
mod edits;
mod entry;
mod fault;
mod files;
mod fits;
mod form;
mod items;
mod laws;
mod lines;
mod patterns;
mod placed;
mod reading;
mod row;
mod search;
mod users;

pub use entry::Entry;
pub use fault::UsersFault;
pub use files::FilesModule;
pub use laws::{
    entries_that_do_not_match_change_nothing, requests_stay_as_they_came,
    the_first_entry_without_fall_through_decides, written_users_are_read_back,
};
pub use users::Users;
