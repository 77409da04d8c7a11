//! Expansions, as unlang(5) of FreeRADIUS writes them: texts with parts behind `%`, which stand for values of a request,
//! for captures and loops, for dates, or for a function of a text. An expansion is read once from its text under a
//! dictionary, and expanded as often as wanted. Its model is the list of its parts; `text_of` says what they stand for in
//! a scope, and `parts_of` what a text is read as. Above it stand conditions, updates, and the modules that name files
//! and keys by expansions.
#![tactic(auto)]

mod dates;
mod fault;
mod laws;
mod part;
mod paths;
mod reading;
mod spans;
mod texts;
mod values;
mod words;
mod xlat;

pub use fault::XlatFault;
pub use laws::{faults_are_told_at_a_percent_sign, written_expansions_are_read_back};
pub use part::{DatePart, Function, Part};
pub use rad_dates::{Civil, date_of, stamp};
pub use unlang_reference::Reference;
pub use xlat::Xlat;
