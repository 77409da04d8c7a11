//! Which of a desk and its seats may cross threads.
use crate::desk::Desk;
use crate::seat::Seat;
use crate::stands::Stands;

fn may_be_shared<T: Send + Sync>() {}

fn may_be_sent<T: Send>() {}

/// Where a value may go to another thread, any thread may use its desk, and its seats may go to other threads.
pub fn crosses_threads<S: Stands + Send>() {
    may_be_shared::<Desk<S>>();
    may_be_sent::<Seat<S>>();
}
