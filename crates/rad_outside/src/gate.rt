/// A point that a request passes.
#[derive(Clone, Copy, Debug, PartialEq, Eq)]
pub enum Point {
    /// Its policy is about to run.
    InPolicy,
    /// Its reply is about to be handed to the wire.
    BeforeSend,
}

/// What may hold a worker at a point, for tests of workers that run beside one another. It never fails.
pub trait Gate {
    /// The request of this place has come to the point. It may be held here.
    fn at(&mut self, point: Point, place: u64);
}
