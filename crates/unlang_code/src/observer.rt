use rad_outside::Place;
use rad_words::Code;

/// Who watches a run. An observer is told of each statement that gave a code, and can't change the run.
pub trait Observer {
    /// The statement at this place of the configuration gave this code.
    fn ran(&mut self, place: &Place, code: Code);
}

/// The observer that does nothing.
#[derive(Clone, Copy, Debug, PartialEq, Eq)]
pub struct Silent;

impl Observer for Silent {
    fn ran(&mut self, _place: &Place, _code: Code) {}
}
