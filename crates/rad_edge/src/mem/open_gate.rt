use rad_outside::{Gate, Point};

/// A gate that holds nobody.
#[derive(Clone, Copy, Debug)]
pub struct OpenGate;

impl Gate for OpenGate {
    fn at(&mut self, _point: Point, _place: u64) {}
}
