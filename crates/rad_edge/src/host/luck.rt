ghost use Rattle.std.specs.Prelude.{None};

use rad_outside::Luck;
use rand_core::{Rng, SeedableRng};
use rand_pcg::Pcg64;

/// Words of a PCG generator. They differ from run to run and are no secret.
#[derive(Drop)]
pub struct PcgLuck {
    generator: Pcg64,
}

impl PcgLuck {
    /// Words from this seed on.
    pub fn new(seed: u64) -> PcgLuck {
        PcgLuck {
            generator: Pcg64::seed_from_u64(seed),
        }
    }
}

impl Luck for PcgLuck {
    ghost told = { λ _. None };

    fn word(&mut self) -> u64 {
        self.generator.next_u64()
    }
}
