use rand_core::Rng;
use rand_pcg::Pcg32;

/// Numbers drawn from a seed.
#[derive(Drop)]
pub struct Numbers {
    random: Pcg32,
}

impl Numbers {
    ghost use Rattle.std.specs.Prelude.{◌<◌};

    /// The numbers of a seed, of which there are many streams.
    pub fn new(seed: u64, stream: u64) -> Numbers {
        Numbers {
            random: Pcg32::new(seed, stream),
        }
    }

    /// A number below a bound.
    pub fn below(&mut self, bound: usize) -> usize
        requires { 0 < bound }
        ensures { result < bound }
    {
        self.random.next_u32() as usize % bound
    }

    /// A number below a bound, or 0 where that is 0.
    pub fn short(&mut self, bound: u8) -> u8 {
        if bound == 0 {
            return 0;
        }
        self.below(usize::from(bound)) as u8
    }
}
