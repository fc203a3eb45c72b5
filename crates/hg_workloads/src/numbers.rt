/// The least sizes of the octaves from 8 to 512 bytes.
static OCTAVES: [u64; 6] = [8, 16, 32, 64, 128, 256];

/// Numbers drawn from a seed, by splitmix64.
#[derive(Drop)]
pub struct Numbers {
    state: u64,
}

impl Numbers {
    ghost use Rattle.std.specs.Prelude.{◌<◌};

    pub fn new(seed: u64) -> Numbers {
        Numbers { state: seed }
    }

    /// The next number.
    pub fn next(&mut self) -> u64 {
        self.state = self.state.wrapping_add(0x9e37_79b9_7f4a_7c15);
        let mut mixed = self.state;
        mixed = (mixed ^ mixed >> 30).wrapping_mul(0xbf58_476d_1ce4_e5b9);
        mixed = (mixed ^ mixed >> 27).wrapping_mul(0x94d0_49bb_1331_11eb);
        mixed ^ mixed >> 31
    }

    /// A number below a bound.
    pub fn below(&mut self, bound: u64) -> u64
        requires { 0 < bound }
        ensures { result < bound }
    {
        (self.next() >> 32) % bound
    }

    /// The size of a block: 8 to 511 bytes, each octave as often as another; one in 64 is longer,
    /// up to 8 KiB.
    pub fn bytes(&mut self) -> u64 {
        let number = self.next();
        if number & 63 == 0 {
            return 512 + (number >> 20) % 7_681;
        }
        let low = OCTAVES[(number >> 48) as usize % 6];
        low.wrapping_add(number >> 20 & low.wrapping_sub(1))
    }
}
