use crate::Standing;
use hg_reserved::Blank;
use std::marker::Model;
use std::mem::size_of;

/// A standing in 8 bytes, as it is kept for each place of a segment.
#[derive(Clone, Copy)]
pub struct PackedStanding {
    generation: u32,
    // 0 where the place is home
    owner: u8,
    is_open: bool,
}

impl Model for PackedStanding {
    ghost use Rattle.std.specs.Prelude.{◌≡◌, false};
    ghost use Rattle.hg_place.specs.declared.standing.Standing.{Standing};
    ghost use Rattle.hg_place.specs.Packed.{standing_of, packed_of};

    ghost Value = { Standing };

    ghost view = { standing_of };

    ghost invariant = { λ p. p.is_open ≡ false → p.owner ≡ 0 };

    ghost inverse = { packed_of };
}

const _: () = prove!(size_of::<PackedStanding>() <= 8);

impl PackedStanding {
    ghost use Rattle.std.specs.Prelude.{◌≡◌};

    /// Packs a standing.
    pub fn of(standing: Standing) -> PackedStanding
        ensures { result ≡ standing }
    {
        match standing {
            Standing::Home(generation) => PackedStanding {
                generation,
                owner: 0,
                is_open: false,
            },
            Standing::Open(generation, owner) => PackedStanding {
                generation,
                owner,
                is_open: true,
            },
        }
    }

    /// What was packed.
    pub fn standing(self) -> Standing
        ensures { result ≡ self }
    {
        if self.is_open {
            Standing::Open(self.generation, self.owner)
        } else {
            Standing::Home(self.generation)
        }
    }
}

// A place of which nothing was written was never given out.
impl Blank for PackedStanding {
    ghost use Rattle.hg_place.specs.declared.standing.Standing.TheVariants.{Home};

    ghost blank = { Home 0 };

    fn blank() -> PackedStanding {
        PackedStanding::of(Standing::Home(0))
    }
}
