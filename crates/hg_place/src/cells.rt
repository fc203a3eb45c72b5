//! A place's slot word and record in one word of 64 bits: the slot word, and in its bit 7, which no
//! slot word has, whether the place is open.

ghost use Rattle.std.specs.Prelude.{◌≡◌};
ghost use Rattle.hg_place.specs.Lives.{IsSlotWord};
ghost use Rattle.hg_place.specs.Cells;
ghost use Rattle.hg_place.specs.Standings.{Fits};

use crate::{Standing, word_generation};

/// The bit of a cell that says that the place is open.
const OPEN: u64 = 128;

/// The slot word of a cell.
pub(crate) fn word_in(cell: u64) -> u64
    ensures { result ≡ Cells.word_in cell }
{
    cell / 256 * 256 + cell % 128
}

/// The record of a cell.
pub(crate) fn standing_in(cell: u64) -> Standing
    ensures { result ≡ Cells.standing_in cell }
{
    let generation = word_generation(cell);
    if cell / OPEN % 2 == 1 {
        Standing::Open(generation, (cell % OPEN / 2) as u8)
    } else {
        Standing::Home(generation)
    }
}

/// The cell of a record and the slot word that fits it.
pub(crate) fn cell_of(standing: Standing, word: u64) -> u64
    requires word { IsSlotWord word }
    requires fits { Fits standing word }
    ensures word { Cells.word_in result ≡ word }
    ensures standing { Cells.standing_in result ≡ standing }
{
    match standing {
        Standing::Home(_) => word,
        Standing::Open(_, _) => word + OPEN,
    }
}
