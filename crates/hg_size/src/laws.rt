//! Laws of the sizes' numbers. Each function does nothing: what it promises is the law.

ghost use Rattle.hg_size.specs.SizeLaws.{SizesAreNumbered, KeysAreApart, SizesDouble};

/// Each size stands at its number in the table, and no two sizes have one number.
pub fn sizes_are_numbered()
    ensures { SizesAreNumbered }
{}

/// The sizes are 1 to 8, then up to a page's words each twice the fourth before it, then each twice
/// the one before it.
pub fn sizes_double()
    ensures { SizesDouble }
{}

/// The keys of arenas and classes are 16 bits wide, and no two have one key.
pub fn keys_are_apart()
    ensures { KeysAreApart }
{}
