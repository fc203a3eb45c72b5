ghost use Rattle.std.specs.Prelude.{◌≡◌};

/// A type with a value that stands where nothing was written.
pub trait Blank: Copy {
    /// That value.
    ghost blank: { Self };

    /// That value.
    fn blank() -> Self
        ensures { result ≡ blank };
}

impl Blank for u64 {
    ghost blank = { 0 };

    fn blank() -> u64 {
        0
    }
}

impl Blank for u16 {
    ghost blank = { 0 };

    fn blank() -> u16 {
        0
    }
}
