/// Why a service that was to close goes on.
#[derive(Clone, Copy, Debug, PartialEq, Eq)]
pub enum CloseFault {
    /// The lowest segment that isn't in the pool.
    StillHeld(u8),
    /// Memory was refused.
    Memory,
    /// The lowest worker that was taken and hasn't left.
    StillOut(u8),
}
