//! Reading an input whole.

ghost use Rattle.std.specs.Prelude.{◌≡◌, ◌≤◌, ◌<◌, IfOk, IfSome, Err, length, vec_len};

use std::alloc::Global;
use std::io::Read;
use thiserror::Error;

/// Why an input was not read.
#[derive(Clone, Copy, Debug, PartialEq, Eq, Drop, Error)]
pub enum ReadFault {
    /// A read failed, for whatever cause.
    #[error("read fault")]
    Failed,
    /// There is more than the limit.
    #[error("read fault")]
    Long,
    #[error("no memory")]
    Memory,
}

/// The most bytes of an input.
pub const LIMIT: usize = 16_777_216;

/// All that the reader gives, where that is not more than the limit.
pub fn read_limited<R: Read>(alloc: Global, input: &mut R) -> Result<Vec<u8>, ReadFault>
    ensures ok { IfOk result
        (λ read. IfSome (R.remaining input.old) (λ bytes. read.items ≡ bytes)) }
    ensures fits { IfOk result (λ read. vec_len read ≤ LIMIT) }
    ensures long { result ≡ Err ReadFault.Long
        → IfSome (R.remaining input.old) (λ bytes. LIMIT < length bytes) }
{
    let mut bytes = Vec::new(alloc);
    let mut buf = [0u8; 32_768];
    for _ in 0..u64::MAX {
        match input.read(&mut buf) {
            Ok(0) => return Ok(bytes),
            Ok(n) => {
                if LIMIT - bytes.len() < n {
                    return Err(ReadFault::Long);
                }
                match bytes.extend_from_slice(&buf[..n]) {
                    Ok(()) => {}
                    Err(_) => return Err(ReadFault::Memory),
                }
            }
            Err(_) => return Err(ReadFault::Failed),
        }
    }
    Err(ReadFault::Failed)
}
