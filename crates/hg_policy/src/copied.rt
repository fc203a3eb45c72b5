//! Names and what stands beside each, a second time.

ghost use Rattle.std.specs.Prelude.{◌≡◌, IfOk};
ghost use Rattle.hg_policy.specs.Copied.{by_text};

use indexmap::IndexMap;
use std::alloc::{AllocError, Global};

/// The same names in the same order, each with the same beside it.
pub(crate) fn copied<V: Copy>(
    alloc: Global,
    named: &IndexMap<String, V>,
) -> Result<IndexMap<String, V>, AllocError>
    ensures { IfOk result (λ copy. by_text copy.entries ≡ by_text named.now.entries) }
{
    let mut copy = IndexMap::with_capacity(alloc, named.len())?;
    for (name, value) in named.iter() {
        let name = String::from_str(alloc, name.as_str())?;
        copy.insert(name, *value)?;
    }
    Ok(copy)
}
