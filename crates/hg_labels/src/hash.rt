//! What a name is found by.

ghost use Rattle.std.specs.Prelude.{◌≡◌, ℕ, ◌/◌, ◌^◌};
ghost use Rattle.hg_labels.specs.Hash.{hash_of, tag_of};

const SEED: u64 = 0xcbf2_9ce4_8422_2325;

const PRIME: u64 = 0x100_0000_01b3;

/// The FNV-1a hash of a name's bytes.
#[tactic(auto, unfolding(crate::specs::Hash::hash_of))]
pub(crate) fn hash_of(name: &[u8]) -> u64
    ensures { result ≡ hash_of name.now }
{
    name.iter().fold(SEED, |hash, byte| {
        (hash ^ u64::from(*byte)).wrapping_mul(PRIME)
    })
}

/// The upper half of a hash.
pub(crate) fn tag_of(hash: u64) -> u32
    ensures { result ≡ tag_of hash }
{
    (hash >> 32) as u32
}
