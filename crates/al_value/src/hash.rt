ghost use Rattle.std.specs.Prelude.{◌≡◌, [], ◌∷◌};
ghost use Rattle.al_value.specs.Hash.{fnv, fnv_offset};

/// The hash before any byte.
const OFFSET_BASIS: u64 = 14695981039346656037;

/// By which number each step multiplies.
const PRIME: u64 = 1099511628211;

/// The hash that a level begins with, after the one byte of the level itself.
pub fn hash_start(level: u8) -> u64
    ensures { result ≡ fnv fnv_offset (level ∷ []) }
{
    hash_add(OFFSET_BASIS, &[level])
}

/// The hash after the bytes of a field.
pub fn hash_add(h: u64, field: &[u8]) -> u64
    ensures { result ≡ fnv h field.now }
{
    field.iter().fold(
        h,
        |hash, byte| (hash ^ u64::from(*byte)).wrapping_mul(PRIME),
    )
}
