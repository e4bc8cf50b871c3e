// A filter of strings with a fixed size.
ghost use Rattle.std.specs.Prelude.{◌≡◌, ◌%◌, ◌^◌, true, ℕ};
ghost use Rattle.server_index.specs.Probes.{may_have, name_hash, probe_of};

/// A Bloom filter of strings: it has each string that was inserted, and may have others.
#[derive(Clone, Copy, Drop)]
pub(crate) struct NameFilter {
    bits: u128,
}

impl NameFilter {
    /// Creates a filter without strings.
    pub(crate) fn new() -> NameFilter {
        NameFilter { bits: 0 }
    }

    /// Inserts the string of a probe.
    pub(crate) fn insert(&mut self, probe: u128)
        ensures has { may_have self.new probe ≡ true }
        ensures keeps { (other : ℕ) → may_have self.old other ≡ true
            → may_have self.new other ≡ true }
    {
        self.bits |= probe;
    }

    /// Whether the filter may have the string of a probe. Each filter has the probe 0.
    pub(crate) fn may_have(&self, probe: u128) -> bool
        ensures { result ≡ may_have self.now probe }
    {
        self.bits & probe == probe
    }
}

/// Returns the probe of a string: three of 128 bits, by a hash of its bytes.
pub(crate) fn probe_of(name: &[u8]) -> u128
    ensures { result ≡ probe_of name.now }
{
    let hash = name_hash(name);
    bit(hash >> 57) | bit(hash >> 50) | bit(hash >> 43)
}

/// Returns the bit at the low seven bits of a place.
fn bit(place: u64) -> u128
    ensures { result ≡ 2 ^ (place % 128) }
{
    1 << (place % 128)
}

/// Returns the hash FNV-1a of the bytes, mixed so that its high bits depend on all of them.
fn name_hash(name: &[u8]) -> u64
    ensures { result ≡ name_hash name.now }
{
    let mut hash: u64 = 14695981039346656037;
    for byte in name {
        hash = (hash ^ u64::from(*byte)).wrapping_mul(1099511628211);
    }
    hash.wrapping_mul(11400714819323198485)
}
