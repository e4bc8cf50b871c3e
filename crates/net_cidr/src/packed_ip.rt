ghost use Rattle.std.specs.Prelude.{◌≡◌};

use crate::ip::Ip;
use std::cmp::Ordering;
use std::hash::{Hash, Hasher};
use std::marker::Model;

/// An address with the alignment of a `u64`, for types whose other fields need no more: an `Ip` has
/// that of its `u128`, 16 bytes. Contracts see it as the address.
#[derive(Clone, Copy)]
pub struct PackedIp {
    parts: Parts,
}

#[derive(Clone, Copy)]
enum Parts {
    /// The number of an IPv4 address.
    Whole(u32),
    /// The higher and the lower 64 bits of an IPv6 address.
    Halves(u64, u64),
}

impl Model for PackedIp {
    ghost use Rattle.net_cidr.specs.declared.ip.Ip.{Ip};
    ghost use Rattle.net_cidr.specs.Packed.{AreParts, joined, parted, parted_again};

    ghost Value = { Ip };

    ghost view = { λ packed. joined packed.parts };

    ghost invariant = { λ packed. AreParts packed.parts };

    ghost inverse = { λ ip. record { parts = parted ip } };

    ghost inverse_ok = { λ packed valid i. record { parts = parted_again packed.parts valid i } };
}

impl PackedIp {
    pub fn new(ip: Ip) -> PackedIp
        ensures { result ≡ ip }
    {
        let parts = match ip {
            Ip::V4(number) => Parts::Whole(number),
            Ip::V6(number) => Parts::Halves((number >> 64) as u64, (number % (1 << 64)) as u64),
        };
        PackedIp { parts }
    }

    pub fn get(self) -> Ip
        ensures { result ≡ self }
    {
        match self.parts {
            Parts::Whole(number) => Ip::V4(number),
            Parts::Halves(high, low) => Ip::V6((u128::from(high) << 64) | u128::from(low)),
        }
    }
}

impl PartialEq for PackedIp {
    ghost use Rattle.net_cidr.specs.contracts.ip.IpPartialEq.TheImpl.Laws.{laws-law};

    ghost eq = { ⟦<Ip as PartialEq>⟧.eq };

    ghost laws = { laws-law };

    fn eq(&self, other: &PackedIp) -> bool {
        self.get() == other.get()
    }
}

impl Eq for PackedIp {
    ghost use Rattle.net_cidr.specs.contracts.ip.IpEq.TheImpl.Laws.{laws-law};

    ghost laws = { laws-law };
}

impl PartialOrd for PackedIp {
    ghost use Rattle.net_cidr.specs.contracts.ip.IpPartialOrd.TheImpl.Laws.{laws-law};

    ghost partial_cmp = { ⟦<Ip as PartialOrd>⟧.partial_cmp };

    ghost laws = { laws-law };

    fn partial_cmp(&self, other: &PackedIp) -> Option<Ordering> {
        Some(self.cmp(other))
    }
}

impl Ord for PackedIp {
    ghost use Rattle.net_cidr.specs.contracts.ip.IpOrd.TheImpl.Laws.{matches_eq-law, matches_partial_cmp-law, total-law};

    ghost cmp = { ⟦<Ip as Ord>⟧.cmp };

    ghost total = { total-law };

    ghost matches_partial_cmp = { matches_partial_cmp-law };

    ghost matches_eq = { matches_eq-law };

    fn cmp(&self, other: &PackedIp) -> Ordering {
        self.get().cmp(&other.get())
    }
}

impl Hash for PackedIp {
    ghost use Rattle.net_cidr.specs.contracts.ip.IpHash.TheImpl.Laws.{respects_eq-law};

    ghost hash_input = { ⟦<Ip as Hash>⟧.hash_input };

    ghost respects_eq = { respects_eq-law };

    fn hash<H: Hasher>(&self, state: &mut H) {
        self.get().hash(state);
    }
}
