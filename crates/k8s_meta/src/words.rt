ghost use Rattle.k8s_meta.specs.Scalars.{name, name_within, namespace, number, ip, net};
ghost use Rattle.k8s_meta.specs.Amounts.{duration, quantity};
ghost use Rattle.k8s_meta.specs.Words.{boolean, filled, text};

use crate::duration::read_duration;
use crate::fault::{ReadFault, What};
use crate::names::{is_label_within, is_name_within};
use crate::place::Place;
use crate::quantity::read_quantity;
use crate::reader::Reader;
use mesh_base::text::Text;
use net_cidr::ip::{Ip, read_ip};
use net_cidr::net::{Net, read_net};

/// Any string.
#[derive(Clone, Copy)]
pub struct AnyText;

impl Reader for AnyText {
    type Made = Text;

    ghost reading = { λ _. text };

    fn read<'a>(&self, place: &'a Place<'a>) -> Result<Text, ReadFault> {
        let text = place.text()?;
        Ok(Text::from_str(place.alloc(), text)?)
    }
}

/// A string of 1 to `most` bytes, each of `a-z`, `0-9`, `-` and `.`.
#[derive(Clone, Copy)]
pub struct NameWithin {
    pub most: usize,
}

impl Reader for NameWithin {
    type Made = Text;

    ghost reading = { λ r. name_within r.most };

    #[tactic(auto, unfolding(crate::specs::Spots::then, crate::specs::Scalars::name_within))]
    fn read<'a>(&self, place: &'a Place<'a>) -> Result<Text, ReadFault> {
        let text = place.text()?;
        if is_name_within(text.as_bytes(), self.most) {
            Ok(Text::from_str(place.alloc(), text)?)
        } else {
            Err(place.bad_name())
        }
    }
}

/// The name of an object: a string of 1 to 253 bytes of `a-z`, `0-9`, `-` and `.`.
#[derive(Clone, Copy)]
pub struct Name;

impl Reader for Name {
    type Made = Text;

    ghost reading = { λ _. name };

    fn read<'a>(&self, place: &'a Place<'a>) -> Result<Text, ReadFault> {
        NameWithin { most: 253 }.read(place)
    }
}

/// The name of a namespace: a string of 1 to 63 bytes of `a-z`, `0-9` and `-`.
#[derive(Clone, Copy)]
pub struct Namespace;

impl Reader for Namespace {
    type Made = Text;

    ghost reading = { λ _. namespace };

    #[tactic(auto, unfolding(crate::specs::Spots::then, crate::specs::Scalars::label_within))]
    fn read<'a>(&self, place: &'a Place<'a>) -> Result<Text, ReadFault> {
        let text = place.text()?;
        if is_label_within(text.as_bytes(), 63) {
            Ok(Text::from_str(place.alloc(), text)?)
        } else {
            Err(place.bad_name())
        }
    }
}

/// A boolean.
#[derive(Clone, Copy)]
pub struct Flag;

impl Reader for Flag {
    type Made = bool;

    ghost reading = { λ _. boolean };

    fn read<'a>(&self, place: &'a Place<'a>) -> Result<bool, ReadFault> {
        place.boolean()
    }
}

/// An integer of 16 bits, from `low` to `high`.
#[derive(Clone, Copy)]
pub struct Number16 {
    pub low: u16,
    pub high: u16,
}

/// The port of a Service or a container.
pub const PORT: Number16 = Number16 {
    low: 1,
    high: 65535,
};

impl Reader for Number16 {
    type Made = u16;

    ghost reading = { λ r. number r.low r.high };

    fn read<'a>(&self, place: &'a Place<'a>) -> Result<u16, ReadFault> {
        let number = place.number(u64::from(self.low), u64::from(self.high))?;
        Ok(number as u16)
    }
}

/// An integer of 32 bits, from `low` to `high`.
#[derive(Clone, Copy)]
pub struct Number32 {
    pub low: u32,
    pub high: u32,
}

impl Reader for Number32 {
    type Made = u32;

    ghost reading = { λ r. number r.low r.high };

    fn read<'a>(&self, place: &'a Place<'a>) -> Result<u32, ReadFault> {
        let number = place.number(u64::from(self.low), u64::from(self.high))?;
        Ok(number as u32)
    }
}

/// An IPv4 or IPv6 address.
#[derive(Clone, Copy)]
pub struct Address;

impl Reader for Address {
    type Made = Ip;

    ghost reading = { λ _. ip };

    #[tactic(auto, unfolding(crate::specs::Spots::then, crate::specs::Scalars::ip))]
    fn read<'a>(&self, place: &'a Place<'a>) -> Result<Ip, ReadFault> {
        let text = place.text()?;
        place.valid(What::Address, read_ip(text.as_bytes()))
    }
}

/// A network, or an address, which counts as the network of this address alone.
#[derive(Clone, Copy)]
pub struct Network;

impl Reader for Network {
    type Made = Net;

    ghost reading = { λ _. net };

    #[tactic(auto, unfolding(crate::specs::Spots::then, crate::specs::Scalars::net))]
    fn read<'a>(&self, place: &'a Place<'a>) -> Result<Net, ReadFault> {
        let text = place.text()?;
        place.valid(What::Network, read_net(text.as_bytes()))
    }
}

/// A duration such as `1h30m`, in nanoseconds below 2^63.
#[derive(Clone, Copy)]
pub struct Nanoseconds;

impl Reader for Nanoseconds {
    type Made = u64;

    ghost reading = { λ _. duration };

    #[tactic(auto, unfolding(crate::specs::Spots::then, crate::specs::Amounts::duration))]
    fn read<'a>(&self, place: &'a Place<'a>) -> Result<u64, ReadFault> {
        let text = place.text()?;
        place.valid(What::Duration, read_duration(text.as_bytes()))
    }
}

/// A quantity, as a whole number or as a string such as `100m`, in thousandths.
#[derive(Clone, Copy)]
pub struct Thousandths;

impl Reader for Thousandths {
    type Made = u32;

    ghost reading = { λ _. quantity };

    #[tactic(auto, unfolding(crate::specs::Amounts::quantity))]
    fn read<'a>(&self, place: &'a Place<'a>) -> Result<u32, ReadFault> {
        let found = match place.value() {
            Some(value) => read_quantity(value),
            None => None,
        };
        place.valid(What::Quantity, found)
    }
}

/// A string that is read by another reader. The empty string counts as absent.
#[derive(Clone, Copy)]
pub struct Filled<R>(pub R);

impl<R: Reader> Reader for Filled<R> {
    type Made = Option<R::Made>;

    ghost reading = { λ r. filled (R.reading r.0) };

    #[tactic(auto, unfolding(crate::specs::Spots::then, crate::specs::Words::filled, crate::specs::Words::unless))]
    fn read<'a>(&self, place: &'a Place<'a>) -> Result<Option<R::Made>, ReadFault> {
        let text = place.text()?;
        if text.is_empty() {
            return Ok(None);
        }
        let made = self.0.read(place)?;
        Ok(Some(made))
    }
}
