//! The hosts of a file, numbered as they first appear.
ghost use Rattle.std.specs.Prelude.{◌≡◌, ◌<◌, ◌^◌, [], IfOk, length};
ghost use Rattle.gw_routes.specs.Routes.{host_of, hosts_with};

use gw_wire::Addr;
use indexmap::IndexSet;
use std::alloc::{AllocError, Global};
use std::marker::Model;

/// Addresses, each with the number of those that came before it.
#[derive(Drop)]
pub(crate) struct Hosts {
    numbers: IndexSet<(bool, [u8; 4], u16)>,
    addresses: Vec<Addr>,
}

impl Model for Hosts {
    ghost use Rattle.std.specs.Prelude.{List};
    ghost use Rattle.gw_wire.specs.declared.values.Addr.{Addr};

    ghost Value = { List Addr };

    ghost view = { λ h. h.addresses.items };

    ghost use Rattle.gw_routes.specs.Hosts.{AreNumbersOf};

    ghost invariant = { λ h. AreNumbersOf h.numbers.keys h.addresses.items };
}

impl Hosts {
    /// No host.
    pub(crate) fn new(alloc: Global) -> Hosts
        ensures { result ≡ [] }
    {
        Hosts {
            numbers: IndexSet::new(alloc),
            addresses: Vec::new(alloc),
        }
    }

    /// How many there are.
    pub(crate) fn len(&self) -> usize
        ensures { result ≡ length self.now }
    {
        self.addresses.len()
    }

    /// The addresses by their numbers.
    pub(crate) fn into_addresses(self) -> Vec<Addr>
        ensures { result.items ≡ self }
    {
        self.addresses
    }

    /// The hosts with that address, which is added where it is new, and its number.
    pub(crate) fn with_address(self, addr: Addr) -> Result<(Hosts, u32), AllocError>
        requires { length self < 2 ^ 32 }
        ensures hosts { IfOk result (λ r. r.0 ≡ hosts_with self addr) }
        ensures number { IfOk result (λ r. r.1 ≡ host_of self addr) }
    {
        let Hosts {
            mut numbers,
            mut addresses,
        } = self;
        let ip = addr.ip;
        let (number, is_new) = numbers.insert_full((addr.local, ip, addr.port))?;
        if is_new {
            addresses.push(addr)?;
        }
        Ok((Hosts { numbers, addresses }, number as u32))
    }
}
