//! Prefixes with values as they cross to C.

ghost use Rattle.std.specs.Prelude.{◌≡◌, ◌<◌, MatchOption, IfOk};
ghost use Rattle.address_tables.specs.declared.entries.Entry.{Entry};
ghost use Rattle.address_tables.specs.Tables.{shown};
ghost use Rattle.table_handles.specs.Prefixes.{IsMeant, parts, told};

use address_tables::{Entry, Ipv6, Prefix};
use range_ffi::wide::WideKey;

/// The keys that begin with the first `length` bits of the network, and their value.
#[repr(C)]
#[derive(Clone, Copy)]
pub struct WidePrefix {
    pub network: WideKey,
    pub value: u64,
    pub length: u32,
}

impl WidePrefix {
    /// What says the entry.
    pub fn of(entry: &Entry<Ipv6, &u64>) -> WidePrefix
        ensures { told result ≡ parts (shown entry.now) }
    {
        WidePrefix {
            network: WideKey::of(entry.prefix.network),
            value: *entry.value,
            length: u32::from(entry.prefix.length),
        }
    }

    /// The entry that it says, or `None` where a key has fewer bits. The network may be any key of
    /// the prefix.
    pub fn entry(&self) -> Option<Entry<Ipv6, u64>>
        ensures { MatchOption result (128 < self.now.length) (IsMeant self.now) }
    {
        let Ok(length) = u8::try_from(self.length) else {
            return None;
        };
        let prefix = Prefix::containing(self.network.key(), length)?;
        Some(Entry {
            prefix,
            value: self.value,
        })
    }
}
