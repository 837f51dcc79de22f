//! Lists of entries in the order of their numbers.

use sorted_list::{Numbered, find, remove, set};
use std::test::Fail;

/// A service under its port, and whether it is encrypted.
#[derive(Clone, Copy, PartialEq, Eq, Debug)]
struct Service {
    port: u16,
    encrypted: bool,
}

impl Numbered for Service {
    ghost number = { λ service. service.port };

    fn number(&self) -> u64 {
        self.port as u64
    }
}

#[test]
fn entries_stand_once_in_the_order_of_their_numbers(rt: HostRuntime) -> Result<(), Fail> {
    let mut services = Vec::new(rt.alloc());
    for (port, encrypted) in [(443, true), (80, true), (22, true), (80, false)] {
        services.reserve(1)?;
        set(&mut services, Service { port, encrypted });
    }
    let ssh = Service {
        port: 22,
        encrypted: true,
    };
    let http = Service {
        port: 80,
        encrypted: false,
    };
    let https = Service {
        port: 443,
        encrypted: true,
    };
    assert_eq!(rt; services.as_slice(), [ssh, http, https].as_slice());
    assert_eq!(rt; find(&services, 80), Some(http));
    assert_eq!(rt; find(&services, 81), None);
    remove(&mut services, 80);
    remove(&mut services, 81);
    assert_eq!(rt; services.as_slice(), [ssh, https].as_slice());
    Ok(())
}
