//! Device numbers, as makedev(3) lays them out in 32 bits.

ghost use Rattle.std.specs.Prelude.{◌≡◌, ℕ, ◌<◌, ◌^◌};
ghost use Rattle.sys_abi.specs.Devices.{device_number, major_of, minor_of};

/// The number of the device `minor` of the driver `major`. A major number has 12 bits, and a minor number 20.
pub fn makedev(major: u32, minor: u32) -> u32
    requires major_fits { major < 4096 }
    requires minor_fits { minor < 2 ^ 20 }
    ensures value { result ≡ device_number major minor }
    ensures major_back { major_of result ≡ major }
    ensures minor_back { minor_of result ≡ minor }
{
    minor % 256 + major * 256 + minor / 256 * 1048576
}

/// The major and the minor number of a device.
pub fn split_dev(dev: u32) -> (u32, u32)
    ensures major { result.0 ≡ major_of dev }
    ensures minor { result.1 ≡ minor_of dev }
    ensures major_fits { result.0 < 4096 }
    ensures minor_fits { result.1 < 2 ^ 20 }
    ensures back { device_number result.0 result.1 ≡ dev }
{
    (dev / 256 % 4096, dev % 256 + dev / 1048576 * 256)
}
