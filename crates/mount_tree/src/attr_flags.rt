//! The flags of setxattr(2), read as the set that they are.

ghost use Rattle.std.specs.Prelude.{◌≡◌};
ghost use Rattle.hist_model.specs.Trees.{are_attr_flags, creates_attr, replaces_attr};

use bitflags::Flags;
use sys_abi::flags::XattrFlags;

/// Whether setxattr(2) knows each of these flags.
pub fn are_attr_flags(flags: u32) -> bool
    ensures { result ≡ are_attr_flags flags }
{
    XattrFlags::from_bits(flags).is_some()
}

/// Whether the attribute must not exist yet (XATTR_CREATE).
pub(crate) fn creates_attr(flags: u32) -> bool
    ensures { result ≡ creates_attr flags }
{
    XattrFlags::from_bits_retain(flags).contains(XattrFlags::CREATE)
}

/// Whether the attribute must exist (XATTR_REPLACE).
pub(crate) fn replaces_attr(flags: u32) -> bool
    ensures { result ≡ replaces_attr flags }
{
    XattrFlags::from_bits_retain(flags).contains(XattrFlags::REPLACE)
}
