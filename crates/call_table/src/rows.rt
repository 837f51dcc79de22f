//! The rows of the table.

ghost use Rattle.std.specs.Prelude.{◌≡◌, ◌<◌};
ghost use Rattle.call_table.specs.Table as table;
ghost use Rattle.call_table.specs.Rows.{IsRow, IsRowOf};

use crate::kinds::{CallNumber, CallText, LinePiece, PathBase};
use sys_abi::calls;

/// What a call has. The texts of a call that are read are four at most.
#[derive(Clone, Copy, Debug)]
pub struct CallRow {
    /// From where its relative paths go.
    pub base: PathBase,
    pub texts: &'static [CallText],
    pub numbers: &'static [CallNumber],
    /// The line of its effect, after its name.
    pub line: &'static [LinePiece],
    /// The lane in which a call of this kind is served, from 0 to 5.
    pub lane: u8,
    /// Whether an effect of it may be granted.
    pub may_be_granted: bool,
}

/// The row of a call without fields.
fn bare() -> CallRow
    ensures { IsRow (table.bare 0) result }
{
    CallRow {
        base: PathBase::Nowhere,
        texts: &[],
        numbers: &[],
        line: &[],
        lane: 5,
        may_be_granted: false,
    }
}

/// The row of sysinfo(2).
fn sysinfo_row() -> CallRow
    ensures { IsRow table.sysinfo_row result }
{
    CallRow {
        base: PathBase::Nowhere,
        texts: &[],
        numbers: &[CallNumber::Address(0)],
        line: &[],
        lane: 3,
        may_be_granted: true,
    }
}

/// The row of mknod(2).
fn mknod_row() -> CallRow
    ensures { IsRow table.mknod_row result }
{
    CallRow {
        base: PathBase::WorkingDirectory,
        texts: &[CallText::Path(0)],
        numbers: &[CallNumber::Mode(1), CallNumber::Device(2)],
        line: &[LinePiece::Quoted(0), LinePiece::Node(0, 1)],
        lane: 0,
        may_be_granted: true,
    }
}

/// The row of mount(2).
fn mount_row() -> CallRow
    ensures { IsRow table.mount_row result }
{
    CallRow {
        base: PathBase::WorkingDirectory,
        texts: &[
            CallText::Source(0),
            CallText::Path(1),
            CallText::Fstype(2),
            CallText::Data(4),
            CallText::Program,
        ],
        numbers: &[CallNumber::WideFlags(3), CallNumber::Shift],
        line: &[
            LinePiece::Quoted(0),
            LinePiece::Quoted(1),
            LinePiece::Quoted(2),
            LinePiece::Flags(0),
            LinePiece::Data(3),
            LinePiece::Via(4),
            LinePiece::Shifted(1),
        ],
        lane: 1,
        may_be_granted: true,
    }
}

/// The row of setxattr(2).
fn setxattr_row() -> CallRow
    ensures { IsRow table.setxattr_row result }
{
    CallRow {
        base: PathBase::WorkingDirectory,
        texts: &[CallText::Path(0), CallText::Name(1), CallText::Value(2, 3)],
        numbers: &[CallNumber::Flags(4)],
        line: &[
            LinePiece::Quoted(0),
            LinePiece::Quoted(1),
            LinePiece::Hexed(2),
            LinePiece::Flags(0),
        ],
        lane: 2,
        may_be_granted: true,
    }
}

/// The row of openat(2).
fn openat_row() -> CallRow
    ensures { IsRow table.openat_row result }
{
    CallRow {
        base: PathBase::Register(0),
        texts: &[CallText::Path(1)],
        numbers: &[CallNumber::Descriptor(0), CallNumber::Flags(2)],
        line: &[],
        lane: 4,
        may_be_granted: false,
    }
}

/// The row of mknodat(2).
fn mknodat_row() -> CallRow
    ensures { IsRow table.mknodat_row result }
{
    CallRow {
        base: PathBase::Register(0),
        texts: &[CallText::Path(1)],
        numbers: &[
            CallNumber::Mode(2),
            CallNumber::Device(3),
            CallNumber::Descriptor(0),
        ],
        line: &[
            LinePiece::Signed(2),
            LinePiece::Quoted(0),
            LinePiece::Node(0, 1),
        ],
        lane: 0,
        may_be_granted: true,
    }
}

/// The row of a call's number, if it has one.
pub fn row_of(nr: i32) -> Option<CallRow>
    ensures { IsRowOf (table.row_of nr) result }
{
    match nr {
        calls::CLOSE | calls::GETPID => Some(bare()),
        calls::SYSINFO => Some(sysinfo_row()),
        calls::MKNOD => Some(mknod_row()),
        calls::MOUNT => Some(mount_row()),
        calls::SETXATTR => Some(setxattr_row()),
        calls::OPENAT => Some(openat_row()),
        calls::MKNODAT => Some(mknodat_row()),
        _ => None,
    }
}

/// Whether a call has a path.
pub fn has_path(nr: i32) -> bool
    ensures { result ≡ table.is_call_with table.has_path nr }
{
    match row_of(nr) {
        Some(row) => row.texts.iter().any(|text| text.is_path()),
        None => false,
    }
}

/// Whether a call makes a node of a mode.
pub fn makes_node(nr: i32) -> bool
    ensures { result ≡ table.is_call_with table.makes_node nr }
{
    match row_of(nr) {
        Some(row) => row.numbers.iter().any(|number| number.is_mode()),
        None => false,
    }
}

/// Whether an effect of a call may be granted.
pub fn may_be_granted(nr: i32) -> bool
    ensures { result ≡ table.is_call_with table.may_be_granted nr }
{
    match row_of(nr) {
        Some(row) => row.may_be_granted,
        None => false,
    }
}

/// From where the relative paths of a call go: nowhere of a call without a row.
pub fn base_of(nr: i32) -> PathBase
    ensures { result ≡ table.base_by_row (table.row_of nr) }
{
    match row_of(nr) {
        Some(row) => row.base,
        None => PathBase::Nowhere,
    }
}

/// The lane in which a call is served, from 0 to 5: 5 of a call without a row.
pub fn lane_of(nr: i32) -> u8
    ensures lane { result ≡ table.lane_by_row (table.row_of nr) }
    ensures range { result < 6 }
{
    match row_of(nr) {
        Some(row) => row.lane,
        None => 5,
    }
}

/// The line of an effect of a call, after its name.
pub fn line_of(nr: i32) -> &'static [LinePiece]
    ensures { result.now ≡ table.line_by_row (table.row_of nr) }
{
    match row_of(nr) {
        Some(row) => row.line,
        None => &[],
    }
}
