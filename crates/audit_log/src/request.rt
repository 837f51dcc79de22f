//! What a worker does for a call, in words.

ghost use Rattle.std.specs.Prelude.{◌≡◌, ◌++◌, OnOk, codes, decimal};
ghost use Rattle.hist_model.specs.ReportJournal.{node_text, piece_text, pieces_text, request_text, shift_text};
ghost use Rattle.hist_model.specs.Requests.{called, kind_of, low_16};
ghost use Rattle.sys_abi.specs.Devices.{major_of, minor_of};

use crate::line::LineBuffer;
use crate::words::{push_call, push_hex_or_dash, push_program};
use call_table::kinds::LinePiece;
use call_table::rows::line_of;
use hist_model::request::{Kind, Request, node_device};
use sys_abi::device::split_dev;
use sys_abi::memory::NoMemory;

/// Adds what a worker does for a call: its name, and what the row of the call says of it.
pub fn push_request(line: &mut LineBuffer, request: &Request) -> Result<(), NoMemory>
    ensures { OnOk result (line.new ≡ line.old ++ request_text request.now) }
{
    let call = request.call();
    push_call(line, call)?;
    push_pieces(line, request, line_of(call))
}

/// Adds the pieces of a call's line.
fn push_pieces(
    line: &mut LineBuffer,
    request: &Request,
    pieces: &[LinePiece],
) -> Result<(), NoMemory>
    ensures { OnOk result (line.new ≡ line.old ++ pieces_text (called request.now) pieces.now) }
{
    for piece in pieces {
        push_piece(line, request, *piece)?;
    }
    Ok(())
}

/// Adds a piece of a call's line.
fn push_piece(line: &mut LineBuffer, request: &Request, piece: LinePiece) -> Result<(), NoMemory>
    ensures { OnOk result (line.new ≡ line.old ++ piece_text (called request.now) piece) }
{
    match piece {
        LinePiece::Quoted(place) => {
            line.push(" ")?;
            line.push_quoted(request.text(place))
        }
        LinePiece::Hexed(place) => {
            line.push(" ")?;
            push_hex_or_dash(line, request.text(place))
        }
        LinePiece::Signed(place) => {
            line.push(" ")?;
            line.push_signed(i64::from(request.descriptor(place)))
        }
        LinePiece::Node(mode, device) => {
            line.push(" ")?;
            push_node(
                line,
                kind_of(request.natural(mode)),
                node_device(request.natural(device)),
            )
        }
        LinePiece::Flags(place) => {
            line.push(" flags=")?;
            line.push_number(request.natural(place))
        }
        LinePiece::Data(place) => {
            line.push(" data=")?;
            line.push_quoted(request.text(place))
        }
        LinePiece::Via(place) => {
            line.push(" via=")?;
            push_program(line, request.text(place))
        }
        LinePiece::Shifted(place) => {
            line.push(" shift=")?;
            line.push(shift_word(request.natural(place) == 1))
        }
    }
}

/// Whether owners are shifted, as a digit.
fn shift_word(shift: bool) -> &'static str
    ensures { result.now ≡ shift_text shift }
{
    if shift { "1" } else { "0" }
}

/// The kind of node that the low 16 bits of a number ask for.
fn kind_of(mode: u64) -> Kind
    ensures { result ≡ kind_of (low_16 mode) }
{
    Kind::of_mode((mode % 0x1_0000) as u16)
}

/// Adds a kind of node, with the numbers of a device.
pub fn push_node(line: &mut LineBuffer, kind: Kind, dev: u32) -> Result<(), NoMemory>
    ensures { OnOk result (line.new ≡ line.old ++ node_text kind dev) }
{
    match kind {
        Kind::Reg => line.push("reg"),
        Kind::Chr => push_device(line, "chr ", dev),
        Kind::Blk => push_device(line, "blk ", dev),
        Kind::Fifo => line.push("fifo"),
        Kind::Sock => line.push("sock"),
        Kind::Dir => line.push("dir"),
        Kind::Bad => line.push("bad"),
    }
}

/// Adds a device, with its numbers.
fn push_device(line: &mut LineBuffer, kind: &str, dev: u32) -> Result<(), NoMemory>
    ensures { OnOk result (line.new ≡ line.old ++ (kind.now ++ decimal (major_of dev) ++ codes ":" ++ decimal (minor_of dev))) }
{
    let (major, minor) = split_dev(dev);
    line.push(kind)?;
    line.push_number(u64::from(major))?;
    line.push(":")?;
    line.push_number(u64::from(minor))
}
