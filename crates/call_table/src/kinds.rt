//! What texts, numbers and lines of a call there are.

/// A text of a call: what it is, and by which register it is found.
#[derive(Clone, Copy, Debug)]
pub enum CallText {
    /// A path: at most 4096 bytes with its zero, else ENAMETOOLONG.
    Path(u8),
    /// What is mounted: at most 4096 bytes with its zero, else EINVAL; empty at address 0.
    Source(u8),
    /// A type of file systems, as `Source`.
    Fstype(u8),
    /// Data for a file system, as `Source`.
    Data(u8),
    /// The name of an attribute: at most 256 bytes with its zero, else ERANGE.
    Name(u8),
    /// A value, from the address in the first register, of as many bytes as the second says; more than 4096 are E2BIG.
    Value(u8, u8),
    /// The program that serves a mount. It is no argument: the policy adds it.
    Program,
}

impl CallText {
    ghost use Rattle.std.specs.Prelude.{◌≡◌};
    ghost use Rattle.call_table.specs.Table.{is_path};

    /// Whether it is a path.
    pub fn is_path(&self) -> bool
        ensures { result ≡ is_path self.now }
    {
        matches!(self, CallText::Path(_))
    }
}

/// A number of a call: what it is, and in which register it stands.
#[derive(Clone, Copy, Debug)]
pub enum CallNumber {
    /// The descriptor of a directory: the low 32 bits, with a sign.
    Descriptor(u8),
    /// A mode: the low 16 bits.
    Mode(u8),
    /// A device: the whole register.
    Device(u8),
    /// Flags: the low 32 bits.
    Flags(u8),
    /// Flags: the whole register.
    WideFlags(u8),
    /// An address: the whole register.
    Address(u8),
    /// Whether a mount's owners are shifted. It is no argument: the policy adds it.
    Shift,
}

impl CallNumber {
    ghost use Rattle.std.specs.Prelude.{◌≡◌};
    ghost use Rattle.call_table.specs.Table.{is_mode};

    /// Whether it is the mode of a node.
    pub fn is_mode(&self) -> bool
        ensures { result ≡ is_mode self.now }
    {
        matches!(self, CallNumber::Mode(_))
    }
}

/// From where the relative paths of a call go.
#[derive(Clone, Copy, Debug)]
pub enum PathBase {
    /// It has no path.
    Nowhere,
    /// The working directory of its task.
    WorkingDirectory,
    /// The directory of the descriptor in this register.
    Register(u8),
}

/// A piece of the line of an effect, after the call's name. Places count the call's texts, and its numbers, from 0.
#[derive(Clone, Copy, Debug)]
pub enum LinePiece {
    /// A text between quotes.
    Quoted(u8),
    /// A text by its bytes.
    Hexed(u8),
    /// A number with its sign.
    Signed(u8),
    /// The kind of node that the first number asks for, with the second's numbers of a device.
    Node(u8, u8),
    /// Flags in decimal digits.
    Flags(u8),
    /// The data of a mount.
    Data(u8),
    /// The program of a mount.
    Via(u8),
    /// Whether owners are shifted.
    Shifted(u8),
}
