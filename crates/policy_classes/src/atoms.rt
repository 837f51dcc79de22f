//! Conditions in parts, each of which looks at one field of a request.

ghost use Rattle.std.specs.Prelude.{◌≡◌, ◌++◌, map, IfOk, OnOk};
ghost use Rattle.policy_classes.specs.Atoms.{atoms_in, atoms_of, atoms_of_all};
ghost use Rattle.policy_classes.specs.Fields.{field_eq, field_of, flag_eq};

use hist_model::policy::{Cond, Flag, Rule};
use hist_model::request::Kind;
use hist_model::text::{Sequence, Text};
use std::alloc::Global;
use sys_abi::memory::NoMemory;

/// What is asked of one field of a request.
#[derive(Debug, Drop)]
pub enum Atom {
    /// The path, or a mount's target, is this text.
    Path(Text),
    /// It lies below this directory, and has no component `..`.
    Under(Text),
    /// The node that is made is of this kind.
    Kind(Kind),
    /// It is a character or block device with these major and minor numbers.
    Dev(u32, u32),
    /// Its device number has no bit above the 32 that mknod(2) takes; a request for no node meets it.
    ShortDevice,
    Fstype(Text),
    Source(Text),
    /// The attribute's name.
    Name(Text),
    /// The attribute's value, whole.
    Value(Text),
    /// The descriptor of the directory from which a relative path goes.
    Dirfd(i32),
    /// The flag is set.
    Set(Flag),
    /// The flag isn't set.
    Unset(Flag),
}

/// What an atom looks at.
#[derive(Clone, Copy, PartialEq, Eq, Debug)]
pub enum Field {
    Path,
    /// The mode and the device number of a node.
    Node,
    Fstype,
    Source,
    Name,
    Value,
    Dirfd,
    /// One flag.
    Flag(Flag),
}

/// The flags of mount(2) that make it another operation than a plain mount: MS_REMOUNT, MS_BIND and MS_MOVE.
const UNPLAIN: [Flag; 3] = [Flag::Mount(32), Flag::Mount(4096), Flag::Mount(8192)];

/// Adds that each of the flags is set.
fn push_set(atoms: &mut Vec<Atom>, flags: &[Flag]) -> Result<(), NoMemory>
    ensures { OnOk result (atoms.new.items ≡ atoms.old.items ++ map Atom.Set flags.now) }
{
    for flag in flags {
        atoms.push(Atom::Set(*flag))?;
    }
    Ok(())
}

/// Adds that none of the flags is set.
fn push_unset(atoms: &mut Vec<Atom>, flags: &[Flag]) -> Result<(), NoMemory>
    ensures { OnOk result (atoms.new.items ≡ atoms.old.items ++ map Atom.Unset flags.now) }
{
    for flag in flags {
        atoms.push(Atom::Unset(*flag))?;
    }
    Ok(())
}

/// Adds the atoms of a condition.
fn push_atoms(alloc: Global, atoms: &mut Vec<Atom>, cond: &Cond) -> Result<(), NoMemory>
    ensures { OnOk result (atoms.new.items ≡ atoms.old.items ++ atoms_of cond.now) }
{
    match cond {
        Cond::Path(text) => atoms.push(Atom::Path(text.copied(alloc)?))?,
        Cond::Under(dir) => atoms.push(Atom::Under(dir.copied(alloc)?))?,
        Cond::Kind(kind) => atoms.push(Atom::Kind(*kind))?,
        Cond::Dev(major, minor) => atoms.push(Atom::Dev(*major, *minor))?,
        Cond::Fstype(text) => atoms.push(Atom::Fstype(text.copied(alloc)?))?,
        Cond::Source(text) => atoms.push(Atom::Source(text.copied(alloc)?))?,
        Cond::Name(text) => atoms.push(Atom::Name(text.copied(alloc)?))?,
        Cond::Value(text) => atoms.push(Atom::Value(text.copied(alloc)?))?,
        Cond::Dirfd(number) => atoms.push(Atom::Dirfd(*number))?,
        Cond::Flags { all, none } => {
            push_set(atoms, all.items())?;
            push_unset(atoms, none.items())?;
        }
        Cond::ShortDevice => atoms.push(Atom::ShortDevice)?,
        Cond::PlainFlags => push_unset(atoms, &UNPLAIN)?,
    }
    Ok(())
}

/// Adds the atoms of all conditions, in their order.
fn push_all_atoms(alloc: Global, atoms: &mut Vec<Atom>, conds: &[Cond]) -> Result<(), NoMemory>
    ensures { OnOk result (atoms.new.items ≡ atoms.old.items ++ atoms_of_all conds.now) }
{
    for cond in conds {
        push_atoms(alloc, atoms, cond)?;
    }
    Ok(())
}

/// The atoms of the conditions of each rule.
pub fn atoms_by_rule(alloc: Global, rules: &[Rule]) -> Result<Vec<Sequence<Atom>>, NoMemory>
    ensures { IfOk result (λ atoms. atoms.items ≡ map atoms_in rules.now) }
{
    let mut all = Vec::new(alloc);
    for rule in rules {
        let mut atoms = Vec::new(alloc);
        push_all_atoms(alloc, &mut atoms, rule.conds.items())?;
        all.push(Sequence::new(atoms))?;
    }
    Ok(all)
}

impl Atom {
    /// The field that the atom looks at.
    pub fn field(&self) -> Field
        ensures { result ≡ field_of self.now }
    {
        match self {
            Atom::Path(_) | Atom::Under(_) => Field::Path,
            Atom::Kind(_) | Atom::Dev(_, _) | Atom::ShortDevice => Field::Node,
            Atom::Fstype(_) => Field::Fstype,
            Atom::Source(_) => Field::Source,
            Atom::Name(_) => Field::Name,
            Atom::Value(_) => Field::Value,
            Atom::Dirfd(_) => Field::Dirfd,
            Atom::Set(flag) | Atom::Unset(flag) => Field::Flag(*flag),
        }
    }
}

/// Whether two flags are one.
fn is_same_flag(a: Flag, b: Flag) -> bool
    ensures { result ≡ flag_eq a b }
{
    match (a, b) {
        (Flag::Mount(a), Flag::Mount(b)) => a == b,
        (Flag::Attribute(a), Flag::Attribute(b)) => a == b,
        _ => false,
    }
}

impl Field {
    /// Whether two fields are one.
    pub fn is(self, other: Field) -> bool
        ensures { result ≡ field_eq self other }
    {
        match (self, other) {
            (Field::Path, Field::Path) => true,
            (Field::Node, Field::Node) => true,
            (Field::Fstype, Field::Fstype) => true,
            (Field::Source, Field::Source) => true,
            (Field::Name, Field::Name) => true,
            (Field::Value, Field::Value) => true,
            (Field::Dirfd, Field::Dirfd) => true,
            (Field::Flag(a), Field::Flag(b)) => is_same_flag(a, b),
            _ => false,
        }
    }
}
