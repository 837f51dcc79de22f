//! Plans: which texts a call has in its caller's memory.

ghost use Rattle.std.specs.Prelude.{◌≡◌, ◌<◌, ◌≤◌, [], ◌∷◌, length, reverse, take, IfSome};
ghost use Rattle.hist_model.specs.Copies as copies;
ghost use Rattle.arg_capture.specs.Moments.{ArePlaced};
ghost use Rattle.arg_capture.specs.Plans.{IsSound, first_part, rest_parts};

use hist_model::copy::Part;
use std::marker::Model;
use sys_abi::calls::{MKNOD, MKNODAT, MOUNT, OPENAT, SETXATTR};
use sys_abi::errno::Errno;

/// The parts that are left to be read, at most four. Contracts see it as their list, in the order in which they are read.
#[derive(Debug, Drop)]
pub struct Plan {
    // The last part first.
    parts: [Part; 4],
    left: usize,
}

impl Model for Plan {
    ghost use Rattle.std.specs.Prelude.{List, ◌≤◌, length, reverse, take, All};
    ghost use Rattle.hist_model.specs.declared.copy.Part.{Part};
    ghost use Rattle.arg_capture.specs.Plans.{IsSound};

    ghost Value = { List Part };

    ghost view = { λ p. reverse (take p.left p.parts) };

    ghost invariant = { λ p. (p.left ≤ 4) × (p.left ≤ length p.parts) × All IsSound p.parts };
}

/// The most parts of a call: those of mount(2).
pub const MOST_PARTS: usize = 4;

/// Stands behind the parts of a plan.
const BLANK: Part = Part::Value { addr: 0, size: 0 };

fn path_at(addr: u64) -> Part
    ensures { result ≡ copies.path_at addr }
{
    Part::Text {
        addr,
        limit: 4096,
        fault: Errno::ENAMETOOLONG,
    }
}

fn name_at(addr: u64) -> Part
    ensures { result ≡ copies.name_at addr }
{
    Part::Text {
        addr,
        limit: 256,
        fault: Errno::ERANGE,
    }
}

fn option_at(addr: u64) -> Part
    ensures { result ≡ copies.option_at addr }
{
    if addr == 0 {
        return BLANK;
    }
    Part::Text {
        addr,
        limit: 4096,
        fault: Errno::EINVAL,
    }
}

impl Plan {
    /// The plan of a call that has nothing to be read.
    pub fn nothing() -> Plan
        ensures { result ≡ [] }
    {
        Plan {
            parts: [BLANK; 4],
            left: 0,
        }
    }

    /// What is read for a call: the path of mknod(2), mknodat(2) and openat(2); source, target, type and data of mount(2), of
    /// which all but the target are empty at address 0; path, name and value of setxattr(2); nothing for any other call.
    pub fn of(nr: i32, args: &[u64; 6]) -> Plan
        ensures parts { result ≡ copies.plan nr args.now }
        ensures few { length result ≤ 4 }
        ensures placed { ArePlaced result }
    {
        match nr {
            MKNOD => Plan {
                parts: [path_at(args[0]), BLANK, BLANK, BLANK],
                left: 1,
            },
            MKNODAT | OPENAT => Plan {
                parts: [path_at(args[1]), BLANK, BLANK, BLANK],
                left: 1,
            },
            MOUNT => Plan {
                parts: [
                    option_at(args[4]),
                    option_at(args[2]),
                    path_at(args[1]),
                    option_at(args[0]),
                ],
                left: 4,
            },
            SETXATTR => Plan {
                parts: [
                    Part::Value {
                        addr: args[2],
                        size: args[3],
                    },
                    name_at(args[1]),
                    path_at(args[0]),
                    BLANK,
                ],
                left: 3,
            },
            _ => Plan::nothing(),
        }
    }

    /// How many parts are left.
    #[tactic(auto, using(crate::proofs::Stacks::stack_length))]
    pub fn len(&self) -> usize
        ensures { result ≡ length self.now }
    {
        self.left
    }

    /// The part in hand, if there is one.
    pub fn first(&self) -> Option<Part>
        ensures part { result ≡ first_part self.now }
        ensures sound { IfSome result IsSound }
    {
        if self.left == 0 {
            None
        } else {
            Some(self.parts[self.left - 1])
        }
    }

    /// Goes on to the part after the one in hand.
    #[tactic(auto, using(crate::proofs::Stacks::stack_rest, crate::proofs::Stacks::stack_length))]
    pub fn drop_first(&mut self)
        requires { 0 < length self.old }
        ensures { self.new ≡ rest_parts self.old }
    {
        self.left -= 1;
    }

    /// Puts a part in the place of the one in hand.
    pub(crate) fn replace_first(&mut self, part: Part)
        requires some { 0 < length self.old }
        requires sound { IsSound part }
        ensures { self.new ≡ part ∷ rest_parts self.old }
    {
        self.parts[self.left - 1] = part;
    }
}
