//! The directories that tasks have open.

ghost use Rattle.std.specs.Prelude.{◌≡◌, ◌<◌, ◌+◌, ◌&&◌, ◌==◌, if◌then◌else◌, ℕ, [], IfOk, filter, find, not};
ghost use Rattle.std.specs.Option.{option_copied};
ghost use Rattle.hist_model.specs.Trees.{ordinal_of};
ghost use Rattle.judge_pass.specs.Tables.{AreMade, dirfd_named, is_row, row_named};

use hist_model::request::NodeRef;
use hist_model::script::Script;
use std::alloc::Global;
use sys_abi::memory::NoMemory;
use sys_abi::wire::AT_FDCWD;

/// A number of a group that leads to a directory.
#[derive(Clone, Copy, PartialEq, Eq, Debug)]
pub(crate) struct OpenDirectory {
    pub(crate) group: u32,
    pub(crate) number: u32,
    pub(crate) node: NodeRef,
}

/// All numbers that lead to directories.
#[derive(Debug, Drop)]
pub(crate) struct Directories {
    rows: Vec<OpenDirectory>,
}

/// The first row of a number of a group.
fn first_row(rows: &[OpenDirectory], group: u32, number: u32) -> Option<&OpenDirectory>
    ensures { option_copied result ≡ find (is_row group number) rows.now }
{
    rows.iter()
        .find(|row| row.group == group && row.number == number)
}

/// Takes the rows of a number of a group off.
fn keep_others(rows: &mut Vec<OpenDirectory>, group: u32, number: u32)
    ensures { rows.new.items ≡ filter (λ row. not (is_row group number row)) rows.old.items }
{
    rows.retain(|row| !(row.group == group && row.number == number));
}

impl Directories {
    pub(crate) fn new(alloc: Global) -> Directories
        ensures { result.rows.items ≡ [] }
    {
        Directories {
            rows: Vec::new(alloc),
        }
    }

    /// The directory to which a descriptor of a group leads: AT_FDCWD to the container's root.
    pub(crate) fn named(&self, script: &Script, group: u32, dirfd: i32) -> Option<NodeRef>
        ensures { ordinal_of result ≡ dirfd_named script.now self.now.rows.items group dirfd }
    {
        if dirfd == AT_FDCWD {
            return Some(script.root);
        }
        match u32::try_from(dirfd) {
            Ok(number) => self.at(group, number),
            Err(_) => None,
        }
    }

    /// The directory to which a number of a group leads.
    fn at(&self, group: u32, number: u32) -> Option<NodeRef>
        ensures { ordinal_of result ≡ row_named self.now.rows.items group number }
    {
        match first_row(self.rows.as_slice(), group, number) {
            Some(row) => Some(row.node),
            None => None,
        }
    }

    /// A number of a group leads to this directory now, or to none.
    pub(crate) fn set(
        &mut self,
        group: u32,
        number: u32,
        node: Option<NodeRef>,
    ) -> Result<(), NoMemory>
        ensures rows { IfOk result (λ u. (g n : ℕ) → row_named self.new.rows.items g n ≡ (if (g == group) && (n == number) then ordinal_of node else row_named self.old.rows.items g n)) }
        ensures made { IfOk result (λ u. (groups : ℕ) → group < groups → AreMade groups self.old.rows.items → AreMade groups self.new.rows.items) }
    {
        keep_others(&mut self.rows, group, number);
        if let Some(node) = node {
            self.rows.push(OpenDirectory {
                group,
                number,
                node,
            })?;
        }
        Ok(())
    }

    /// A new group begins with what another one has open.
    pub(crate) fn copy_group(&mut self, from: u32, to: u32) -> Result<(), NoMemory>
        requires from { from < to }
        requires made { AreMade to self.old.rows.items }
        ensures rows { IfOk result (λ u. (g n : ℕ) → row_named self.new.rows.items g n ≡ row_named self.old.rows.items (if g == to then from else g) n) }
        ensures made { IfOk result (λ u. AreMade (to + 1) self.new.rows.items) }
    {
        for place in 0..self.rows.len() {
            let row = self.rows[place];
            if row.group == from {
                self.rows.push(OpenDirectory { group: to, ..row })?;
            }
        }
        Ok(())
    }
}
