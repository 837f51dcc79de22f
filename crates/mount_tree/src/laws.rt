//! What the key of a tree tells.

ghost use Rattle.key_bytes.specs.Parts.{Ends};
ghost use Rattle.mount_tree.specs.Written.{tree_part};

/// Keys of trees end by themselves: where equal bytes begin with two of them, the trees are equal, and so is what comes after.
pub fn keys_tell_trees()
    ensures { Ends tree_part }
{}
