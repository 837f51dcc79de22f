//! Classes in the order of their rules' places, each pair of rules once.

ghost use Rattle.std.specs.Prelude.{◌≡◌, true, Any, Contains, IfOk};
ghost use Rattle.std.specs.List.Sorted.{IsStrictlySortedBy};
ghost use Rattle.policy_classes.specs.declared.found.Class.{Class as AnyClass};
ghost use Rattle.policy_compare.specs.Order.{are_one, by_places};

use hist_model::text::Sequence;
use policy_classes::found::Class;
use sys_abi::memory::NoMemory;

/// The classes by the place of the old rule, and then by that of the new one; of two with the same rules one alone.
pub(crate) fn in_order(classes: Sequence<Class>) -> Result<Vec<Class>, NoMemory>
    ensures ordered { IfOk result (λ sorted. IsStrictlySortedBy by_places sorted.items) }
    ensures known { IfOk result (λ sorted. (c : AnyClass) → Contains sorted.items c → Contains classes c) }
    ensures there { IfOk result (λ sorted. (c : AnyClass) → Contains classes c → Any (λ d. are_one c d ≡ true) sorted.items) }
{
    let mut sorted = classes.into_items();
    sorted.sort_by_key(|class| (class.old_place, class.new_place))?;
    sorted.dedup_by_key(|class| (class.old_place, class.new_place));
    Ok(sorted)
}
