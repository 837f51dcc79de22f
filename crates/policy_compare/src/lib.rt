//! Which calls two policies answer otherwise.
//!
//! [`compare`] finds the classes of calls (`policy_classes`), each with the rules that decide it in the one policy and in the other,
//! and tells each whose two rules answer otherwise, with a call that shows it. Where both answer alike and say how often, a rule's
//! calls share a counter: so it also tells pairs of classes that one policy counts together and the other apart. Of each call that it
//! shows it says whether a script's filters notify it, where these are given.
//!
//! `specs/Answers.antt` says what a rule answers and which of two answers grants more, `specs/Notified.antt` when filters notify a
//! call, `specs/Lines.antt` is the text, and `specs/Compared.antt` what a comparison says of all calls.
//!
//! Below stand `policy_classes`, `policy_explain` with the text of a call, `audit_log` with lines, and `bpf_filter` with what filters
//! say. The program stands above.
#![tactic(auto)]

mod answers;
mod counts;
mod lines;
mod notified;
mod order;
mod told;

ghost use Rattle.std.specs.Prelude.{◌≡◌, ◌↔◌, true, All, Any, IfOk};
ghost use Rattle.std.specs.List.Sorted.{IsStrictlySortedBy};
ghost use Rattle.std.specs.Option.{option_copied};
ghost use Rattle.hist_model.specs.declared.request.Request.{Request as AnyRequest};
ghost use Rattle.policy_classes.specs.Asked.{IsCall};
ghost use Rattle.policy_classes.specs.Classes.{HasWitness, Holds, IsLeast};
ghost use Rattle.policy_classes.specs.declared.ending.Ending.TheVariants.{Alike, Otherwise};
ghost use Rattle.policy_compare.specs.Compared.{AreEqual, AreFew, IsComparison};
ghost use Rattle.policy_compare.specs.Order.{by_places};

use hist_model::policy::{Policy, Rule};
use hist_model::script::FilterLine;
use hist_model::text::Sequence;
use order::in_order;
use policy_classes::classes::{MOST_LOOKED, classes};
use policy_classes::ending::Told;
use policy_classes::found::Classes;
use std::alloc::Global;
use sys_abi::memory::NoMemory;
use told::told;

/// The classes of calls of two policies' rules, in the order of their places, each pair of rules once.
fn ordered_classes(alloc: Global, old: &[Rule], new: &[Rule]) -> Result<Classes, NoMemory>
    ensures ordered { IfOk result (λ found. IsStrictlySortedBy by_places found.classes) }
    ensures witnesses { IfOk result (λ found. All (HasWitness old.now new.now) found.classes) }
    ensures there { IfOk result (λ found. found.whole ≡ true
        → (q : AnyRequest) → IsCall q → Any (Holds old.now new.now q) found.classes) }
    ensures least { IfOk result (λ found. found.whole ≡ true → All (IsLeast old.now new.now) found.classes) }
    ensures whole { IfOk result (λ found. found.whole ≡ true ↔ AreFew old.now new.now) }
{
    let found = classes(alloc, old, new, MOST_LOOKED)?;
    let Classes { classes, whole } = found;
    let sorted = in_order(classes)?;
    Ok(Classes {
        classes: Sequence::new(sorted),
        whole,
    })
}

/// What is told of two policies' rules.
fn compare_rules(
    alloc: Global,
    old: &[Rule],
    new: &[Rule],
    filters: Option<&Sequence<FilterLine>>,
) -> Result<Told, NoMemory>
    ensures told { IfOk result (IsComparison old.now new.now (option_copied filters.entry)) }
    ensures equal { IfOk result (λ told. told.ending ≡ Alike → AreEqual old.now new.now) }
    ensures unequal { IfOk result (λ told. told.ending ≡ Otherwise → ¬ AreEqual old.now new.now) }
{
    let found = ordered_classes(alloc, old, new)?;
    let told = told(alloc, old, new, filters, found.classes.items(), found.whole)?;
    Ok(told)
}

/// What is told of two policies: the classes of calls that they answer otherwise, and those that they count otherwise. It ends alike
/// only where there is none; it is undecided where none was found among the calls that were looked at, and these weren't all. Where
/// filters are given, a line says so whose call they don't notify.
pub fn compare(
    alloc: Global,
    old: &Policy,
    new: &Policy,
    filters: Option<&Sequence<FilterLine>>,
) -> Result<Told, NoMemory>
    ensures told { IfOk result (IsComparison old.now.rules new.now.rules (option_copied filters.entry)) }
    ensures equal { IfOk result (λ told. told.ending ≡ Alike → AreEqual old.now.rules new.now.rules) }
    ensures unequal { IfOk result (λ told. told.ending ≡ Otherwise → ¬ AreEqual old.now.rules new.now.rules) }
{
    compare_rules(alloc, old.rules.items(), new.rules.items(), filters)
}
