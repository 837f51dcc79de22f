//! Entries that have a number.

ghost use Rattle.std.specs.Prelude.{◌≡◌, ℕ, ◌+◌, ◌<◌, ◌≤◌, length, Some, None, IfOk, IfErr, MatchResult, vec_len, vec_capacity};
ghost use Rattle.std.specs.List.{sum_by};
ghost use Rattle.sorted_list.specs.Entries.{NumbersRise, entry_for, IsPlaceOf, IsGapFor, IsSet, at_some};

/// An entry that has a number.
pub trait Numbered {
    ghost number: { Self → ℕ };

    /// Its number.
    fn number(&self) -> u64
        ensures { result ≡ number self.now };
}

/// The place of the entry of a number, or the one where it would stand.
fn place_of<T: Numbered>(entries: &[T], number: u64) -> Result<usize, usize>
    ensures bound { MatchResult result (λ i. i < length entries.now) (λ i. i ≤ length entries.now) }
    ensures found { NumbersRise T.number entries.now → IfOk result (λ i. IsPlaceOf T.number entries.now number i) }
    ensures absent { NumbersRise T.number entries.now → IfErr result (λ i. IsGapFor T.number entries.now number i) }
{
    entries.binary_search_by_key(&number, |entry| entry.number())
}

/// The entry of a number.
pub fn find<T: Numbered + Copy>(entries: &[T], number: u64) -> Option<T>
    ensures { NumbersRise T.number entries.now → result ≡ entry_for T.number entries.now number }
{
    match place_of(entries, number) {
        Ok(place) => Some(entries[place]),
        Err(_) => None,
    }
}

/// Sets the entry of a number: in place of the one that it has, or between its neighbours. There is room for one more.
pub fn set<T: Numbered + Copy>(entries: &mut Vec<T>, entry: T)
    requires { vec_len entries.old < vec_capacity entries.old }
    ensures set { NumbersRise T.number entries.old.items → IsSet T.number entries.old.items (T.number entry) (Some entry) entries.new.items }
    ensures sums { NumbersRise T.number entries.old.items → (f : T → ℕ) → sum_by f entries.new.items + at_some f (entry_for T.number entries.old.items (T.number entry)) ≡ sum_by f entries.old.items + f entry }
    ensures room { (k : ℕ) → vec_len entries.old + (k + 1) ≤ vec_capacity entries.old → vec_len entries.new + k ≤ vec_capacity entries.new }
{
    match place_of(entries, entry.number()) {
        Ok(place) => entries[place] = entry,
        Err(place) => {
            let Ok(()) = entries.insert(place, entry) else {
                unreachable!()
            };
        }
    }
}

/// Removes the entry of a number, if it has one.
pub fn remove<T: Numbered + Copy>(entries: &mut Vec<T>, number: u64)
    ensures { NumbersRise T.number entries.old.items → IsSet T.number entries.old.items number None entries.new.items }
{
    if let Ok(place) = place_of(entries, number) {
        entries.remove(place);
    }
}
