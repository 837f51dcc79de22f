//! The names that tasks have.

ghost use Rattle.std.specs.Prelude.{◌≡◌};
ghost use Rattle.std.specs.List.{list_all};
ghost use Rattle.hist_model.specs.Names.{is_child_number, is_task_name};

/// Whether a task is its parent's first child, or a later one, up to the hundred thousandth.
fn is_child_number(number: u32) -> bool
    ensures { result ≡ is_child_number number }
{
    1 <= number && number <= 100_000
}

/// Whether these are the numbers of children.
fn are_child_numbers(children: &[u32]) -> bool
    ensures { result ≡ list_all is_child_number children.now }
{
    children.iter().all(|number| is_child_number(*number))
}

/// Whether these are the numbers of a task's name: 0, and then those of at most 64 children, each from 1 to 100,000.
pub fn is_task_name(numbers: &[u32]) -> bool
    ensures { result ≡ is_task_name numbers.now }
{
    match numbers.split_first() {
        Some((&first, children)) => {
            first == 0 && children.len() <= 64 && are_child_numbers(children)
        }
        None => false,
    }
}
