//! What stands at a place of a list.

ghost use Rattle.std.specs.Prelude.{◌≡◌, ◌<◌, ◌≤◌, Bool, IfSome, length, option_map, position, vec_len, vec_capacity};
ghost use Rattle.std.specs.List.{find};
ghost use Rattle.vx_base.specs.Lists.{less};

/// The item at a place, if there is one: the first that passes a test, for each test whose first place this is. Of other places nothing is
/// said.
pub fn at_place<T>(items: &[T], place: Option<usize>) -> Option<&T>
    requires { IfSome place (λ i. i < length items.now) }
    ensures { (p : T → Bool) → place ≡ position p items.now → option_map (λ item. item.now) result ≡ find p items.now }
{
    match place {
        Some(place) => Some(&items[place]),
        None => None,
    }
}

/// Takes out the item at a place, if there is one: the first that passes a test, for each test whose first place this is. Of other places
/// no more is said than that the list gets no longer.
pub fn take_out<T>(items: &mut Vec<T>, place: Option<usize>) -> Option<T>
    requires { IfSome place (λ i. i < vec_len items.old) }
    ensures found { (p : T → Bool) → place ≡ position p items.old.items → result ≡ find p items.old.items }
    ensures after { (p : T → Bool) → place ≡ position p items.old.items → items.new.items ≡ less p items.old.items }
    ensures fewer { vec_len items.new ≤ vec_len items.old }
    ensures capacity { vec_capacity items.new ≡ vec_capacity items.old }
{
    match place {
        Some(place) => Some(items.remove(place)),
        None => None,
    }
}
