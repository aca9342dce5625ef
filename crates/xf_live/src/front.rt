//! The front of a list.
ghost use Rattle.std.specs.Prelude.{◌≡◌, ◌≤◌, ◌<◌, ◌∷◌, vec_len, vec_capacity};

/// Puts an element in front of the list, which has room.
pub(crate) fn put_first<A>(list: &mut Vec<A>, element: A)
    requires { vec_len list.old < vec_capacity list.old }
    ensures items { list.new.items ≡ element ∷ list.old.items }
    ensures room { vec_capacity list.old ≤ vec_capacity list.new }
{
    match list.insert(0, element) {
        Ok(()) => {}
        Err(_) => unreachable!(),
    }
}
