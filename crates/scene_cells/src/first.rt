// The first place of a list.
ghost use Rattle.std.specs.Prelude.{◌≡◌, ◌<◌, ◌≤◌, ◌+◌, ◌∷◌, length, vec_len, vec_capacity};

// Puts a value before all others, where there is room.
pub(crate) fn put_first<T: Drop>(list: &mut Vec<T>, value: T)
    requires { vec_len list.old < vec_capacity list.old }
    ensures items { list.new.items ≡ value ∷ list.old.items }
    ensures len { vec_len list.new ≡ vec_len list.old + 1 }
    ensures capacity { vec_capacity list.old ≤ vec_capacity list.new }
{
    list.insert(0, value).unwrap();
}

// Takes the first value. The list keeps its room.
pub(crate) fn take_first<T>(list: &mut Vec<T>) -> T
    requires { 0 < length list.old.items }
    ensures items { list.old.items ≡ result ∷ list.new.items }
    ensures len { vec_len list.new + 1 ≡ vec_len list.old }
    ensures capacity { vec_capacity list.new ≡ vec_capacity list.old }
{
    list.remove(0)
}
