//! Reads and edits that all lists of rows share.

ghost use Rattle.std.specs.Prelude.{◌≡◌, ◌<◌, Bool, length, vec_len, vec_capacity, find, position};
ghost use Rattle.std.specs.Option.{ForSome};
ghost use Rattle.gw_pool.specs.State.{remove_first};

/// Takes out the row at a place, if there is one. The rows keep their room.
pub fn take_at<T>(rows: &mut Vec<T>, at: Option<usize>) -> Option<T>
    requires { ForSome at (λ i. i < vec_len rows.old) }
    ensures found { (test : T → Bool) → at ≡ position test rows.old.items → result ≡ find test rows.old.items }
    ensures left { (test : T → Bool) → at ≡ position test rows.old.items → rows.new.items ≡ remove_first test rows.old.items }
    ensures capacity { vec_capacity rows.new ≡ vec_capacity rows.old }
{
    match at {
        Some(at) => Some(rows.remove(at)),
        None => None,
    }
}

/// The row at a place, if there is one.
pub fn row_at<T: Copy>(rows: &[T], at: Option<usize>) -> Option<T>
    requires { ForSome at (λ i. i < length rows.now) }
    ensures { (test : T → Bool) → at ≡ position test rows.now → result ≡ find test rows.now }
{
    match at {
        Some(at) => Some(rows[at]),
        None => None,
    }
}
