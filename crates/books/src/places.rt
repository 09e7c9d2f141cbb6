// Which items of a slice pass a test.
ghost use Rattle.std.specs.Prelude.{◌≡◌, ℕ, ◌≤◌, false, Some, length};
ghost use Rattle.std.specs.Fn.{FnReturnsAt};
ghost use Rattle.std.specs.List.{slice_get};
ghost use Rattle.sets.specs.Members.{has};

use sets::Set64;

// The places of the items that pass the test.
pub(crate) fn places<T, F: Fn(&T) -> bool>(items: &[T], test: F) -> Set64
    requires short { length items.now ≤ 64 }
    requires callable { F.IsAlwaysCallable test }
    ensures inside { (k : ℕ) (x : T) → slice_get items.now k ≡ Some x → FnReturnsAt F.Fn test x (has result k) }
    ensures outside { (k : ℕ) → length items.now ≤ k → has result k ≡ false }
{
    let mut found = Set64::empty();
    for (i, item) in items.iter().enumerate() {
        if test(item) {
            found = found.plus(Set64::single(i as u8));
        }
    }
    found
}
