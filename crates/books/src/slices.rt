// Parts of slices.
ghost use Rattle.std.specs.Prelude.{◌≡◌, take, drop};

// The items from a place on, clipped where they leave the slice. (By its two numbers, since places of bytes and of steps are two types.)
pub(crate) fn cut<T>(items: &[T], start: usize, len: usize) -> &[T]
    ensures { result.now ≡ take len (drop start items.now) }
{
    let rest = &items[start.min(items.len())..];
    &rest[..len.min(rest.len())]
}
