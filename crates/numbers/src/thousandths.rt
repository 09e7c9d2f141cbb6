// What a grid takes.
ghost use Rattle.numbers.specs.Grids.{Few};

mod count;

// A whole count of thousandths, at most 999,999,999 on either side of zero.
#[derive(Clone, Copy)]
pub struct Thousandths {
    count: i32,
    ghost few: { Few count },
}
