// Sets of the numbers 0 to 63, a bit of a word for each.
#![tactic(auto)]

ghost use Rattle.std.specs.Prelude.{◌≡◌, ℕ, false, ◌&&◌, ◌||◌, ◌==◌, nat_lt};
ghost use Rattle.sets.specs.Members.{has};

// bit i of the word is 1 where i is in the set
#[derive(Clone, Copy, PartialEq, Eq, Debug)]
pub struct Set64(pub u64);

#[tactic(auto, using(crate::proofs::Words::bits_of_words))]
impl Set64 {
    // No number.
    pub fn empty() -> Set64
        ensures { (i : ℕ) → has result i ≡ false }
    {
        Set64(0)
    }

    // The set of one number; of a number above 63, none.
    pub fn single(e: u8) -> Set64
        ensures { (i : ℕ) → has result i ≡ nat_lt e 64 && i == e }
    {
        if e < 64 {
            Set64(1 << e)
        } else {
            Set64::empty()
        }
    }

    pub fn contains(self, e: u8) -> bool
        ensures { result ≡ has self e }
    {
        e < 64 && self.0 >> e & 1 == 1
    }

    // The numbers of both.
    pub fn plus(self, other: Set64) -> Set64
        ensures { (i : ℕ) → has result i ≡ has self i || has other i }
    {
        Set64(self.0 | other.0)
    }
}
