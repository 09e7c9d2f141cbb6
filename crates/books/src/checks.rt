// The checks on what a book can take: names, and how much it can hold.
ghost use Rattle.std.specs.Prelude.{◌≡◌, length};
ghost use Rattle.std.specs.Result.{result_err};
ghost use Rattle.books.specs.Drafts.{lists_of, taken, full, refusal_of_entry};

use crate::book::Book;
use crate::names::find;
use crate::refusal::Refusal;

impl Book {
    // Refuses a name that is in use.
    pub(crate) fn check_name(&self, name: &[u8]) -> Result<(), Refusal>
        ensures { result_err result ≡ taken (lists_of self.now) name.now }
    {
        match find(self, name) {
            Some(_) => Err(Refusal::Taken),
            None => Ok(()),
        }
    }

    // Refuses one more of a kind, after `count`, and so many steps more, where they do not fit.
    pub(crate) fn check_room(&self, count: usize, more: usize) -> Result<(), Refusal>
        ensures { result_err result ≡ full (lists_of self.now) count more }
    {
        if count < 64 && more <= 1024 - self.steps.as_slice().len() {
            Ok(())
        } else {
            Err(Refusal::Full)
        }
    }

    // Checks the name of an entry, and that it fits.
    pub(crate) fn check_entry(&self, name: &[u8]) -> Result<(), Refusal>
        ensures { result_err result ≡ refusal_of_entry (lists_of self.now) name.now }
    {
        self.check_name(name)?;
        self.check_room(self.entries().len(), 0)
    }
}
