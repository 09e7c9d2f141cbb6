// Names of entries, lines and rules.
ghost use Rattle.std.specs.Prelude.{◌≡◌, ◌-◌, ◌≤◌, ◌++◌, length, take, replicate};
ghost use Rattle.std.specs.Str.{bytes_eq};

// at most 16 letters and digits; an array with its length, since a name is copied, and `new` takes any bytes
// (Its facts are ghost fields: with a model, an entry, a line or a rule that is passed by value twice gets no proof.)
#[derive(Clone, Copy)]
pub struct Name {
    bytes: [u8; 16],
    len: usize,
    pub ghost short: { len ≤ 16 },
    // zeros stand behind the text
    pub ghost padded: { bytes ≡ take len bytes ++ replicate (16 - len) 0 },
}

impl Name {
    ghost use Rattle.books.specs.Names.{text_of};

    // The first 16 bytes of the text.
    pub(crate) fn new(text: &[u8]) -> Name
        ensures { text_of result ≡ take 16 text.now }
    {
        let len = text.len().min(16);
        let mut bytes = [0; 16];
        bytes[..len].copy_from_slice(&text[..len]);
        Name { bytes, len }
    }

    // (No `==`, which compares values of one type.)
    pub(crate) fn is(&self, text: &[u8]) -> bool
        ensures { result ≡ bytes_eq (text_of self.now) text.now }
    {
        self.text() == text
    }

    // The letters and digits.
    pub fn text(&self) -> &[u8]
        ensures text { result.now ≡ text_of self.now }
        ensures short { length result.now ≤ 16 }
    {
        &self.bytes[..self.len]
    }
}
