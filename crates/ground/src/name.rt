ghost use Rattle.std.specs.Prelude.{◌≡◌};
ghost use Rattle.ground.specs.Names.{text, packed, same_name};

// A name or a label: at most 12 bytes, kept by value so that names never allocate. The bytes and their number stand side by side, for
// the library's vector of fixed room is not Copy.
#[derive(Clone, Copy, Default)]
pub struct Name {
    bytes: [u8; 12],
    length: usize,
}

// Are the two words the same?
pub fn same(a: &[u8], b: &[u8]) -> bool
    ensures { result ≡ same_name a.now b.now }
{
    a == b
}

impl Name {
    // No bytes: the name that is not set yet.
    pub const NONE: Name = Name {
        bytes: [0; 12],
        length: 0,
    };

    // The name of these bytes; none where they are more than 12.
    pub fn of(word: &[u8]) -> Option<Name>
        ensures { result ≡ packed word.now }
    {
        let length = word.len();
        if length > 12 {
            return None;
        }
        let mut bytes = [0; 12];
        let front = &mut bytes[..length];
        front.copy_from_slice(word);
        Some(Name { bytes, length })
    }

    // The bytes of the name.
    pub fn as_bytes(&self) -> &[u8]
        ensures { result.now ≡ text self.now }
    {
        &self.bytes[..self.length.min(12)]
    }

    // Is this the name that the word spells?
    pub fn is(&self, word: &[u8]) -> bool
        ensures { result ≡ same_name (text self.now) word.now }
    {
        self.as_bytes() == word
    }
}
