// The types of the keys that the calls write, and their numbers. A key that is read may have any other.
ghost use Rattle.std.specs.Prelude.{◌≡◌};
ghost use Rattle.wire.specs.KeyTypes.{key_type_number};

// The types of keys.
#[derive(Clone, Copy, PartialEq, Eq, Debug, Drop)]
pub enum KeyType {
    // A deletion.
    Deleted = 0,
    // An extent.
    Extent = 6,
    // An LRU key, a run or a need-discard key.
    Set = 25,
    // An alloc key.
    AllocV4 = 27,
    // A backpointer.
    Backpointer = 28,
    // A generation record.
    BucketGens = 30,
}

impl KeyType {
    // Its number. A method and not `From`: its name says which number, where `u8::from` does not.
    pub fn number(self) -> u8
        ensures { result ≡ key_type_number self }
    {
        self as u8
    }
}
