// The data types whose buckets are counted.
ghost use Rattle.std.specs.Prelude.{◌≡◌};
ghost use Rattle.format.specs.DataTypes.{type_number};

// The data types.
#[derive(Clone, Copy, PartialEq, Eq, Debug, Drop)]
pub enum DataType {
    // Free.
    Free = 0,
    // In use, by file data.
    User = 4,
    // Waiting for its discard.
    NeedDiscard = 9,
}

impl DataType {
    // Its number. A method and not `From`: its name says which number, where `u8::from` does not.
    pub fn number(self) -> u8
        ensures { result ≡ type_number self }
    {
        self as u8
    }
}
