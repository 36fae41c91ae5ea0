// The calls, by the byte of field 1 that names each.
ghost use Rattle.std.specs.Prelude.{◌≡◌};
ghost use Rattle.reader.specs.CallKinds.{call_number, CallNamed};

// The calls that a list names. Every other call takes a list of any of them.
#[derive(Clone, Copy, PartialEq, Eq, Debug, Drop)]
pub enum Call {
    // Place: 1.
    Place = 1,
    // Release: 2.
    Release = 2,
    // Discard: 3.
    Discard = 3,
}

// A byte that names no call.
#[derive(Clone, Copy, PartialEq, Eq, Debug, Drop)]
pub struct UnknownCall(pub u8);

impl TryFrom<u8> for Call {
    type Error = UnknownCall;

    ghost try_from_gives = { CallNamed };

    // The call that a byte names, if it names one. In numbers: no pattern may be a cast.
    fn try_from(number: u8) -> Result<Call, UnknownCall> {
        match number {
            1 => Ok(Call::Place),
            2 => Ok(Call::Release),
            3 => Ok(Call::Discard),
            _ => Err(UnknownCall(number)),
        }
    }
}

impl Call {
    // Its number. A method and not `From`: its name says which number, where `u8::from` does not.
    pub fn number(self) -> u8
        ensures { result ≡ call_number self }
    {
        self as u8
    }
}
