// What is asked of a list: that it is of a call, or of any.
ghost use Rattle.std.specs.Prelude.{◌≡◌, ◌||◌, eqb};
ghost use Rattle.reader.specs.Asked.{call_asked, any_asked};

// What a list is asked to be. A byte and no `Call`: sort asks for whatever byte a list has.
#[derive(Clone, Copy, Drop)]
pub enum Asked {
    // Of this call.
    Call(u8),
    // Of whatever call its head names; the requests of this call may stand in it.
    Any(u8),
}

impl From<Option<u8>> for Asked {
    ghost use Rattle.std.specs.Prelude.{unwrap_or, is_none};

    ghost from_gives = { λ call asked. (call_asked asked ≡ unwrap_or call 0) × (any_asked asked ≡ is_none call) };

    // Of a call, or without one of any, in which no request may stand.
    fn from(call: Option<u8>) -> Asked {
        match call {
            Some(call) => Asked::Call(call),
            None => Asked::Any(0),
        }
    }
}

impl Asked {
    // The call whose requests may stand.
    pub fn call(self) -> u8
        ensures { result ≡ call_asked self }
    {
        match self {
            Asked::Call(call) | Asked::Any(call) => call,
        }
    }

    // Whether the head may name a call.
    pub fn takes(self, named: u8) -> bool
        ensures { result ≡ (any_asked self || eqb named (call_asked self)) }
    {
        match self {
            Asked::Call(call) => named == call,
            Asked::Any(_) => true,
        }
    }
}
