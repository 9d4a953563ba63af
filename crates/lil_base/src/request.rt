ghost use Rattle.std.specs.Prelude.{◌≡◌};
ghost use Rattle.lil_base.specs.Requests.{request_number, request_with, takes_array};

/// What a program asks of the system: a procedure of a resident module that only writes (Medos-2, Terminal and InOut).
#[derive(Clone, Copy, PartialEq, Eq)]
pub enum Request {
    Write = 2,
    WriteString = 3,
    WriteLn = 4,
    WriteCard = 5,
    WriteInt = 6,
    WriteOct = 7,
    WriteHex = 8,
}

impl Request {
    /// The number by which code asks for it.
    pub fn number(self) -> u8
        ensures { result ≡ request_number self }
    {
        self as u8
    }

    /// The request with a number; none where no request has it.
    pub fn with_number(number: u8) -> Option<Request>
        ensures { result ≡ request_with number }
    {
        match number {
            2 => Some(Request::Write),
            3 => Some(Request::WriteString),
            4 => Some(Request::WriteLn),
            5 => Some(Request::WriteCard),
            6 => Some(Request::WriteInt),
            7 => Some(Request::WriteOct),
            8 => Some(Request::WriteHex),
            _ => None,
        }
    }

    /// Whether it takes an open array of characters, and nothing else.
    pub fn takes_array(self) -> bool
        ensures { result ≡ takes_array self }
    {
        matches!(self, Request::WriteString)
    }
}
