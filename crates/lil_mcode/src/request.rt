//! The words of requests.

ghost use Rattle.std.specs.Prelude.{◌≡◌};
ghost use Rattle.lil_asm.specs.Requests.{request_words};

use lil_base::Request;

/// How many words of the expression stack a request takes: Write one, WriteLn none, WriteString an array's address
/// and above it the number of the array's last element, and WriteCard, WriteInt, WriteOct and WriteHex two.
pub fn words_of_request(request: Request) -> u8
    ensures { result ≡ request_words request }
{
    match request {
        Request::WriteLn => 0,
        Request::Write => 1,
        Request::WriteString
        | Request::WriteCard
        | Request::WriteInt
        | Request::WriteOct
        | Request::WriteHex => 2,
    }
}
