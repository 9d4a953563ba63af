use lil_base::Request;
use lil_kernel::piece;

/// A digit at the end of eighty columns.
const WIDE: &[u8] =
    b"                                                                               7";

/// A request, its first and its second word, and what it shows.
const PIECES: &[(Request, u16, u16, &[u8])] = &[
    (Request::Write, 65, 0, b"A"),
    (Request::Write, 30, 0, b"\n"),
    (Request::Write, 256 + 30, 0, b"\n"),
    (Request::Write, 65535, 0, b"\xff"),
    (Request::WriteLn, 65, 9, b"\n"),
    (Request::WriteCard, 0, 0, b"0"),
    (Request::WriteCard, 0, 1, b"0"),
    (Request::WriteCard, 9, 5, b"    9"),
    (Request::WriteCard, 10, 1, b"10"),
    (Request::WriteCard, 65535, 0, b"65535"),
    (Request::WriteCard, 65535, 5, b"65535"),
    (Request::WriteCard, 65535, 6, b" 65535"),
    (Request::WriteInt, 32767, 0, b"32767"),
    (Request::WriteInt, 32768, 0, b"-32768"),
    (Request::WriteInt, 32768, 7, b" -32768"),
    (Request::WriteInt, 65535, 1, b"-1"),
    (Request::WriteInt, 65535, 3, b" -1"),
    (Request::WriteInt, 0, 2, b" 0"),
    (Request::WriteOct, 65535, 0, b"177777"),
    (Request::WriteOct, 7, 2, b" 7"),
    (Request::WriteOct, 8, 0, b"10"),
    (Request::WriteHex, 65535, 0, b"FFFF"),
    (Request::WriteHex, 10, 0, b"A"),
    (Request::WriteHex, 16, 4, b"  10"),
    (Request::WriteCard, 7, 80, WIDE),
    (Request::WriteCard, 7, 81, WIDE),
    (Request::WriteCard, 7, 100, WIDE),
    (Request::WriteCard, 7, 65535, WIDE),
];

#[test]
fn shows(rt: HostRuntime) {
    assert!(rt; WIDE.len() == 80);
    for (request, first, second, wanted) in PIECES {
        assert!(rt;
            !request.takes_array() && piece(*request, *first, *second).as_slice() == *wanted
        );
    }
}
