use lil_asm::{Instr, decode, encode, encode_entry};
use lil_base::Bytes;

const INSTRUCTIONS: &[Instr] = &[
    Instr::Clx(2, 3, 260),
    Instr::Lnw(1, 515),
    Instr::Fri(4, 1, 258),
    Instr::Lis(9),
    Instr::Cas(1, 513),
];

#[test]
fn encodes(rt: HostRuntime) {
    let mut code = Bytes::new(rt.alloc());
    for instr in INSTRUCTIONS {
        encode(&mut code, *instr).expect(&rt, "memory");
    }
    encode_entry(&mut code, 65535, 2, 300).expect(&rt, "memory");
    let wanted: [u8; 27] = [
        0x66, 2, 3, 1, 4, 0x2a, 1, 2, 3, 0x77, 0, 4, 1, 1, 2, 0x19, 0x76, 0, 1, 2, 1, 255, 255, 0,
        2, 1, 44,
    ];
    assert!(rt; code.as_slice() == wanted.as_slice());
}

#[test]
fn decodes(rt: HostRuntime) {
    // FRI 4 1 258; LIS 9; CAS 1 513 with its entry; CLX 2 3 260; LNW 1 515; LIW without its lower byte
    let code: [u8; 29] = [
        0x77, 0, 4, 1, 1, 2, 0x19, 0x76, 0, 1, 2, 1, 255, 255, 0, 2, 1, 44, 0x66, 2, 3, 1, 4, 0x2a,
        1, 2, 3, 1, 0,
    ];
    let code = code.as_slice();
    assert!(rt; matches!(decode(code, 0), Some((Instr::Fri(4, 1, 258), 6))));
    assert!(rt; matches!(decode(code, 6), Some((Instr::Lis(9), 7))));
    assert!(rt; matches!(decode(code, 7), Some((Instr::Cas(1, 513), 12))));
    assert!(rt; matches!(decode(code, 18), Some((Instr::Clx(2, 3, 260), 23))));
    assert!(rt; matches!(decode(code, 23), Some((Instr::Lnw(1, 515), 27))));
    assert!(rt; decode(&code[..17], 7).is_none());
    for place in [27, 13, 29] {
        assert!(rt; decode(code, place).is_none());
    }
}
