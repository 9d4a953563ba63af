use lil_base::{Bytes, Memory, Name, Request, TrapKind};
use lil_kernel::serve;
use lil_mcode::{Event, Machine};
use lil_volume::RamSink;
use std::alloc::Global;

// A machine at the body of a module with this code, so many data words, and one procedure at this entry, or none.
pub(crate) fn begun_with(
    alloc: Global,
    code: &[u8],
    entry: Option<u16>,
    data_words: u8,
) -> Result<Machine, Memory> {
    if code.is_empty() || code.len() > 32_767 {
        return Err(Memory);
    }
    let procedures = match entry {
        None => vec![in alloc; (0u16, None)]?,
        Some(place) => {
            if usize::from(place) >= code.len() {
                return Err(Memory);
            }
            vec![in alloc; (0u16, None), (place, None)]?
        }
    };
    let mut machine = Machine::new(alloc)?;
    let name = Name::of_slice(alloc, b"Main")?.ok_or(Memory)?;
    let code = Bytes::from_slice(alloc, code)?;
    let bodies = vec![in alloc; 1u8]?;
    machine.open_level();
    machine.add_module(name, procedures, &code, u16::from(data_words));
    machine.begin(bodies);
    Ok(machine)
}

// The same without a procedure.
pub(crate) fn begun(alloc: Global, code: &[u8], data_words: u8) -> Result<Machine, Memory> {
    begun_with(alloc, code, None, data_words)
}

#[test]
fn runs_many(rt: HostRuntime) {
    // ENT 5; LIW 65; SGW 1; LGW 1; LIW 2; ADC; SVC 2; RTN
    let code = [
        0x68, 0, 5, 1, 0, 65, 0x26, 0, 1, 0x24, 0, 1, 1, 0, 2, 0x40, 0x7d, 2, 0x6a, 0, 0, 0, 0, 0,
        0, 0, 0, 0, 0, 0, 0, 0,
    ];
    let mut machine = begun(rt.alloc(), &code, 2).expect(&rt, "memory");
    let (event, done) = machine.run(4);
    assert!(rt; event == Event::Went && done == 4);
    assert!(rt; machine.steps() == 4 && machine.place().place == 9);
    let (event, done) = machine.run(100);
    assert!(rt; event == Event::Request(Request::Write) && done == 3);
    assert!(rt; machine.steps() == 7 && machine.place().place == 16);
    let (event, done) = machine.run(1);
    assert!(rt; event == Event::LevelEnded && done == 1);
    assert!(rt; machine.steps() == 8 && machine.place().place == 18);
}

// LIW 0; LIW 1; SBC
const OVERFLOWS: [u8; 32] = [
    1, 0, 0, 1, 0, 1, 0x41, 0, 0, 0, 0, 0, 0, 0, 0, 0, 0, 0, 0, 0, 0, 0, 0, 0, 0, 0, 0, 0, 0, 0, 0,
    0,
];

// LIW 0; LIW 1; no instruction
const WRONG: [u8; 32] = [
    1, 0, 0, 1, 0, 1, 0, 0, 0, 0, 0, 0, 0, 0, 0, 0, 0, 0, 0, 0, 0, 0, 0, 0, 0, 0, 0, 0, 0, 0, 0, 0,
];

// A machine after two instructions of a code, and what its third one does.
fn third(alloc: Global, code: &[u8; 32]) -> Result<(Machine, Event), Memory> {
    let mut machine = begun(alloc, code, 2)?;
    let _ = machine.step();
    let _ = machine.step();
    let event = machine.step();
    Ok((machine, event))
}

#[test]
fn stops(rt: HostRuntime) {
    let (machine, event) = third(rt.alloc(), &OVERFLOWS).expect(&rt, "memory");
    assert!(rt; event == Event::Trap(TrapKind::Overflow) && machine.place().place == 6);
    let (_, event) = third(rt.alloc(), &WRONG).expect(&rt, "memory");
    assert!(rt; event == Event::BadCode);
}

// LIW 65535; LIW 0; SVC 3: the array is the last word of the store
const LAST_WORD: [u8; 32] = [
    1, 255, 255, 1, 0, 0, 0x7d, 3, 0, 0, 0, 0, 0, 0, 0, 0, 0, 0, 0, 0, 0, 0, 0, 0, 0, 0, 0, 0, 0,
    0, 0, 0,
];

// LIW 65535; LIW 1; SVC 3: the array passes the store
const PASSES: [u8; 32] = [
    1, 255, 255, 1, 0, 1, 0x7d, 3, 0, 0, 0, 0, 0, 0, 0, 0, 0, 0, 0, 0, 0, 0, 0, 0, 0, 0, 0, 0, 0,
    0, 0, 0,
];

#[test]
fn tests_arrays(rt: HostRuntime) {
    let (machine, event) = third(rt.alloc(), &LAST_WORD).expect(&rt, "memory");
    assert!(rt; event == Event::Request(Request::WriteString) && machine.place().place == 6);
    let (_, event) = third(rt.alloc(), &PASSES).expect(&rt, "memory");
    assert!(rt; event == Event::BadCode);
}

// ENT 5; LAG 0; LIS 1; SVC 3; RTN
const WRITES: [u8; 32] = [
    0x68, 0, 5, 0x2d, 0, 0, 0x11, 0x7d, 3, 0x6a, 0, 0, 0, 0, 0, 0, 0, 0, 0, 0, 0, 0, 0, 0, 0, 0, 0,
    0, 0, 0, 0, 0,
];

/// The data words of a module that writes them as an array, and what it shows.
const ARRAYS: &[([u16; 2], &[u8])] = &[
    ([72, 105], b"Hi"),
    ([256 + 72, 30], b"H\n"),
    ([72, 0], b"H"),
    ([256, 72], b""),
];

// Runs to the next request, and serves it. Nothing is shown where none comes.
pub(crate) fn served(machine: &mut Machine, screen: &mut RamSink) -> Result<(), Memory> {
    let (event, _) = machine.run(100);
    if let Event::Request(request) = event {
        serve(request, machine, screen).map_err(|_| Memory)?;
    }
    Ok(())
}

// What a module with these data words shows by its first request.
fn shown(alloc: Global, words: &[u16; 2]) -> Result<RamSink, Memory> {
    let mut machine = begun(alloc, &WRITES, 2)?;
    let mut screen = RamSink::new(alloc, Bytes::new(alloc), Vec::new(alloc))?;
    machine.set_words(1, words);
    served(&mut machine, &mut screen)?;
    Ok(screen)
}

#[test]
fn writes_arrays(rt: HostRuntime) {
    for (words, wanted) in ARRAYS {
        let screen = shown(rt.alloc(), words).expect(&rt, "memory");
        assert!(rt; screen.written().as_slice() == *wanted && screen.calls() == 1);
    }
}
