//! Names, labels and first lines of a trace by their numbers, and words at fault that there are not.

use hg_trace::{LineFault, Trace, TraceFault, Wanted, faulty_word, read_trace};
use std::alloc::Global;
use std::process::Abort;

/// Names of one length with the same ends, so that each has the slot of all others; one of them is a
/// label too.
const ALIKE: &str = "\
w0 alloc abx a1x 8 as abx\nw0 alloc acx a2x 8\nw0 alloc abx a1x 8\n\
w0 list adx\nw0 list acx\nw0 list a2x\nw0 list abx\n";

/// The first lines of workers, where later lines come of lower ones.
const WORKERS: &str = "w3 deliver\nw0 deliver\n\nw5 deliver\nw4 deliver\nw15 deliver\n";

fn read<'a>(rt: &impl Abort, alloc: Global, text: &'a str) -> Trace<'a> {
    read_trace(alloc, text.as_bytes()).expect(rt, "a trace")
}

#[test]
fn names_are_numbered_once(rt: HostRuntime) {
    let trace = read(&rt, rt.alloc(), ALIKE);
    let names = trace.names();
    assert!(&rt; names.len() == 5);
    for (number, name) in ["abx", "a1x", "acx", "a2x", "adx"].iter().enumerate() {
        assert!(&rt; names.get(number) == Some(name), "{name}");
    }
    assert!(&rt; trace.label_count() == 1 && trace.stored().len() == 7);
    drop(trace);
}

/// Whether a line gives a label.
fn gives_label(trace: &Trace<'_>, at: usize) -> bool {
    match trace.line(at) {
        Some(line) => line.command.gives_label(),
        None => false,
    }
}

#[test]
fn labels_are_given(rt: HostRuntime) {
    let trace = read(&rt, rt.alloc(), ALIKE);
    for at in 0..8usize {
        assert!(&rt; gives_label(&trace, at) == (at == 0), "line {at}");
    }
    drop(trace);
}

/// The first line of a worker of this number or above.
fn first_line(worker: u8) -> Option<u64> {
    match worker {
        0..4 => Some(1),
        4..6 => Some(4),
        6..16 => Some(6),
        _ => None,
    }
}

#[test]
fn first_lines_of_workers(rt: HostRuntime) {
    let trace = read(&rt, rt.alloc(), WORKERS);
    for worker in 0..=u8::MAX {
        assert!(&rt;
            trace.first_from(worker) == first_line(worker),
            "worker {worker}"
        );
    }
    drop(trace);
}

/// The trace is read as so many lines and names, or memory was refused.
#[test]
fn names_refused_in_turn(rt: HostRuntime) {
    match read_trace(rt.alloc(), ALIKE.as_bytes()) {
        Ok(trace) => {
            assert!(&rt; trace.stored().len() == 7 && trace.names().len() == 5);
            drop(trace);
        }
        Err(TraceFault::Memory) => {}
        Err(_) => assert!(&rt; false, "another fault"),
    }
}

static FAULTS: [LineFault; 4] = [
    LineFault::Byte,
    LineFault::Operand,
    LineFault::UnknownLabel,
    LineFault::RepeatedLabel,
];

/// A line without this fault, and one that isn't there, has no word at fault.
#[test]
fn nothing_is_told_of_other_lines(rt: HostRuntime) {
    let trace = b"w0 deliver\n\nw0 take 1\n";
    for fault in &FAULTS {
        for line in 0..5 {
            assert!(&rt; faulty_word(trace, line, *fault).is_none(), "line {line}");
        }
    }
    assert!(&rt; faulty_word(b"", 1, LineFault::Command).is_none());
}

#[test]
fn greatest_numbers_are_told(rt: HostRuntime) {
    for (wanted, most) in [
        (Wanted::Bytes, Some(u64::MAX)),
        (Wanted::Segment, Some(63)),
        (Wanted::Index, Some(4_294_967_295)),
        (Wanted::Value, Some(u64::MAX)),
        (Wanted::Block, None),
    ] {
        assert!(&rt; wanted.most() == most, "{wanted:?}");
    }
}
