//! The words of slots, and the texts and the words of handles.

use hg_place::{Handle, SlotState, pack, unpack};
use std::alloc::Global;
use std::collections::HashMap;
use std::process::Abort;

/// Generation, owner, liveness and slot word.
static SLOTS: [(u32, u8, bool, u64); 5] = [
    (0, 0, false, 0x0000_0000_0000_0000),
    (1, 0, true, 0x0000_0001_0000_0001),
    (1, 0, false, 0x0000_0001_0000_0000),
    (2, 5, false, 0x0000_0002_0000_000a),
    (4_294_967_295, 63, true, 0xffff_ffff_0000_007f),
];

/// Words of no slot: bits that are 0 in each, or no generation and yet an owner or a life.
static NO_SLOTS: [u64; 5] = [
    1,
    2,
    0x0000_0000_0000_0080,
    0x0000_0001_0000_0080,
    0x0000_0001_8000_0000,
];

#[test]
fn slot_words(rt: HostRuntime) {
    for (generation, owner, live, word) in &SLOTS {
        let slot = unpack(*word).expect(&rt, "a slot's word");
        assert_eq!(&rt;
            (slot.generation, slot.owner, slot.live),
            (*generation, *owner, *live)
        );
        assert_eq!(&rt; pack(slot.generation, slot.owner, slot.live), *word);
    }
    for word in &NO_SLOTS {
        assert!(&rt; unpack(*word).is_none(), "{word} is the word of no slot");
    }
}

/// The texts and the words of handles.
static HANDLES: [(&str, u64); 5] = [
    ("@0.0.0.1", 0x0000_0000_0000_0001),
    ("@0.1.3.7", 0x0000_0203_0000_0007),
    ("@1.0.0.10", 0x0000_2000_0000_000a),
    ("@10.15.0.4294967295", 0x0001_5e00_ffff_ffff),
    ("@63.15.511.4294967295", 0x0007_ffff_ffff_ffff),
];

/// Words of no handle: a generation of 0, and places past the last.
static NO_HANDLES: [u64; 4] = [
    0,
    0x0000_0203_0000_0000,
    0x0008_0000_0000_0001,
    0xffff_ffff_ffff_ffff,
];

/// A handle is displayed as this text, and its word is this; and back.
fn is_named(rt: &impl Abort, alloc: Global, text: &str, word: u64) {
    let handle = text.parse::<Handle>().expect(rt, "a handle's text");
    assert!(rt;
        handle.to_u64() == word && Handle::from_u64(word) == Some(handle),
        "{text}"
    );
    let shown = format!(in alloc; "{handle}").expect(rt, "memory");
    assert!(rt; shown.as_str() == text, "{text}");
    drop(shown);
}

#[test]
fn handles_are_named(rt: HostRuntime) {
    for (text, word) in &HANDLES {
        is_named(&rt, rt.alloc(), text, *word);
    }
    for word in &NO_HANDLES {
        assert!(&rt; Handle::from_u64(*word).is_none(), "{word} is no handle's");
    }
}

/// Texts of no handle: parts that are missing or too many; blanks, signs, leading zeros and other
/// digits; and numbers that are out of their ranges.
static NO_TEXTS: [&str; 25] = [
    "",
    "@",
    "0.0.0.1",
    "@0.0.0",
    "@0..0.1",
    "@0.0.0.",
    "@0.0.0.1.",
    "@0.0.0.1.1",
    "@0.0.0.1@",
    "@@0.0.0.1",
    " @0.0.0.1",
    "@0.0.0.1\n",
    "@0. 0.0.1",
    "@+0.0.0.1",
    "@0.0.0.-1",
    "@00.0.0.1",
    "@0.0.0.01",
    "@0.0.0.0x1",
    "@0.0.0.\u{661}",
    "@64.0.0.1",
    "@0.16.0.1",
    "@0.0.512.1",
    "@0.0.0.0",
    "@0.0.0.4294967296",
    "@0.0.0.18446744073709551617",
];

#[test]
fn texts_of_no_handle(rt: HostRuntime) {
    for text in &NO_TEXTS {
        assert!(&rt; text.parse::<Handle>().is_err(), "{text} is no handle's");
    }
}

// A handle is found again by all that it has.
#[test]
fn handles_as_keys(rt: HostRuntime) {
    let mut names = HashMap::new(rt.alloc());
    for (text, _) in &HANDLES {
        let handle = text.parse::<Handle>().expect(&rt, "a handle's text");
        assert!(&rt; names.get(&handle).is_none());
        assert!(&rt; names.insert(handle, *text).is_ok());
        assert!(&rt; names.get(&handle).copied() == Some(*text));
    }
    drop(names);
}
