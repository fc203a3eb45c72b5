//! Tests of what no clause says: that names are kept with ample memory, also those that fall into
//! one bucket, and what an error leaves.

use hg_labels::Names;
use std::alloc::Global;
use std::process::Abort;

/// The names are what this begins with, up to each of its bytes.
const TEXT: &str = "\
abcdefghijklmnopqrstuvwxyz0123456789_-ABCDabcdefghijklmnopqrstuvwxyz0123456789_-ABCD\
abcdefghijklmnopqrstuvwxyz0123456789_-ABCDabcdefghijklmnopqrstuvwxyz0123456789_-ABCD\
abcdefghijklmnopqrstuvwxyz0123456789_-ABCDabcdefghijklmnopqrstuvwxyz0123456789_-ABCD\
abcdefghijklmnopqrstuvwxyz0123456789_-ABCDabcdefghijklmnopqrstuvwxyz0123456789_-ABCD";

/// How many bytes each of the 2,000 names has.
const DIGITS: usize = 6;

/// The numbers from 100,000 to 101,999, one after another.
fn numbers(rt: &impl Abort, alloc: Global) -> String {
    let mut text = String::new(alloc);
    for number in 100_000u32..102_000 {
        let digits = format!(in alloc; "{number}").expect(rt, "memory");
        text.push_str(digits.as_str()).expect(rt, "memory");
    }
    text
}

fn number_at<'a>(rt: &impl Abort, text: &'a str, at: usize) -> &'a str {
    assert!(rt; at < 2_000);
    text.get(at * DIGITS..at * DIGITS + DIGITS)
        .expect(rt, "a number")
}

fn front(rt: &impl Abort, length: usize) -> &'static str {
    TEXT.get(0..length).expect(rt, "a front")
}

/// Whether a name falls into the first of 16 buckets, by the hash that hg_labels keeps to itself:
/// FNV-1a, of which the lowest byte tells it.
fn is_in_first(name: &str) -> bool {
    let hash = name
        .as_bytes()
        .iter()
        .fold(0x25u8, |hash, byte| { (hash ^ *byte).wrapping_mul(0xb3) });
    hash.is_multiple_of(16)
}

/// The number of a name.
fn position(names: &Names, name: &str) -> Option<usize> {
    names.position_of(name)
}

/// Whether a name that is pushed wasn't there.
fn is_new<'a>(rt: &impl Abort, names: &mut Names<'a>, name: &'a str) -> bool {
    names.push(name).expect(rt, "memory")
}

#[test]
fn keeps_2000_names(rt: HostRuntime) {
    let text = numbers(&rt, rt.alloc());
    let mut names = Names::new(rt.alloc());
    for number in 0usize..2_000 {
        let name = number_at(&rt, text.as_str(), number);
        assert_eq!(&rt; position(&names, name), None);
        assert!(&rt; is_new(&rt, &mut names, name));
        assert!(&rt; !is_new(&rt, &mut names, name));
        assert_eq!(&rt; position(&names, name), Some(number));
    }
    for number in 0usize..2_000 {
        let name = number_at(&rt, text.as_str(), number);
        assert_eq!(&rt; position(&names, name), Some(number));
        assert!(&rt; names.is_at(number, name));
        assert!(&rt; !names.is_at(number + 1, name));
    }
    assert_eq!(&rt; names.names().len(), 2_000);
    assert_eq!(&rt; names.names().get(1_999), Some(&"101999"));
    assert_eq!(&rt; position(&names, ""), None);
    assert_eq!(&rt; position(&names, "10000"), None);
    drop(names);
}

// More names than a bucket has slots, and too few for more buckets.
#[test]
fn keeps_names_of_one_bucket(rt: HostRuntime) {
    let mut names = Names::new(rt.alloc());
    let mut count = 0usize;
    for length in 0usize..TEXT.len() {
        let name = front(&rt, length);
        if is_in_first(name) {
            assert!(&rt; is_new(&rt, &mut names, name));
            assert!(&rt; !is_new(&rt, &mut names, name));
            count = count.saturating_add(1);
        }
    }
    assert!(&rt; 8 < count && count < 64);
    let mut number = 0usize;
    for length in 0usize..TEXT.len() {
        let name = front(&rt, length);
        if is_in_first(name) {
            assert_eq!(&rt; position(&names, name), Some(number));
            number = number.saturating_add(1);
        } else {
            assert_eq!(&rt; position(&names, name), None);
        }
    }
    drop(names);
}

/// Pushes a new name. Where memory is refused the name isn't among the others, and is pushed again.
fn push_twice(rt: &impl Abort, names: &mut Names<'static>, name: &'static str) -> bool {
    if let Ok(added) = names.push(name) {
        return added;
    }
    assert_eq!(rt; position(names, name), None);
    names.push(name).is_ok_and(|added| added)
}

// The names are kept, or memory was refused: for a run in which requests are refused in turn.
#[test]
fn growing_refused_in_turn(rt: HostRuntime) {
    let mut names = Names::new(rt.alloc());
    for length in 0usize..TEXT.len() {
        if !push_twice(&rt, &mut names, front(&rt, length)) {
            return;
        }
        assert_eq!(&rt; position(&names, ""), Some(0));
        assert_eq!(&rt; position(&names, front(&rt, length)), Some(length));
    }
    drop(names);
}

// The same of names that fall into one bucket.
#[test]
fn spilling_refused_in_turn(rt: HostRuntime) {
    let mut names = Names::new(rt.alloc());
    let mut count = 0usize;
    for length in 0usize..TEXT.len() {
        let name = front(&rt, length);
        if is_in_first(name) {
            if !push_twice(&rt, &mut names, name) {
                return;
            }
            assert_eq!(&rt; position(&names, name), Some(count));
            count = count.saturating_add(1);
        }
    }
    drop(names);
}

// Few names, in the first buckets: what they ask for is counted outside.
#[test]
fn asks_for_few_names(rt: HostRuntime) {
    let mut names = Names::new(rt.alloc());
    for length in 0usize..12 {
        assert!(&rt; is_new(&rt, &mut names, front(&rt, length)));
    }
    drop(names);
}

// Many names: with twice as many buckets now and then, and seldom a bucket that is full.
#[test]
fn asks_for_many_names(rt: HostRuntime) {
    let mut names = Names::new(rt.alloc());
    for length in 0usize..TEXT.len() {
        assert!(&rt; is_new(&rt, &mut names, front(&rt, length)));
    }
    drop(names);
}
