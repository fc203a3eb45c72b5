//! Banks that are taken apart, and made again; and a core that is lent.

ghost use Rattle.std.specs.Prelude.{◌≡◌, vec_capacity};
ghost use Rattle.hg_bank.specs.Parts.{AreParts};

use crate::tests::asked::{ALICE, BOB, alloc, grow, opened, read, refill, write};
use crate::tests::same::same;
use hg_bank::{Bank, BankHandle, BankParts};
use hg_core::{Core, Refused};
use hg_machine::Rule;
use std::alloc::Global;
use std::process::Abort;

/// The number of the core that a new block of Bob's is of.
fn next_core(rt: &impl Abort, bank: &mut Bank) -> Option<u16> {
    alloc(rt, bank, BOB, 8).ok().map(|block| block.core)
}

/// A bank of two cores, of which the second is current and has a block of Alice's with a word, and
/// one of Bob's; the first is empty. And her block.
fn in_second(rt: &impl Abort, memory: Global) -> (Bank, BankHandle) {
    let mut bank = opened(memory, 3).expect(rt, "a bank");
    assert!(rt; refill(rt, &mut bank).is_ok());
    same(rt, grow(rt, &mut bank, memory), Some(1));
    assert!(rt; refill(rt, &mut bank).is_ok());
    let block = alloc(rt, &mut bank, ALICE, 8).expect(rt, "a block");
    assert!(rt; write(rt, &mut bank, block, 7));
    same(rt, next_core(rt, &mut bank), Some(1));
    (bank, block)
}

/// The cores count what they did in the bank.
fn are_parts(rt: &impl Abort, parts: &BankParts) {
    same(rt, parts.room, 3);
    assert_eq!(rt; parts.cores.len(), 2);
    same(rt, parts.cores[0].charge(0, 0), 0);
    same(rt, parts.cores[1].charge(0, 0), 8);
    same(rt, parts.cores[1].charge(0, 1), 8);
}

// A bank that is made again goes on where it was: words, charges, one limit over all cores, and room
// for the next core; the first core is asked first.
#[test]
fn made_again(rt: HostRuntime) {
    let (bank, block) = in_second(&rt, rt.alloc());
    let parts = bank.into_parts();
    are_parts(&rt, &parts);
    let Ok(mut bank) = Bank::from_parts(rt.alloc(), parts) else {
        panic!(&rt; "no memory");
    };
    same(&rt, bank.charge(0, 0), Some(8));
    same(&rt, read(&rt, &mut bank, block), Ok(7));
    same(&rt, next_core(&rt, &mut bank), Some(0));
    same(&rt, bank.charge(0, 1), Some(16));
    // Bob may have 64 bytes: of the first core alone these would fit.
    same(
        &rt,
        alloc(&rt, &mut bank, BOB, 56),
        Err(Refused::Denied(Rule::OverLimit)),
    );
    same(&rt, grow(&rt, &mut bank, rt.alloc()), Some(2));
    assert!(&rt; bank.is_full());
    drop(bank);
}

/// The same core, which an audit found nothing in.
fn audited(rt: &impl Abort, memory: Global, core: Core) -> Core
    ensures { result ≡ core }
{
    match Core::audit(memory, core.into_parts()) {
        Ok(core) => core,
        Err((_, fault)) => panic!(rt; "{fault:?}"),
    }
}

/// The bank of these parts, when each of two cores was taken apart and audited.
fn audited_again(rt: &impl Abort, memory: Global, parts: BankParts) -> Result<Bank, BankParts>
    requires list { vec_capacity parts.cores ≡ parts.room }
    requires parts { AreParts parts.policy parts.room parts.cores.items }
{
    let mut parts = parts;
    let Some(second) = parts.cores.pop() else {
        return Err(parts);
    };
    let Some(first) = parts.cores.pop() else {
        drop(second);
        return Err(parts);
    };
    parts.cores.push_reserved(audited(rt, memory, first));
    parts.cores.push_reserved(audited(rt, memory, second));
    Bank::from_parts(memory, parts)
}

// Each core of a bank is audited by itself, and the bank goes on.
#[test]
fn audited_core_by_core(rt: HostRuntime) {
    let (bank, block) = in_second(&rt, rt.alloc());
    let Ok(mut bank) = audited_again(&rt, rt.alloc(), bank.into_parts()) else {
        panic!(&rt; "no memory");
    };
    same(&rt, bank.cores(), 2);
    same(&rt, bank.charge(0, 1), Some(8));
    same(&rt, read(&rt, &mut bank, block), Ok(7));
    drop(bank);
}

// A bank is made again, or memory was refused and its parts are as they were: for a run in which
// requests are refused in turn.
#[test]
fn made_again_refused_in_turn(rt: HostRuntime) {
    let Ok(mut bank) = opened(rt.alloc(), 2) else {
        return;
    };
    assert!(&rt; refill(&rt, &mut bank).is_ok());
    assert!(&rt; alloc(&rt, &mut bank, ALICE, 8).is_ok());
    match Bank::from_parts(rt.alloc(), bank.into_parts()) {
        Ok(bank) => {
            same(&rt, bank.charge(0, 0), Some(8));
            drop(bank);
        }
        Err(parts) => {
            same(&rt, parts.room, 2);
            assert_eq!(&rt; parts.cores.len(), 1);
            same(&rt, parts.cores[0].charge(0, 0), 8);
            drop(parts);
        }
    }
}

// A core that is open is lent to be asked, and no other.
#[test]
fn core_of_a_number(rt: HostRuntime) {
    let mut bank = opened(rt.alloc(), 2).expect(&rt, "a bank");
    assert!(&rt; refill(&rt, &mut bank).is_ok());
    let holder = bank.core(0).map(|core| core.holder(0));
    same(&rt, holder, Some(Some(0)));
    assert!(&rt; bank.core(1).is_none());
    assert!(&rt; bank.core(u16::MAX).is_none());
    drop(bank);
}
