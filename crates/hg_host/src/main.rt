//! A host in Rattle whose plug-ins are tenants: one keeps a number in a block, and passes its handle on
//! as a text; then it fills the cores of a bank. Its line of crates.txt names heapguard_core alone.
#![tactic(auto)]

mod desk;
mod shelf;

use desk::Desk;
use heapguard_core::{Actor, Bank, BankHandle, Core, Handle, Policy, Refused, read_policy};
use shelf::Shelf;
use std::alloc::Global;
use std::io;

/// A core of it has one segment, which one block of 64 KiB fills; alice may have two.
const POLICY: &str = "version = 1\nworkers = 1\narena = [ {name = \"main\", segments = 1} ]\n\
    tenant = [ {name = \"alice\", limit = 131072}, {name = \"bob\", limit = 64} ]\n";

/// Tenants are numbered as the policy has them.
const ALICE: Actor = Actor(0);

const BOB: Actor = Actor(1);

/// What an actor is told of the block that a text names.
fn ask(rt: &impl Print, desk: &mut Desk, name: &str, actor: Actor, text: &str) -> io::Result<()> {
    match text.parse::<Handle>() {
        Ok(block) => {
            let told = desk.tell(actor, block);
            println!(rt; "{name} reads {block}: {told:?}")
        }
        Err(fault) => println!(rt; "{name} reads {text}: {fault}"),
    }
}

/// Alice keeps a number, and both ask for it.
fn serve(rt: &impl Print, desk: &mut Desk) -> io::Result<()> {
    match desk.keep(ALICE, 42) {
        Ok(block) => println!(rt; "{block} is alice's, as a word {}", block.to_u64())?,
        Err(refused) => println!(rt; "alice keeps nothing: {refused:?}")?,
    }
    ask(rt, desk, "alice", ALICE, "@0.0.0.1")?;
    ask(rt, desk, "bob", BOB, "@0.0.0.1")?;
    ask(rt, desk, "bob", BOB, "@0.0.0.01")
}

/// Keeps a number in a block of 64 KiB. Where no core has room for that, a segment more is taken first.
fn keep_large(
    alloc: Global,
    shelf: &mut Shelf,
    number: u64,
) -> io::Result<Result<BankHandle, Refused>> {
    match shelf.keep(ALICE, 65_536, number) {
        Err(Refused::NoRoom) => {
            shelf.refill(alloc)?;
            Ok(shelf.keep(ALICE, 65_536, number))
        }
        kept => Ok(kept),
    }
}

/// Alice keeps numbers in blocks that fill a core each, up to her limit.
fn fill(rt: &impl Print, alloc: Global, shelf: &mut Shelf) -> io::Result<()> {
    for number in [42, 43, 44] {
        match keep_large(alloc, shelf, number)? {
            Ok(block) => {
                let told = shelf.tell(ALICE, block);
                println!(rt;
                    "core {} has {} for {number}: {told:?}",
                    block.core, block.handle
                )?;
            }
            Err(refused) => println!(rt; "no core has a block for {number}: {refused:?}")?,
        }
    }
    Ok(())
}

/// The policy; `None` where it is told that there is a fault in it.
fn read(rt: &impl Print, alloc: Global) -> io::Result<Option<Policy>> {
    match read_policy(alloc, POLICY.as_bytes()) {
        Ok(policy) => Ok(Some(policy)),
        Err(fault) => println!(rt; "{fault}").map(|()| None),
    }
}

/// Two tenants at the desk of a core.
fn at_desk(rt: &impl Print, alloc: Global, policy: Policy) -> io::Result<()> {
    match Desk::at(Core::open(alloc, policy)?, 0) {
        Some(mut desk) => {
            let served = match desk.refill() {
                Ok(_) => serve(rt, &mut desk),
                Err(_) => println!(rt; "no segment"),
            };
            drop(desk);
            served
        }
        None => println!(rt; "no such worker"),
    }
}

/// One tenant at the shelf of a bank of at most three cores.
fn at_shelf(rt: &impl Print, alloc: Global, policy: Policy) -> io::Result<()> {
    match Shelf::at(Bank::open(alloc, policy, 3)?, 0) {
        Some(mut shelf) => {
            let filled = fill(rt, alloc, &mut shelf);
            drop(shelf);
            filled
        }
        None => println!(rt; "no such worker"),
    }
}

fn main(rt: HostRuntime) -> io::Result<()> {
    let alloc = rt.alloc();
    if let Some(policy) = read(&rt, alloc)? {
        at_desk(&rt, alloc, policy)?;
    }
    if let Some(policy) = read(&rt, alloc)? {
        at_shelf(&rt, alloc, policy)?;
    }
    Ok(())
}
