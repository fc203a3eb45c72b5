//! Worked verdicts: what is allowed, and which rule refuses.

ghost use Rattle.std.specs.Prelude.{◌<◌, ◌≤◌};

use hg_decision::{judge, judge_alloc};
use hg_machine::{AllocVerdict, Rule, Verdict};
use hg_place::{Actor, Handle, Place, Right, pack};
use hg_policy::Policy;
use hg_policy_text::read_policy;
use hg_size::block_words;
use std::process::Abort;
use std::test::Fail;

const DOCUMENT: &str = r#"
version = 1
workers = 2
tenant = [ {name = "alice", limit = 8192}, {name = "bob", limit = 64} ]
arena = [ {name = "main", segments = 2}, {name = "vault", segments = 1, exclusive = ["alice"]} ]
grant = [ {owner = "alice", to = "bob", rights = ["read", "free"]} ]
"#;

/// The same tenants and arenas, with a group of both; and what is denied.
const DENYING: &str = r#"
version = 2
workers = 2
tenant = [ {name = "alice", limit = 8192}, {name = "bob", limit = 64} ]
arena = [ {name = "main", segments = 2}, {name = "vault", segments = 1, exclusive = ["alice"]} ]
group = [ {name = "staff", members = ["alice", "bob"]} ]
grant = [ {owner = "staff", to = "staff", rights = ["read", "free"]} ]
deny = [ {owner = "alice", to = "staff", rights = ["read", "write"]} ]
"#;

const ALICE: Actor = Actor(0);

const BOB: Actor = Actor(1);

const NOBODY: Actor = Actor(255);

const MAIN: u8 = 0;

const VAULT: u8 = 1;

/// What is no slot word, though it shows generation 1.
const NO_SLOT: u64 = 0x0000_0001_0000_0081;

fn handle(segment: u8, generation: u32) -> Handle
    requires segment { segment < 64 }
    requires generation { 1 ≤ generation }
{
    let place = Place {
        segment,
        page: 0,
        index: 0,
    };
    Handle { place, generation }
}

/// A live block of alice, in its first life.
fn block() -> u64 {
    pack(1, 0, true)
}

/// Who asks for which right, with which handle, on which slot word, and the rule that denies it.
#[derive(Clone, Copy)]
struct Asked(Actor, Right, Handle, u64, Option<Rule>);

fn judges(rt: &impl Abort, policy: &Policy, cases: &[Asked]) {
    for Asked(actor, right, handle, word, rule) in cases {
        let want = rule.map_or(Verdict::Allowed, Verdict::Denied);
        assert_eq!(rt; judge(policy, *actor, *right, *handle, *word), want);
    }
}

#[test]
fn blocks_by_the_first_rule(rt: HostRuntime) -> Result<(), Fail> {
    let policy = read_policy(rt.alloc(), DOCUMENT.as_bytes())?;
    let first = handle(0, 1);
    let second = handle(0, 2);
    let freed = pack(1, 0, false);
    let cases = [
        Asked(BOB, Right::Read, first, block(), None),
        Asked(ALICE, Right::Write, first, block(), None),
        Asked(BOB, Right::Free, first, block(), None),
        Asked(BOB, Right::Write, first, block(), Some(Rule::NotGranted)),
        Asked(BOB, Right::List, first, block(), Some(Rule::NotGranted)),
        Asked(
            NOBODY,
            Right::Read,
            handle(9, 1),
            block(),
            Some(Rule::Stranger),
        ),
        Asked(BOB, Right::Write, second, block(), Some(Rule::Stale(1))),
        Asked(BOB, Right::Write, first, freed, Some(Rule::AlreadyFreed)),
        Asked(
            BOB,
            Right::Read,
            handle(2, 1),
            block(),
            Some(Rule::ForeignArena),
        ),
        Asked(
            BOB,
            Right::Read,
            handle(3, 1),
            block(),
            Some(Rule::Stale(0)),
        ),
        Asked(ALICE, Right::Read, first, NO_SLOT, Some(Rule::Stale(0))),
    ];
    judges(&rt, &policy, &cases);
    drop(policy);
    Ok(())
}

// What is denied is denied before any grant, and after each other rule.
#[test]
fn denied_before_the_grant(rt: HostRuntime) -> Result<(), Fail> {
    let policy = read_policy(rt.alloc(), DENYING.as_bytes())?;
    let first = handle(0, 1);
    let second = handle(0, 2);
    let vaulted = handle(2, 1);
    let freed = pack(1, 0, false);
    let bobs = pack(1, 1, true);
    let cases = [
        Asked(BOB, Right::Read, first, block(), Some(Rule::Forbidden)),
        Asked(BOB, Right::Write, first, block(), Some(Rule::Forbidden)),
        Asked(ALICE, Right::Read, first, block(), None),
        Asked(ALICE, Right::Write, first, block(), None),
        Asked(BOB, Right::Free, first, block(), None),
        Asked(BOB, Right::List, first, block(), Some(Rule::NotGranted)),
        Asked(ALICE, Right::Read, first, bobs, None),
        Asked(BOB, Right::Read, vaulted, block(), Some(Rule::ForeignArena)),
        Asked(BOB, Right::Read, first, freed, Some(Rule::AlreadyFreed)),
        Asked(BOB, Right::Read, second, block(), Some(Rule::Stale(1))),
        Asked(NOBODY, Right::Read, first, block(), Some(Rule::Stranger)),
    ];
    judges(&rt, &policy, &cases);
    drop(policy);
    Ok(())
}

/// Whether the allocation fits a class of so many words.
fn fits(verdict: AllocVerdict, words: u16) -> bool {
    match verdict {
        AllocVerdict::Fits(class) => block_words(class) == words,
        _ => false,
    }
}

/// Who asks for how many words in which arena, at which charge, and the rule that denies it; none
/// where there is no class of so many words.
#[derive(Clone, Copy)]
struct Allocated(Actor, u8, u64, u64, Option<Rule>);

fn refuses(rt: &impl Abort, policy: &Policy, cases: &[Allocated]) {
    for Allocated(actor, arena, words, charge, rule) in cases {
        let want = rule.map_or(AllocVerdict::TooLarge, AllocVerdict::Denied);
        assert_eq!(rt; judge_alloc(policy, *actor, *arena, *words, *charge), want);
    }
}

fn fits_by_class(rt: &impl Abort, policy: &Policy) {
    for (words, charge, class) in [(9, 0, 10), (512, 4096, 512), (513, 0, 1024)] {
        assert!(rt; fits(judge_alloc(policy, ALICE, MAIN, words, charge), class));
    }
}

#[test]
fn allocations_by_the_first_rule(rt: HostRuntime) -> Result<(), Fail> {
    let policy = read_policy(rt.alloc(), DOCUMENT.as_bytes())?;
    fits_by_class(&rt, &policy);
    let over = Some(Rule::OverLimit);
    let foreign = Some(Rule::ForeignArena);
    let stranger = Some(Rule::Stranger);
    let cases = [
        Allocated(ALICE, MAIN, 512, 4097, over),
        Allocated(ALICE, MAIN, 8192, 0, over),
        Allocated(ALICE, MAIN, 1, u64::MAX, over),
        Allocated(BOB, MAIN, 9, 0, over),
        Allocated(BOB, VAULT, 8193, 0, foreign),
        Allocated(ALICE, 255, 1, 0, foreign),
        Allocated(NOBODY, VAULT, 8193, 0, stranger),
        Allocated(ALICE, MAIN, 8193, u64::MAX, None),
        Allocated(ALICE, MAIN, u64::MAX, 0, None),
    ];
    refuses(&rt, &policy, &cases);
    drop(policy);
    Ok(())
}
