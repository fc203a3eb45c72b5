//! Traces of every command replayed, from their bytes to the bytes of their answers.

use crate::digest::Digest;
use crate::numbers::Numbers;
use anyhow::bail;
use hg_replay::{Status, run_texts};
use itoa::Buffer;
use std::alloc::{AllocError, Global};

const POLICY: &str = r#"version = 2
workers = 4
tenant = [
    {name = "alice", limit = 1000000},
    {name = "bob", limit = 1000000},
    {name = "carol", limit = 1000000},
    {name = "dave", limit = 1000000},
]
arena = [
    {name = "main", segments = 16},
    {name = "vault", segments = 4, exclusive = ["alice"]},
]
grant = [
    {owner = "alice", to = "bob", rights = ["read", "free"]},
    {owner = "bob", to = "carol", rights = ["read", "write", "list", "free"]},
    {owner = "carol", to = "dave", rights = ["read"]},
]
deny = [ {owner = "bob", to = "carol", rights = ["free"]} ]
"#;

static TENANTS: [&str; 4] = ["alice", "bob", "carol", "dave"];

/// Who asks now and then: one whom the policy lacks.
const STRANGER: &str = "mallory";

/// How many lines a trace has.
const LINES: u32 = 40_000;

/// How many blocks a worker names at once.
const NAMED: usize = 64;

/// A block that a worker asked for: its label's number, its owner, and how many words it has.
#[derive(Clone, Copy)]
struct Block {
    label: u32,
    owner: u8,
    words: u32,
}

/// A trace that is being written.
#[derive(Drop)]
struct Writer {
    text: Vec<u8>,
    blocks: Vec<Block>,
    numbers: Numbers,
    labels: u32,
    lines: u32,
}

impl Writer {
    fn word(&mut self, word: &str) -> Result<(), AllocError> {
        self.text.push(b' ')?;
        self.text.extend_from_slice(word.as_bytes())
    }

    fn number(&mut self, number: u64) -> Result<(), AllocError> {
        let mut digits = Buffer::new();
        self.text.push(b' ')?;
        self.text
            .extend_from_slice(digits.format(number).as_bytes())
    }

    fn label(&mut self, label: u32) -> Result<(), AllocError> {
        let mut digits = Buffer::new();
        self.text.extend_from_slice(b" b")?;
        self.text.extend_from_slice(digits.format(label).as_bytes())
    }

    /// The beginning of a line.
    fn begin(&mut self, worker: u8, command: &str) -> Result<(), AllocError> {
        let digit = b'0'.wrapping_add(worker % 10);
        self.text.push(b'w')?;
        self.text.push(digit)?;
        self.word(command)
    }

    fn end(&mut self) -> Result<(), AllocError> {
        self.lines = self.lines.wrapping_add(1);
        self.text.push(b'\n')?;
        Ok(())
    }

    fn tenant(&mut self, tenant: u8) -> Result<(), AllocError> {
        let name = TENANTS[usize::from(tenant) % 4];
        self.word(name)
    }

    /// A line of a command and one number.
    fn line(&mut self, worker: u8, command: &str, number: u64) -> Result<(), AllocError> {
        self.begin(worker, command)?;
        self.number(number)?;
        self.end()
    }

    /// A line of a command and one name.
    fn naming(&mut self, worker: u8, command: &str, name: &str) -> Result<(), AllocError> {
        self.begin(worker, command)?;
        self.word(name)?;
        self.end()
    }

    fn alloc(&mut self, worker: u8, number: u64) -> Result<(), AllocError> {
        let words = match number & 3 {
            0 => 1 + (number >> 8 & 63) as u32,
            _ => 1 + (number >> 8 & 7) as u32,
        };
        let block = Block {
            label: self.labels,
            owner: (number >> 16 & 3) as u8,
            words,
        };
        self.labels = self.labels.wrapping_add(1);
        self.begin(worker, "alloc")?;
        self.tenant(block.owner)?;
        self.word("main")?;
        self.number(8 * u64::from(words))?;
        self.word("as")?;
        self.label(block.label)?;
        self.end()?;
        let at = usize::from(worker) * NAMED + (number >> 24) as usize % NAMED;
        let old = match self.blocks.get_mut(at) {
            Some(slot) => {
                let old = *slot;
                *slot = block;
                old
            }
            None => return Ok(()),
        };
        self.free(worker, old, number >> 32)
    }

    /// Frees a block, one in eight elsewhere; one in 32 is read thereafter.
    fn free(&mut self, worker: u8, block: Block, number: u64) -> Result<(), AllocError> {
        let is_elsewhere = number & 7 == 0;
        let at = match is_elsewhere {
            true => worker.wrapping_add(1) % 4,
            false => worker,
        };
        self.begin(at, "free")?;
        self.tenant(block.owner)?;
        self.label(block.label)?;
        self.end()?;
        if is_elsewhere {
            self.begin(at, "deliver")?;
            self.end()?;
        }
        if number & 31 == 1 {
            self.touch(worker, block, number >> 5)?;
        }
        if number & 127 == 2 {
            for segment in 0..4u8 {
                self.line(worker, "take", u64::from(worker) + 4 * u64::from(segment))?;
            }
        }
        Ok(())
    }

    /// A read or a write of a word.
    fn touch(&mut self, worker: u8, block: Block, number: u64) -> Result<(), AllocError> {
        let actor = match number & 7 {
            0 => (number >> 8 & 3) as u8,
            _ => block.owner,
        };
        let index = ((number >> 16) % (u64::from(block.words) + 1)) as u32;
        let is_read = number >> 3 & 1 == 0;
        self.begin(worker, if is_read { "read" } else { "write" })?;
        self.tenant(actor)?;
        self.label(block.label)?;
        self.number(u64::from(index))?;
        if !is_read {
            self.number(number >> (number >> 58))?;
        }
        self.end()
    }

    /// What comes seldom.
    fn seldom(&mut self, worker: u8, number: u64) -> Result<(), AllocError> {
        let tenant = TENANTS[(number >> 8) as usize & 3];
        let segment = u64::from(worker) + 4 * (number >> 16 & 3);
        match number & 15 {
            0 => self.naming(worker, "list", tenant),
            1 => {
                self.line(worker, "abandon", segment)?;
                self.naming(worker, "refill", "main")
            }
            2 => self.naming(worker, "refill", "nowhere"),
            3..5 => {
                self.begin(worker, "collect")?;
                self.end()
            }
            5..10 => {
                self.begin(worker, "look")?;
                self.word(tenant)?;
                self.number(segment)?;
                self.text.extend_from_slice(b".0.")?;
                let mut digits = Buffer::new();
                let index = number >> 24 & 63;
                self.text
                    .extend_from_slice(digits.format(index).as_bytes())?;
                self.end()
            }
            10..13 => {
                self.begin(worker, "alloc")?;
                self.word(STRANGER)?;
                self.word("main")?;
                self.number(number >> 24 & 4_095)?;
                self.end()
            }
            _ => {
                self.begin(worker, "alloc")?;
                self.word("bob")?;
                self.word("vault")?;
                self.number(number >> 24 & 4_095)?;
                self.text.extend_from_slice(b"  # isn't admitted")?;
                self.end()
            }
        }
    }

    fn turn(&mut self) -> Result<(), AllocError> {
        let number = self.numbers.next();
        let worker = (number >> 56 & 3) as u8;
        match number & 63 {
            0..20 => self.alloc(worker, number >> 6),
            20..61 => {
                let at = usize::from(worker) * NAMED + (number >> 6) as usize % NAMED;
                match self.blocks.get(at).copied() {
                    Some(block) => self.touch(worker, block, number >> 12),
                    None => Ok(()),
                }
            }
            61..63 => self.line(worker, "take", u64::from(worker) + 4 * (number >> 8 & 3)),
            _ => self.seldom(worker, number >> 6),
        }
    }

    /// The text of a trace.
    fn write(&mut self, seed: u64) -> Result<(), AllocError> {
        self.numbers = Numbers::new(seed);
        self.text.clear();
        self.labels = 0;
        self.lines = 0;
        for _ in 0..4u8 {
            for worker in 0..4u8 {
                self.naming(worker, "refill", "main")?;
            }
        }
        for at in 0..4 * NAMED {
            let label = self.labels;
            self.labels = label.wrapping_add(1);
            self.begin((at / NAMED) as u8, "alloc")?;
            self.word("alice")?;
            self.word("main")?;
            self.number(64)?;
            self.word("as")?;
            self.label(label)?;
            self.end()?;
            if let Some(slot) = self.blocks.get_mut(at) {
                *slot = Block {
                    label,
                    owner: 0,
                    words: 8,
                };
            }
        }
        for _ in 0..LINES {
            if self.lines >= LINES {
                break;
            }
            self.turn()?;
        }
        Ok(())
    }
}

/// Adds bytes to the digest, eight at a time.
fn tell(digest: &mut Digest, bytes: &[u8]) {
    for piece in bytes.chunks(8) {
        let mut number = 0u64;
        for byte in piece {
            number = number << 8 | u64::from(*byte);
        }
        digest.number(number);
    }
}

/// A writer of traces, with no text.
fn no_text(alloc: Global) -> Result<Writer, anyhow::Error> {
    let mut blocks = Vec::new(alloc);
    for label in 0..4 * NAMED {
        blocks.push(Block {
            label: label as u32,
            owner: 0,
            words: 8,
        })?;
    }
    Ok(Writer {
        text: Vec::new(alloc),
        blocks,
        numbers: Numbers::new(0),
        labels: 0,
        lines: 0,
    })
}

/// So many traces.
pub fn run(alloc: Global, turns: u32, seed: u32, digest: &mut Digest) -> Result<(), anyhow::Error> {
    let mut writer = no_text(alloc)?;
    let mut numbers = Numbers::new(u64::from(seed));
    for _ in 0..turns {
        writer.write(numbers.next())?;
        let mut out = Vec::new(alloc);
        let mut err = Vec::new(alloc);
        let status = run_texts(alloc, POLICY.as_bytes(), &writer.text, &mut out, &mut err);
        if status != Status::Done {
            bail!("a replay failed");
        }
        digest.number(u64::from(status.number()));
        tell(digest, &out);
    }
    Ok(())
}
