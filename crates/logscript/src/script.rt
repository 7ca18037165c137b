// A script: which log, what stands in its store at first, and the commands.
ghost use Rattle.std.specs.Prelude.{◌<◌, ◌≤◌, IfOk};

use super::command::Command;
use block_address::Address;
use member_store::{BLOCK_BYTES, MemberStore};
use memory_store::memory::MemoryStore;
use program_parts::line_error::{LineError, NoForm};
use program_parts::log_kind::LogKind;
use program_parts::zeros::zeros;
use std::alloc::{AllocError, Global};
use std::str::{FromStr, SplitWhitespace};

/// The most members, and the most blocks of one.
const MOST_COUNT: usize = 64;

/// The first line of a script: `ring MEMBERS BLOCKS` or `flag MEMBERS BLOCKS`.
#[derive(Clone, Copy)]
pub struct Head {
    kind: LogKind,
    members: usize,
    blocks: usize,
    ghost some_members: { 0 < members },
    ghost some_blocks: { 0 < blocks },
    ghost few_members: { members ≤ 64 },
    ghost few_blocks: { blocks ≤ 64 },
}

#[derive(Drop)]
pub struct Script {
    pub kind: LogKind,
    pub buffered: bool,
    /// The log's store.
    pub memory: MemoryStore,
    pub commands: Vec<Command>,
    /// What each power-on sets the fuse to, in order.
    pub settings: Vec<Option<usize>>,
    // the setting that the next power-on takes
    cut: Option<usize>,
}

impl FromStr for Head {
    type Err = NoForm;

    fn from_str(line: &str) -> Result<Head, NoForm> {
        let mut words = line.split_whitespace();
        let kind = words.next().ok_or(NoForm)?.parse()?;
        let members = count(words.next())?;
        let blocks = count(words.next())?;
        if words.next().is_some() {
            return Err(NoForm);
        }
        Ok(Head {
            kind,
            members,
            blocks,
        })
    }
}

fn count(word: Option<&str>) -> Result<usize, NoForm>
    ensures { IfOk result (λ n. (0 < n) × (n ≤ 64)) }
{
    match word.ok_or(NoForm)?.parse() {
        Ok(n) if n >= 1 && n <= MOST_COUNT => Ok(n),
        _ => Err(NoForm),
    }
}

// The byte that two digits give.
fn byte_of(digits: [u8; 2]) -> Result<u8, NoForm> {
    let [high, low] = digits.map(|digit| char::from(digit).to_digit(16));
    let (high, low) = (high.ok_or(NoForm)?, low.ok_or(NoForm)?);
    Ok((high << 4 | low) as u8)
}

// The block that begins with the bytes that two digits each give, and has zeros behind them.
fn block_of(hex: &str) -> Result<[u8; BLOCK_BYTES], NoForm> {
    let (pairs, rest) = hex.as_bytes().as_chunks::<2>();
    if !rest.is_empty() || pairs.len() > BLOCK_BYTES {
        return Err(NoForm);
    }
    let mut block = [0u8; BLOCK_BYTES];
    for (byte, digits) in block.iter_mut().zip(pairs) {
        *byte = byte_of(*digits)?;
    }
    Ok(block)
}

impl Script {
    /// A script that begins so, with no commands yet.
    pub fn new(heap: Global, head: Head) -> Result<Script, AllocError> {
        Ok(Script {
            kind: head.kind,
            buffered: false,
            memory: zeros(heap, head.members, head.blocks)?.ok_or(AllocError)?,
            commands: Vec::new(heap),
            settings: Vec::new(heap),
            cut: None,
        })
    }

    // `SLOT HEX`: bytes for the front of a slot's block.
    fn take_raw(&mut self, mut words: SplitWhitespace) -> Result<(), NoForm> {
        let (Some(slot), Some(hex), None) = (words.next(), words.next(), words.next()) else {
            return Err(NoForm);
        };
        let slot = slot.parse::<usize>().ok().ok_or(NoForm)?;
        let members = self.memory.members().max(1);
        let at = Address {
            member: slot % members,
            block: slot / members,
        };
        self.memory.store(at, &block_of(hex)?).ok().ok_or(NoForm)
    }

    // Keeps a command, and at a power-on what it sets the fuse to.
    fn push(&mut self, command: Command) -> Result<(), AllocError> {
        match command {
            Command::Cut(left) => self.cut = Some(left),
            Command::PowerOn => self.settings.push(self.cut.take())?,
            _ => {}
        }
        self.commands.push(command)?;
        Ok(())
    }

    /// Takes a line after the first: `buffer` and `raw SLOT HEX` stand before the commands.
    pub fn take_line(&mut self, heap: Global, line: &str) -> Result<(), LineError> {
        let mut words = line.split_whitespace();
        match words.next() {
            Some("buffer") if self.commands.is_empty() && words.next().is_none() => {
                self.buffered = true;
            }
            Some("raw") if self.commands.is_empty() => self.take_raw(words)?,
            _ => self.push(Command::parse(heap, line)?)?,
        }
        Ok(())
    }
}
