// Plays the commands of a scenario on an array.
use super::ages::Ages;
use super::answer::Line;
use super::command::Command;
use super::current::CurrentBytes;
use super::show::show;
use array::array::Array;
use array_run::answer::Answer;
use array_run::call::{Call, TokenKind};
use array_run::give_up::give_up_all;
use array_run::run::run;
use array_run::tokens::Tokens;
use geometry::layout::Layout;
use intent_log::IntentLog;
use member_store::BLOCK_BYTES;
use program_parts::side::Side;
use remote_fuse::switch::FuseSwitch;
use std::alloc::{AllocError, Global};
use std::fmt::Write;

/// The switches of the two fuses.
#[derive(Drop)]
pub struct Switches {
    pub members: FuseSwitch,
    pub log: FuseSwitch,
}

impl Switches {
    fn cut(&self, side: Side, count: usize) {
        match side {
            Side::Members => self.members.cut_after(count),
            Side::Log => self.log.cut_after(count),
        }
    }
}

// The call of a command, where it makes one; a write takes its bytes from `fill`, and a give-up is of the newest token.
fn call_of<'a>(command: Command, fill: &'a [u8], newest: Option<TokenKind>) -> Option<Call<'a>> {
    match command {
        Command::Cut(_, _) | Command::Show => None,
        Command::PowerOn => Some(Call::PowerOn),
        Command::Format => Some(Call::Format),
        Command::Open => Some(Call::Open),
        Command::OpenShort(absent) => Some(Call::OpenShort { absent }),
        Command::Step => Some(Call::Step),
        Command::Finish => Some(Call::Finish),
        Command::Write(block, _) => Some(Call::Write { block, bytes: fill }),
        Command::Read(block) => Some(Call::Read {
            block,
            length: BLOCK_BYTES,
        }),
        Command::ReadShort(block) => Some(Call::ReadShort {
            block,
            length: BLOCK_BYTES,
        }),
        Command::Destage => Some(Call::Destage),
        Command::Flush => Some(Call::Flush),
        Command::Close => Some(Call::Close),
        // With no token at all there is none of any kind.
        Command::GiveUp => Some(Call::GiveUp(newest.unwrap_or(TokenKind::Resync))),
    }
}

fn fill_byte(command: Command) -> u8 {
    match command {
        Command::Write(_, fill) => fill,
        _ => 0,
    }
}

/// An array with what a scenario holds of it: its tokens, their kinds by age, and the switches of its fuses.
pub struct Player<S, G, L> {
    array: Array<S, G, L>,
    tokens: Tokens,
    ages: Ages,
    switches: Switches,
}

impl<S: CurrentBytes, G: IntentLog, L: Layout> Player<S, G, L> {
    pub fn new(heap: Global, array: Array<S, G, L>, switches: Switches) -> Player<S, G, L> {
        Player {
            array,
            tokens: Tokens::new(heap),
            ages: Ages::new(heap),
            switches,
        }
    }

    // Makes one call, and follows what it gives and takes.
    fn call(&mut self, heap: Global, call: Call) -> Result<Answer, AllocError> {
        let mut answers = Vec::new(heap);
        run(
            heap,
            &mut self.array,
            &mut self.tokens,
            &[call],
            &mut answers,
        )?;
        let answer = answers.pop().ok_or(AllocError)?;
        self.ages.follow(&call, &answer)?;
        Ok(answer)
    }

    // The answer line of a command.
    fn answer(&mut self, heap: Global, command: Command) -> Result<Line, AllocError> {
        let fill = [fill_byte(command); BLOCK_BYTES];
        if let Some(call) = call_of(command, &fill, self.ages.newest()) {
            return Ok(Line::Told(command, self.call(heap, call)?));
        }
        if let Command::Cut(side, count) = command {
            self.switches.cut(side, count);
            return Ok(Line::Set);
        }
        Ok(Line::Shown(show(&self.array)))
    }

    /// Plays the commands in order, and writes a line for each.
    pub fn play(
        &mut self,
        heap: Global,
        commands: &[Command],
        out: &mut String,
    ) -> Result<(), AllocError> {
        for command in commands {
            let line = self.answer(heap, *command)?;
            writeln!(out, "{line}")?;
        }
        Ok(())
    }

    /// Gives up all tokens that are left.
    pub fn end(self)
    where
        S: Drop,
        G: Drop,
        L: Drop,
    {
        let Player {
            mut array,
            tokens,
            ages: _,
            switches: _,
        } = self;
        give_up_all(&mut array, tokens);
    }
}
