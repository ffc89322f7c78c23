//! The script of drawn commands.
ghost use Rattle.std.specs.Prelude.{◌≡◌, ◌<◌, ◌≤◌, ◌++◌, ◌∷◌, [], IfOk, OnOk, length};
ghost use Rattle.kat_sample.specs.Carts.{cart};
ghost use Rattle.kat_sample.specs.Clocks.{clock_at, kept, times_after};
ghost use Rattle.kat_sample.specs.Commands.{replica_of};
ghost use Rattle.kat_sample.specs.Scripts.{line_at, lines_from, sample_script};
ghost use Rattle.kat_script.specs.Judged.{IsJudged};
ghost use Rattle.kat_script.specs.World.{first_world};
ghost use Rattle.kat_type.specs.Signatures.{signature_of};

use crate::clocks::Clocks;
use crate::commands::{Command, commands, replica_of};
use kat_num::{Items, Value};
use kat_script::{Line, Script, TIME_LIMIT};
use kat_type::Done;
use std::alloc::{AllocError, Global};

/// How many commands are drawn at most.
pub const SAMPLE_LIMIT: u32 = 90_000;

/// A script for [`cart`](crate::cart) with so many commands that are drawn from a number on, and then the same end for all: each
/// replica absorbs what all three did, and is asked for every count.
///
/// The generator is that of the C standard's example, so anyone can draw the same commands from the number again. The script is
/// judged good for the cart's signature.
pub fn sample(alloc: Global, seed: u32, lines: u32) -> Result<Script, AllocError>
    requires { lines ≤ SAMPLE_LIMIT }
    ensures script { IfOk result (λ script. script ≡ sample_script seed lines) }
    ensures judged { IfOk result (λ script. IsJudged (signature_of cart) script) }
{
    let commands = commands(alloc, seed, lines)?;
    let lines = lines_of(alloc, &commands)?;
    Ok(Script {
        replicas: 3,
        packets: 3,
        lines: Items::from_vec(lines),
    })
}

/// The lines of commands, from the start of three replicas on.
fn lines_of(alloc: Global, commands: &[Command]) -> Result<Vec<Line>, AllocError>
    requires { length commands.now ≤ 100_000 }
    ensures { IfOk result (λ lines. lines.items ≡ lines_from (first_world 3) commands.now) }
{
    let mut clocks = Clocks::new(alloc)?;
    let mut lines = Vec::new(alloc);
    'commands: for command in commands {
        push_line(alloc, *command, &mut clocks, &mut lines)?;
    }
    Ok(lines)
}

/// Appends the line of a command, and does what it says.
fn push_line(
    alloc: Global,
    command: Command,
    clocks: &mut Clocks,
    lines: &mut Vec<Line>,
) -> Result<(), AllocError>
    requires { clock_at (kept clocks.old) (replica_of command) < TIME_LIMIT }
    ensures line { OnOk result (lines.new.items ≡ lines.old.items
        ++ line_at (clock_at (kept clocks.old) (replica_of command)) command ∷ []) }
    ensures clocks { OnOk result (kept clocks.new ≡ times_after (kept clocks.old) command) }
{
    let clock = clocks.of(replica_of(command));
    lines.push(line_of(alloc, clock, command)?)?;
    clocks.follow(command)
}

/// The line of a command, at a replica with this clock.
fn line_of(alloc: Global, clock: u64, command: Command) -> Result<Line, AllocError>
    requires { clock < TIME_LIMIT }
    ensures { IfOk result (λ line. line ≡ line_at clock command) }
{
    match command {
        Command::Add {
            replica,
            thing,
            amount,
        } => {
            let args = vec![in alloc; Value::Name(thing), Value::Num(i128::from(amount))]?;
            Ok(Line::Do(Done {
                replica,
                time: clock + 1,
                op: 0,
                args: Items::from_vec(args),
            }))
        }
        Command::Ship { replica } => Ok(Line::Ship {
            replica,
            packet: replica.saturating_sub(1),
        }),
        Command::Deliver { sender, replica } => Ok(Line::Deliver {
            packet: sender.saturating_sub(1),
            replica,
        }),
        Command::Ask { replica, thing } => {
            let args = vec![in alloc; Value::Name(thing)]?;
            Ok(Line::Ask {
                replica,
                query: 0,
                args: Items::from_vec(args),
            })
        }
    }
}
