//! The commands of a script, as they are drawn.
ghost use Rattle.std.specs.Prelude.{◌≡◌, ◌<◌, ◌++◌, IfOk, OnOk, map};
ghost use Rattle.std.specs.List.{flat_map};
ghost use Rattle.kat_sample.specs.Commands.{all_replicas, command_of, commands, deliveries_to, asks_at, replica_of, ships, thing_of};
ghost use Rattle.kat_sample.specs.Draws.{draws};

use crate::draws::{drawn, next};
use kat_num::code_of;
use std::alloc::{AllocError, Global};

/// A line of the script without its time: replicas are numbered from 1, and each ships packets of a word of its own; a thing is
/// the code of its name.
#[derive(Clone, Copy, Debug, PartialEq, Eq)]
pub enum Command {
    /// A replica adds a thing so often.
    Add {
        replica: u32,
        thing: u128,
        amount: u32,
    },
    /// A replica ships what it holds.
    Ship {
        replica: u32,
    },
    /// What one replica shipped last is delivered to a replica.
    Deliver {
        sender: u32,
        replica: u32,
    },
    /// A replica is asked how often a thing was added.
    Ask {
        replica: u32,
        thing: u128,
    },
}

/// The replica at which a command happens.
pub(crate) fn replica_of(command: Command) -> u32
    ensures { result ≡ replica_of command }
{
    match command {
        Command::Add { replica, .. } => replica,
        Command::Ship { replica } => replica,
        Command::Deliver { replica, .. } => replica,
        Command::Ask { replica, .. } => replica,
    }
}

/// The thing with this number: its name is a letter, from `a` on.
fn thing_of(number: u32) -> u128
    requires { number < 8 }
    ensures { result ≡ thing_of number }
{
    code_of(&[b'a' + number as u8])
}

/// The command that is drawn with a number.
fn command_of(draw: u32) -> Command
    ensures { result ≡ command_of draw }
{
    let replica = draw / 8 % 3 + 1;
    let thing = thing_of(draw / 24 % 8);
    let kind = draw % 8;
    if kind < 5 {
        let amount = draw / 192 % 10;
        Command::Add {
            replica,
            thing,
            amount,
        }
    } else if kind == 5 {
        Command::Ship { replica }
    } else if kind == 6 {
        let sender = draw / 24 % 3 + 1;
        Command::Deliver { sender, replica }
    } else {
        Command::Ask { replica, thing }
    }
}

/// All commands of a script: each replica ships; this many commands are drawn; each replica ships, is given what all of them
/// shipped, and is asked for every count.
pub(crate) fn commands(alloc: Global, seed: u32, lines: u32) -> Result<Vec<Command>, AllocError>
    ensures { IfOk result (λ all. all.items ≡ commands seed lines) }
{
    let mut all = Vec::new(alloc);
    push_ships(&mut all)?;
    push_drawn(&mut all, seed, lines)?;
    push_end(&mut all)?;
    Ok(all)
}

/// Appends the commands at the end of a script.
fn push_end(all: &mut Vec<Command>) -> Result<(), AllocError>
    ensures { OnOk result (all.new.items ≡ all.old.items ++ ships ++ flat_map deliveries_to all_replicas ++ flat_map asks_at all_replicas) }
{
    push_ships(all)?;
    push_deliveries(all)?;
    push_asks(all)
}

/// Appends so many commands that are drawn, from a number on.
fn push_drawn(all: &mut Vec<Command>, seed: u32, lines: u32) -> Result<(), AllocError>
    ensures { OnOk result (all.new.items ≡ all.old.items ++ map command_of (draws seed lines)) }
{
    let mut x = seed;
    'draws: for _ in 0..lines {
        x = next(x);
        all.push(command_of(drawn(x)))?;
    }
    Ok(())
}

/// Appends a shipment of each replica.
fn push_ships(all: &mut Vec<Command>) -> Result<(), AllocError>
    ensures { OnOk result (all.new.items ≡ all.old.items ++ ships) }
{
    all.extend_from_slice(&[
        Command::Ship { replica: 1 },
        Command::Ship { replica: 2 },
        Command::Ship { replica: 3 },
    ])
}

/// Appends the deliveries to each replica of what all of them shipped.
fn push_deliveries(all: &mut Vec<Command>) -> Result<(), AllocError>
    ensures { OnOk result (all.new.items ≡ all.old.items ++ flat_map deliveries_to all_replicas) }
{
    push_deliveries_to(all, 1)?;
    push_deliveries_to(all, 2)?;
    push_deliveries_to(all, 3)
}

/// Appends the deliveries to a replica of what all of them shipped.
fn push_deliveries_to(all: &mut Vec<Command>, replica: u32) -> Result<(), AllocError>
    ensures { OnOk result (all.new.items ≡ all.old.items ++ deliveries_to replica) }
{
    all.extend_from_slice(&[
        Command::Deliver { sender: 1, replica },
        Command::Deliver { sender: 2, replica },
        Command::Deliver { sender: 3, replica },
    ])
}

/// Appends the asks for every count at each replica.
fn push_asks(all: &mut Vec<Command>) -> Result<(), AllocError>
    ensures { OnOk result (all.new.items ≡ all.old.items ++ flat_map asks_at all_replicas) }
{
    push_asks_at(all, 1)?;
    push_asks_at(all, 2)?;
    push_asks_at(all, 3)
}

/// Appends the asks for every count at a replica.
fn push_asks_at(all: &mut Vec<Command>, replica: u32) -> Result<(), AllocError>
    ensures { OnOk result (all.new.items ≡ all.old.items ++ asks_at replica) }
{
    all.extend_from_slice(&[
        ask(replica, 0),
        ask(replica, 1),
        ask(replica, 2),
        ask(replica, 3),
        ask(replica, 4),
        ask(replica, 5),
        ask(replica, 6),
        ask(replica, 7),
    ])
}

/// The ask for the count of a thing by its number.
fn ask(replica: u32, number: u32) -> Command
    requires { number < 8 }
    ensures { result ≡ Command.Ask replica (thing_of number) }
{
    Command::Ask {
        replica,
        thing: thing_of(number),
    }
}
