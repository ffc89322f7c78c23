//! How a line that keeps the rules changes the ledger.
ghost use Rattle.std.specs.Prelude.{◌≡◌, ◌+◌, ◌-◌, ◌<◌, ◌≤◌, ◌^◌, ℕ, true, false, max, replicate, slice_set, length, OnOk};
ghost use Rattle.std.specs.List.{slice_index_or};
ghost use Rattle.kat_type.specs.declared.signatures.Signature.{Signature};
ghost use Rattle.kat_script.specs.Rules.{is_no_replica, is_one_too_many, is_past_limit, is_replica, packet_of};
ghost use Rattle.kat_script.specs.World.{put};
ghost use Rattle.kat_script.specs.Script.{Place, behind};
ghost use Rattle.kat_script.specs.Ledger.{Changes, Matches, known_of, packet_in, sent_of, shipped};

use crate::ledger::{Ledger, Shipped};
use crate::rules::{LINE_LIMIT, REPLICA_LIMIT};
use crate::said::Said;
use std::alloc::{AllocError, Global};

/// The ledger after a line that names the packet of this number.
pub fn advance(
    alloc: Global,
    ledger: &mut Ledger,
    said: &Said,
    packet: usize,
) -> Result<(), AllocError>
    requires packet { packet ≡ packet_in (known_of ledger.old) said.now }
    requires replica { is_no_replica (known_of ledger.old) said.now ≡ false }
    requires within { is_past_limit (known_of ledger.old) said.now ≡ false }
    requires room { ledger.old.lines < LINE_LIMIT }
    ensures { OnOk result ((sig : Signature) (place : Place) → Matches ledger.old place → Matches ledger.new (behind sig place said.now)) }
{
    change(alloc, ledger, said, packet)?;
    ledger.lines += 1;
    Ok(())
}

/// What a line changes, except for the number of lines.
fn change(alloc: Global, ledger: &mut Ledger, said: &Said, packet: usize) -> Result<(), AllocError>
    requires packet { packet ≡ packet_in (known_of ledger.old) said.now }
    requires replica { is_no_replica (known_of ledger.old) said.now ≡ false }
    requires within { is_past_limit (known_of ledger.old) said.now ≡ false }
    ensures changes { OnOk result (Changes ledger.old said.now ledger.new) }
    ensures lines { ledger.new.lines ≡ ledger.old.lines }
{
    match said {
        Said::Replicas(n) => open(alloc, ledger, *n),
        Said::Does { replica, time, .. } => {
            let time = ledger.small_time(*replica, *time);
            set_clock(ledger, *replica, time);
            Ok(())
        }
        Said::Ships {
            replica,
            packet: word,
        } => {
            let clock = ledger.clock_of(*replica);
            ship(ledger, *word, packet, clock)
        }
        Said::Delivers { replica, .. } => {
            let clock = ledger.clock_of(*replica).max(sent(ledger, packet));
            set_clock(ledger, *replica, clock);
            Ok(())
        }
        Said::Asks { .. } | Said::Shows { .. } => Ok(()),
    }
}

/// This many replicas, each with clock 0.
fn open(alloc: Global, ledger: &mut Ledger, replicas: u64) -> Result<(), AllocError>
    requires { replicas ≤ REPLICA_LIMIT }
    ensures clocks { OnOk result (ledger.new.clocks.items ≡ replicate replicas 0) }
    ensures packets { ledger.new.packets.items ≡ ledger.old.packets.items }
    ensures lines { ledger.new.lines ≡ ledger.old.lines }
{
    ledger.clocks = vec![in alloc; 0; replicas as usize]?;
    Ok(())
}

fn set_clock(ledger: &mut Ledger, replica: u64, clock: u64)
    requires { is_replica (known_of ledger.old) replica ≡ true }
    ensures clocks { ledger.new.clocks.items ≡ slice_set ledger.old.clocks.items (replica - 1) clock }
    ensures packets { ledger.new.packets.items ≡ ledger.old.packets.items }
    ensures lines { ledger.new.lines ≡ ledger.old.lines }
{
    ledger.clocks[replica as usize - 1] = clock;
}

/// The clock of the packet of this number, 0 if there is none.
fn sent(ledger: &Ledger, packet: usize) -> u64
    ensures { result ≡ slice_index_or (sent_of ledger.now.packets.items) packet 0 }
{
    match ledger.packets.get(packet) {
        Some(shipped) => shipped.clock,
        None => 0,
    }
}

/// Puts the packet of this number in place of what its word had, or after the others if the word is new.
fn ship(ledger: &mut Ledger, word: u128, packet: usize, clock: u64) -> Result<(), AllocError>
    requires number { packet ≡ packet_of (known_of ledger.old) word }
    requires room { is_one_too_many (known_of ledger.old) word ≡ false }
    ensures packets { OnOk result (ledger.new.packets.items ≡ put ledger.old.packets.items packet (shipped word clock)) }
    ensures clocks { ledger.new.clocks.items ≡ ledger.old.clocks.items }
    ensures lines { ledger.new.lines ≡ ledger.old.lines }
{
    let shipped = Shipped { word, clock };
    if packet < ledger.packets.len() {
        ledger.packets[packet] = shipped;
    } else {
        ledger.packets.push(shipped)?;
    }
    Ok(())
}
