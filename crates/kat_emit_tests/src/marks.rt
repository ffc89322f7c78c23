//! The marks of the replicas and packets of a script: of each replica the time of its latest operation that is there.
use crate::scripts::{REPLICAS, push_number};
use kat_script::Line;
use std::alloc::{AllocError, Global};

/// The time of the latest operation of a replica that an owner has. An owner is a replica, by its number, or a packet.
#[derive(Clone, Copy)]
struct Mark {
    owner: u32,
    replica: u32,
    time: u64,
}

/// What is marked, in the order of the script: of two marks of an owner and a replica the later one counts.
pub(crate) struct Marks {
    all: Vec<Mark>,
}

impl Drop for Marks {
    fn drop(self) {
        let Self { all: _ } = self;
    }
}

impl Marks {
    /// No marks.
    pub(crate) fn new(alloc: Global) -> Marks {
        Marks {
            all: Vec::new(alloc),
        }
    }

    /// What a line of the script marks.
    pub(crate) fn note(&mut self, line: &Line) -> Result<(), AllocError> {
        match line {
            Line::Do(done) => self.set(done.replica, done.replica, done.time),
            Line::Ship { replica, packet } => {
                for other in 1..=REPLICAS as u32 {
                    self.set(packet_owner(*packet), other, self.time(*replica, other))?;
                }
                Ok(())
            }
            Line::Deliver { packet, replica } => {
                for other in 1..=REPLICAS as u32 {
                    let told = self.time(packet_owner(*packet), other);
                    if told > self.time(*replica, other) {
                        self.set(*replica, other, told)?;
                    }
                }
                Ok(())
            }
            Line::Ask { .. } | Line::Show { .. } => Ok(()),
        }
    }

    fn set(&mut self, owner: u32, replica: u32, time: u64) -> Result<(), AllocError> {
        self.all.push(Mark {
            owner,
            replica,
            time,
        })?;
        Ok(())
    }

    /// The mark of a replica that an owner has, or 0.
    fn time(&self, owner: u32, replica: u32) -> u64 {
        let mut time = 0;
        for mark in self.all.iter() {
            if mark.owner == owner && mark.replica == replica {
                time = mark.time;
            }
        }
        time
    }

    /// The list of a replica's marks in a text, without its brackets.
    pub(crate) fn listed(&self, alloc: Global, owner: u32) -> Result<String, AllocError> {
        let mut text = String::new(alloc);
        for replica in 1..=REPLICAS as u32 {
            let time = self.time(owner, replica);
            if time > 0 {
                text.push_str(if text.is_empty() { "[" } else { ",[" })?;
                push_number(replica as usize, &mut text)?;
                text.push(',')?;
                push_number(time as usize, &mut text)?;
                text.push(']')?;
            }
        }
        Ok(text)
    }
}

/// A packet as an owner of marks: it comes after the replicas.
fn packet_owner(packet: u32) -> u32 {
    packet.saturating_add(REPLICAS as u32).saturating_add(1)
}
