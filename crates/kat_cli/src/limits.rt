//! The limits of what a call takes, by their numbers: each is a constant of the crate that keeps it.
use kat_design::{COMPONENT_LIMIT, SIZE_LIMIT};
use kat_node_texts::PACKETS_LIMIT;
use kat_num::{NAME_LIMIT, NUMBER_LIMIT};
use kat_sample::SAMPLE_LIMIT;
use kat_script::{CALL_LIMIT, LINE_LIMIT, PACKET_LIMIT, REPLICA_LIMIT, TIME_LIMIT};
use kat_step::SUM_LIMIT;

// of every text: the bytes of a word or name, and a number as it is written
const _: () = prove!(NAME_LIMIT == 15);

const _: () = prove!(NUMBER_LIMIT == 1_000_000_000_000);

// of a design: its components, and their nodes with those of its queries
const _: () = prove!(COMPONENT_LIMIT == 8);

const _: () = prove!(SIZE_LIMIT == 64);

// of a script: its replicas, the names of its packets, a time, its lines, and the operations and queries that it may call
const _: () = prove!(REPLICA_LIMIT == 32);

const _: () = prove!(PACKET_LIMIT == 32);

const _: () = prove!(TIME_LIMIT == 1_000_000_000);

const _: () = prove!(LINE_LIMIT == 100_000);

const _: () = prove!(CALL_LIMIT == 12);

// of a replica in a file: the packets of a step, and a sum
const _: () = prove!(PACKETS_LIMIT == 30);

const _: () = prove!(SUM_LIMIT == 1_000_000_000_000_000_000);

// of `sample`: the lines that are drawn
const _: () = prove!(SAMPLE_LIMIT == 90_000);
