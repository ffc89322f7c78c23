//! The options of the commands.
use kat_rules::Kinds;

/// What a search is asked for, or was that made a report: designs of how great a size, how much effort for each condition, how many designs at most, and of which kinds of components.
#[derive(Clone, Copy)]
pub struct SynthOptions {
    pub size: u32,
    pub effort: u32,
    pub designs: u64,
    pub kinds: Kinds,
}

/// What a listing is asked for: designs of how great a size, how many of them at most, and of which kinds of components.
#[derive(Clone, Copy)]
pub struct ListOptions {
    pub size: u32,
    pub designs: u64,
    pub kinds: Kinds,
}

/// What a sample is asked for: which one, and how many lines.
#[derive(Clone, Copy)]
pub struct SampleOptions {
    pub number: u32,
    pub lines: u32,
}

/// What a new replica in a file is asked for: its number, from 1 to 32.
#[derive(Clone, Copy)]
pub struct NodeOptions {
    pub number: u32,
}
