// How long records are: the bytes that they take, and the lengths that C1 and E1 tell.
use crate::{at, width};

// A section. A and E have one, a C has two at least.
pub const SECTION: usize = 128;

pub const A: usize = SECTION;

pub const E: usize = SECTION;

// The parts that a payment can have at the most.
pub const MOST_PARTS: usize = 15;

// The bytes that a payment takes at the least.
pub const SHORTEST_C: usize = 2 * SECTION;

// The bytes that a payment takes at the most.
pub const LONGEST_C: usize = 6 * SECTION;

// What C1 tells: the fields that every C has, and its parts, without the blanks that close its sections.
pub const FIELDS_TOLD: u64 = at::PARTS as u64;

pub const PART_TOLD: u64 = width::PART as u64;

pub const MOST_TOLD: u64 = FIELDS_TOLD + PART_TOLD * MOST_PARTS as u64;

// What E1 tells.
pub const END_TOLD: u64 = E as u64;
