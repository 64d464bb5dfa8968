// The sizes and places of the directory and of the blocks.
use piv_model::limits::{BLOCK, LONGEST_OBJECT, MOST_BLOCKS, OBJECTS};

// Where the numbers of the next blocks stand in a directory, behind two numbers for each object.
pub(crate) const NEXTS: usize = 4 * OBJECTS;

// A directory, with a number of two bytes for each block.
pub(crate) const DIRECTORY: usize = NEXTS + 2 * MOST_BLOCKS;

// Where the blocks stand: the first multiple of 64 behind a selector byte and two directories.
pub(crate) const FIRST_BLOCK: usize = 8_768;

// The blocks of the longest object.
pub(crate) const MOST_PARTS: usize = LONGEST_OBJECT / BLOCK;
