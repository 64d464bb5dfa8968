//! The sizes of a card, and how many of each thing it has at most.

/// The bytes of the longest value of an object.
pub const LONGEST_OBJECT: usize = 16_384;

/// The bytes of the longest command's data, joined from its chain.
pub const LONGEST_COMMAND: usize = 16_640;

/// The bytes that are reserved for the data of a reply: the longest object with what stands around it.
pub const REPLY_BUFFER: usize = 16_400;

/// The number of objects, present or absent, each at its place (SP 800-73-4 part 1, data objects).
pub const OBJECTS: usize = 33;

/// The connections that are open at a time.
pub const CONNECTIONS: usize = 16;

/// The blocks of the largest budget.
pub const MOST_BLOCKS: usize = 2_048;

/// The bytes of a block, in which the budget is counted.
pub const BLOCK: usize = 64;
