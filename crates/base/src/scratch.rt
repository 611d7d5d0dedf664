// The regions of the 32-bit scratch, n slots each: a region's first slot is its number times n (specs/Scratch). The marks are region 0.
pub const INVERSE: usize = 1;

pub const BLOCKS: usize = 2;

pub const UPPER_CUTS: usize = 3;

pub const LOWER_CUTS: usize = 4;

pub const HEADS: usize = 4;

pub const CURSORS: usize = 4;

pub const LIST: usize = 5;

pub const NODES: usize = 6;

pub const LASTS: usize = 6;

// The regions of the binary64 scratch. The working row is region 0.
pub const Y: usize = 1;

pub const Z: usize = 2;
