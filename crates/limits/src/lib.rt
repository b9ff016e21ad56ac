// The limits of a design text (01, "Design text", "Turned down by the input"): each number stands here once for code, and once in
// specs/Limits for definitions. Code is proved against definitions, so a number that moves on one side alone is refused.

#![tactic(auto)]

// A text's bytes, a line's fields and a text's fields.
pub const MAX_BYTES: usize = 28672;

pub const MAX_LINE_FIELDS: usize = 256;

pub const MAX_FIELDS: usize = 4096;

// The depth of a term.
pub const MAX_DEPTH: usize = 32;

// The parameters and the rows of a process, and its row's sum values.
pub const MAX_PARAMETERS: usize = 8;

pub const MAX_ROWS: usize = 32;

pub const MAX_SPAN: u16 = 256;

// The states of the implementation.
pub const MAX_STATES: usize = 65536;

// The lines of a text: those of two processes, and invariant, mapping, measure and marks.
pub const MAX_LINES: usize = 2 * MAX_PARAMETERS + 2 * MAX_ROWS + 4;

// A start for each line, and the end of the last.
pub const STARTS: usize = MAX_LINES + 1;

// The fields of a text's lines, and where each line starts; a state's values, 0 past its last parameter.
pub type Fields = [u16; MAX_FIELDS];

pub type Starts = [u16; STARTS];

pub type Values = [u16; MAX_PARAMETERS];
