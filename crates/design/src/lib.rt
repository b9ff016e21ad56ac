// What a text's lines say: the design, by its lines' fields and by a desk's arrays, and the faults 4 to 7. Definitions and laws;
// the code that finds the faults and fills the arrays is in the crates table_check, line_check, action_check and loader.

#![tactic(auto)]

// How many lines of kinds 1, 2, 3, 4 and 8 a text has. Of kinds 5, 6 and 7 it has one each, before that of kind 8.
#[derive(Clone, Copy, Default)]
pub struct Counts {
    pub kind1: usize,
    pub kind2: usize,
    pub kind3: usize,
    pub kind4: usize,
    pub kind8: usize,
}

// Lines one after the other: the first by its number, and how many there are.
#[derive(Clone, Copy)]
pub struct Section {
    pub first: u8,
    pub count: u8,
}

// A process among the lines: its parameters and its rows.
#[derive(Clone, Copy)]
pub struct Process {
    pub parameters: Section,
    pub rows: Section,
}

// Where the lines of a design stand: those of the implementation and of the specification, the three after them, and that of the marks,
// if there is one.
#[derive(Clone, Copy)]
pub struct Shape {
    pub implementation: Process,
    pub specification: Process,
    pub invariant: u8,
    pub mapping: u8,
    pub measure: u8,
    pub marks: Section,
}
