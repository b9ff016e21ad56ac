// What is read off a desk's arrays before any state is looked at: whether the counts of lines fit, where the lines of a design stand
// (`Shape`), where a line starts, the sizes and initial values of parameters, how many states there are, and the number of the initial
// state. Every function answers any arrays and any counts. Which design they hold is in the crate design.
#![tactic(auto)]

ghost use Rattle.std.specs.Prelude.{◌≡◌, ◌+◌, ◌*◌, ◌≤◌, ◌<◌, min, get_or, drop};
ghost use Rattle.design.specs.Loaded.{line_from};
ghost use Rattle.layout.specs.Lines.{no_lines};
ghost use Rattle.layout.specs.Sizes.{counts_fit, sections_of, shape_of, product_up_to, state_count_in, number_up_to, initial_number_in};

use design::{Counts, Process, Section, Shape};

// The lines in a desk's arrays: the fields of all, one after the other, and where each line starts among them.
#[derive(Clone, Copy)]
pub struct Lines {
    pub fields: limits::Fields,
    pub starts: limits::Starts,
}

// Such lines where they stand, to be looked at: those of a desk, or the two arrays that C lends.
#[derive(Clone, Copy)]
pub struct Lent<'a> {
    pub fields: &'a limits::Fields,
    pub starts: &'a limits::Starts,
}

// One more than the most states that a design may have: a count that says "too many".
pub const TOO_MANY: u32 = limits::MAX_STATES as u32 + 1;

// The largest number of a state.
pub const LAST_NUMBER: u32 = limits::MAX_STATES as u32 - 1;

// Whether there are no more lines of kinds 1 to 4, and of kind 8, than a text may have.
pub fn counts_fit(counts: Counts) -> bool
    ensures { result ≡ counts_fit counts }
{
    (counts.kind1 <= limits::MAX_PARAMETERS)
        & ((counts.kind2 <= limits::MAX_PARAMETERS)
            & ((counts.kind3 <= limits::MAX_ROWS)
                & ((counts.kind4 <= limits::MAX_ROWS) & (counts.kind8 <= 1))))
}

// Where the lines stand: of n and m parameters, k and l rows, the three lines after them, and j of marks.
fn sections(n: u8, m: u8, k: u8, l: u8, j: u8) -> Shape
    requires { n + m + k + l ≤ 80 }
    ensures { result ≡ sections_of n m k l j }
{
    let rows = n + m;
    let others = rows + k;
    let invariant = others + l;
    Shape {
        implementation: Process {
            parameters: Section { first: 0, count: n },
            rows: Section {
                first: rows,
                count: k,
            },
        },
        specification: Process {
            parameters: Section { first: n, count: m },
            rows: Section {
                first: others,
                count: l,
            },
        },
        invariant,
        mapping: invariant + 1,
        measure: invariant + 2,
        marks: Section {
            first: invariant + 3,
            count: j,
        },
    }
}

// The shape of a design with these counts where they fit, and else that of no lines.
pub fn shape_of(counts: Counts) -> Shape
    ensures { result ≡ shape_of counts }
{
    if !counts_fit(counts) {
        return sections(0, 0, 0, 0, 0);
    }
    sections(
        counts.kind1 as u8,
        counts.kind2 as u8,
        counts.kind3 as u8,
        counts.kind4 as u8,
        counts.kind8 as u8,
    )
}

// Field k of the line that starts at a place, the kind being field 0.
pub fn field_of(fields: &limits::Fields, line: u16, k: u16) -> u16
    ensures { result ≡ get_or (drop line fields.now) k 0 }
{
    terms::field(fields, line as usize + k as usize)
}

// v * z + x, but no more than `most`.
pub fn onward(v: u32, z: u16, x: u16, most: u32) -> u32
    ensures { result ≡ min (v * z + x) most }
{
    let w = v as u64 * z as u64 + x as u64;
    w.min(most as u64) as u32
}

impl Lines {
    // No lines: zeros. A derived `Default` would say less (only of each field by itself), and one by hand be this under another name.
    pub fn none() -> Lines
        ensures { result ≡ no_lines }
    {
        Lines {
            fields: [0u16; limits::MAX_FIELDS],
            starts: [0u16; limits::STARTS],
        }
    }
}

impl<'a> Lent<'a> {
    // Where line i starts among the fields, and 0 past the last line.
    pub fn line(self, i: usize) -> u16
        ensures { result ≡ get_or self.entry.starts.now i 0 }
    {
        let starts = self.starts;
        terms::field(starts, i)
    }

    // Field k of line i, the kind being field 0.
    pub fn field(self, i: usize, k: u16) -> u16
        ensures { result ≡ get_or (line_from self.entry.fields.now self.entry.starts.now i) k 0 }
    {
        field_of(self.fields, self.line(i), k)
    }

    // The size of the parameter in line i.
    pub fn size(self, i: usize) -> u16
        ensures { result ≡ get_or (line_from self.entry.fields.now self.entry.starts.now i) 1 0 }
    {
        self.field(i, 1)
    }

    // The initial value of the parameter in line i.
    pub fn initial(self, i: usize) -> u16
        ensures { result ≡ get_or (line_from self.entry.fields.now self.entry.starts.now i) 2 0 }
    {
        self.field(i, 2)
    }

    // How many states there are, and `TOO_MANY` where there are more than a design may have; 0 where the counts do not fit.
    pub fn state_count(self, counts: Counts) -> usize
        ensures { result ≡ state_count_in self.entry.fields.now self.entry.starts.now counts }
    {
        if counts_fit(counts) {
            self.product(counts.kind1) as usize
        } else {
            0
        }
    }

    // The product of the first n sizes, but no more than `TOO_MANY`.
    fn product(self, n: usize) -> u32
        ensures { result ≡ product_up_to self.entry.fields.now self.entry.starts.now n }
    {
        let mut p = 1;
        for i in 0..n {
            p = onward(p, self.size(i), 0, TOO_MANY);
        }
        p
    }

    // The number of the initial state, where it is at most `LAST_NUMBER`, and else that; 0 where the counts do not fit.
    pub fn initial_number(self, counts: Counts) -> u16
        ensures { result ≡ initial_number_in self.entry.fields.now self.entry.starts.now counts }
    {
        if counts_fit(counts) {
            self.number(counts.kind1) as u16
        } else {
            0
        }
    }

    // The number of the first n initial values, but no more than `LAST_NUMBER`. It starts from, adds and stops at something else than
    // `product`: one loop with these three as parameters would be no plainer.
    fn number(self, n: usize) -> u32
        ensures { result ≡ number_up_to self.entry.fields.now self.entry.starts.now n }
    {
        let mut v = 0;
        for i in 0..n {
            v = onward(v, self.size(i), self.initial(i), LAST_NUMBER);
        }
        v
    }
}
