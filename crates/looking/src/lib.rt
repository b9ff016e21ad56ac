// Looking at a design from C, for those who explain a verdict: a text is taken apart into memory of the caller's, and there a term, a state,
// a row or a criterion is asked for. Every function answers any memory. What each tells is in specs/Told, of terms and rows in
// told_terms/specs/Terms and told_rows/specs/Rows, of the design that the arrays hold (design/specs/Loaded): after a text was held, its own
// (proofs/Held).
#![tactic(auto)]

ghost use Rattle.std.specs.Prelude.{◌≡◌, ◌∷◌, drop};
ghost use Rattle.design.specs.Line.{value_in, formula_in, invariant_of, mapping_of, measure_value};
ghost use Rattle.design.specs.Loaded.{line_from, design_at};
ghost use Rattle.layout.specs.Sizes.{shape_of};
ghost use Rattle.loader.specs.Load.{fault_of};
ghost use Rattle.fault_lines.specs.Shows.{Tells};
ghost use Rattle.desk_numbers.specs.Numbers.{counts_told, counts_in};
ghost use Rattle.told_terms.specs.Terms.{value_told, formula_told, values_told};
ghost use Rattle.told_rows.specs.Rows.{told_row};
ghost use Rattle.looking.specs.Told.{arrays_of, state_told, criterion_told};

use design::Counts;
use desk_numbers::Tally;
use layout::{Lent, Lines};
use told_rows::RowPlaces;
use told_terms::Places;

// What is told of a state: invariant and measure, and then the mapped values.
type StatePlaces = [u32; 2 + limits::MAX_PARAMETERS];

// ---- a text taken apart

// For C: the number of a text's lowest fault, or 0; and the arrays that hold it, zeros where it has one.
pub fn hold_design(
    text: &[u8],
    fields: &mut limits::Fields,
    starts: &mut limits::Starts,
    counts: &mut Tally,
) -> u32
    ensures value { result ≡ fault_of text.now }
    ensures fields_after { fields.new ≡ (arrays_of text.now).lines.fields }
    ensures starts_after { starts.new ≡ (arrays_of text.now).lines.starts }
    ensures counts_after { counts.new ≡ counts_told (arrays_of text.now).counts }
{
    match loader::load(text) {
        Ok(loaded) => {
            put(&loaded.lines, loaded.counts, fields, starts, counts);
            0
        }
        Err(fault) => {
            let nothing = desk_numbers::counts_in([0; 5]);
            put(&Lines::none(), nothing, fields, starts, counts);
            fault.number() as u32
        }
    }
}

// Writes lines and counts there.
fn put(
    lines: &Lines,
    held: Counts,
    fields: &mut limits::Fields,
    starts: &mut limits::Starts,
    counts: &mut Tally,
)
    ensures fields_after { fields.new ≡ lines.now.fields }
    ensures starts_after { starts.new ≡ lines.now.starts }
    ensures counts_after { counts.new ≡ counts_told held }
{
    *fields = lines.fields;
    *starts = lines.starts;
    *counts = [held.kind1, held.kind2, held.kind3, held.kind4, held.kind8];
}

// For C: the first line from one on that shows the fault by which a text is turned down, counted from 1; 0 if there is none.
pub fn fault_line(text: &[u8], from: usize) -> usize
    ensures { Tells text.now from result }
{
    fault_lines::next(text, from)
}

// ---- terms

// For C: the value term at a place of the fields.
pub fn look_value(fields: &limits::Fields, at: usize, values: &limits::Values, sum: u16) -> u32
    ensures { result ≡ value_told (value_in (drop at fields.now)).tree values.now sum }
{
    told_terms::value(fields, at, values, sum)
}

// For C: the formula there.
pub fn look_formula(fields: &limits::Fields, at: usize, values: &limits::Values, sum: u16) -> u32
    ensures { result ≡ formula_told (formula_in (drop at fields.now)).tree values.now sum }
{
    told_terms::formula(fields, at, values, sum)
}

// ---- a state

// The formula, the value, and n values one after the other, that stand on a line after its kind.
fn formula_in_line(lines: Lent, line: u8, values: &limits::Values) -> u32
    ensures { result ≡ formula_told (invariant_of (line_from lines.entry.fields.now lines.entry.starts.now line)) values.now 0 }
{
    let start = lines.line(line as usize);
    told_terms::formula(lines.fields, start as usize + 1, values, 0)
}

fn value_in_line(lines: Lent, line: u8, values: &limits::Values) -> u32
    ensures { result ≡ value_told (measure_value (line_from lines.entry.fields.now lines.entry.starts.now line)) values.now 0 }
{
    let start = lines.line(line as usize);
    told_terms::value(lines.fields, start as usize + 1, values, 0)
}

fn values_in_line(lines: Lent, line: u8, n: u8, values: &limits::Values) -> Places
    ensures { result ≡ values_told (mapping_of n (line_from lines.entry.fields.now lines.entry.starts.now line)) values.now 0 }
{
    let start = lines.line(line as usize);
    told_terms::values(lines.fields, start as usize + 1, n, values, 0)
}

// For C: invariant, measure and mapped values at a state of the implementation.
pub fn look_state<'a>(
    fields: &'a limits::Fields,
    starts: &'a limits::Starts,
    counts: &Tally,
    values: &limits::Values,
    told: &mut StatePlaces,
)
    ensures { told.new ≡ state_told (design_at fields.now starts.now (shape_of (counts_in counts.now))) values.now }
{
    let lines = Lent { fields, starts };
    let shape = layout::shape_of(desk_numbers::counts_in(*counts));
    let n = shape.specification.parameters.count;
    let invariant = formula_in_line(lines, shape.invariant, values);
    let measure = value_in_line(lines, shape.measure, values);
    let mapped = values_in_line(lines, shape.mapping, n, values);
    *told = state_places(invariant, measure, mapped);
}

fn state_places(invariant: u32, measure: u32, mapped: Places) -> StatePlaces
    ensures { result ≡ invariant ∷ measure ∷ mapped }
{
    [
        invariant, measure, mapped[0], mapped[1], mapped[2], mapped[3], mapped[4], mapped[5],
        mapped[6], mapped[7],
    ]
}

// ---- a row

// For C: condition, mark, data and next values of a row at a state of its process, for a sum value.
pub fn look_row<'a>(
    fields: &'a limits::Fields,
    starts: &'a limits::Starts,
    counts: &Tally,
    side: u32,
    row: u16,
    values: &limits::Values,
    sum: u16,
    told: &mut RowPlaces,
)
    ensures { told.new ≡ told_row (design_at fields.now starts.now (shape_of (counts_in counts.now))) side row values.now sum }
{
    let lines = Lent { fields, starts };
    let shape = layout::shape_of(desk_numbers::counts_in(*counts));
    *told = told_rows::row(lines, shape, side, row, values, sum);
}

// ---- a criterion

// For C: whether criterion n, 2 to 9, holds at a state of the implementation, for a row and a sum value.
pub fn look_criterion<'a>(
    fields: &'a limits::Fields,
    starts: &'a limits::Starts,
    counts: &Tally,
    values: &limits::Values,
    criterion: u16,
    row: u16,
    sum: u16,
) -> u32
    ensures { result ≡ criterion_told (design_at fields.now starts.now (shape_of (counts_in counts.now))) values.now criterion row sum }
{
    let lines = Lent { fields, starts };
    let shape = layout::shape_of(desk_numbers::counts_in(*counts));
    let state = *values;
    let holds = lowest_failure::criterion(lines, shape, state, criterion, row, sum);
    if holds {
        told_terms::HOLDS
    } else {
        told_terms::FAILS
    }
}
