// Looking at a design, for C programs: the crate looking's functions as symbols of a static library, with what they promise.
#![tactic(auto)]

ghost use Rattle.std.specs.Prelude.{◌≡◌, drop};
ghost use Rattle.design.specs.Line.{value_in, formula_in};
ghost use Rattle.design.specs.Loaded.{design_at};
ghost use Rattle.layout.specs.Sizes.{shape_of};
ghost use Rattle.loader.specs.Load.{fault_of};
ghost use Rattle.fault_lines.specs.Shows.{Tells};
ghost use Rattle.desk_numbers.specs.Numbers.{counts_told, counts_in};
ghost use Rattle.told_terms.specs.Terms.{value_told, formula_told};
ghost use Rattle.told_rows.specs.Rows.{told_row};
ghost use Rattle.looking.specs.Told.{arrays_of, state_told, criterion_told};

use desk_numbers::Tally;
use told_rows::RowPlaces;

// What is told of a state: invariant and measure, and then the mapped values.
type StatePlaces = [u32; 2 + limits::MAX_PARAMETERS];

// The number of a text's lowest fault, or 0; and the arrays that hold it, zeros where it has one.
#[unsafe(no_mangle)]
pub extern "C" fn hold_design(
    text: &[u8],
    fields: &mut limits::Fields,
    starts: &mut limits::Starts,
    counts: &mut Tally,
) -> u32
    ensures value { result ≡ fault_of text.now }
    ensures fields_after { fields.new ≡ (arrays_of text.now).lines.fields }
    ensures starts_after { starts.new ≡ (arrays_of text.now).lines.starts }
    ensures counts_after { counts.new ≡ counts_told (arrays_of text.now).counts }
{
    looking::hold_design(text, fields, starts, counts)
}

// The first line from one on that shows the fault by which a text is turned down, counted from 1; 0 if there is none.
#[unsafe(no_mangle)]
pub extern "C" fn fault_line(text: &[u8], from: usize) -> usize
    ensures { Tells text.now from result }
{
    looking::fault_line(text, from)
}

// The value term at a place of the fields.
#[unsafe(no_mangle)]
pub extern "C" fn look_value(
    fields: &limits::Fields,
    at: usize,
    values: &limits::Values,
    sum: u16,
) -> u32
    ensures { result ≡ value_told (value_in (drop at fields.now)).tree values.now sum }
{
    looking::look_value(fields, at, values, sum)
}

// The formula there.
#[unsafe(no_mangle)]
pub extern "C" fn look_formula(
    fields: &limits::Fields,
    at: usize,
    values: &limits::Values,
    sum: u16,
) -> u32
    ensures { result ≡ formula_told (formula_in (drop at fields.now)).tree values.now sum }
{
    looking::look_formula(fields, at, values, sum)
}

// Invariant, measure and mapped values at a state of the implementation.
#[unsafe(no_mangle)]
pub extern "C" fn look_state<'a>(
    fields: &'a limits::Fields,
    starts: &'a limits::Starts,
    counts: &Tally,
    values: &limits::Values,
    told: &mut StatePlaces,
)
    ensures { told.new ≡ state_told (design_at fields.now starts.now (shape_of (counts_in counts.now))) values.now }
{
    looking::look_state(fields, starts, counts, values, told);
}

// Condition, mark, data and next values of a row at a state of its process, for a sum value.
#[unsafe(no_mangle)]
pub extern "C" fn look_row<'a>(
    fields: &'a limits::Fields,
    starts: &'a limits::Starts,
    counts: &Tally,
    side: u32,
    row: u16,
    values: &limits::Values,
    sum: u16,
    told: &mut RowPlaces,
)
    ensures { told.new ≡ told_row (design_at fields.now starts.now (shape_of (counts_in counts.now))) side row values.now sum }
{
    looking::look_row(fields, starts, counts, side, row, values, sum, told);
}

// Whether criterion n, 2 to 9, holds at a state of the implementation, for a row and a sum value.
#[unsafe(no_mangle)]
pub extern "C" fn look_criterion<'a>(
    fields: &'a limits::Fields,
    starts: &'a limits::Starts,
    counts: &Tally,
    values: &limits::Values,
    criterion: u16,
    row: u16,
    sum: u16,
) -> u32
    ensures { result ≡ criterion_told (design_at fields.now starts.now (shape_of (counts_in counts.now))) values.now criterion row sum }
{
    looking::look_criterion(fields, starts, counts, values, criterion, row, sum)
}
