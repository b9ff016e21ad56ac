// Whether terms have values in a state: the invariant, the mapping, the measure, a row with its mark. It asks the terms themselves,
// whatever a plan says of them. Every function answers any arrays. What each computes is in specs/Defined.
#![tactic(auto)]

ghost use Rattle.std.specs.Prelude.{◌≡◌};
ghost use Rattle.marks.specs.Marks.{mark_has_in};
ghost use Rattle.defined.specs.Defined.{have_in, formula_has_in, values_have_in, value_has_in, has_invariant_in, has_mapping_in, has_measure_in, row_at_in, row_has_in, mark_free_in, asks_in};

use design::Shape;
use layout::Lent;

// Whether each of n values that stand one after the other from a place on has a value.
fn have(fields: &limits::Fields, at: usize, n: u8, v: &limits::Values, sum: u16) -> bool
    ensures { result ≡ have_in fields.now at n v.now sum }
{
    let mut place = at;
    for i in 0..n {
        let x = has_value::value(fields, place, v, sum, limits::MAX_DEPTH);
        if x.value.is_err() {
            return false;
        }
        place = x.next;
    }
    true
}

// ---- the design

// Whether the formula in a line has a value. Formula, values and value are read by three functions: one that takes what is read would be no
// plainer.
pub fn formula_in_line(lines: Lent, k: u8, v: &limits::Values) -> bool
    ensures { result ≡ formula_has_in lines.entry.fields.now lines.entry.starts.now k v.now }
{
    let line = lines.line(k as usize);
    let x = has_value::formula(lines.fields, line as usize + 1, v, 0, limits::MAX_DEPTH);
    x.holds.is_ok()
}

// Whether each of the n values in a line does.
pub fn values_in_line(lines: Lent, k: u8, n: u8, v: &limits::Values) -> bool
    ensures { result ≡ values_have_in lines.entry.fields.now lines.entry.starts.now k n v.now }
{
    let line = lines.line(k as usize);
    have(lines.fields, line as usize + 1, n, v, 0)
}

// Whether the value in a line does.
pub fn value_in_line(lines: Lent, k: u8, v: &limits::Values) -> bool
    ensures { result ≡ value_has_in lines.entry.fields.now lines.entry.starts.now k v.now }
{
    let line = lines.line(k as usize);
    let x = has_value::value(lines.fields, line as usize + 1, v, 0, limits::MAX_DEPTH);
    x.value.is_ok()
}

// Of the invariant.
pub fn invariant(lines: Lent, shape: Shape, v: &limits::Values) -> bool
    ensures { result ≡ has_invariant_in lines.entry.fields.now lines.entry.starts.now shape v.now }
{
    formula_in_line(lines, shape.invariant, v)
}

// Of the mapping.
pub fn mapping(lines: Lent, shape: Shape, v: &limits::Values) -> bool
    ensures { result ≡ has_mapping_in lines.entry.fields.now lines.entry.starts.now shape v.now }
{
    let n = shape.specification.parameters.count;
    values_in_line(lines, shape.mapping, n, v)
}

// Of the measure.
pub fn measure(lines: Lent, shape: Shape, v: &limits::Values) -> bool
    ensures { result ≡ has_measure_in lines.entry.fields.now lines.entry.starts.now shape v.now }
{
    value_in_line(lines, shape.measure, v)
}

// ---- rows

// Whether the condition of the row in the line that starts at a place has a value, and, where it holds, so do the data and the n next
// values.
fn row_at(fields: &limits::Fields, line: u16, n: u8, v: &limits::Values, sum: u16) -> bool
    ensures { result ≡ row_at_in fields.now line n v.now sum }
{
    let condition = has_value::formula(fields, line as usize + 3, v, sum, limits::MAX_DEPTH);
    let holds = match condition.holds {
        Ok(holds) => holds,
        Err(_) => return false,
    };
    if !holds {
        return true;
    }
    let data = has_value::value(fields, condition.next, v, sum, limits::MAX_DEPTH);
    if data.value.is_err() {
        return false;
    }
    have(fields, data.next, n, v, sum)
}

// Whether the mark that stands at a place does; at place 0 there is none.
fn mark(fields: &limits::Fields, place: usize, v: &limits::Values, sum: u16) -> bool
    ensures { result ≡ mark_has_in fields.now place v.now sum }
{
    if place == 0 {
        return true;
    }
    let x = has_value::formula(fields, place, v, sum, limits::MAX_DEPTH);
    x.holds.is_ok()
}

// Whether row and mark do for each sum value below a number.
fn row_below(
    fields: &limits::Fields,
    line: u16,
    n: u8,
    place: usize,
    most: u16,
    v: &limits::Values,
) -> bool
    ensures { result ≡ row_has_in fields.now line n place most v.now }
{
    (0..most).all(|sum| row_at(fields, line, n, v, sum) & mark(fields, place, v, sum))
}

// Whether the mark at a place does not read the sum value; at place 0 there is none.
fn mark_free(fields: &limits::Fields, place: usize) -> bool
    ensures { result ≡ mark_free_in fields.now place }
{
    if place == 0 {
        return true;
    }
    let mark = sum_free::formula_sum_free(fields, place, limits::MAX_DEPTH);
    mark.free
}

// How many sum values have to be asked for of those below a span: one does for all where the condition fails, and neither it nor the mark
// reads the sum value.
fn asks(fields: &limits::Fields, line: u16, place: usize, span: u16, v: &limits::Values) -> u16
    ensures { result ≡ asks_in fields.now line place span v.now }
{
    let condition = eval::formula(fields, line as usize + 3, v, 0, limits::MAX_DEPTH);
    if condition.holds {
        return span;
    }
    let free = sum_free::formula_sum_free(fields, line as usize + 3, limits::MAX_DEPTH);
    if !free.free {
        return span;
    }
    if !mark_free(fields, place) {
        return span;
    }
    span.min(1)
}

// Whether row and mark do for each sum value below a span.
pub fn row(
    fields: &limits::Fields,
    line: u16,
    n: u8,
    place: usize,
    span: u16,
    v: &limits::Values,
) -> bool
    ensures { result ≡ row_has_in fields.now line n place span v.now }
{
    let most = asks(fields, line, place, span, v);
    row_below(fields, line, n, place, most, v)
}
