// The lowest failure at a state: criteria 2 to 9 as tests of a row and a sum value, and the search through criteria, rows and sum values in
// 01's order. Every function answers any arrays, and what it answers is said in the words of the crate decision: of the design in the
// arrays, at the array of a state, of which no test reads more than the state's values (decision/proofs/Alike).
#![tactic(auto)]

ghost use Rattle.std.specs.Prelude.{◌≡◌};
ghost use Rattle.decision.specs.Tests as tests;
ghost use Rattle.decision.specs.Examine.{first_failing};
ghost use Rattle.design.specs.Loaded.{design_at};
ghost use Rattle.layout.specs.Sizes.{Fits};
ghost use Rattle.steps.specs.Arrays.{mapped_in};
ghost use Rattle.lowest_failure.specs.Search.{told_place, at_impl, at_impl_by, at_spec, quiet_in, holds_for, criterion_for, span_for, rows_for, in_row, in_all_rows, in_criteria};

use design::Shape;
use layout::Lent;
use verdicts::Place;

// A state that is looked at, in the design that the lines hold: its values, its mapped state, and whether it is a focus point.
#[derive(Clone, Copy)]
struct Here<'a> {
    lines: Lent<'a>,
    shape: Shape,
    state: limits::Values,
    mapped: limits::Values,
    focus: bool,
    ghost fits: { Fits shape },
    ghost mapped_is: { mapped ≡ mapped_in lines.fields.now lines.starts.now shape state },
    ghost focus_is: { focus ≡ tests.focus_b (design_at lines.fields.now lines.starts.now shape) state },
}

// ---- focus points

// Whether row k of the implementation has no marked step for any sum value.
fn row_quiet(lines: Lent, shape: Shape, v: &limits::Values, k: u16) -> bool
    ensures { result ≡ quiet_in (design_at lines.entry.fields.now lines.entry.starts.now shape) v.now k }
{
    let span = steps::row_span(lines, shape.implementation, k);
    (0..span).all(|sum| {
        let step = steps::row_step(lines, shape.implementation, k, v, sum);
        let marked = marks::marked(lines, shape, k, v, sum);
        !((step.action == 0) & (step.enabled & marked))
    })
}

// Whether the state is a focus point: no row has a marked step.
fn focus(lines: Lent, shape: Shape, v: &limits::Values) -> bool
    ensures { result ≡ tests.focus_b (design_at lines.entry.fields.now lines.entry.starts.now shape) v.now }
{
    (0..shape.implementation.rows.count as u16 + 1).all(|k| row_quiet(lines, shape, v, k))
}

impl<'a> Here<'a> {
    // The state v in the design that the lines hold.
    fn at(lines: Lent<'a>, shape: Shape, v: limits::Values) -> Here<'a>
        requires { Fits shape }
        ensures design { (result.lines ≡ lines.entry) × (result.shape ≡ shape) }
        ensures state { result.state ≡ v }
    {
        Here {
            lines,
            shape,
            state: v,
            mapped: steps::mapped(lines, shape, &v),
            focus: focus(lines, shape, &v),
        }
    }

    // ---- criteria 2 to 9, for row k and a sum value

    fn holds2(&self) -> bool
        ensures { result ≡ tests.holds2 (design_at self.now.lines.fields.now self.now.lines.starts.now self.now.shape) self.now.state }
    {
        steps::below(self.lines, self.shape.specification, &self.mapped)
    }

    fn holds3(&self, k: u16, sum: u16) -> bool
        ensures { result ≡ at_impl tests.holds3 (design_at self.now.lines.fields.now self.now.lines.starts.now self.now.shape) self.now.state k sum }
    {
        let step = steps::row_step(self.lines, self.shape.implementation, k, &self.state, sum);
        let there = steps::inside(self.lines, self.shape, &step.next)
            & defined::invariant(self.lines, self.shape, &step.next);
        !step.enabled | there
    }

    fn holds4(&self, k: u16, sum: u16) -> bool
        ensures { result ≡ at_impl tests.holds4 (design_at self.now.lines.fields.now self.now.lines.starts.now self.now.shape) self.now.state k sum }
    {
        let step = steps::row_step(self.lines, self.shape.implementation, k, &self.state, sum);
        let there = steps::mapped(self.lines, self.shape, &step.next);
        let n = self.shape.specification.parameters.count;
        let kept = steps::same(n, &self.mapped, &there)
            & defined::mapping(self.lines, self.shape, &step.next);
        !step.enabled | (!(step.action == 0) | kept)
    }

    fn holds5(&self, k: u16, sum: u16) -> bool
        ensures { result ≡ at_impl_by tests.holds5 (design_at self.now.lines.fields.now self.now.lines.starts.now self.now.shape) self.now.state k sum }
    {
        let step = steps::row_step(self.lines, self.shape.implementation, k, &self.state, sum);
        let there = steps::measure(self.lines, self.shape, &step.next);
        let measure = steps::measure(self.lines, self.shape, &self.state);
        let marked = marks::marked(self.lines, self.shape, k, &self.state, sum);
        let lower = (there < measure) & defined::measure(self.lines, self.shape, &step.next);
        !step.enabled | (!(step.action == 0) | (!marked | lower))
    }

    // The first three lines are those of criteria 8 and 9 too: one function for them would say them again in its contract, and be no plainer.
    fn holds6(&self, k: u16, sum: u16) -> bool
        ensures { result ≡ at_impl tests.holds6 (design_at self.now.lines.fields.now self.now.lines.starts.now self.now.shape) self.now.state k sum }
    {
        let step = steps::row_step(self.lines, self.shape.implementation, k, &self.state, sum);
        let row = steps::row_with(self.lines, self.shape.specification, step.action);
        let answer = steps::row_step(self.lines, self.shape.specification, row, &self.mapped, sum);
        !step.enabled | ((step.action == 0) | answer.enabled)
    }

    // Here k is the specification's row.
    fn holds7(&self, k: u16, sum: u16) -> bool
        ensures { result ≡ at_spec tests.holds7 (design_at self.now.lines.fields.now self.now.lines.starts.now self.now.shape) self.now.state k sum }
    {
        let step = steps::row_step(self.lines, self.shape.specification, k, &self.mapped, sum);
        let row = steps::row_with(self.lines, self.shape.implementation, step.action);
        let answer = steps::row_step(self.lines, self.shape.implementation, row, &self.state, sum);
        !self.focus | (!step.enabled | answer.enabled)
    }

    fn holds8(&self, k: u16, sum: u16) -> bool
        ensures { result ≡ at_impl tests.holds8 (design_at self.now.lines.fields.now self.now.lines.starts.now self.now.shape) self.now.state k sum }
    {
        let step = steps::row_step(self.lines, self.shape.implementation, k, &self.state, sum);
        let row = steps::row_with(self.lines, self.shape.specification, step.action);
        let other = steps::row_step(self.lines, self.shape.specification, row, &self.mapped, sum);
        !step.enabled | ((step.action == 0) | ((row == 0) | (step.carries == other.carries)))
    }

    fn holds9(&self, k: u16, sum: u16) -> bool
        ensures { result ≡ at_impl tests.holds9 (design_at self.now.lines.fields.now self.now.lines.starts.now self.now.shape) self.now.state k sum }
    {
        let step = steps::row_step(self.lines, self.shape.implementation, k, &self.state, sum);
        let row = steps::row_with(self.lines, self.shape.specification, step.action);
        let answer = steps::row_step(self.lines, self.shape.specification, row, &self.mapped, sum);
        let there = steps::mapped(self.lines, self.shape, &step.next);
        let n = self.shape.specification.parameters.count;
        let same = steps::same(n, &there, &answer.next)
            & defined::mapping(self.lines, self.shape, &step.next);
        !step.enabled | ((step.action == 0) | ((row == 0) | same))
    }

    // ---- the lowest failure of a state

    // Whether criterion n, one of 3 to 9, holds for row k and a sum value. The number is the report's and `Place`'s: an enum would be no
    // plainer, with a name for each number and a function back.
    fn holds(&self, n: u16, k: u16, sum: u16) -> bool
        ensures { result ≡ holds_for (design_at self.now.lines.fields.now self.now.lines.starts.now self.now.shape) self.now.state n k sum }
    {
        match n {
            3 => self.holds3(k, sum),
            4 => self.holds4(k, sum),
            5 => self.holds5(k, sum),
            6 => self.holds6(k, sum),
            7 => self.holds7(k, sum),
            8 => self.holds8(k, sum),
            _ => self.holds9(k, sum),
        }
    }

    // The span of row k, where the rows are those that criterion n is tried at: in criterion 7 the specification's.
    fn span_for(&self, n: u16, k: u16) -> u16
        ensures { result ≡ span_for (design_at self.now.lines.fields.now self.now.lines.starts.now self.now.shape) n k }
    {
        if n == 7 {
            steps::row_span(self.lines, self.shape.specification, k)
        } else {
            steps::row_span(self.lines, self.shape.implementation, k)
        }
    }

    // How many rows these are.
    fn rows_for(&self, n: u16) -> u8
        ensures { result ≡ rows_for self.now.shape n }
    {
        if n == 7 {
            self.shape.specification.rows.count
        } else {
            self.shape.implementation.rows.count
        }
    }

    // The first sum value of row k at which criterion n fails.
    fn in_row(&self, n: u16, k: u16) -> Option<Place>
        ensures { told_place result ≡ in_row (design_at self.now.lines.fields.now self.now.lines.starts.now self.now.shape) self.now.state n k }
    {
        let span = self.span_for(n, k);
        (0..span)
            .find(|sum| !self.holds(n, k, *sum))
            .map(|sum| Place {
                criterion: n,
                row: k,
                sum,
            })
    }

    // The first row at which criterion n fails.
    fn in_rows(&self, n: u16) -> Option<Place>
        ensures { told_place result ≡ in_all_rows self.now.shape (design_at self.now.lines.fields.now self.now.lines.starts.now self.now.shape) self.now.state n }
    {
        let rows = self.rows_for(n);
        (0..rows as u16 + 1).find_map(|k| self.in_row(n, k))
    }

    // The first of the criteria 3 to 9 that fails.
    fn in_criteria(&self) -> Option<Place>
        ensures { told_place result ≡ in_criteria self.now.shape (design_at self.now.lines.fields.now self.now.lines.starts.now self.now.shape) self.now.state }
    {
        (3..10).find_map(|n| self.in_rows(n))
    }
}

// The lowest failure at the state v.
pub fn lowest(lines: Lent, shape: Shape, v: limits::Values) -> Option<Place>
    requires { Fits shape }
    ensures { told_place result ≡ first_failing (design_at lines.entry.fields.now lines.entry.starts.now shape) v }
{
    let here = Here::at(lines, shape, v);
    if !here.holds2() {
        return Some(Place {
            criterion: 2,
            row: 0,
            sum: 0,
        });
    }
    here.in_criteria()
}

// Whether criterion n, one of 2 to 9, holds at the state v, for row k and a sum value.
pub fn criterion(lines: Lent, shape: Shape, v: limits::Values, n: u16, k: u16, sum: u16) -> bool
    requires { Fits shape }
    ensures { result ≡ criterion_for (design_at lines.entry.fields.now lines.entry.starts.now shape) v n k sum }
{
    let here = Here::at(lines, shape, v);
    if n == 2 {
        return here.holds2();
    }
    here.holds(n, k, sum)
}
