// Which arrays a record has.
ghost use Rattle.std.specs.Prelude.{◌≤◌};
ghost use Rattle.replay_designs.specs.AllWithin.{AllWithin};
ghost use Rattle.list_reader.specs.Within.{Within};

use crate::asked::Asked;
use list_reader::Words;
use list_reader::parts::{Part, part_at};

// All arrays of a record, in their order. One that the call does not take is empty.
#[derive(Clone, Copy, Drop)]
pub struct Arrays {
    pub starts: Part,
    pub rows: Part,
    pub values: Part,
    pub first: Part,
    pub second: Part,
    // The buffer that the call may change.
    pub lent: Part,
}

// No array, where the call does not take it: the next part begins where this one would.
fn none_at(at: usize) -> Part
    requires { at ≤ 1025 }
    ensures { Within result }
{
    Part {
        at: 0,
        count: 0,
        next: at,
    }
}

// Starts, rows and values of a design, behind the code and the design's layout, n and p.
fn design_arrays(words: &Words) -> (Part, Part, Part)
    ensures { Within result.0 × Within result.1 × Within result.2 }
{
    let starts = part_at(words, 4);
    let rows = part_at(words, starts.next);
    let values = part_at(words, rows.next);
    (starts, rows, values)
}

// The arrays of a record, of which the call takes some.
pub fn arrays_of(words: &Words, asked: Asked) -> Arrays
    ensures { AllWithin result }
{
    let (starts, rows, values) = if asked.has_design() {
        design_arrays(words)
    } else {
        (none_at(1), none_at(1), none_at(1))
    };
    let first = if asked.has_first() {
        part_at(words, values.next)
    } else {
        none_at(values.next)
    };
    let second = if asked.has_second() {
        part_at(words, first.next)
    } else {
        none_at(first.next)
    };
    let lent = if asked.has_lent() {
        part_at(words, second.next)
    } else {
        none_at(second.next)
    };
    Arrays {
        starts,
        rows,
        values,
        first,
        second,
        lent,
    }
}
