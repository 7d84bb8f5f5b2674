// One record: a code, the inputs of a call and the answers that the oracle had. The first `n` of the words are the record.
ghost use Rattle.std.specs.Prelude.{◌+◌, ◌≤◌};
ghost use Rattle.replay_designs.specs.AllWithin.{AllWithin};
ghost use Rattle.list_reader.specs.Within.{Within};

use crate::arrays::{Arrays, arrays_of};
use crate::asked::Asked;
use designs::{Feature, Layout, Matrix, Shape};
use doubles::{Reason, Refusal, double};
use list_reader::Words;
use list_reader::outcomes::same_number;
use list_reader::parts::{
    Doubles, Part, all_narrow, doubles_of, indices_of, part_of, same_doubles,
};
use list_reader::progress::NoRecord;

// A call beside its slices. Where it takes no feature or no difference, these are any words.
#[derive(Drop)]
struct Call {
    asked: Asked,
    shape: Shape,
    diff: f64,
    j: usize,
}

// The answers of a record: number, place, the double answered, 0 where there is none, and the lent buffer as it is afterwards.
#[derive(Drop)]
struct Answers {
    number: u64,
    place: u64,
    answer: u64,
    lent: Part,
}

// What the port answers, and the lent buffer as it leaves it.
#[derive(Drop)]
struct PortAnswer {
    answer: Result<f64, Refusal>,
    lent: Doubles,
}

// Whether the port answers as the record does.
pub fn replay(words: &Words, n: usize) -> Result<bool, NoRecord>
    requires { n ≤ 1024 }
{
    let asked = Asked::of_code(words[0]).ok_or(NoRecord)?;
    if asked.has_design() && 1 < words[1] {
        return Err(NoRecord);
    }
    let arrays = arrays_of(words, asked);
    if !indices_fit(words, asked, arrays) {
        return Err(NoRecord);
    }
    let lent = arrays.lent;
    let at = lent.next + asked.scalars();
    if n != at + 2 + asked.doubles_answered() + lent.count {
        return Err(NoRecord);
    }
    let answers = answers_of(words, n, asked, at, lent.count);
    let call = call_of(words, asked, lent.next);
    Ok(agrees(words, call, arrays, answers))
}

// Starts, rows and the features of a first array are numbers of 32 bits.
fn indices_fit(words: &Words, asked: Asked, arrays: Arrays) -> bool
    requires { AllWithin arrays }
{
    all_narrow(words, arrays.starts)
        && all_narrow(words, arrays.rows)
        && (!asked.has_features() || all_narrow(words, arrays.first))
}

// The feature and the difference stand from word `at` on.
fn call_of(words: &Words, asked: Asked, at: usize) -> Call
    requires { at + 2 ≤ 1024 }
{
    let layout = if words[1] == 0 {
        Layout::Dense
    } else {
        Layout::Csc
    };
    let shape = Shape {
        layout,
        n: words[2] as usize,
        p: words[3] as usize,
    };
    let j = match asked {
        Asked::UpdateModelFit => words[at + 1],
        _ => words[at],
    };
    Call {
        asked,
        shape,
        diff: double(words[at]),
        j: j as usize,
    }
}

// The record ends with the buffer's `count` places; the answers begin at word `at`.
fn answers_of(words: &Words, n: usize, asked: Asked, at: usize, count: usize) -> Answers
    requires { (at + 2 + count ≤ n) × (n ≤ 1024) }
    ensures { Within result.lent }
{
    let lent_at = n - count;
    let answer = if asked.doubles_answered() == 1 {
        words[lent_at - 1]
    } else {
        0
    };
    Answers {
        number: words[at],
        place: words[at + 1],
        answer,
        lent: part_of(lent_at, count),
    }
}

// Whether the port answers as the record does, and leaves every place of the lent buffer as the record has it.
fn agrees(words: &Words, call: Call, arrays: Arrays, answers: Answers) -> bool
    requires { AllWithin arrays × Within answers.lent }
{
    let port = port_answer(words, call, arrays);
    same_number(port.answer, answers.number, answers.place, answers.answer)
        && same_doubles(&port.lent, words, answers.lent)
}

// Asks the port, with the record's arrays lent.
fn port_answer(words: &Words, call: Call, arrays: Arrays) -> PortAnswer
    requires { AllWithin arrays }
{
    let starts = indices_of(words, arrays.starts);
    let rows = indices_of(words, arrays.rows);
    let values = doubles_of(words, arrays.values);
    let first = doubles_of(words, arrays.first);
    let features = indices_of(words, arrays.first);
    let second = doubles_of(words, arrays.second);
    let mut lent = doubles_of(words, arrays.lent);
    let x = Matrix {
        shape: call.shape,
        starts: &starts[..arrays.starts.count],
        rows: &rows[..arrays.rows.count],
        values: &values[..arrays.values.count],
    };
    let answer = ask(
        call,
        &x,
        &first[..arrays.first.count],
        &features[..arrays.first.count],
        &second[..arrays.second.count],
        &mut lent[..arrays.lent.count],
    );
    PortAnswer { answer, lent }
}

// Asks for the call. `features` is the first array as indices, which `compute_extrapolated_fit` alone takes.
fn ask(
    call: Call,
    x: &Matrix<'_>,
    first: &[f64],
    features: &[u32],
    second: &[f64],
    lent: &mut [f64],
) -> Result<f64, Refusal> {
    let j = Feature(call.j);
    match call.asked {
        Asked::Initialize => number(datafits::initialize(x, first, lent)),
        Asked::GradientJ => datafits::gradient_j(x, first, second, j),
        Asked::FullGrad => number(datafits::full_grad(x, first, second, lent)),
        Asked::Value => datafits::value(first, second),
        Asked::UpdateModelFit => number(datafits::update_model_fit(x, lent, call.diff, j)),
        Asked::ComputeExtrapolatedFit => number(datafits::compute_extrapolated_fit(
            x, features, second, lent,
        )),
        Asked::AlphaMax => alpha_max(x, first, lent),
        Asked::Check => number(designs::check(x, first)),
    }
}

// What a call answers that has no number: +0 where it did not refuse.
fn number(answer: Result<(), Refusal>) -> Result<f64, Refusal> {
    answer.map(|_| 0.0)
}

// A dense design that has starts or rows cannot be asked of `compute_alpha_max`, which takes none: such a record agrees if it says what every
// other call says of the design, refusal 1.
fn alpha_max(x: &Matrix<'_>, y: &[f64], xty: &mut [f64]) -> Result<f64, Refusal> {
    let Shape { layout, n, p } = x.shape;
    match layout {
        Layout::Dense => {
            if 0 < x.starts.len() || 0 < x.rows.len() {
                return Err(Reason::Sizes.at(0));
            }
            datafits::compute_alpha_max(n, p, x.values, y, xty)
        }
        Layout::Csc => datafits::compute_alpha_max_sparse(n, p, x.starts, x.rows, x.values, y, xty),
    }
}
