// One record: a code, the inputs of a call and the answers that the oracle had. The first `n` of the words are the record. Codes 1 to 4,
// the penalties' public calls, are replayed through the exports (replay/).
ghost use Rattle.std.specs.Prelude.{◌≡◌, ◌+◌, ◌≤◌, length, take};

use doubles::double;
use elimination::helpers;
use elimination::helpers::{NoSolution, Unsolved};
use list_reader::outcomes::same_refusal;
use list_reader::parts::penalty_at;
use list_reader::progress::NoRecord;
use list_reader::{Words, same};
use penalties::inner;

// Whether the port answers as the record does.
pub fn replay(words: &Words, n: usize) -> Result<bool, NoRecord> {
    match words[0] {
        5 => solve(words, n),
        6 => inner_violation(words, n),
        7 => inner_value(words, n),
        _ => Err(NoRecord),
    }
}

fn inner_violation(words: &Words, n: usize) -> Result<bool, NoRecord> {
    if n != 7 || 2 < words[1] {
        return Err(NoRecord);
    }
    let r = inner::violation(penalty_at(words, 1), double(words[4]), double(words[5]));
    Ok(same(r, double(words[6])))
}

// ---- records with a list of weights

// The weights, from word 5 on, and 0 behind them. That the first `count` are `count` many is said for `&w[..count]`.
fn weights(words: &Words, count: usize) -> [f64; 64]
    requires { count ≤ 64 }
    ensures { (64 ≡ length result) × (count ≡ length (take count result)) }
{
    let mut w = [0.0; 64];
    for i in 0..count {
        w[i] = double(words[i + 5]);
    }
    w
}

fn inner_value(words: &Words, n: usize) -> Result<bool, NoRecord> {
    if 64 < words[4] || 2 < words[1] {
        return Err(NoRecord);
    }
    let count = words[4] as usize;
    if n != count + 6 {
        return Err(NoRecord);
    }
    let w = weights(words, count);
    let r = inner::value(penalty_at(words, 1), &w[..count]);
    Ok(same(r, double(words[count + 5])))
}

// ---- systems

// The `count` doubles from word `at` on, and NaN behind them: the elimination must not look there.
fn row(words: &Words, at: usize, count: usize) -> [f64; 11]
    requires { (count ≤ 11) × (at + count ≤ 1024) }
{
    let mut r = [f64::NAN; 11];
    for k in 0..count {
        r[k] = double(words[at + k]);
    }
    r
}

fn system(words: &Words, size: usize) -> [[f64; 11]; 10]
    requires { size ≤ 10 }
{
    let none = [f64::NAN; 11];
    let mut m = [none; 10];
    let mut at: usize = 2;
    for i in 0..size {
        m[i] = row(words, at, size + 1);
        at += size + 1;
    }
    m
}

fn same_places(z: [f64; 10], words: &Words, at: usize) -> bool
    requires { at + 10 ≤ 1024 }
{
    z.iter()
        .zip(&words[at..at + 10])
        .all(|(x, word)| same(*x, double(*word)))
}

// The answers from word `at` on: number, place, singular and the ten places.
fn same_solution(answer: Result<[f64; 10], NoSolution>, words: &Words, at: usize) -> bool
    requires { at + 13 ≤ 1024 }
{
    let number = words[at];
    let place = words[at + 1];
    let singular = words[at + 2];
    match answer {
        Ok(z) => number == 0 && place == 0 && singular == 0 && same_places(z, words, at + 3),
        Err(unsolved) => {
            let z = unsolved.z;
            same_ending(unsolved.why, number, place, singular) && same_places(z, words, at + 3)
        }
    }
}

// Whether these say why there is no solution.
fn same_ending(why: Unsolved, number: u64, place: u64, singular: u64) -> bool {
    match why {
        Unsolved::Refused(refusal) => same_refusal(refusal, number, place) && singular == 0,
        Unsolved::Singular => number == 0 && place == 0 && singular == 1,
    }
}

// How many rows a record has. A size outside 1 to 10 comes with none.
fn rows_of(size: usize) -> usize
    ensures { result ≤ 10 }
{
    if 10 < size { 0 } else { size }
}

// The word at which the answers begin, behind the code, the size and the rows.
fn answers_at(rows: usize) -> usize
    requires { rows ≤ 10 }
    ensures { result ≤ 112 }
{
    rows * (rows + 1) + 2
}

// The size is passed on as it is, also where it is refused.
fn solve(words: &Words, n: usize) -> Result<bool, NoRecord> {
    let size = words[1] as usize;
    let rows = rows_of(size);
    let at = answers_at(rows);
    if n != at + 13 {
        return Err(NoRecord);
    }
    let answer = helpers::solve_lin_sys(system(words, rows), size);
    Ok(same_solution(answer, words, at))
}
