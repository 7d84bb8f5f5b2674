// Refusals 1, 3, 4, 5 and 6 in document 01's order, each with the place of the first fault.
ghost use Rattle.std.specs.Prelude.{◌≡◌, true, ◌+◌, ◌<◌, ◌≤◌, length, get_or, IfOk};
ghost use Rattle.doubles.specs.Answer.{outcome_of};
ghost use Rattle.designs.specs.Given.{handed, fault_of};
ghost use Rattle.designs.specs.Checks as checks';
ghost use Rattle.designs.specs.Inner.Sound.{Rising, Whole};

use crate::tested::Tested;
use crate::{Layout, Matrix};
use doubles::{Reason, Refusal, is_finite};

// ---- 1

// Whether the lengths are those of the layout.
fn lengths_agree(x: &Matrix<'_>) -> bool
    requires { (x.now.shape.n ≤ 65536) × (x.now.shape.p ≤ 8192) }
    ensures { result ≡ checks'.lengths x.now.shape.layout x.now.shape.n x.now.shape.p x.now.starts.now x.now.rows.now x.now.values.now }
{
    let p = x.shape.p;
    match x.shape.layout {
        Layout::Dense => {
            x.values.len() == x.shape.n * p && x.starts.len() == 0 && x.rows.len() == 0
        }
        Layout::Csc => x.starts.len() == p + 1 && x.rows.len() == x.values.len(),
    }
}

// Whether n, p and the stored count are within their limits and the lengths agree.
pub fn sizes_agree(x: &Matrix<'_>) -> bool
    ensures { result ≡ checks'.sizes x.now.shape x.now.starts.now x.now.rows.now x.now.values.now }
{
    let n = x.shape.n;
    let p = x.shape.p;
    if n < 1 || 65536 < n {
        return false;
    }
    if p < 1 || 8192 < p {
        return false;
    }
    x.values.len() <= 16777216 && lengths_agree(x)
}

// ---- 4

// Whether start i is the first and not 0, or below its predecessor.
fn is_fall(starts: &[u32], i: usize) -> bool
    requires { i < length starts.now }
    ensures { result ≡ checks'.falls starts.now i }
{
    if i == 0 {
        0 < starts[i]
    } else {
        starts[i] < starts[i - 1]
    }
}

// Whether start i breaks a rule: the first is 0, none falls or exceeds the stored count m, the last is m.
fn is_bad_start(starts: &[u32], m: usize, i: usize) -> bool
    requires { i < length starts.now }
    ensures { result ≡ checks'.bad_start starts.now m i }
{
    if is_fall(starts, i) {
        return true;
    }
    let s = starts[i] as usize;
    if m < s {
        return true;
    }
    if i + 1 == starts.len() {
        return s < m;
    }
    false
}

fn first_bad_start(starts: &[u32], m: usize) -> Option<usize>
    ensures { result ≡ checks'.bad_starts starts.now m }
{
    for i in 0..starts.len() {
        if is_bad_start(starts, m, i) {
            return Some(i);
        }
    }
    None
}

// ---- 5

// Whether the k-th entry of a column that starts at a breaks a rule: its row is below n and above its predecessor's.
fn is_bad_row(n: usize, rows: &[u32], a: usize, k: usize) -> bool
    requires { a + k < length rows.now }
    ensures { result ≡ checks'.bad_row n rows.now a k }
{
    let e = a + k;
    let i = rows[e] as usize;
    if n <= i {
        return true;
    }
    if 0 < k {
        return i <= rows[e - 1] as usize;
    }
    false
}

fn first_bad_in(x: &Matrix<'_>, j: usize) -> Option<usize>
    requires { (j + 1 < length x.now.starts.now) × (get_or x.now.starts.now j 0 ≤ get_or x.now.starts.now (j + 1) 0)
        × (get_or x.now.starts.now (j + 1) 0 ≤ length x.now.rows.now) }
    ensures { result ≡ checks'.bad_column x.now.shape.n x.now.starts.now x.now.rows.now j }
{
    let start = x.starts[j] as usize;
    let many = x.starts[j + 1] as usize - start;
    for k in 0..many {
        if is_bad_row(x.shape.n, x.rows, start, k) {
            return Some(start + k);
        }
    }
    None
}

// The first fault of the rows, column by column; the starts are right.
fn first_bad_row(x: &Matrix<'_>) -> Option<usize>
    requires { (length x.now.starts.now ≡ x.now.shape.p + 1) × Rising x.now.shape.p (length x.now.rows.now) x.now.starts.now }
    ensures { result ≡ checks'.bad_rows x.now.shape.n x.now.shape.p x.now.starts.now x.now.rows.now }
{
    for j in 0..x.shape.p {
        if let Some(place) = first_bad_in(x, j) {
            return Some(place);
        }
    }
    None
}

// ---- 6

// The first number that is not finite, its place counted from `from`.
fn first_not_finite(xs: &[f64], from: usize) -> Option<usize>
    requires { from ≤ 65536 }
    ensures { result ≡ checks'.not_finite xs.now from }
{
    for k in 0..xs.len() {
        if !is_finite(xs[k]) {
            return Some(from + k);
        }
    }
    None
}

// The targets first, then the stored values.
pub fn check_numbers(n: usize, values: &[f64], y: &[f64]) -> Result<(), Refusal>
    requires { n ≤ 65536 }
    ensures { outcome_of result ≡ checks'.numbers n values.now y.now }
{
    if let Some(place) = first_not_finite(y, 0) {
        return Err(Reason::Number.at(place));
    }
    if let Some(place) = first_not_finite(values, n) {
        return Err(Reason::Number.at(place));
    }
    Ok(())
}

// ---- in order

// 4, 5 and 6 of a sparse design.
fn check_csc(x: &Matrix<'_>, y: &[f64]) -> Result<(), Refusal>
    requires { (x.now.shape.n ≤ 65536) × (length x.now.starts.now ≡ x.now.shape.p + 1) × (length x.now.rows.now ≡ length x.now.values.now) }
    ensures { outcome_of result ≡ checks'.csc_fault (handed x.now y.now) }
{
    if let Some(place) = first_bad_start(x.starts, x.values.len()) {
        return Err(Reason::Start.at(place));
    }
    if let Some(place) = first_bad_row(x) {
        return Err(Reason::Row.at(place));
    }
    check_numbers(x.shape.n, x.values, y)
}

// 4, 5 and 6.
fn check_contents(x: &Matrix<'_>, y: &[f64]) -> Result<(), Refusal>
    requires { checks'.sizes x.now.shape x.now.starts.now x.now.rows.now x.now.values.now ≡ true }
    ensures { outcome_of result ≡ checks'.contents x.now.shape.layout (handed x.now y.now) }
{
    match x.shape.layout {
        Layout::Dense => check_numbers(x.shape.n, x.values, y),
        Layout::Csc => check_csc(x, y),
    }
}

// A design of whose slices it is known that they passed the tests.
fn vouched<'a>(x: &Matrix<'a>) -> Tested<'a>
    requires { (checks'.sizes x.now.shape x.now.starts.now x.now.rows.now x.now.values.now ≡ true)
        × Whole x.now.shape x.now.starts.now x.now.rows.now x.now.values.now }
    ensures { result.matrix ≡ x.now }
{
    Tested { matrix: *x }
}

// 3 to 6, behind the test of the sizes: `room` is whether each lent buffer has its room.
pub fn check_sized<'a>(x: &Matrix<'a>, y: &[f64], room: bool) -> Result<Tested<'a>, Refusal>
    requires { checks'.sizes x.now.shape x.now.starts.now x.now.rows.now x.now.values.now ≡ true }
    ensures fault { fault_of result ≡ checks'.sized_fault (handed x.now y.now) room }
    ensures design { IfOk result (λ t. t.matrix ≡ x.now) }
{
    if !room {
        return Err(Reason::Room.at(0));
    }
    check_contents(x, y)?;
    Ok(vouched(x))
}

// 1, 3, 4, 5 and 6: `fits` is what 1 asks besides the sizes, `room` whether each lent buffer has its room. A call without targets passes none.
pub fn admit<'a>(x: &Matrix<'a>, y: &[f64], fits: bool, room: bool) -> Result<Tested<'a>, Refusal>
    ensures fault { fault_of result ≡ checks'.admitted (handed x.now y.now) fits room }
    ensures design { IfOk result (λ t. t.matrix ≡ x.now) }
{
    if !sizes_agree(x) || !fits {
        return Err(Reason::Sizes.at(0));
    }
    check_sized(x, y, room)
}
