// The parts of the working set, for the stand-alone call and for the solver, which has no need of the call's tests.
ghost use Rattle.std.specs.Prelude.{◌≡◌, ◌+◌, ◌*◌, ◌<◌, ◌≤◌, not, leb, eqb, length, set};
ghost use Rattle.std.specs.Float.Ieee.{lt, eq};
ghost use Rattle.doubles.specs.Num as num;
ghost use Rattle.doubles.specs.Steps.{tab};
ghost use Rattle.designs.specs.Search.{first_of, mark};
ghost use Rattle.definition.specs.WorkingSet as def;
ghost use Rattle.selection.specs.Inner.Heap.{Numbers};
ghost use Rattle.worksets.specs.Call as calls;

use doubles::is_finite;
use selection::rank;

// ---- what the stand-alone call tests

pub fn lengths_agree(kkt: &[f64], w: &[f64]) -> bool
    ensures { result ≡ num.◌and◌ (leb 1 (length w.now))
        (num.◌and◌ (leb (length w.now) 8192) (eqb (length kkt.now) (length w.now))) }
{
    let p = w.len();
    1 <= p && p <= 8192 && kkt.len() == p
}

pub fn start_in_range(start: usize, p: usize) -> bool
    ensures { result ≡ num.◌and◌ (leb 1 start) (leb start p) }
{
    1 <= start && start <= p
}

// Whether a violation is one to refuse. Only at a zero weight: at another it ranks nothing, and may be anything.
fn is_bad_violation(violation: f64, weight: f64) -> bool
    ensures { result ≡ num.◌and◌ (eq weight num.#0) (num.◌or◌ (not (num.finite violation)) (lt violation num.#0)) }
{
    weight == 0.0 && (!is_finite(violation) || violation < 0.0)
}

pub fn first_bad_violation(kkt: &[f64], w: &[f64]) -> Option<usize>
    requires { length kkt.now ≡ length w.now }
    ensures { result ≡ first_of (λ j. mark (calls.bad_violation kkt.now w.now j) j) (length w.now) }
{
    for j in 0..w.len() {
        if is_bad_violation(kkt[j], w[j]) {
            return Some(j);
        }
    }
    None
}

// ---- the set

// Every index place becomes 0.
pub fn clear_indices(indices: &mut [u32])
    ensures { indices.new ≡ tab (λ k. 0) (length indices.old) }
{
    indices.fill(0);
}

// Feature j goes to place c if its weight is not zero; the number of places filled then.
fn append(w: f64, j: usize, c: usize, indices: &mut [u32]) -> usize
    requires { (c < length indices.old) × (j < 8192) }
    ensures { (result ≡ num.pick (eq w num.#0) c (c + 1))
        × (indices.new ≡ num.pick (eq w num.#0) indices.old (set indices.old c j)) }
{
    if w == 0.0 {
        return c;
    }
    indices[c] = j as u32;
    c + 1
}

// The features with nonzero weight, in index order; how many there are.
fn support(w: &[f64], indices: &mut [u32]) -> usize
    requires { (indices.old ≡ tab (λ k. 0) (length w.now)) × (length w.now ≤ 8192) }
    ensures { (result ≡ length (def.support w.now (length w.now)))
        × (indices.new ≡ def.padded (def.support w.now (length w.now)) (length w.now)) }
{
    let mut c = 0;
    for (j, x) in w.iter().enumerate() {
        c = append(*x, j, c, indices);
    }
    c
}

// max(start, min(2·nonzero, p))
fn size(start: usize, nonzero: usize, p: usize) -> usize
    requires { nonzero ≤ 8192 }
    ensures { result ≡ def.greater start (def.smaller (2 * nonzero) p) }
{
    start.max(p.min(2 * nonzero))
}

// How many weights are not zero.
pub fn nonzeros(w: &[f64]) -> usize
    ensures { result ≡ def.nonzeros w.now }
{
    w.iter().filter(|x| **x != 0.0).count()
}

// The working set into p index places, then 0; its size.
pub fn construct_ws(kkt: &[f64], w: &[f64], start: usize, indices: &mut [u32]) -> usize
    requires { (length kkt.now ≡ length w.now) × (length w.now ≤ 8192) × (start ≤ length w.now) × (length indices.old ≡ length w.now)
        × Numbers kkt.now w.now }
    ensures { (result ≡ def.size start w.now)
        × (indices.new ≡ def.padded (def.working_set start kkt.now w.now) (length w.now)) }
{
    clear_indices(indices);
    let nonzero = support(w, indices);
    let many = size(start, nonzero, w.len());
    rank(kkt, w, &mut indices[nonzero..many]);
    many
}
