// The features with zero weight by falling violation, equal ones by lower index, as many as there is room for. They are chosen by a bounded heap in
// the index places themselves: its root is the last of those kept, so a feature that does not stand ahead of the root costs one comparison. Inner
// functions, for the working set.
#![tactic(auto)]

ghost use Rattle.std.specs.Prelude.{◌≡◌, true, List, ◌+◌, ◌-◌, ◌<◌, ◌≤◌, Float, length, get_or, take, set};
ghost use Rattle.std.specs.Float.Ieee.{eq};
ghost use Rattle.doubles.specs.Num as num;
ghost use Rattle.doubles.specs.Inner.Order as order;
ghost use Rattle.definition.specs.WorkingSet as def;
ghost use Rattle.selection.specs.Inner.Heap as heap;

// ---- a heap

// Whether feature a stands ahead of feature b. Without a branch: which way it falls cannot be foreseen, and a wrong guess costs more than the tests.
fn ahead(kkt: &[f64], a: u32, b: u32) -> bool
    requires { (a < length kkt.now) × (b < length kkt.now) }
    ensures { result ≡ heap.ahead kkt.now a b }
{
    let x = kkt[a as usize];
    let y = kkt[b as usize];
    (y < x) | (!(x < y) & (a < b))
}

// Of the places left and left + 1, as far as there are any, the one whose feature stands behind.
fn last_of(kkt: &[f64], kept: &[u32], left: usize) -> usize
    requires { (left < length kept.now) × (length kept.now ≤ 8192) × order.Each (heap.Number kkt.now) kept.now }
    ensures { heap.LastOf (heap.ahead kkt.now) kept.now left result }
{
    let right = left + 1;
    if right < kept.len() {
        return left + ahead(kkt, kept[left], kept[right]) as usize;
    }
    left
}

// Where feature x goes from place k: to the place below it whose feature has to come up, or nowhere.
fn below(kkt: &[f64], kept: &[u32], k: usize, x: u32) -> usize
    requires { (k < length kept.now) × (length kept.now ≤ 8192) × order.Each (heap.Number kkt.now) kept.now × heap.Number kkt.now x }
    ensures { heap.Goes (heap.ahead kkt.now) kept.now k x result }
{
    let left = 2 * k + 1;
    if left < kept.len() {
        let last = last_of(kkt, kept, left);
        if ahead(kkt, x, kept[last]) {
            return last;
        }
    }
    k
}

// Feature x takes place at, and sinks until the places from there on are a heap.
fn sink(kkt: &[f64], kept: &mut [u32], at: usize, x: u32)
    requires { (at < length kept.old) × (length kept.old ≤ 8192) × order.Each (heap.Number kkt.now) kept.old × heap.Number kkt.now x
        × heap.Heap (heap.ahead kkt.now) (at + 1) kept.old }
    ensures { heap.Heap (heap.ahead kkt.now) at kept.new × order.Same kept.new (set kept.old at x) }
{
    let mut k = at;
    let mut next = below(kkt, kept, k, x);
    while k < next {
        kept[k] = kept[next];
        k = next;
        next = below(kkt, kept, k, x);
    }
    kept[k] = x;
}

// The features kept become a heap.
fn heapify(kkt: &[f64], kept: &mut [u32])
    requires { (length kept.old ≤ 8192) × order.Each (heap.Number kkt.now) kept.old }
    ensures { heap.Heap (heap.ahead kkt.now) 0 kept.new × order.Same kept.new kept.old }
{
    for k in (0..kept.len()).rev() {
        let x = kept[k];
        sink(kkt, kept, k, x);
    }
}

// The root of a heap goes to the last place, and the others become a heap before it.
fn pop(kkt: &[f64], kept: &mut [u32])
    requires { (1 < length kept.old) × (length kept.old ≤ 8192) × order.Each (heap.Number kkt.now) kept.old
        × heap.Heap (heap.ahead kkt.now) 0 kept.old }
    ensures { heap.Heap (heap.ahead kkt.now) 0 (take (length kept.old - 1) kept.new)
        × order.Each (order.Behind (heap.ahead kkt.now) (get_or kept.new (length kept.old - 1) 0)) kept.new
        × order.Same kept.new kept.old }
{
    let end = kept.len() - 1;
    let root = kept[0];
    let last = kept[end];
    kept[end] = root;
    sink(kkt, &mut kept[..end], 0, last);
}

// A heap is put in order, the first ahead.
fn sort(kkt: &[f64], kept: &mut [u32])
    requires { (length kept.old ≤ 8192) × order.Each (heap.Number kkt.now) kept.old × heap.Heap (heap.ahead kkt.now) 0 kept.old }
    ensures { order.OrderedFrom (heap.ahead kkt.now) 0 kept.new × order.Same kept.new kept.old }
{
    for c in (2..=kept.len()).rev() {
        pop(kkt, &mut kept[..c]);
    }
}

// ---- choosing

// Feature j goes to place c if its weight is zero; the number of places filled then.
fn keep(w: f64, j: usize, c: usize, kept: &mut [u32]) -> usize
    requires { (c < length kept.old) × (j < 8192) }
    ensures { (result ≡ num.pick (eq w num.#0) (c + 1) c)
        × (kept.new ≡ num.pick (eq w num.#0) (set kept.old c j) kept.old) }
{
    if w == 0.0 {
        kept[c] = j as u32;
        return c + 1;
    }
    c
}

// The first features with zero weight, as many as there is room for; how many features were looked at. Which they are does not depend on violations.
fn keep_first(w: &[f64], kept: &mut [u32]) -> usize
    requires { (length w.now ≤ 8192) × (length kept.old + length (def.support w.now (length w.now)) ≤ length w.now) }
    ensures { (result ≤ length w.now) × ((v : List Float) → order.Same kept.new (def.others v w.now result)) }
{
    let mut c = 0;
    for (j, x) in w.iter().enumerate() {
        if c == kept.len() {
            return j;
        }
        c = keep(*x, j, c, kept);
    }
    w.len()
}

// Feature j of weight w: if that is zero and it stands ahead of the root, it takes the root's place and sinks.
fn offer(kkt: &[f64], w: f64, kept: &mut [u32], j: usize)
    requires { (0 < length kept.old) × (length kept.old ≤ 8192) × (j < 8192) × order.Each (heap.Number kkt.now) kept.old
        × (eq w num.#0 ≡ true → heap.Number kkt.now j) × heap.Heap (heap.ahead kkt.now) 0 kept.old }
    ensures { heap.Heap (heap.ahead kkt.now) 0 kept.new
        × order.Same kept.new (heap.offered kkt.now (eq w num.#0) j kept.old) }
{
    if w == 0.0 {
        let x = j as u32;
        if ahead(kkt, x, kept[0]) {
            sink(kkt, kept, 0, x);
        }
    }
}

// The features from `from` on are offered, the last one first: where violations rise, the first ones offered are the best, and where they fall or are
// equal, those kept already are.
fn offer_rest(kkt: &[f64], w: &[f64], kept: &mut [u32], from: usize)
    requires { (0 < length kept.old) × (length kept.old ≤ 8192) × (length kkt.now ≡ length w.now) × (length w.now ≤ 8192)
        × (from ≤ length w.now) × heap.Numbers kkt.now w.now × heap.Heap (heap.ahead kkt.now) 0 kept.old
        × order.Same kept.old (def.others kkt.now w.now from) }
    ensures { heap.Heap (heap.ahead kkt.now) 0 kept.new × heap.Chosen kkt.now w.now kept.new }
{
    for j in (from..w.len()).rev() {
        offer(kkt, w[j], kept, j);
    }
}

// The features with zero weight by falling violation, equal ones by lower index, as many as there is room for.
pub fn rank(kkt: &[f64], w: &[f64], ranked: &mut [u32])
    requires { (length kkt.now ≡ length w.now) × (length w.now ≤ 8192)
        × (length ranked.old ≤ length (def.others kkt.now w.now (length w.now))) × heap.Numbers kkt.now w.now }
    ensures { ranked.new ≡ take (length ranked.old) (def.others kkt.now w.now (length w.now)) }
{
    if 0 < ranked.len() {
        let from = keep_first(w, ranked);
        heapify(kkt, ranked);
        offer_rest(kkt, w, ranked, from);
        sort(kkt, ranked);
    }
}
