// The parts of a record: arrays, each behind its count. A part that runs past the words ends where no record does, so a record is whole if
// it ends where its last part says.
ghost use Rattle.std.specs.Prelude.{◌≡◌, ◌+◌, ◌≤◌, length, take};
ghost use Rattle.list_reader.specs.Within.{Within};

use crate::{Words, same};
use doubles::double;
use penalties::separable::Penalty;

// Room for any array of a record.
pub type Doubles = [f64; 1024];

pub type Indices = [u32; 1024];

// An array of a record: where it begins, how many words it has, and where the next part begins.
#[derive(Clone, Copy, Drop)]
pub struct Part {
    pub at: usize,
    pub count: usize,
    pub next: usize,
}

// The array whose count is word `at`.
pub fn part_at(words: &Words, at: usize) -> Part
    ensures { Within result }
{
    let nothing = Part {
        at: 0,
        count: 0,
        next: 1025,
    };
    if 1023 < at {
        return nothing;
    }
    let count = words[at] as usize;
    if 1023 - at < count {
        return nothing;
    }
    Part {
        at: at + 1,
        count,
        next: at + 1 + count,
    }
}

// The `count` words from `at` on, with no count before them.
pub fn part_of(at: usize, count: usize) -> Part
    requires { at + count ≤ 1024 }
    ensures { Within result }
{
    Part {
        at,
        count,
        next: at + count,
    }
}

// The penalty of three words: kind, alpha and a second number. A kind that is neither 0 nor 1 is MCP.
pub fn penalty_at(words: &Words, at: usize) -> Penalty
    requires { at + 3 ≤ 1024 }
{
    let alpha = double(words[at + 1]);
    let second = double(words[at + 2]);
    match words[at] {
        0 => Penalty::L1 { alpha },
        1 => Penalty::L1PlusL2 {
            alpha,
            l1_ratio: second,
        },
        _ => Penalty::MCP {
            alpha,
            gamma: second,
        },
    }
}

// Whether every word of a part fits 32 bits, as an index must.
pub fn all_narrow(words: &Words, p: Part) -> bool
    requires { Within p }
{
    words[p.at..p.at + p.count]
        .iter()
        .all(|word| *word <= 0xffff_ffff)
}

fn narrow(word: u64) -> u32 {
    (word % 0x1_0000_0000) as u32
}

// The number that each word of a part stands for, and `none` behind them. That the first `p.count` are `p.count` many is said for `&r[..count]`.
fn numbers_of<T: Copy + Drop, F: Fn(u64) -> T>(
    words: &Words,
    p: Part,
    none: T,
    number: F,
) -> [T; 1024]
    requires within { Within p }
    requires is_always_callable { F.IsAlwaysCallable number }
    ensures { (p.count ≤ length result) × (p.count ≡ length (take p.count result)) }
{
    let mut r = [none; 1024];
    for i in 0..p.count {
        r[i] = number(words[p.at + i]);
    }
    r
}

// The low 32 bits of each word.
pub fn indices_of(words: &Words, p: Part) -> Indices
    requires { Within p }
    ensures { (p.count ≤ length result) × (p.count ≡ length (take p.count result)) }
{
    numbers_of(words, p, 0, |word| narrow(word))
}

// The double of each word.
pub fn doubles_of(words: &Words, p: Part) -> Doubles
    requires { Within p }
    ensures { (p.count ≤ length result) × (p.count ≡ length (take p.count result)) }
{
    numbers_of(words, p, 0.0, |word| double(word))
}

// Whether a buffer's first `p.count` places are the doubles of a part.
pub fn same_doubles(buffer: &Doubles, words: &Words, p: Part) -> bool
    requires { Within p }
{
    let part = &words[p.at..p.at + p.count];
    buffer
        .iter()
        .zip(part)
        .all(|(x, word)| same(*x, double(*word)))
}
