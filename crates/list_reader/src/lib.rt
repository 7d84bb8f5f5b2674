// Reads the lists of an oracle's answers. A line that begins with `#` is a comment; any other is a record, hex words with spaces between
// them. A double is a word, its bits.
#![tactic(auto)]

ghost use Rattle.std.specs.Prelude.{◌≡◌, ◌≤◌, true, length};
ghost use Rattle.list_reader.specs.Count.{count_of};

pub mod list;
pub mod outcomes;
pub mod parts;
pub mod progress;

// The words of a record, and behind them those of earlier lines. No made record has more.
pub type Words = [u64; 1024];

// Whether two doubles are the same: both NaN, or equal with a zero's sign, which only a division shows.
pub fn same(a: f64, b: f64) -> bool
    ensures only { result ≡ true → a ≡ b }
    ensures all { a ≡ b → result ≡ true }
{
    if a.is_nan() {
        b.is_nan()
    } else if a != 0.0 {
        a == b
    } else {
        b == 0.0 && 1.0 / a == 1.0 / b
    }
}

// What a line is as far as it was read.
#[derive(Clone, Copy, Drop)]
pub enum Line {
    Words,
    // Only the line's end counts, here and below.
    Comment,
    // The line has a fault.
    Bad,
}

// A line as far as it was read: the word begun and how many digits it has, how many words were stored, and what the line is.
#[derive(Clone, Copy, Drop)]
pub struct Reader {
    pub word: u64,
    pub digits: u32,
    pub count: usize,
    pub line: Line,
}

// What a byte led to.
#[derive(Drop)]
pub enum Fed {
    // The line goes on, or it ended and was empty or a comment.
    More(Reader),
    // The line ended: a record of so many words. The next byte wants a new reader.
    Record(usize),
    // The line ended and is no record. The next byte wants a new reader.
    Bad,
}

// At the start of a line.
pub fn start() -> Reader
    ensures { result.count ≡ 0 }
{
    Reader {
        word: 0,
        digits: 0,
        count: 0,
        line: Line::Words,
    }
}

fn spoilt(r: Reader) -> Reader
    ensures { result.count ≡ r.count }
{
    Reader {
        count: r.count,
        line: Line::Bad,
        ..start()
    }
}

fn commented(r: Reader) -> Reader
    ensures { result.count ≡ r.count }
{
    Reader {
        count: r.count,
        line: Line::Comment,
        ..start()
    }
}

// What a hex digit counts, or none for any other byte.
fn digit(byte: u8) -> Option<u8> {
    match byte {
        b'0'..=b'9' => Some(byte - b'0'),
        b'a'..=b'f' => Some(byte - b'a' + 10),
        b'A'..=b'F' => Some(byte - b'A' + 10),
        _ => None,
    }
}

// One more digit of the word begun. At 16 digits there is no room for another.
fn with_digit(r: Reader, byte: u8) -> Reader
    ensures { result.count ≡ r.count }
{
    match digit(byte) {
        Some(value) if r.digits < 16 => Reader {
            word: r.word << 4 | value as u64,
            digits: r.digits + 1,
            ..r
        },
        _ => spoilt(r),
    }
}

// Stores the word begun, if there is one. A line with more words than there is room for is no record.
fn with_word(r: Reader, words: &mut [u64]) -> Reader
    ensures { r.count ≤ length words.old → result.count ≤ length words.old }
{
    if r.digits == 0 {
        return r;
    }
    let count = r.count;
    if count < words.len() {
        words[count] = r.word;
        Reader {
            word: 0,
            digits: 0,
            count: count + 1,
            ..r
        }
    } else {
        spoilt(r)
    }
}

fn ended(r: Reader, words: &mut [u64]) -> Fed
    ensures { r.count ≤ length words.old → count_of result ≤ length words.old }
{
    let last = with_word(r, words);
    match last.line {
        Line::Bad => Fed::Bad,
        _ if last.count == 0 => Fed::More(start()),
        _ => Fed::Record(last.count),
    }
}

// Takes the next byte of a list; finished words go to the places of `words` in order. Begin with `start()`.
pub fn feed(r: Reader, byte: u8, words: &mut [u64]) -> Fed
    ensures { r.count ≤ length words.old → count_of result ≤ length words.old }
{
    if byte == b'\n' {
        return ended(r, words);
    }
    if !matches!(r.line, Line::Words) {
        return Fed::More(r);
    }
    if byte == b' ' || byte == b'\r' {
        return Fed::More(with_word(r, words));
    }
    if byte == b'#' && r.count == 0 && r.digits == 0 {
        return Fed::More(commented(r));
    }
    Fed::More(with_digit(r, byte))
}
