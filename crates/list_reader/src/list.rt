// Reads a list and replays one record at a time.
ghost use Rattle.std.specs.Prelude.{◌≡◌, ◌<◌, ◌≤◌};
ghost use Rattle.list_reader.specs.ProgressWithin.{ProgressWithin};

use crate::progress::{NoRecord, Progress};
use crate::{Fed, Words, feed, progress};
use std::fmt::Display;
use std::fs::File;
use std::io::Read;
use std::rt::{Env, Files};
use std::{env, io};

// The buffer that a list is read into.
pub type Bytes = [u8; 4096];

// Replays the list whose name is the program's first argument. `compare` says of a record, the first so many of the words, whether the port answers
// as it does.
pub fn replay<
    R: Files<File = File> + Print + Eprint + Env + Alloc,
    F: Fn(&Words, usize) -> Result<bool, NoRecord>,
>(rt: &R, compare: F) -> io::Result<()>
    requires { (words : _) (n : _) → n ≤ 1024 → F.pre compare words n }
{
    let path = env::args(rt)?.nth(1).unwrap_or(String::new(rt.alloc()));
    let mut bytes = [0u8; 4096];
    let mut words = [0u64; 1024];
    let mut p = open(rt, path.as_bytes(), &mut bytes, &mut words);
    while p.left > 0 {
        let compared = compare(&words, p.found);
        p.next(rt, compared, path.as_bytes(), &mut bytes, &mut words);
    }
    Ok(())
}

// Opens the list and reads on to its first record. A list that does not open is over, and standard error says why.
pub fn open<R: Files<File = File> + Print + Eprint>(
    rt: &R,
    path: &[u8],
    bytes: &mut Bytes,
    words: &mut Words,
) -> Progress
    ensures { ProgressWithin result }
{
    let mut p = progress::begin(opened(rt, path));
    if p.file.is_some() {
        read_on(rt, &mut p, path, bytes, words);
    } else {
        over(rt, &mut p);
    }
    p
}

// The list's file, or none where it does not open. std opens a file by a name in UTF-8.
fn opened<R: Files<File = File> + Eprint>(rt: &R, path: &[u8]) -> Option<File> {
    let name = str::from_utf8(path)
        .inspect_err(|error| fail(rt, path, error))
        .ok()?;
    File::open(rt, name)
        .inspect_err(|error| fail(rt, path, error))
        .ok()
}

// Says on standard error what failed, and why.
fn fail(rt: &impl Eprint, path: &[u8], why: impl Display + Drop) {
    if let Ok(name) = str::from_utf8(path) {
        let _ = eprintln!(rt; "{name}: {why}");
    } else {
        let _ = eprintln!(rt; "{path:?}: {why}");
    }
}

impl Progress {
    // Counts the record that was found, and reads on to the one after it.
    pub fn next(
        &mut self,
        rt: &(impl Print + Eprint),
        compared: Result<bool, NoRecord>,
        path: &[u8],
        bytes: &mut Bytes,
        words: &mut Words,
    )
        requires { ProgressWithin self.old × (0 < self.old.left) }
        ensures { ProgressWithin self.new × (self.new.left < self.old.left) }
    {
        self.count(rt, compared);
        read_on(rt, self, path, bytes, words);
    }
}

// The list is over: there is no more to read.
fn over(rt: &impl Print, p: &mut Progress)
    requires { ProgressWithin p.old }
    ensures { ProgressWithin p.new × (p.new.left ≡ 0) }
{
    progress::end(rt, p.file.take(), p.counts);
    p.left = 0;
}

fn take_byte(rt: &impl Print, p: &mut Progress, byte: u8, words: &mut Words)
    requires { ProgressWithin p.old }
    ensures { ProgressWithin p.new × (p.new.left ≡ p.old.left) }
{
    match feed(p.reader, byte, words) {
        Fed::More(reader) => p.go_on(reader, byte),
        Fed::Record(n) => p.line_ended(n),
        Fed::Bad => {
            p.line_ended(0);
            p.count(rt, Err(NoRecord));
        }
    }
}

// Reads once. A read that fails counts as a bad record, so that what was not read is not taken for right; at the end of the list its last
// line ends too, and where that is a record, the next read ends the list.
fn fill(
    rt: &(impl Print + Eprint),
    p: &mut Progress,
    path: &[u8],
    bytes: &mut Bytes,
    words: &mut Words,
)
    requires { ProgressWithin p.old }
    ensures { ProgressWithin p.new × (p.new.left ≤ p.old.left) }
{
    let Some(file) = &mut p.file else {
        fail(rt, path, "not open");
        p.count(rt, Err(NoRecord));
        return over(rt, p);
    };
    match file.read(bytes) {
        Err(error) => {
            fail(rt, path, error);
            p.count(rt, Err(NoRecord));
            over(rt, p);
        }
        Ok(0) => {
            take_byte(rt, p, b'\n', words);
            if p.found == 0 {
                over(rt, p);
            }
        }
        Ok(got) => p.filled(got),
    }
}

// One byte, or one read where the buffer is used up.
fn turn(
    rt: &(impl Print + Eprint),
    p: &mut Progress,
    path: &[u8],
    bytes: &mut Bytes,
    words: &mut Words,
)
    requires { ProgressWithin p.old × (0 < p.old.left) }
    ensures { ProgressWithin p.new × (p.new.left < p.old.left) }
{
    p.left -= 1;
    let at = p.at;
    if at < p.end {
        p.at += 1;
        take_byte(rt, p, bytes[at], words);
    } else {
        fill(rt, p, path, bytes, words);
    }
}

// Reads on until a record is whole, which is then found, or the list is over. A bad line is counted on the way.
fn read_on(
    rt: &(impl Print + Eprint),
    p: &mut Progress,
    path: &[u8],
    bytes: &mut Bytes,
    words: &mut Words,
)
    requires { ProgressWithin p.old × (0 < p.old.left) }
    ensures { ProgressWithin p.new × (p.new.left < p.old.left) }
{
    turn(rt, p, path, bytes, words);
    while p.found == 0 && p.left > 0 {
        turn(rt, p, path, bytes, words);
    }
}
