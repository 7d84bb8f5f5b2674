// How far a replay of a list has come, and what it prints. A program adds only how it replays a record.
ghost use Rattle.std.specs.Prelude.{◌≡◌, ◌<◌, ◌≤◌};
ghost use Rattle.list_reader.specs.ProgressWithin.{ProgressWithin};

use crate::{Reader, start};
use std::fs::File;

// No record: an unknown code or kind, or not the code's number of words.
#[derive(Clone, Copy, Drop)]
pub struct NoRecord;

// The records so far, and those of them that differ or are bad.
#[derive(Clone, Copy, Drop)]
pub struct Tally {
    pub cases: u64,
    pub differ: u64,
}

// How far a list was read.
#[derive(Drop)]
pub struct Progress {
    // The list's file, none where it did not open or is closed.
    pub file: Option<File>,
    // How many turns may follow, 0 where the list is over. Nothing says that a file ends, so they are counted down from a number that no run
    // uses up.
    pub left: u64,
    // The bytes of the buffer from `at` to `end` are not taken yet.
    pub at: usize,
    pub end: usize,
    // How many words the record has that was read and is not counted yet, 0 where there is none.
    pub found: usize,
    // The line begun and its number.
    pub reader: Reader,
    pub line: u64,
    pub counts: Tally,
}

// Before the first byte.
pub fn begin(file: Option<File>) -> Progress
    ensures { ProgressWithin result × (0 < result.left) }
{
    Progress {
        file,
        left: u64::MAX,
        at: 0,
        end: 0,
        found: 0,
        reader: start(),
        line: 1,
        counts: Tally {
            cases: 0,
            differ: 0,
        },
    }
}

// A count goes up by one. It wraps and needs no bound, since no list has 2 ^ 64 lines.
pub fn one_more(n: u64) -> u64 {
    std::num::wrapping_add_u64(n, 1)
}

// A print that fails is let go, here and below.
fn print_line(rt: &impl Print, line: u64, what: &str) {
    let _ = print!(rt; "line {line}{what}");
}

// Names a record that differs or is bad, by its line. Only the first twenty are named.
fn name_wrong(rt: &impl Print, p: &Progress, what: &str) {
    if p.counts.differ < 20 {
        print_line(rt, p.line, what);
    }
}

impl Progress {
    // One more record. What is wrong of it is counted apart.
    fn add_record(&mut self)
        requires { ProgressWithin self.old }
        ensures { ProgressWithin self.new × (self.new.left ≡ self.old.left) }
    {
        self.line = one_more(self.line);
        self.counts.cases = one_more(self.counts.cases);
        self.found = 0;
    }

    // Names and counts a record that differs or is bad.
    fn add_wrong(&mut self, rt: &impl Print, what: &str)
        requires { ProgressWithin self.old }
        ensures { ProgressWithin self.new × (self.new.left ≡ self.old.left) }
    {
        name_wrong(rt, self, what);
        self.counts.differ = one_more(self.counts.differ);
    }

    // A line ended that was to be a record. `compared` says whether the port answers as the record does.
    pub fn count(&mut self, rt: &impl Print, compared: Result<bool, NoRecord>)
        requires { ProgressWithin self.old }
        ensures { ProgressWithin self.new × (self.new.left ≡ self.old.left) }
    {
        match compared {
            Ok(true) => {}
            Ok(false) => self.add_wrong(rt, " differs\n"),
            Err(NoRecord) => self.add_wrong(rt, " bad\n"),
        }
        self.add_record();
    }

    // The next byte is looked for in the buffer's first `end` places.
    pub fn filled(&mut self, end: usize)
        requires { ProgressWithin self.old × (end ≤ 4096) }
        ensures { ProgressWithin self.new × (self.new.left ≡ self.old.left) }
    {
        self.at = 0;
        self.end = end;
    }

    // A line goes on, or one that is no record ended.
    pub fn go_on(&mut self, reader: Reader, byte: u8)
        requires { ProgressWithin self.old × (reader.count ≤ 1024) }
        ensures { ProgressWithin self.new × (self.new.left ≡ self.old.left) }
    {
        if byte == b'\n' {
            self.line = one_more(self.line);
        }
        self.reader = reader;
    }

    // A line ended that was to be a record, of `found` words; 0 says that it is bad.
    pub fn line_ended(&mut self, found: usize)
        requires { ProgressWithin self.old × (found ≤ 1024) }
        ensures { ProgressWithin self.new × (self.new.left ≡ self.old.left) }
    {
        self.reader = start();
        self.found = found;
    }
}

// The last line: how many records there were, and how many of them differ or are bad.
fn print_counts(rt: &impl Print, c: Tally) {
    let Tally { cases, differ } = c;
    let _ = println!(rt; "{cases} cases, {differ} differ");
}

// The list is over: it is closed and the counts are printed. Of a list that did not open there is nothing to say.
pub fn end(rt: &impl Print, file: Option<File>, counts: Tally) {
    if let Some(file) = file {
        drop(file);
        print_counts(rt, counts);
    }
}
