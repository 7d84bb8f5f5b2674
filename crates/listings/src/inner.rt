// The parts of a listing. Each goes into the buffer at a place that is given, and the place behind it comes back.
ghost use Rattle.std.specs.Prelude.{◌≡◌, leb, length};
ghost use Rattle.doubles.specs.Answer.{number};
ghost use Rattle.doubles.specs.Num.{◌and◌};
ghost use Rattle.listings.specs.Listing as lines;
ghost use Rattle.listings.specs.Inner.Wrote.{Room, Wrote};

use definition::Report;
use doubles::Refusal;

// The program's sizes.
pub fn sizes_fit(w: &[f64], entries: &[f64]) -> bool
    ensures { result ≡ ◌and◌ (leb (length w.now) 32) (leb (length entries.now) 256) }
{
    w.len() <= 32 && entries.len() <= 256
}

// ---- texts and numbers

fn put_text(text: &[u8], out: &mut [u8], at: usize) -> usize
    requires { Room out.old at text.now }
    ensures { Wrote out.old out.new at result text.now }
{
    let end = at + text.len();
    out[at..end].copy_from_slice(text);
    end
}

// In decimal; 20 digits hold a u64.
fn put_decimal(n: usize, out: &mut [u8], at: usize) -> usize
    requires { Room out.old at (lines.decimal n) }
    ensures { Wrote out.old out.new at result (lines.decimal n) }
{
    let mut text = [0u8; 20];
    let k = io::decimal(n as u64, &mut text);
    put_text(&text[..k], out, at)
}

// A NaN is tested first: its bits are undefined.
fn bits_of(x: f64) -> u64
    ensures { result ≡ lines.bits_of x }
{
    if x.is_nan() {
        0x7ff8_0000_0000_0000
    } else {
        x.to_bits()
    }
}

// A double's bits, as 16 hex digits.
fn put_bits(x: f64, out: &mut [u8], at: usize) -> usize
    requires { Room out.old at (lines.hex16 (lines.bits_of x)) }
    ensures { Wrote out.old out.new at result (lines.hex16 (lines.bits_of x)) }
{
    let mut text = [0u8; 16];
    let k = io::hex(bits_of(x), 16, &mut text);
    put_text(&text[..k], out, at)
}

// ---- lines

fn end_line(out: &mut [u8], at: usize) -> usize
    requires { Room out.old at lines.newline }
    ensures { Wrote out.old out.new at result lines.newline }
{
    put_text(b"\n", out, at)
}

fn put_labelled(name: &[u8], n: usize, out: &mut [u8], at: usize) -> usize
    requires { Room out.old at (lines.labelled name.now n) }
    ensures { Wrote out.old out.new at result (lines.labelled name.now n) }
{
    let behind = put_text(name, out, at);
    put_decimal(n, out, behind)
}

// As "epochs 11".
fn put_count_line(name: &[u8], n: usize, out: &mut [u8], at: usize) -> usize
    requires { Room out.old at (lines.count_line name.now n) }
    ensures { Wrote out.old out.new at result (lines.count_line name.now n) }
{
    let behind = put_labelled(name, n, out, at);
    end_line(out, behind)
}

// As "violation 0000000000000000".
fn put_bits_line(name: &[u8], x: f64, out: &mut [u8], at: usize) -> usize
    requires { Room out.old at (lines.bits_line name.now x) }
    ensures { Wrote out.old out.new at result (lines.bits_line name.now x) }
{
    let named = put_text(name, out, at);
    let behind = put_bits(x, out, named);
    end_line(out, behind)
}

// As "w 0 3ff0000000000000".
fn put_entry_line(name: &[u8], i: usize, x: f64, out: &mut [u8], at: usize) -> usize
    requires { Room out.old at (lines.entry_line name.now i x) }
    ensures { Wrote out.old out.new at result (lines.entry_line name.now i x) }
{
    let behind = put_labelled(name, i, out, at);
    put_bits_line(b" ", x, out, behind)
}

// A line for each entry.
fn put_entry_lines(name: &[u8], xs: &[f64], out: &mut [u8], at: usize) -> usize
    requires { Room out.old at (lines.entry_lines name.now xs.now (length xs.now)) }
    ensures { Wrote out.old out.new at result (lines.entry_lines name.now xs.now (length xs.now)) }
{
    let mut here = at;
    for (i, x) in xs.iter().enumerate() {
        here = put_entry_line(name, i, *x, out, here);
    }
    here
}

fn put_report(report: Report, out: &mut [u8], at: usize) -> usize
    requires { Room out.old at (lines.report_lines report) }
    ensures { Wrote out.old out.new at result (lines.report_lines report) }
{
    let a = put_count_line(b"status ", report.status.number() as usize, out, at);
    let b = put_bits_line(b"violation ", report.violation, out, a);
    let c = put_count_line(b"iterations ", report.iterations, out, b);
    let d = put_count_line(b"epochs ", report.epochs, out, c);
    put_count_line(b"extrapolations ", report.extrapolations, out, d)
}

// ---- the whole text, from place 0 on

pub fn put_listing(report: Report, w: &[f64], entries: &[f64], out: &mut [u8]) -> usize
    requires { Room out.old 0 (lines.listing report w.now entries.now) }
    ensures { Wrote out.old out.new 0 result (lines.listing report w.now entries.now) }
{
    let a = put_report(report, out, 0);
    let b = put_entry_lines(b"w ", w, out, a);
    put_entry_lines(b"fit ", entries, out, b)
}

pub fn put_refusal(refusal: Refusal, out: &mut [u8]) -> usize
    requires { Room out.old 0 (lines.refused_line (number refusal.reason) refusal.place) }
    ensures { Wrote out.old out.new 0 result (lines.refused_line (number refusal.reason) refusal.place) }
{
    let behind = put_labelled(b"refused ", refusal.number() as usize, out, 0);
    put_count_line(b" at ", refusal.place, out, behind)
}
