// Problem files on a byte slice: fields of one-byte tag, two-byte length and body, all little-endian.
#![tactic(auto)]

ghost use Rattle.std.specs.Prelude.{◌≡◌, true, ◌+◌, ◌≤◌, ◌<◌, leb, length};
ghost use Rattle.doubles.specs.Answer.{outcome_of};
ghost use Rattle.files.specs.Bytes.{byte};
ghost use Rattle.files.specs.Problem as def;
ghost use Rattle.files.specs.Call as call;
ghost use Rattle.files.specs.Inner.Places as here;

use crate::inner::{f64_at, put_doubles, put_indices, u16_at, u32_at};
use definition::Settings;
use designs::{Layout, Shape};
use doubles::{Reason, Refusal};
use penalties::separable::Penalty;

pub mod inner;

// How many elements each array of a problem has.
#[derive(Clone, Copy, PartialEq, Eq, Debug, Drop)]
pub struct Counts {
    pub targets: usize,
    pub values: usize,
    pub starts: usize,
    pub rows: usize,
}

// What was read: up to place `at`, the last field with tag `tag`; and how many elements each array has.
#[derive(Clone, Copy, Drop)]
pub struct Cursor {
    pub at: usize,
    pub tag: usize,
    pub counts: Counts,
}

// The numbers of a problem, and how many elements each of its arrays has.
#[derive(Clone, Copy, Drop)]
pub struct Sizes {
    pub shape: Shape,
    pub settings: Settings,
    pub counts: Counts,
}

// ---- the header

// What a header says.
#[derive(Clone, Copy, Drop)]
pub struct Header {
    pub shape: Shape,
    pub settings: Settings,
}

// The layout with this code.
fn layout_of(code: u8) -> Option<Layout>
    ensures { result ≡ here.layout_by code }
{
    match code {
        0 => Some(Layout::Dense),
        1 => Some(Layout::Csc),
        _ => None,
    }
}

// Whether a switch with this code is on.
fn switch_of(code: u8) -> Option<bool>
    ensures { result ≡ here.switch_by code }
{
    match code {
        0 => Some(false),
        1 => Some(true),
        _ => None,
    }
}

// The shape, if the layout's code is one and the sizes are the program's.
fn shape_of(file: &[u8]) -> Option<Shape>
    requires { (51 ≤ length file.now) × (length file.now ≤ 49152) }
    ensures { result ≡ here.some_if (here.good_shape file.now) (def.header_shape file.now) }
{
    let layout = layout_of(file[11])?;
    let n = u32_at(file, 3);
    let p = u32_at(file, 7);
    if 256 < n || 32 < p {
        return None;
    }
    Some(Shape { layout, n, p })
}

// The penalty, if its code is one.
fn penalty_of(file: &[u8]) -> Option<Penalty>
    requires { (51 ≤ length file.now) × (length file.now ≤ 49152) }
    ensures { result ≡ here.some_if (leb (byte file.now 12) 2) (def.header_penalty file.now) }
{
    let alpha = f64_at(file, 35);
    let second = f64_at(file, 43);
    match file[12] {
        0 => Some(Penalty::L1 { alpha }),
        1 => Some(Penalty::L1PlusL2 {
            alpha,
            l1_ratio: second,
        }),
        2 => Some(Penalty::MCP {
            alpha,
            gamma: second,
        }),
        _ => None,
    }
}

// The settings, if the codes of the penalty and of extrapolation are some.
fn settings_of(file: &[u8]) -> Option<Settings>
    requires { (51 ≤ length file.now) × (length file.now ≤ 49152) }
    ensures { result ≡ here.some_if (here.good_settings file.now) (def.header_settings file.now) }
{
    let penalty = penalty_of(file)?;
    let extrapolate = switch_of(file[13])?;
    Some(Settings {
        penalty,
        tolerance: f64_at(file, 27),
        start: u32_at(file, 15),
        iterations: u32_at(file, 19),
        epochs: u32_at(file, 23),
        extrapolate,
        depth: file[14] as usize,
    })
}

// The header, if the first field is one with codes and sizes that the program takes.
fn header_of(file: &[u8]) -> Option<Header>
    requires { length file.now ≤ 49152 }
    ensures { result ≡ here.header_in file.now }
{
    if !is_whole(file, 0) || file[0] != 1 || u16_at(file, 1) != 48 {
        return None;
    }
    let shape = shape_of(file)?;
    let settings = settings_of(file)?;
    Some(Header { shape, settings })
}

// ---- the other fields

// Whether a field begins at `at` that is not cut.
fn is_whole(file: &[u8], at: usize) -> bool
    requires { (at ≤ length file.now) × (length file.now ≤ 49152) }
    ensures { result ≡ def.whole file.now at }
{
    at + 3 <= file.len() && at + 3 + u16_at(file, at + 1) <= file.len()
}

// Tags 2 and 3, and for a sparse design 4 and 5. A tag is the byte that a file has, since its definition is over bytes.
fn is_known(layout: Layout, tag: usize) -> bool
    ensures { result ≡ here.known_by layout tag }
{
    let last = match layout {
        Layout::Dense => 3,
        Layout::Csc => 5,
    };
    2 <= tag && tag <= last
}

// Doubles have 8 bytes, indices 4.
fn size_of(tag: usize) -> usize
    ensures { result ≡ def.element_size tag }
{
    if tag <= 3 { 8 } else { 4 }
}

// Whether `many` more stored values stay within the program's size.
fn is_stored(tag: usize, values: usize, many: usize) -> bool
    requires { (values ≤ 4096) × (many ≤ 8192) }
    ensures { result ≡ def.stored tag values many }
{
    tag != 3 || values + many <= 4096
}

// Whether a field behind the header, which is not cut, is one that may come next.
fn is_field(file: &[u8], layout: Layout, c: Cursor) -> bool
    requires { (def.whole file.now c.at ≡ true) × (length file.now ≤ 49152) × (c.counts.values ≤ 4096)
        × (layout ≡ (def.header_shape file.now).layout) }
    ensures { result ≡ def.good_field file.now c.at c.tag c.counts.values }
{
    let tag = file[c.at] as usize;
    let many = u16_at(file, c.at + 1);
    let no_rest = many % size_of(tag) == 0;
    is_known(layout, tag) && c.tag <= tag && no_rest && is_stored(tag, c.counts.values, many / 8)
}

fn is_good(file: &[u8], layout: Layout, c: Cursor) -> bool
    requires { (c.at ≤ length file.now) × (length file.now ≤ 49152) × (c.counts.values ≤ 4096) × (0 < c.at)
        × (layout ≡ (def.header_shape file.now).layout) }
    ensures { result ≡ def.good_at file.now c.at c.tag c.counts.values }
{
    is_whole(file, c.at) && is_field(file, layout, c)
}

// Behind the field at the cursor.
fn advance(file: &[u8], c: Cursor) -> Cursor
    requires { (c.at + 3 ≤ length file.now) × (length file.now ≤ 49152)
        × (c.counts.targets ≤ 6144) × (c.counts.values ≤ 4096) × (c.counts.starts ≤ 12288) × (c.counts.rows ≤ 12288) }
    ensures { result ≡ here.advanced file.now c }
{
    let tag = file[c.at] as usize;
    let many = u16_at(file, c.at + 1);
    Cursor {
        at: c.at + 3 + many,
        tag,
        counts: Counts {
            targets: grown(c.counts.targets, tag == 2, many / 8),
            values: grown(c.counts.values, tag == 3, many / 8),
            starts: grown(c.counts.starts, tag == 4, many / 4),
            rows: grown(c.counts.rows, tag == 5, many / 4),
        },
    }
}

fn grown(count: usize, gains: bool, many: usize) -> usize
    requires { (count ≤ 12288) × (many ≤ 16384) }
    ensures { result ≡ here.grown_by count gains many }
{
    if gains { count + many } else { count }
}

// The elements of the field at the cursor, behind those of its array that were read before, if they are to be kept.
fn store(
    file: &[u8],
    keep: bool,
    c: Cursor,
    targets: &mut [f64],
    values: &mut [f64],
    starts: &mut [u32],
    rows: &mut [u32],
)
    requires { (def.whole file.now c.at ≡ true) × (length file.now ≤ 49152)
        × (keep ≡ true → here.Space file.now c (length targets.old) (length values.old) (length starts.old) (length rows.old)) }
    ensures { (targets.new ≡ here.stored_in keep file.now c.at 2 targets.old c.counts.targets)
        × (values.new ≡ here.stored_in keep file.now c.at 3 values.old c.counts.values)
        × (starts.new ≡ here.indexed_in keep file.now c.at 4 starts.old c.counts.starts)
        × (rows.new ≡ here.indexed_in keep file.now c.at 5 rows.old c.counts.rows) }
{
    if !keep {
        return;
    }
    let many = u16_at(file, c.at + 1);
    let body = c.at + 3;
    match file[c.at] {
        2 => put_doubles(file, body, many / 8, targets, c.counts.targets),
        3 => put_doubles(file, body, many / 8, values, c.counts.values),
        4 => put_indices(file, body, many / 4, starts, c.counts.starts),
        5 => put_indices(file, body, many / 4, rows, c.counts.rows),
        _ => {}
    }
}

// Reads the fields behind a header while the next one is good, and keeps the arrays if `keep` says so.
fn read_fields(
    file: &[u8],
    layout: Layout,
    keep: bool,
    targets: &mut [f64],
    values: &mut [f64],
    starts: &mut [u32],
    rows: &mut [u32],
) -> Cursor
    requires { here.Headed file.now × (length file.now ≤ 49152) × (layout ≡ (def.header_shape file.now).layout)
        × (keep ≡ true → here.Suffice (length targets.old) (length values.old) (length starts.old) (length rows.old)) }
    ensures { here.Counted file.now result (def.read_all file.now)
        × (targets.new ≡ here.kept_if keep targets.old (def.read_all file.now).targets)
        × (values.new ≡ here.kept_if keep values.old (def.read_all file.now).values)
        × (starts.new ≡ here.kept_if keep starts.old (def.read_all file.now).starts)
        × (rows.new ≡ here.kept_if keep rows.old (def.read_all file.now).rows) }
{
    let mut c = Cursor {
        at: 51,
        tag: 1,
        counts: Counts {
            targets: 0,
            values: 0,
            starts: 0,
            rows: 0,
        },
    };
    while is_good(file, layout, c) {
        store(file, keep, c, targets, values, starts, rows);
        c = advance(file, c);
    }
    c
}

// ---- the call

fn has_room(targets: &[f64], values: &[f64], starts: &[u32], rows: &[u32]) -> bool
    ensures { result ≡ call.places_suffice (call.places targets.now values.now starts.now rows.now) }
{
    6144 <= targets.len() && 4096 <= values.len() && 12288 <= starts.len() && 12288 <= rows.len()
}

// The problem of a file, its arrays in the first places of the lent ones.
pub fn read(
    file: &[u8],
    targets: &mut [f64],
    values: &mut [f64],
    starts: &mut [u32],
    rows: &mut [u32],
) -> Result<Sizes, Refusal>
    ensures { let lent = call.places targets.old values.old starts.old rows.old in
        (outcome_of result ≡ call.read_call file.now lent)
        × (call.places targets.new values.new starts.new rows.new ≡ call.read_left file.now lent)
        × call.Inside (outcome_of result) }
{
    if 49152 < file.len() {
        return Err(Reason::File.at(49152));
    }
    let Some(Header { shape, settings }) = header_of(file) else {
        return Err(Reason::File.at(0));
    };
    // Once to see that the file is good and nothing has to be refused, and then once more to keep its arrays.
    let c = read_fields(file, shape.layout, false, targets, values, starts, rows);
    if c.at != file.len() {
        return Err(Reason::File.at(c.at));
    }
    if !has_room(targets, values, starts, rows) {
        return Err(Reason::Room.at(0));
    }
    let d = read_fields(file, shape.layout, true, targets, values, starts, rows);
    Ok(Sizes {
        shape,
        settings,
        counts: d.counts,
    })
}
