// Numbers in a byte slice, little-endian.
ghost use Rattle.std.specs.Prelude.{◌≡◌, ◌+◌, ◌*◌, ◌≤◌, ◌<◌, length};
ghost use Rattle.doubles.specs.Buffer.{put};
ghost use Rattle.files.specs.Bytes as def;

use doubles::double;

pub fn u16_at(file: &[u8], at: usize) -> usize
    requires { (at + 2 ≤ length file.now) × (length file.now ≤ 49152) }
    ensures { (result ≡ def.u16 file.now at) × (result < 65536) }
{
    u16::from_le_bytes([file[at], file[at + 1]]) as usize
}

pub fn u32_at(file: &[u8], at: usize) -> usize
    requires { (at + 4 ≤ length file.now) × (length file.now ≤ 49152) }
    ensures { (result ≡ def.u32 file.now at) × (result < 4294967296) }
{
    u32::from_le_bytes([file[at], file[at + 1], file[at + 2], file[at + 3]]) as usize
}

fn u64_at(file: &[u8], at: usize) -> u64
    requires { (at + 8 ≤ length file.now) × (length file.now ≤ 49152) }
    ensures { result ≡ def.u64 file.now at }
{
    u32_at(file, at) as u64 + 4294967296 * (u32_at(file, at + 4) as u64)
}

pub fn f64_at(file: &[u8], at: usize) -> f64
    requires { (at + 8 ≤ length file.now) × (length file.now ≤ 49152) }
    ensures { result ≡ def.f64 file.now at }
{
    double(u64_at(file, at))
}

// The doubles from place `from` of the file on, into a buffer from place `to` on.
pub fn put_doubles(file: &[u8], from: usize, many: usize, buf: &mut [f64], to: usize)
    requires { (from + 8 * many ≤ length file.now) × (length file.now ≤ 49152) × (to + many ≤ length buf.old) }
    ensures { buf.new ≡ put buf.old to (def.doubles file.now from many) }
{
    for i in 0..many {
        buf[to + i] = f64_at(file, from + 8 * i);
    }
}

// The same for u32 numbers.
pub fn put_indices(file: &[u8], from: usize, many: usize, buf: &mut [u32], to: usize)
    requires { (from + 4 * many ≤ length file.now) × (length file.now ≤ 49152) × (to + many ≤ length buf.old) }
    ensures { buf.new ≡ put buf.old to (def.indices file.now from many) }
{
    for i in 0..many {
        buf[to + i] = u32_at(file, from + 4 * i) as u32;
    }
}
