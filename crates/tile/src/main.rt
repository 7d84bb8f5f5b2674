// Reads a problem file on standard input and prints the listing of its fit, or the line of its refusal.
#![tactic(auto)]

use std::io;
use std::io::{Read, Write};

fn main(rt: HostRuntime) -> io::Result<()> {
    let mut file = Vec::new(rt.alloc());
    rt.stdin().take(65536).read_to_end(&mut file)?;
    let mut out = [0u8; 8192];
    match answers::answer(file.as_slice(), &mut out) {
        Err(_) => Ok(()),
        Ok(n) => rt.stdout().write_all(&out[..n]),
    }
}
