// Replays a list of the oracle's answers through the designs and the datafit. The list's name is the first argument.
#![tactic(auto)]

mod arrays;
mod asked;
mod record;

use list_reader::list;
use std::io;

fn main(rt: HostRuntime) -> io::Result<()> {
    list::replay(&rt, record::replay)
}
