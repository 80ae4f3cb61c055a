// Prints the plan of the job file on standard input, or why there is none.
#![tactic(auto)]

use std::io;
use std::io::{Read, Write};
use text::{ENOUGH, MAX_TEXT};

fn main(rt: HostRuntime) -> io::Result<()> {
    let mut job = [0u8; ENOUGH];
    let mut input = rt.reader();
    // A loop, since read_to_end needs a heap and read_exact fails on a shorter input.
    let mut n: usize = 0;
    while n < ENOUGH {
        let more = input.read(&mut job[n..])?;
        if more == 0 {
            break;
        }
        n += more;
    }
    let mut out = [0u8; MAX_TEXT];
    let len = text::list_job(&job[..n], &mut out);
    io::writer(&rt).write_all(&out[..len])
}
