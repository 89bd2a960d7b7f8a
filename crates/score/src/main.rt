// Reads a page from standard input.
#![tactic(auto)]

use std::io;
use std::io::Read;

// A page longer than 65,535 bytes is told by its first 65,536.
const MOST: usize = 65536;

// The first bytes of the input, as many as there is room for. Each read asks for all the room that is left, which `read_to_end` does
// not: where the input comes in packets, what a read leaves of one may be lost.
fn fill(rt: &HostRuntime, room: &mut [u8]) -> io::Result<usize> {
    let mut input = rt.stdin();
    let mut filled = 0;
    for _ in 0..room.len() {
        if filled >= room.len() {
            break;
        }
        let got = input.read(&mut room[filled..])?;
        if got == 0 {
            break;
        }
        filled += got;
    }
    Ok(filled)
}

fn main(rt: HostRuntime) -> io::Result<()> {
    let mut page = vec![in rt.alloc(); 0u8; MOST]?;
    let size = fill(&rt, page.as_mut_slice())?;
    println!(rt; "page of {size} bytes")
}
