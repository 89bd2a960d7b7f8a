// Reads, probes and writes of each store, and of piles of them, one to a line.
#![tactic(auto)]

mod nowhere;

use nowhere::Nowhere;
use refusal::Refusal;
use std::fmt::Display;
use std::io;
use stores::bytes::Bytes;
use stores::fence::Fence;
use stores::split::Split;
use stores::text::Text;
use stores::window::Window;
use stores::words::Words;
use stores::{ReadStore, WriteStore};

// What a call answers at each address.
fn answers<T: Display + Drop, F: FnMut(u16) -> Result<T, Refusal> + Drop>(
    rt: &HostRuntime,
    name: &str,
    addresses: &[u16],
    mut call: F,
) -> io::Result<()>
    requires { F.IsAlwaysCallable call }
{
    for at in addresses {
        match call(*at) {
            Ok(answer) => println!(rt; "  {name} {at}: {answer}")?,
            Err(refusal) => println!(rt; "  {name} {at}: {refusal}")?,
        }
    }
    Ok(())
}

fn reads<S: ReadStore>(rt: &HostRuntime, store: &S, addresses: &[u16]) -> io::Result<()> {
    answers(rt, "read", addresses, |at| store.read(at))
}

fn probes<S: WriteStore>(rt: &HostRuntime, store: &S, addresses: &[u16]) -> io::Result<()> {
    answers(
        rt,
        "probe",
        addresses,
        |at| store.probe(at).map(|()| "done"),
    )
}

// Writes the address plus 1000 to each address.
fn writes<S: WriteStore>(rt: &HostRuntime, store: &mut S, addresses: &[u16]) -> io::Result<()> {
    answers(rt, "write", addresses, |at| {
        store.write(at, at.wrapping_add(1000)).map(|()| "done")
    })
}

fn all<S: WriteStore>(rt: &HostRuntime, store: &mut S, addresses: &[u16]) -> io::Result<()> {
    reads(rt, store, addresses)?;
    probes(rt, store, addresses)?;
    writes(rt, store, addresses)?;
    reads(rt, store, addresses)
}

fn single_stores(rt: &HostRuntime) -> io::Result<()> {
    let mut words = [10u16, 11, 12];
    println!(rt; "words")?;
    all(rt, &mut Words { words: &mut words }, &[0, 2, 3, 65535])?;
    let mut bytes = [1u8, 2, 3, 4, 5];
    println!(rt; "bytes")?;
    all(rt, &mut Bytes { bytes: &mut bytes }, &[0, 1, 2])?;
    println!(rt; "  bytes left {bytes:?}")?;
    println!(rt; "text")?;
    reads(rt, &Text { bytes: b"law" }, &[0, 2, 3])?;
    println!(rt; "nowhere")?;
    all(rt, &mut Nowhere, &[0, 65535])
}

// 65,538 words are lent: the last two have no address.
fn long_memory(rt: &HostRuntime) -> io::Result<()> {
    let mut words = vec![in rt.alloc(); 7u16; 65538]?;
    println!(rt; "long words")?;
    all(
        rt,
        &mut Words {
            words: words.as_mut_slice(),
        },
        &[65535],
    )?;
    println!(rt; "window at the end")?;
    let below = Words {
        words: words.as_mut_slice(),
    };
    all(
        rt,
        &mut Window {
            store: below,
            base: 65534,
            size: 4,
        },
        &[0, 1, 2, 3],
    )?;
    println!(rt; "window past all")?;
    let below = Words {
        words: words.as_mut_slice(),
    };
    all(
        rt,
        &mut Window {
            store: below,
            base: 4294967295,
            size: 4294967295,
        },
        &[0, 65535],
    )?;
    let past = words.get(65536).copied().unwrap_or(0);
    println!(rt; "  word 65536 still {past}")
}

fn window_edges(rt: &HostRuntime) -> io::Result<()> {
    let mut words = [10u16, 11, 12, 13];
    println!(rt; "window over the words' end")?;
    let below = Words { words: &mut words };
    all(
        rt,
        &mut Window {
            store: below,
            base: 3,
            size: 2,
        },
        &[0, 1, 2],
    )?;
    println!(rt; "empty window")?;
    let below = Words { words: &mut words };
    all(
        rt,
        &mut Window {
            store: below,
            base: 0,
            size: 0,
        },
        &[0],
    )
}

fn fence_edges(rt: &HostRuntime) -> io::Result<()> {
    let mut words = [10u16, 11, 12, 13];
    println!(rt; "fence past the words' end")?;
    let below = Words { words: &mut words };
    all(
        rt,
        &mut Fence {
            store: below,
            low: 3,
            high: 4294967295,
        },
        &[2, 3, 4],
    )?;
    println!(rt; "fence turned round")?;
    let below = Words { words: &mut words };
    all(
        rt,
        &mut Fence {
            store: below,
            low: 3,
            high: 1,
        },
        &[1, 2],
    )?;
    println!(rt; "fence over nowhere")?;
    all(
        rt,
        &mut Fence {
            store: Nowhere,
            low: 0,
            high: 65536,
        },
        &[9],
    )
}

fn split_edges(rt: &HostRuntime) -> io::Result<()> {
    let mut bytes = [0u8, 1, 0, 2];
    println!(rt; "split at 0 and past all")?;
    let second = Bytes { bytes: &mut bytes };
    all(
        rt,
        &mut Split {
            first: Nowhere,
            second,
            border: 0,
        },
        &[1, 2],
    )?;
    let first = Bytes { bytes: &mut bytes };
    all(
        rt,
        &mut Split {
            first,
            second: Nowhere,
            border: 4294967295,
        },
        &[1, 65535],
    )
}

// Below 6 a fence over a window over words, from 6 on bytes.
fn pile(rt: &HostRuntime) -> io::Result<()> {
    let mut words = [10u16, 11, 12, 13, 14, 15, 16, 17];
    let mut bytes = [1u8, 2, 3, 4, 5];
    println!(rt; "split over a fence over a window over words, and bytes")?;
    let window = Window {
        store: Words { words: &mut words },
        base: 4,
        size: 5,
    };
    let fence = Fence {
        store: window,
        low: 1,
        high: 3,
    };
    let mut pile = Split {
        first: fence,
        second: Bytes { bytes: &mut bytes },
        border: 6,
    };
    all(rt, &mut pile, &[0, 1, 2, 3, 4, 5, 6, 7, 8])?;
    println!(rt; "  words left {words:?}")?;
    println!(rt; "  bytes left {bytes:?}")
}

fn main(rt: HostRuntime) -> io::Result<()> {
    single_stores(&rt)?;
    long_memory(&rt)?;
    window_edges(&rt)?;
    fence_edges(&rt)?;
    split_edges(&rt)?;
    pile(&rt)
}
