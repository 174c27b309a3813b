// Prints digests that an independent implementation's answers, in the file stdout, are compared with:
// the examples published for SHA-256, and a message of every length from 0 to 130 bytes.
#![tactic(auto)]

use sha256::digest;
use std::{array, io};

// The longest message: it takes three blocks.
const LONGEST: usize = 130;

fn published(rt: &HostRuntime) -> io::Result<()> {
    println!(rt; "empty {}", digest(b""))?;
    println!(rt; "abc {}", digest(b"abc"))?;
    println!(rt;
        "448-bits {}",
        digest(b"abcdbcdecdefdefgefghfghighijhijkijkljklmklmnlmnomnopnopq")
    )?;
    let million = vec![in rt.alloc(); b'a'; 1_000_000]?;
    println!(rt; "million-a {}", digest(million.as_slice()))
}

fn lengths(rt: &HostRuntime) -> io::Result<()> {
    // Bytes with no pattern that a block's length would fit.
    let message: [u8; LONGEST] = array::from_fn(|i| ((37 * i + 11) % 256) as u8);
    // A number and no iterator over the message, since the number is printed.
    for n in 0..=LONGEST {
        println!(rt; "{n} {}", digest(&message[..n]))?;
    }
    Ok(())
}

fn main(rt: HostRuntime) -> io::Result<()> {
    published(&rt)?;
    lengths(&rt)
}
