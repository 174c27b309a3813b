// Runs the seven test cases of RFC 4231 for HMAC-SHA-256.
#![tactic(auto)]

use hmac::{PreparedKey, hmac};
use sha256::Digest;
use std::io;

fn show(rt: &HostRuntime, case: u8, stamp: Digest) -> io::Result<()> {
    println!(rt; "case {case} {stamp}")
}

// Case 5 shows the first 16 bytes alone, which are two of the digest's words.
fn show_truncated(rt: &HostRuntime, case: u8, stamp: Digest) -> io::Result<()> {
    let [first, second, _, _] = stamp.words;
    println!(rt; "case {case} {first:016x}{second:016x}")
}

fn main(rt: HostRuntime) -> io::Result<()> {
    show(&rt, 1, hmac(&[0x0b; 20], b"Hi There"))?;
    show(&rt, 2, hmac(b"Jefe", b"what do ya want for nothing?"))?;
    show(&rt, 3, hmac(&[0xaa; 20], &[0xdd; 50]))?;
    let counting =
        b"\x01\x02\x03\x04\x05\x06\x07\x08\x09\x0a\x0b\x0c\x0d\x0e\x0f\x10\x11\x12\x13\x14\x15\x16\x17\x18\x19";
    show(&rt, 4, hmac(counting, &[0xcd; 50]))?;
    show_truncated(&rt, 5, hmac(&[0x0c; 20], b"Test With Truncation"))?;
    let long = PreparedKey::new(&[0xaa; 131]);
    let text = b"Test Using Larger Than Block-Size Key - Hash Key First";
    show(&rt, 6, long.stamp(text))?;
    let text =
        b"This is a test using a larger than block-size key and a larger than block-size data. The key needs to be hashed before being used by the HMAC algorithm.";
    show(&rt, 7, long.stamp(text))
}
