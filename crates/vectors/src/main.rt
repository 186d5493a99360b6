// SPDX-License-Identifier: MPL-2.0
// Published vectors of the ciphers and hashes, run through the library: for each source, how many agree of how many.
#![tactic(auto)]

mod ciphers;
mod hashes;
mod hexes;

ghost use Rattle.std.specs.Prelude.{◌≤◌, length};

use hexes::Text;
use std::fs::File;
use std::io::Read;
use std::rt::Files;

// The line of a source.
fn report(rt: &impl Print, name: &str, agreed: u64, tried: u64) {
    let _ = println!(rt; "{name}: {agreed} of {tried} agree");
}

// All lines of a text; one that starts with # or is empty is no vector. Each has a byte at least, so there are no more turns than bytes.
fn lines<F: Fn(&mut Text) -> bool>(rt: &impl Print, name: &str, text: &[u8], agrees: F)
    requires { F.IsAlwaysCallable agrees }
{
    let mut text = Text { rest: text };
    let mut agreed: u64 = 0;
    let mut tried: u64 = 0;
    for _ in 0..text.rest.len() {
        if text.rest.is_empty() {
            break;
        }
        if !text.has_no_vector() {
            agreed += u64::from(agrees(&mut text));
            tried += 1;
        }
        text.skip_past(b'\n');
    }
    report(rt, name, agreed, tried);
}

// The vectors of a file that is open.
fn read_lines<R: Read, F: Fn(&mut Text) -> bool>(
    rt: &impl Print,
    name: &str,
    source: &mut R,
    agrees: F,
)
    requires { F.IsAlwaysCallable agrees }
{
    let mut text = [0; 262144];
    let n = intake::read_full(source, &mut text);
    lines(rt, name, &text[..n], agrees);
}

// The vectors of a file, each line tried by a function of its kind, or why the file cannot be read.
fn file<F: Fn(&mut Text) -> bool>(rt: &(impl Files + Print + Eprint), name: &str, agrees: F)
    requires { F.IsAlwaysCallable agrees }
{
    match File::open(rt, name) {
        Ok(mut opened) => read_lines(rt, name, &mut opened, agrees),
        Err(error) => {
            let _ = eprintln!(rt; "{name}: {error}");
        }
    }
}

fn main(rt: HostRuntime) {
    file(&rt, "fips197a.txt", ciphers::key_line);
    file(&rt, "fips197bc.txt", ciphers::block_line);
    file(&rt, "sp80038a.txt", ciphers::chain_line);
    file(&rt, "aes128cbc.txt", ciphers::chain_line);
    file(&rt, "fips180.txt", hashes::digest_line);
    report(&rt, "a million a's", u64::from(hashes::million()), 1);
    file(&rt, "sha256.txt", hashes::digest_line);
    file(&rt, "rfc4231.txt", hashes::tag_line);
    file(&rt, "hmac256.txt", hashes::tag_line);
}
