// Lists the plan of the table on standard input, or says why there is none.
#![tactic(auto)]

ghost use Rattle.std.specs.Prelude.{◌≤◌, length};

use lister::{LENT_BYTES, MOST_BYTES};
use std::io::Read;

// Fills the buffer from its start until it is full, the input ends or a read fails, and answers how many bytes it then has.
fn read_full(input: &mut impl Read, buf: &mut [u8]) -> usize
    ensures { result ≤ length buf.new }
{
    let mut done = 0;
    while done < buf.len() {
        let Ok(n) = input.read(&mut buf[done..]) else {
            break;
        };
        if n == 0 {
            break;
        }
        done += n;
    }
    done
}

// A short count of bytes is the whole input only where nothing more can be read and no read fails.
fn at_end(input: &mut impl Read) -> bool {
    let mut more = [0u8; 1];
    match input.read(&mut more) {
        Ok(n) => n == 0,
        Err(_) => false,
    }
}

// Nothing can be said where standard error cannot be written.
fn main(rt: HostRuntime) {
    let mut input = [0u8; MOST_BYTES];
    let mut out = [0u8; LENT_BYTES];
    let n = read_full(&mut rt.stdin(), &mut input);
    if n < MOST_BYTES {
        if !at_end(&mut rt.stdin()) {
            let _ = eprintln!(rt; "listing: standard input cannot be read");
            return;
        }
    }
    let shown = lister::list(&input[..n], &mut out);
    if rt.write_all(&out[..shown]).is_err() {
        let _ = eprintln!(rt; "listing: standard output cannot be written");
    }
}
