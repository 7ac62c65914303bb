// Lists many traces one after the other. On standard input each trace follows its length in two bytes, low first.
#![tactic(auto)]

use printing::{print_listing, read_full};
use std::io;

const NAME: &str = "stored";

// The largest length that two bytes hold.
const MOST_BYTES: usize = 65535;

fn list_all<R: io::Read, W: io::Write, E: io::Write>(
    from: &mut R,
    out: &mut W,
    errors: &mut E,
) -> io::Result<()> {
    let mut input = [0u8; MOST_BYTES];
    // A proved loop has to end, and nothing says that an input does: no run uses up this number of turns.
    for _ in 0..u64::MAX {
        let mut head = [0u8; 2];
        let got = read_full(from, &mut head)?;
        if got == 0 {
            break;
        }
        let wanted = usize::from(u16::from_le_bytes(head));
        let n = read_full(from, &mut input[..wanted])?;
        if got < head.len() || n < wanted {
            return writeln!(errors, "cut short");
        }
        print_listing(out, &input[..wanted])?;
    }
    Ok(())
}

fn main(rt: HostRuntime) {
    if let Err(e) = list_all(&mut rt.stdin(), &mut rt.stdout(), &mut rt.stderr()) {
        let _ = eprintln!(rt; "{NAME}: {e}");
    }
}
