// Prints the check of each line of standard input in four hexadecimal digits.
#![tactic(auto)]

ghost use Rattle.std.specs.Prelude.{◌≡◌, ◌≢◌, ℕ, ◌<◌, ◌≤◌, length, slice_index, IfOk};

use std::io;

const LINE_FEED: u8 = 10;

// The end of the line that starts at a place: its line feed, or the end of the text. By index, since what it promises of each place before is said by index.
fn line_end(text: &[u8], from: usize) -> usize
    requires { from ≤ length text.now }
    ensures low { from ≤ result }
    ensures high { result ≤ length text.now }
    ensures before { (k : ℕ) → from ≤ k → k < result → slice_index text.now k ≢ 10 }
    ensures found { result < length text.now → slice_index text.now result ≡ 10 }
{
    for i in from..text.len() {
        if text[i] == LINE_FEED {
            return i;
        }
    }
    text.len()
}

// The line that starts at a place; it gives the place of the next.
fn print_line(rt: &impl Print, text: &[u8], from: usize) -> io::Result<usize>
    requires { from < length text.now }
    ensures { IfOk result (λ next. from < next) }
{
    let end = line_end(text, from);
    println!(rt; "{:04x}", crc::check(&text[from..end]))?;
    Ok(end + 1)
}

fn print_lines(rt: &impl Print, text: &[u8]) -> io::Result<()> {
    let mut from = 0;
    while from < text.len() {
        from = print_line(rt, text, from)?;
    }
    Ok(())
}

fn main(rt: HostRuntime) -> io::Result<()> {
    let mut space = [0u8; 65536];
    let n = streams::read_full(&mut rt.stdin(), &mut space)?;
    print_lines(&rt, &space[..n])
}
