// Sheets as text. Each line of standard input is a sheet in hexadecimal digits, two for each byte;
// for each, the text that the planner prints for it goes to standard output, and then a line `--`.
#![tactic(auto)]

ghost use Rattle.std.specs.Prelude.{◌≡◌, ℕ, ◌/◌, ◌%◌, ◌<◌, IfOk, MatchOption, ◌≢◌};
ghost use Rattle.sheet_cases.specs.Spelled.{digit, spelled};

use anyhow::bail;
use sheets::answer;
use std::alloc::Global;
use std::io::{BufRead, BufReader};

// The number that a hexadecimal digit stands for. A capital is none here, so the library `hex` does not serve.
fn digit_value(code: u8) -> Option<u8>
    ensures { MatchOption result ((n : ℕ) → n < 16 → digit n ≢ code) (λ n. (n < 16) × (digit n ≡ code)) }
{
    match code {
        b'0'..=b'9' => Some(code - b'0'),
        b'a'..=b'f' => Some(code - b'a' + 10),
        _ => None,
    }
}

// The byte that two digits stand for.
fn byte_value(high: u8, low: u8) -> Option<u8>
    ensures { MatchOption result ((b : ℕ) → b < 256 → digit (b / 16) ≡ high → digit (b % 16) ≢ low) (λ b. (digit (b / 16) ≡ high) × (digit (b % 16) ≡ low)) }
{
    Some(digit_value(high)? * 16 + digit_value(low)?)
}

// The bytes that a line spells.
fn spelled_bytes(heap: Global, line: &[u8]) -> anyhow::Result<Vec<u8>>
    ensures { IfOk result (λ v. spelled v.items ≡ line.now) }
{
    let pairs = line.chunks_exact(2);
    let tail = pairs.remainder();
    let mut bytes = Vec::new(heap);
    // An `anyhow::Result` is some 280 bytes: one for each byte of the line would take most of the time.
    for pair in pairs {
        let Some(byte) = byte_value(pair[0], pair[1]) else {
            bail!("a line has a sign that is no hexadecimal digit");
        };
        bytes.push(byte)?;
    }
    if !tail.is_empty() {
        bail!("a line has an odd number of digits");
    }
    Ok(bytes)
}

// Prints the text for the sheet that a line spells.
fn print_case(rt: &HostRuntime, line: &str) -> anyhow::Result<()> {
    let sheet = spelled_bytes(rt.alloc(), line.as_bytes())?;
    let text = answer(rt.alloc(), &sheet)?;
    print!(rt; "{text}--\n")?;
    Ok(())
}

fn run(rt: &HostRuntime) -> anyhow::Result<()> {
    for line in BufReader::new(rt.alloc(), rt.stdin())?.lines(rt.alloc()) {
        print_case(rt, line?.as_str())?;
    }
    Ok(())
}

fn main(rt: HostRuntime) -> anyhow::Result<()> {
    run(&rt)
}
