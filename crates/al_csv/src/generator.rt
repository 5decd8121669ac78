ghost use Rattle.std.specs.Prelude.{◌≡◌, ◌++◌, ◌+◌, ◌*◌, ◌/◌, ◌%◌, ◌^◌, ◌<◌, IfOk, OnOk, codes};
ghost use Rattle.std.specs.Fmt.{decimal};
ghost use Rattle.al_csv.specs.Generator as spec;

use al_value::{List, NoMemory};
use std::alloc::Global;

/// A dataset to try a query on: a header, and this many rows that follow from the seed.
pub fn generate(alloc: Global, seed: u32, rows: u32) -> Result<List<u8>, NoMemory>
    ensures { IfOk result (λ text. text ≡ spec.generated seed rows) }
{
    let mut text = List::new(alloc);
    text.extend(b"id,grp,val,tag\n")?;
    let mut x = u64::from(seed);
    for i in 0..rows {
        x = next(x);
        push_row(alloc, &mut text, i, x)?;
    }
    Ok(text)
}

fn next(x: u64) -> u64
    ensures { result ≡ spec.next x }
{
    x.wrapping_mul(6364136223846793005)
        .wrapping_add(1442695040888963407)
}

fn letter(x: u64, shift: u32) -> u8
    requires { shift < 64 }
    ensures { result ≡ spec.letter x shift }
{
    b'a' + ((x >> shift) % 26) as u8
}

fn push_row(alloc: Global, text: &mut List<u8>, id: u32, x: u64) -> Result<(), NoMemory>
    ensures { OnOk result (text.new ≡ text.old ++ spec.generated_row id x) }
{
    push_number(alloc, text, u64::from(id))?;
    push_number(alloc, text, (x >> 33) % 100)?;
    push_number(alloc, text, (x >> 20) % 1_000_000)?;
    text.extend(&[
        letter(x, 0),
        letter(x, 8),
        letter(x, 16),
        letter(x, 24),
        letter(x, 32),
        letter(x, 40),
        b'\n',
    ])?;
    Ok(())
}

fn push_number(alloc: Global, text: &mut List<u8>, n: u64) -> Result<(), NoMemory>
    ensures { OnOk result (text.new ≡ text.old ++ (decimal n ++ codes ",")) }
{
    let number = format!(in alloc; "{n},")?;
    text.extend(number.as_str().as_bytes())?;
    Ok(())
}
