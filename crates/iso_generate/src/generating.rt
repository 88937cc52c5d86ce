ghost use Rattle.std.specs.Prelude.{◌≡◌, ◌++◌, ◌<◌, OnOk, IfOk};
ghost use Rattle.iso_generate.specs.Generated.{accounts, generated, lines};

use crate::body::Body;
use crate::writing::{opening, put, put_account, put_body, sessions};
use iso_types::{Items, Memory};
use rand_core::SeedableRng;
use rand_pcg::Lcg64Xsh32;
use std::alloc::Global;

// Appends so many body lines.
fn put_lines(
    alloc: Global,
    out: &mut Vec<u8>,
    words: &mut Lcg64Xsh32,
    count: u32,
) -> Result<(), Memory>
    ensures { OnOk result (out.new.items ≡ out.old.items ++ lines count words.old) }
{
    let mut left = count;
    while left > 0 {
        put_body(alloc, out, Body::drawn(words))?;
        left -= 1;
    }
    Ok(())
}

// Appends so many accounts, from this number on, ten apart.
fn put_accounts(alloc: Global, out: &mut Vec<u8>, count: u32, first: u32) -> Result<(), Memory>
    requires few { count < 1000 }
    requires small { first < 1000 }
    ensures { OnOk result (out.new.items ≡ out.old.items ++ accounts count first) }
{
    let mut left = count;
    let mut id = first;
    while left > 0 {
        put_account(alloc, out, id)?;
        id += 10;
        left -= 1;
    }
    Ok(())
}

/// The script of a seed with `count` body lines: four connections, at CS, CS, RS and RR, work on a table of 20 accounts.
/// The words are those of rand_pcg's `Lcg64Xsh32::seed_from_u64(seed)`. `Memory` comes only for want of memory. It
/// takes time and memory for each line. (This project's own.)
pub fn generate(alloc: Global, seed: u64, count: u32) -> Result<Items<u8>, Memory>
    ensures { IfOk result (λ text. text ≡ generated seed count) }
{
    let mut words = Lcg64Xsh32::seed_from_u64(seed);
    let mut out = Vec::new(alloc);
    put(&mut out, opening())?;
    put_accounts(alloc, &mut out, 20, 10)?;
    put(&mut out, sessions())?;
    put_lines(alloc, &mut out, &mut words, count)?;
    put(&mut out, b"END\n")?;
    Ok(Items::from_vec(out))
}
