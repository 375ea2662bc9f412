//! Times row functions by std's clock: of plain columns, of which `bench/rows.rs` makes the same rows and digests, and of encoded
//! ones, beside the same function of the decoded column with the decoding in its time.
#![tactic(auto)]

mod answers;
mod encoded;
mod making;
mod parts;
mod plain;
mod questions;
mod sparse;
mod telling;
mod texts;
mod trees;

use anyhow::Result;
use encoded::{tell_constant, tell_dict, tell_sequence};
use parts::tell_parts;
use plain::tell_integers;
use sparse::tell_sparse;
use std::env;
use std::env::Env;
use std::time::CpuClock;
use telling::Setting;
use texts::tell_texts;
use vx_base::Nullability;

fn nullability_of(name: &str) -> Option<Nullability> {
    match name {
        "full" => Some(Nullability::NonNullable),
        "nulls" => Some(Nullability::Nullable),
        _ => None,
    }
}

fn setting_of(args: &[String]) -> Option<Setting> {
    let [nulls, rows, repeats] = args else {
        return None;
    };
    Some(Setting {
        nullability: nullability_of(nulls.as_str())?,
        rows: rows.parse().ok()?,
        repeats: repeats.parse().ok()?,
    })
}

// Times each row function, and writes a line for each.
fn tell_all(rt: &(impl AllocGlobal + CpuClock + Print), on: &Setting) -> Result<()> {
    tell_integers::<i64>(rt, on)?;
    tell_integers::<u32>(rt, on)?;
    tell_texts(rt, on)?;
    tell_constant(rt, on)?;
    tell_dict(rt, on)?;
    tell_sequence(rt, on)?;
    tell_parts(rt, on)?;
    tell_sparse(rt, on)
}

// What the command line asks for; None where it isn't the one form.
fn asked(rt: &(impl AllocGlobal + Env)) -> Result<Option<Setting>> {
    let mut args = Vec::new(rt.alloc());
    for arg in env::args(rt)?.skip(1) {
        args.push(arg)?;
    }
    Ok(setting_of(args.as_slice()))
}

fn main(rt: HostRuntime) -> Result<()> {
    match asked(&rt)? {
        Some(setting) => tell_all(&rt, &setting),
        None => {
            println!(rt; "usage: vx_bench_rows full|nulls ROWS REPEATS")?;
            Ok(())
        }
    }
}
