//! Times the phases of a compression, the kernels, the decoding of each node, or files, by std's clock.
#![tactic(auto)]

mod kernels;
mod phases;

use anyhow::Result;
use kernels::{Decoding, Filing, Setting, Stored, tell_decoding, tell_files, tell_kernels};
use phases::{tell_phases, tell_rows, tell_stored};
use std::env;
use std::env::Env;
use vx_base::{Nullability, PType};

// The forms of the command line.
const USAGE: [&str; 6] = [
    "usage: vx_bench compress < document",
    "       vx_bench parse < document",
    "       vx_bench store < document",
    "       vx_bench kernels u8|u32|u64|i64 WIDTH ROWS REPEATS",
    "       vx_bench decode full|nulls ROWS REPEATS",
    "       vx_bench files packed|plain|pieces|texts ROWS REPEATS",
];

/// What the arguments ask for.
enum Form {
    Compress,
    Parse,
    Store,
    Kernels(Setting),
    Decode(Decoding),
    Files(Filing),
}

fn ptype_of(name: &str) -> Option<PType> {
    [PType::U8, PType::U32, PType::U64, PType::I64]
        .into_iter()
        .find(|ptype| ptype.name() == name)
}

fn setting_of(args: &[String]) -> Option<Setting> {
    let [ptype, width, rows, repeats] = args else {
        return None;
    };
    Some(Setting {
        ptype: ptype_of(ptype.as_str())?,
        width: width.parse().ok()?,
        rows: rows.parse().ok()?,
        repeats: repeats.parse().ok()?,
    })
}

fn nullability_of(name: &str) -> Option<Nullability> {
    match name {
        "full" => Some(Nullability::NonNullable),
        "nulls" => Some(Nullability::Nullable),
        _ => None,
    }
}

fn decoding_of(args: &[String]) -> Option<Decoding> {
    let [nulls, rows, repeats] = args else {
        return None;
    };
    Some(Decoding {
        nullability: nullability_of(nulls.as_str())?,
        rows: rows.parse().ok()?,
        repeats: repeats.parse().ok()?,
    })
}

fn stored_of(name: &str) -> Option<Stored> {
    [Stored::Packed, Stored::Plain, Stored::Pieces, Stored::Texts]
        .into_iter()
        .find(|stored| stored.name() == name)
}

fn filing_of(args: &[String]) -> Option<Filing> {
    let [stored, rows, repeats] = args else {
        return None;
    };
    Some(Filing {
        stored: stored_of(stored.as_str())?,
        rows: rows.parse().ok()?,
        repeats: repeats.parse().ok()?,
    })
}

// The forms that read a document.
fn document_form(word: &str) -> Option<Form> {
    match word {
        "compress" => Some(Form::Compress),
        "parse" => Some(Form::Parse),
        "store" => Some(Form::Store),
        _ => None,
    }
}

// The forms with arguments.
fn timed_form(word: &str, args: &[String]) -> Option<Form> {
    match word {
        "kernels" => Some(Form::Kernels(setting_of(args)?)),
        "decode" => Some(Form::Decode(decoding_of(args)?)),
        "files" => Some(Form::Files(filing_of(args)?)),
        _ => None,
    }
}

fn form_of(args: &[String]) -> Option<Form> {
    match args {
        [word] => document_form(word.as_str()),
        [word, rest @ ..] => timed_form(word.as_str(), rest),
        [] => None,
    }
}

// What the command line asks for; None where it isn't one of the forms.
fn asked(rt: &(impl AllocGlobal + Env)) -> Result<Option<Form>> {
    let mut args = Vec::new(rt.alloc());
    for arg in env::args(rt)?.skip(1) {
        args.push(arg)?;
    }
    Ok(form_of(args.as_slice()))
}

fn tell(rt: &HostRuntime, form: Form) -> Result<()> {
    match form {
        Form::Compress => tell_phases(rt, rt.reader()),
        Form::Parse => tell_rows(rt, rt.reader()),
        Form::Store => tell_stored(rt, rt.reader()),
        Form::Kernels(setting) => tell_kernels(rt, &setting),
        Form::Decode(decoding) => tell_decoding(rt, &decoding),
        Form::Files(filing) => tell_files(rt, &filing),
    }
}

fn tell_usage(rt: &impl Print) -> Result<()> {
    for line in USAGE {
        println!(rt; "{line}")?;
    }
    Ok(())
}

fn main(rt: HostRuntime) -> Result<()> {
    match asked(&rt)? {
        Some(form) => tell(&rt, form),
        None => tell_usage(&rt),
    }
}
