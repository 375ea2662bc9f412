//! The phases of a compression, and of the file of what it makes.

use crate::kernels::{alone, read_back, written};
use anyhow::{Result, bail};
use serde_json::Value;
use std::alloc::Global;
use std::io::Read;
use std::time::{Clock, Duration, Instant};
use vx_array::ArrayRef;
use vx_base::{ExecutionCtx, Words};
use vx_btrblocks::{BtrBlocksCompressor, NoScheme};
use vx_program::{Document, Input, StdSource, listing_text, read_all, read_document};
use vx_scheme::{GenerateStatsOptions, IntegerStats};

fn bytes_of<R: Read>(alloc: Global, reader: R) -> Result<Vec<u8>>
where
    R: Drop,
{
    let mut source = StdSource::new(reader);
    match read_all(alloc, &mut source)? {
        Input::Whole(bytes) => Ok(bytes),
        Input::TooLong => bail!("the document has more than 2^26 bytes"),
        Input::Fault => bail!("a read failed"),
    }
}

/// A document's column as its plain tree, and its sample words.
#[derive(Drop)]
struct Plain {
    array: ArrayRef,
    words: Words,
}

fn plain_of(alloc: Global, bytes: Vec<u8>) -> Result<Plain> {
    match read_document(alloc, bytes) {
        Ok(
            Document {
                column,
                words,
                commands: _,
            },
        ) => {
            let array = column.into_plain(alloc)?;
            Ok(Plain { array, words })
        }
        Err(_) => bail!("no document, or want of memory"),
    }
}

/// The number of distinct values by the statistics of integers, which dictionaries are judged by; 0 for a column of
/// another type, which has none.
fn distinct_values(alloc: Global, array: &ArrayRef) -> Result<u32> {
    if !array.dtype().is_integer() {
        return Ok(0);
    }
    let words = Words::from_vec(vec![in alloc; 0]?);
    if words.len() == 0 {
        bail!("no sample word");
    }
    let opts = GenerateStatsOptions {
        count_distinct_values: true,
    };
    let mut ctx = ExecutionCtx::new(alloc, words);
    let stats = IntegerStats::generate_opts(array, opts, &mut ctx)?;
    Ok(stats.distinct_count().unwrap_or(0))
}

fn compressed(alloc: Global, plain: Plain) -> Result<ArrayRef> {
    let Plain { array, words } = plain;
    if words.len() == 0 {
        bail!("no sample word");
    }
    let mut ctx = ExecutionCtx::new(alloc, words);
    let compressor = BtrBlocksCompressor::<NoScheme>::shipped(alloc)?;
    Ok(compressor.compress_owned(array, &mut ctx)?)
}

/// The length of the listing.
fn listed(alloc: Global, tree: &ArrayRef) -> Result<usize> {
    Ok(listing_text(alloc, tree)?.len())
}

/// Reads the bytes as JSON and drops the value.
fn drop_json(alloc: Global, bytes: &[u8]) -> Result<()> {
    match Value::from_slice(alloc, bytes) {
        Ok(_value) => Ok(()),
        Err(_) => bail!("no JSON, or want of memory"),
    }
}

/// The time to read the bytes as JSON and to drop the value. A first round without the clock pays for the first touch
/// of the pages.
fn read_as_json(rt: &(impl AllocGlobal + Clock), bytes: &[u8]) -> Result<Duration> {
    drop_json(rt.alloc(), bytes)?;
    let start = Instant::now(rt)?;
    drop_json(rt.alloc(), bytes)?;
    Ok(start.elapsed(rt)?)
}

/// A document's plain tree, and the time of each step to it.
#[derive(Drop)]
struct Parsed {
    plain: Plain,
    read: Duration,
    json: Duration,
    parse: Duration,
}

/// The plain tree of the reader's document. Between reading and parsing the bytes are timed as JSON alone.
fn read_and_parse<R: Read>(rt: &(impl AllocGlobal + Clock), reader: R) -> Result<Parsed>
where
    R: Drop,
{
    let start = Instant::now(rt)?;
    let bytes = bytes_of(rt.alloc(), reader)?;
    let read = start.elapsed(rt)?;
    let json = read_as_json(rt, bytes.as_slice())?;
    let start = Instant::now(rt)?;
    let plain = plain_of(rt.alloc(), bytes)?;
    let parse = start.elapsed(rt)?;
    Ok(Parsed {
        plain,
        read,
        json,
        parse,
    })
}

/// The time of the statistics of the column, after a first round without the clock, and their number of distinct
/// values.
fn counted(rt: &(impl AllocGlobal + Clock), array: &ArrayRef) -> Result<(Duration, u32)> {
    let _before = distinct_values(rt.alloc(), array)?;
    let start = Instant::now(rt)?;
    let distinct = distinct_values(rt.alloc(), array)?;
    Ok((start.elapsed(rt)?, distinct))
}

/// One line: the phase and its milliseconds.
fn show(rt: &impl Print, phase: &str, time: Duration) -> Result<()> {
    let micros = time.as_micros();
    println!(rt; "{phase} {}.{:03}", micros / 1000, micros % 1000)?;
    Ok(())
}

/// Reads and parses the reader's document, and writes its number of rows. It shows the memory that reading alone takes.
pub fn tell_rows<R: Read>(rt: &(impl AllocGlobal + Print), reader: R) -> Result<()>
where
    R: Drop,
{
    let plain = plain_of(rt.alloc(), bytes_of(rt.alloc(), reader)?)?;
    println!(rt; "rows {}", plain.array.len())?;
    Ok(())
}

/// Compresses the reader's document, and writes a line for each phase at its end: so whoever reads the lines can tell the
/// phases apart while they run. The statistics are made once more within the compression.
pub fn tell_phases<R: Read>(rt: &(impl AllocGlobal + Clock + Print), reader: R) -> Result<()>
where
    R: Drop,
{
    let Parsed {
        plain,
        read,
        json,
        parse,
    } = read_and_parse(rt, reader)?;
    show(rt, "read", read)?;
    show(rt, "json", json)?;
    show(rt, "parse", parse)?;
    let (statistics, distinct) = counted(rt, &plain.array)?;
    show(rt, "statistics", statistics)?;
    println!(rt; "distinct {distinct}")?;
    let start = Instant::now(rt)?;
    let tree = compressed(rt.alloc(), plain)?;
    show(rt, "compress", start.elapsed(rt)?)?;
    let start = Instant::now(rt)?;
    let _len = listed(rt.alloc(), &tree)?;
    show(rt, "list", start.elapsed(rt)?)
}

/// Compresses the reader's document, writes the file of the tree and reads it, and writes a line for both phases and one
/// for the bytes of the file. Each is done once, as a program does it.
pub fn tell_stored<R: Read>(rt: &(impl AllocGlobal + Clock + Print), reader: R) -> Result<()>
where
    R: Drop,
{
    let plain = plain_of(rt.alloc(), bytes_of(rt.alloc(), reader)?)?;
    let trees = alone(rt.alloc(), compressed(rt.alloc(), plain)?)?;
    let start = Instant::now(rt)?;
    let file = written(rt.alloc(), &trees)?;
    show(rt, "write", start.elapsed(rt)?)?;
    let start = Instant::now(rt)?;
    let _read = read_back(rt.alloc(), &file)?;
    show(rt, "read", start.elapsed(rt)?)?;
    println!(rt; "bytes {}", file.len())?;
    Ok(())
}
