//! A source and a sink in memory. Their reads and writes never fail.

ghost use Rattle.std.specs.Prelude.{◌≡◌, ◌≤◌, ◌-◌, Some, length, vec_len, vec_capacity, []};

use crate::outside::{Failed, Sink, Source};
use std::alloc::Global;
use vx_base::{Bytes, VortexError, VortexResult};

/// Gives the bytes of a list: each read fills the buffer while bytes are left.
#[derive(Drop)]
pub struct SureSource {
    bytes: Bytes,
    at: usize,
    ghost within: { at ≤ length bytes },
}

impl SureSource {
    ghost use Rattle.vx_program.specs.Sure.{source_left};

    /// A source of these bytes.
    pub fn new(bytes: Bytes) -> Self
        ensures { source_left result ≡ bytes }
    {
        SureSource { bytes, at: 0 }
    }
}

impl Source for SureSource {
    ghost use Rattle.vx_program.specs.Sure.{source_left};

    ghost left = { λ s. Some (source_left s) };

    ghost faults = { λ _. 0 };

    fn read(&mut self, buf: &mut [u8]) -> Result<usize, Failed> {
        let bytes = self.bytes.as_slice();
        let count = buf.len().min(bytes.len() - self.at);
        let end = self.at + count;
        buf[..count].copy_from_slice(&bytes[self.at..end]);
        self.at = end;
        Ok(count)
    }
}

/// Keeps all bytes that are written to it. Only `reserve` takes memory.
#[derive(Drop)]
pub struct SureSink {
    bytes: Vec<u8>,
}

impl SureSink {
    ghost use Rattle.vx_program.specs.Sure.{sink_bytes};

    /// A sink to which nothing is written yet.
    pub fn new(alloc: Global) -> Self
        ensures { sink_bytes result ≡ [] }
    {
        SureSink {
            bytes: Vec::new(alloc),
        }
    }

    /// The bytes written.
    pub fn bytes(&self) -> &Vec<u8>
        ensures { result.now.items ≡ sink_bytes self.now }
    {
        &self.bytes
    }

    /// The bytes written, in the memory that the sink has for them.
    pub fn into_bytes(self) -> Bytes
        ensures { result ≡ sink_bytes self }
    {
        let SureSink { bytes } = self;
        Bytes::from_vec(bytes)
    }
}

impl Sink for SureSink {
    ghost use Rattle.vx_program.specs.Sure.{sink_bytes};

    ghost written = { λ s. Some (sink_bytes s) };

    ghost faults = { λ _. 0 };

    ghost spare = { λ s. vec_capacity s.bytes - vec_len s.bytes };

    fn reserve(&mut self, count: u64) -> VortexResult<()> {
        match self.bytes.reserve(count as usize) {
            Ok(()) => Ok(()),
            Err(_) => Err(VortexError::NoMemory),
        }
    }

    fn write(&mut self, bytes: &[u8]) -> Result<usize, Failed> {
        match self.bytes.extend_from_slice(bytes) {
            Ok(()) => Ok(bytes.len()),
            Err(_) => Err(Failed),
        }
    }
}
