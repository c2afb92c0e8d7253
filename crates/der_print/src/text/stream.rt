//! The stream: a target that collects text in a buffer before it is written.

use crate::text::target::Target;
use std::alloc::Global;
use std::io::{Stderr, Stdout, Write};

/// As soon as the buffer has this number of octets, the buffer is written to the sink.
const BUFFERED: usize = 32768;

/// The place to which a stream writes its text.
#[derive(Clone, Copy)]
pub enum Sink {
    /// The text is not written anywhere: all of it stays in the buffer of the stream.
    Memory,
    /// The text is written to standard output.
    Output(Stdout),
    /// The text is written to standard error.
    Errors(Stderr),
}

/// A target that buffers text, and writes it to a sink whenever the buffer is full.
#[derive(Drop)]
pub struct Stream {
    /// The text that is not yet written to the sink.
    pub buffer: Vec<u8>,
    /// The sink to which the text is written.
    pub sink: Sink,
}

impl Stream {
    /// Creates a stream that writes to `sink`. Its buffer is empty.
    pub fn new(alloc: Global, sink: Sink) -> Self {
        Stream {
            buffer: Vec::new(alloc),
            sink,
        }
    }

    /// Writes the buffered text to the sink, and returns whether this succeeded. If the sink is
    /// [`Sink::Memory`], does nothing and returns true.
    pub fn flush(&mut self) -> bool {
        let written = match &mut self.sink {
            Sink::Memory => return true,
            Sink::Output(to) => to.write_all(self.buffer.as_slice()),
            Sink::Errors(to) => to.write_all(self.buffer.as_slice()),
        };
        self.buffer.clear();
        written.is_ok()
    }
}

impl Target for Stream {
    fn push(&mut self, octets: &[u8]) -> bool {
        if self.buffer.extend_from_slice(octets).is_err() {
            return false;
        }
        if self.buffer.len() >= BUFFERED {
            return self.flush();
        }
        true
    }

    fn last(&self) -> Option<u8> {
        match self.buffer.last() {
            Some(octet) => Some(*octet),
            None => None,
        }
    }
}
