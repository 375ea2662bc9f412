//! A text with a limit.

ghost use Rattle.std.specs.Prelude.{◌≡◌, [], None, OnOk, Some, is_none, option_map, string_bytes};
ghost use Rattle.vx_document.specs.CappedText.{has_room, put};

use std::alloc::{AllocError, Global};
use std::marker::Model;

/// The most bytes of a text of documents, 64 MiB: as many as the program reads, so that what it writes can be read again.
pub const MOST_BYTES: usize = 1 << 26;

/// A text of at most `MOST_BYTES`. Once a piece would make it longer, the text is over: it drops what it had and takes no
/// more, so that memory is bounded whatever is written to it. Contracts see None then.
#[derive(Drop)]
pub(crate) struct CappedText {
    text: Option<String>,
}

impl Model for CappedText {
    ghost use Rattle.std.specs.Prelude.{List, ℕ, Option, option_map, string_bytes};

    ghost Value = { Option (List ℕ) };

    ghost view = { λ a. option_map string_bytes a.text };
}

impl CappedText {
    pub(crate) fn new_in(alloc: Global) -> CappedText
        ensures { result ≡ Some [] }
    {
        CappedText {
            text: Some(String::new(alloc)),
        }
    }

    /// Whether the text would have been longer than the limit.
    pub(crate) fn is_over(&self) -> bool
        ensures { result ≡ is_none self.now }
    {
        self.text.is_none()
    }

    /// Whether `count` bytes more are within the limit.
    pub(crate) fn has_room(&self, count: usize) -> bool
        ensures { result ≡ has_room self.now count }
    {
        match &self.text {
            Some(text) => text.len().saturating_add(count) <= MOST_BYTES,
            None => false,
        }
    }

    /// Ends the text: it is over.
    pub(crate) fn end(&mut self)
        ensures { self.new ≡ None }
    {
        self.text = None;
    }

    /// Appends a piece, or ends the text where there is no room for it.
    pub(crate) fn push(&mut self, piece: &str) -> Result<(), AllocError>
        ensures { OnOk result (self.new ≡ put self.old piece.now) }
    {
        if !self.has_room(piece.len()) {
            self.end();
            return Ok(());
        }
        if let Some(text) = &mut self.text {
            text.push_str(piece)?;
        }
        Ok(())
    }

    /// The text, None where it is over.
    pub(crate) fn into_text(self) -> Option<String>
        ensures { option_map string_bytes result ≡ self }
    {
        let CappedText { text } = self;
        text
    }
}
