//! What a reply writes.

ghost use Rattle.std.specs.Prelude.{◌≡◌};
ghost use Rattle.vx_program.specs.Output.{output_bytes};

use vx_base::Bytes;

/// What a reply writes.
#[derive(Drop)]
pub enum Output {
    /// The text of a refusal, a constant that takes no memory.
    Refusal(&'static str),
    /// A listing or documents.
    Text(String),
    /// A file.
    File(Bytes),
}

impl Output {
    /// The bytes.
    pub fn as_bytes(&self) -> &[u8]
        ensures { result.now ≡ output_bytes self.now }
    {
        match self {
            Output::Refusal(text) => text.as_bytes(),
            Output::Text(text) => text.as_str().as_bytes(),
            Output::File(bytes) => bytes.as_slice(),
        }
    }
}
