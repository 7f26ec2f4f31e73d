ghost use Rattle.std.specs.Prelude.{◌≡◌};
ghost use Rattle.gs_shell_grammar.specs.Operands.{number_of, bytes_of};
ghost use Rattle.gs_shell_grammar.specs.Grammar.{ParsesAs};

use crate::error::LineError;
use hex::FromHexError;
use std::alloc::Global;

/// The number that decimal digits write, where it has 64 bits.
pub(crate) fn number_of(word: &str) -> Option<u64>
    ensures { result ≡ number_of word.now }
{
    // Rust's reader of numbers takes a plus.
    if word.starts_with('+') {
        return None;
    }
    word.parse::<u64>().ok()
}

/// The bytes that hex digits of either case write, of which there is one at least.
pub(crate) fn bytes_of(alloc: Global, word: &str) -> Result<Vec<u8>, LineError>
    ensures { ParsesAs (λ bytes. bytes.items) result (bytes_of word.now) }
{
    if word.is_empty() {
        return Err(LineError::BadLine);
    }
    match hex::decode(alloc, word) {
        Ok(bytes) => Ok(bytes),
        Err(FromHexError::OutOfMemory) => Err(LineError::Memory),
        Err(_) => Err(LineError::BadLine),
    }
}
