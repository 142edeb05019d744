//! Asks a reader for bytes. The failure of a reader is a value that nothing else can make.

ghost use Rattle.std.specs.Prelude.{◌≤◌, IfOk, length};
ghost use Rattle.std.specs.Io.KnownBytes.{ReadConsumes};

use std::io::Read;

/// The failure or interruption of a reader. [`ask_reader`] makes one if a read gives an error, and
/// there is no other way to get one.
#[derive(Debug, Drop)]
pub struct ReaderFault(());

/// Asks a reader once for as many bytes as there is room for, and returns how many it gave. It gives
/// none at its end. Each error is a fault, an interruption too: nothing is tried again.
pub fn ask_reader<R: Read>(reader: &mut R, room: &mut [u8]) -> Result<usize, ReaderFault>
    ensures count { IfOk result (λ count. count ≤ length room.new) }
    ensures bytes { ReadConsumes (R.remaining reader.old) (R.remaining reader.new) result room.new }
{
    match reader.read(room) {
        Ok(count) => Ok(count),
        Err(_) => Err(ReaderFault(())),
    }
}
