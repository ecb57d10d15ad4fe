//! What a host over a reader and a writer writes: the promise of `serve`, which a program doesn't say again.
ghost use Rattle.std.specs.Prelude.{◌≡◌, ◌≢◌, ℕ, List, Err};
ghost use Rattle.std.specs.Io.KnownBytes.{Appends};
ghost use Rattle.app_tun_services.specs.Turns.{IsServed};

use app_tun_services::ServeError;
use std::alloc::Global;
use std::io::{Read, Write};

/// A host is served.
pub fn serve<R: Read, W: Write>(
    alloc: Global,
    reader: &mut R,
    writer: &mut W,
) -> Result<(), ServeError>
    ensures served { result ≢ Err ServeError.Writer → (output : List ℕ)
        × IsServed (R.remaining reader.old) output result
        × Appends (W.contents writer.old) (W.contents writer.new) output }
{
    app_tun_services::serve(alloc, reader, writer)
}
