ghost use Rattle.std.specs.Prelude.{◌≡◌, ℕ, ◌<◌, ◌≤◌, ◌++◌, take, Option, Some, length, IfOk, OnErr, OnOk};
ghost use Rattle.al_value.specs.Outside.{Counted, failed, Told};
ghost use Rattle.al_io.specs.Outside.{Bytes, GainsPrefix, joined};

use al_value::Failed;

/// What is written to stays as it was written.
pub trait Sink {
    /// All bytes that were written, where the sink tells them.
    ghost written: { Self → Option Bytes };

    /// How many calls the outside did not serve.
    ghost faults: { Self → ℕ };

    /// Takes one or more bytes of the piece, from its front, and answers how many.
    fn write(&mut self, piece: &[u8]) -> Result<usize, Failed>
        requires { 0 < length piece.now }
        ensures bound { IfOk result (λ n. (0 < n) × (n ≤ length piece.now)) }
        ensures gains { IfOk result (λ n. Told (written self.old) (λ old. written self.new ≡ Some (old ++ take n piece.now))) }
        ensures err { OnErr result (written self.new ≡ written self.old) }
        ensures cause { Counted (failed result) (faults self.old) (faults self.new) };
}

/// Writes all bytes. After a failure some of them, from the front, were written.
pub fn write_whole<K: Sink>(sink: &mut K, bytes: &[u8]) -> Result<(), Failed>
    ensures ok { OnOk result (Told (K.written sink.old) (λ old. K.written sink.new ≡ Some (old ++ bytes.now))) }
    ensures err { OnErr result (Told (K.written sink.old) (λ old. GainsPrefix old bytes.now (K.written sink.new))) }
    ensures cause { Counted (failed result) (K.faults sink.old) (K.faults sink.new) }
{
    let mut at = 0;
    while at < bytes.len() {
        let taken = sink.write(&bytes[at..])?;
        at += taken;
    }
    Ok(())
}

/// Writes the pieces, one behind the other. After a failure some of their bytes, from the front,
/// were written.
pub fn write_pieces<K: Sink>(sink: &mut K, pieces: &[&[u8]]) -> Result<(), Failed>
    ensures ok { OnOk result (Told (K.written sink.old) (λ old. K.written sink.new ≡ Some (old ++ joined pieces.now))) }
    ensures err { OnErr result (Told (K.written sink.old) (λ old. GainsPrefix old (joined pieces.now) (K.written sink.new))) }
    ensures cause { Counted (failed result) (K.faults sink.old) (K.faults sink.new) }
{
    for piece in pieces {
        write_whole(sink, piece)?;
    }
    Ok(())
}
