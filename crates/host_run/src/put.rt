//! Writing a whole text.

ghost use Rattle.std.specs.Prelude.{◌≡◌, ◌≤◌, ℕ, length, take, OnOk, OnErr, IsErrOf};
ghost use Rattle.host_form.specs.fab_io.specs.Outside.{HasRisen};
ghost use Rattle.host_run.specs.Taking.{Takes};

use host_form::sink::Sink;
use host_form::store::WriteError;

/// Writes a text whole, in as many pieces as the sink takes. After an `Err` the sink has taken the
/// front of it.
pub fn put<K: Sink>(sink: &mut K, text: &[u8]) -> Result<(), WriteError>
    ensures faults { K.faults sink.old ≤ K.faults sink.new }
    ensures whole { OnOk result (Takes (K.taken sink.old) (K.taken sink.new) text.now) }
    ensures front { OnErr result ((n : ℕ) × Takes (K.taken sink.old) (K.taken sink.new) (take n text.now)) }
    ensures failed { IsErrOf result WriteError.Failed → HasRisen (K.faults sink.old) (K.faults sink.new) }
{
    let mut sent = 0;
    'pieces: while sent < text.len() {
        let (_, rest) = text.split_at(sent);
        match sink.write(rest) {
            Ok(more) => sent += more,
            Err(error) => return Err(error),
        }
    }
    Ok(())
}
