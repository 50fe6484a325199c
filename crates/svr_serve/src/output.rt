ghost use Rattle.std.specs.Prelude.{◌≡◌, ◌⊎◌, ◌≤◌, ℕ, List, OnOk, OnErr};
ghost use Rattle.std.specs.Io.KnownBytes.{Appends};
ghost use Rattle.svr_edge.specs.Causes.{Rose};
ghost use Rattle.svr_serve.specs.Program.{IsPrefix, WritesFault, opening_line};
ghost use Rattle.svr_serve.specs.Layout.{line_of_ending, status_of};

use crate::ending::Ending;
use itoa::Buffer;
use svr_edge::{Failed, Sink};

/// Writes all of a piece.
fn write_all<O: Sink>(output: &mut O, piece: &[u8]) -> Result<(), Failed>
    ensures bytes { (front : List ℕ) × IsPrefix front piece.now
        × Appends (O.taken output.old) (O.taken output.new) front × OnOk result (front ≡ piece.now) }
    ensures later { O.faults output.old ≤ O.faults output.new }
    ensures failed { OnErr result (Rose (O.faults output.old) (O.faults output.new)) }
{
    let mut rest = piece;
    while !rest.is_empty() {
        let count = output.write(rest)?;
        rest = &rest[count..];
    }
    Ok(())
}

/// Writes all of a piece, and sends it on its way.
pub(crate) fn send<O: Sink>(output: &mut O, piece: &[u8]) -> Result<(), Failed>
    ensures bytes { (front : List ℕ) × IsPrefix front piece.now
        × Appends (O.taken output.old) (O.taken output.new) front × OnOk result (front ≡ piece.now) }
    ensures sent { OnOk result (O.sent output.new ≡ O.taken output.new) }
    ensures later { O.faults output.old ≤ O.faults output.new }
    ensures failed { OnErr result (Rose (O.faults output.old) (O.faults output.new)) }
{
    write_all(output, piece)?;
    output.flush()
}

/// Writes the fault line of a disk that is no journal at a place, as far as the sink takes it.
fn send_journal_fault<O: Sink>(output: &mut O, at: u64) -> Result<(), Failed>
    ensures bytes { (front : List ℕ) × IsPrefix front (opening_line 6 at)
        × Appends (O.taken output.old) (O.taken output.new) front × OnOk result (front ≡ opening_line 6 at) }
    ensures sent { OnOk result (O.sent output.new ≡ O.taken output.new) }
    ensures later { O.faults output.old ≤ O.faults output.new }
    ensures failed { OnErr result (Rose (O.faults output.old) (O.faults output.new)) }
{
    write_all(output, b"{\"fault\":\"journal\",\"at\":")?;
    let mut digits = Buffer::new();
    write_all(output, digits.format(at).as_bytes())?;
    send(output, b"}\n")
}

/// Writes the fault line of an ending that has one, as far as the sink takes it.
fn send_fault<O: Sink>(ending: Ending, output: &mut O) -> Result<(), Failed>
    ensures bytes { (front : List ℕ) × IsPrefix front (line_of_ending ending)
        × Appends (O.taken output.old) (O.taken output.new) front × OnOk result (front ≡ line_of_ending ending) }
    ensures sent { O.sent output.old ≡ O.taken output.old → OnOk result (O.sent output.new ≡ O.taken output.new) }
    ensures later { O.faults output.old ≤ O.faults output.new }
    ensures failed { OnErr result (Rose (O.faults output.old) (O.faults output.new)) }
{
    if let Ending::Journal(at) = ending {
        return send_journal_fault(output, at);
    }
    let line = ending.fault_line();
    if line.is_empty() {
        return Ok(());
    }
    send(output, line)
}

/// Writes the fault line of an ending that has one, as far as the sink takes it, and answers the status.
pub(crate) fn finish<O: Sink>(ending: Ending, output: &mut O) -> u8
    ensures status { result ≡ status_of ending }
    ensures line { (line : List ℕ) × WritesFault (line_of_ending ending) (O.faults output.old) (O.faults output.new) line
        × Appends (O.taken output.old) (O.taken output.new) line }
    ensures sent { O.sent output.old ≡ O.taken output.old
        → (O.sent output.new ≡ O.taken output.new) ⊎ Rose (O.faults output.old) (O.faults output.new) }
    ensures later { O.faults output.old ≤ O.faults output.new }
{
    // A sink that fails here changes nothing of the status.
    let _ = send_fault(ending, output);
    ending.status()
}
