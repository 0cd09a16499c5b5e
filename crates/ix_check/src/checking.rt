//! A check: what opening would find is read, and written.
ghost use Rattle.std.specs.Prelude.{◌≡◌, ◌⊎◌, false, map, IfSome};
ghost use Rattle.std.specs.Io.KnownBytes.{Appends};
ghost use Rattle.ix_types.specs.Count.{CountsWhere, Rose};
ghost use Rattle.ix_types.specs.Name.{sha_name};
ghost use Rattle.ix_dir.specs.Crash.{standing};
ghost use Rattle.ix_dir.specs.State.{counted_where};
ghost use Rattle.ix_io.specs.Transfer.{AppendsPart};
ghost use Rattle.ix_machine.specs.Opening.{opening};
ghost use Rattle.ix_machine.specs.State.{Files};
ghost use Rattle.ix_opening.specs.Found.{opening_of, put_row};
ghost use Rattle.ix_check.specs.Ending.{is_open_fault, is_write_fault};
ghost use Rattle.ix_check.specs.Texts.{check_text, text_over};

use crate::ending::Ending;
use crate::texts::text_of;
use ix_dir::Dir;
use ix_io::transfer::write_all;
use ix_io::{Sink, SinkError};
use ix_library::check_store;
use ix_opening::{Found, OpenError};
use ix_types::Sha;
use std::alloc::Global;

/// Writes what opening the store would find: the sound units, the refused unit files and their causes, and how many there are of both. Nothing of the directory changes but counts, however it ends.
pub fn check<D: Dir, K: Sink>(alloc: Global, dir: &mut D, sink: &mut K) -> Ending
    // What is written is the text of what opening would find; over a directory that doesn't tell its moves, of what opening would find of some files.
    ensures done { result ≡ Ending.Done → IfSome (D.state dir.old).moves (λ moves. Appends (K.contents sink.old) (K.contents sink.new) (check_text (opening_of sha_name (standing moves)))) }
    ensures read { result ≡ Ending.Done → (units : Files) × (records : Files) × Appends (K.contents sink.old) (K.contents sink.new) (check_text (opening sha_name units records)) }

    // With an error a front of it was written and not all, or nothing.
    ensures part { result ≡ Ending.WriteFault → IfSome (D.state dir.old).moves (λ moves. AppendsPart (K.contents sink.old) (K.contents sink.new) (check_text (opening_of sha_name (standing moves)))) }
    ensures wanting { result ≡ Ending.Memory → IfSome (D.state dir.old).moves (λ moves. (K.contents sink.new ≡ K.contents sink.old) ⊎ AppendsPart (K.contents sink.old) (K.contents sink.new) (check_text (opening_of sha_name (standing moves)))) }
    ensures nothing { result ≡ Ending.OpenFault → K.contents sink.new ≡ K.contents sink.old }

    // Three counts of the directory alone change, that of faults exactly where it failed.
    ensures moves { (D.state dir.new).moves ≡ (D.state dir.old).moves }
    ensures state { D.state dir.new ≡ record (D.state dir.old) { faults = counted_where (is_open_fault result) (D.state dir.old).faults; listings = (D.state dir.new).listings; finds = (D.state dir.new).finds } }
    ensures write_fault { CountsWhere (is_write_fault result) (K.faults sink.old) (K.faults sink.new) }

    // Where no count rose, all is written, or memory was wanting.
    ensures complete { ¬ Rose (D.state dir.old).faults (D.state dir.new).faults → ¬ Rose (K.faults sink.old) (K.faults sink.new) → (result ≡ Ending.Done) ⊎ (result ≡ Ending.Memory) }
{
    match check_store(alloc, dir, &Sha) {
        Ok(found) => show(alloc, &found, sink),
        Err(OpenError::Fault) => Ending::OpenFault,
        Err(OpenError::Memory) => Ending::Memory,
    }
}

/// Writes what was found.
fn show<K: Sink>(alloc: Global, found: &Found, sink: &mut K) -> Ending
    ensures done { result ≡ Ending.Done → Appends (K.contents sink.old) (K.contents sink.new) (text_over (map put_row found.now.units) found.now.refused) }
    ensures part { result ≡ Ending.WriteFault → AppendsPart (K.contents sink.old) (K.contents sink.new) (text_over (map put_row found.now.units) found.now.refused) }
    ensures wanting { result ≡ Ending.Memory → (K.contents sink.new ≡ K.contents sink.old) ⊎ AppendsPart (K.contents sink.old) (K.contents sink.new) (text_over (map put_row found.now.units) found.now.refused) }
    ensures opened { is_open_fault result ≡ false }
    ensures write_fault { CountsWhere (is_write_fault result) (K.faults sink.old) (K.faults sink.new) }
{
    let text = match text_of(alloc, found) {
        Ok(text) => text,
        Err(_wanting) => return Ending::Memory,
    };
    match write_all(sink, &text) {
        Ok(()) => Ending::Done,
        Err(SinkError::Failed) => Ending::WriteFault,
        Err(SinkError::Memory) => Ending::Memory,
    }
}
