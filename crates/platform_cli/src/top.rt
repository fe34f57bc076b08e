// The top call.
ghost use Rattle.std.specs.Prelude.{◌≡◌, ◌⊎◌, ◌<◌, ◌≤◌, List, ℕ, map, string_bytes};
ghost use Rattle.command_words.specs.Command.{command_of};
ghost use Rattle.shelf.specs.Outside.{Rose};
ghost use Rattle.platform_cli.specs.Asked.{Reads, Writes};
ghost use Rattle.platform_cli.specs.Promises.{KeepsPromises};
ghost use Rattle.platform_cli.specs.Run.{IsEnded};
ghost use Rattle.platform_cli.specs.Statuses.{stop_code};

use crate::delivery::deliver;
use crate::output::Stop;
use crate::work::work;
use shelf::{Shelf, Sink};
use std::alloc::Global;

/// How a run ended (docs/COMMANDS.md):
///
/// - 0: the work was done, and the report was put. Of `solve`: a feasible plan of least cost was found.
/// - 2: the words are no command. The output is the usage text.
/// - 3: the instance was refused. The output is one line with the class and the place of the refusal.
/// - 4: the plan was refused. The output is one line with the kind and the record of the refusal.
/// - 5: the proof was refused. The output is one line with the kind and the record of the refusal.
/// - 6: an input file couldn't be read. There is no output.
/// - 7: the plan's file, the proof's or the output couldn't be written. A front of the output may have been.
/// - 8: memory ran out. A front of the output may have been written.
/// - 9: the plan isn't feasible. The output is one line with the first conflict.
/// - 10: no plan is feasible.
/// - 11: the splits are spent. The report is of what is known by then.
/// - 12: no chart has the minutes that were asked for. The output is one line with them.
#[derive(Clone, Copy, Debug, PartialEq, Eq)]
pub struct Status {
    pub code: u8,
}

/// Runs the command that the words name, over the files of a shelf and an output. The words leave out the
/// program's own name. A chart's minutes are tested first. Then the files are read, then the work is done, then the
/// plan's and the proof's file are written where they were asked for, and then the report is put line by line; the first step that
/// fails ends the run.
///
/// docs/FORMATS.md says how instances and plans are read, why they are refused, and what the lines of a report are.
/// docs/RULES.md says which plans are feasible and what they cost.
pub fn run<S: Shelf, K: Sink>(alloc: Global, words: &[String], shelf: &mut S, out: &mut K) -> Status
    ensures { KeepsPromises (record {
      tells = S.tells;
      command = command_of (map string_bytes words.now);
      before = record {
        held = S.held shelf.old;
        written = K.written out.old;
        read_faults = S.read_faults shelf.old;
        write_faults = S.write_faults shelf.old;
        put_faults = K.faults out.old;
      };
      after = record {
        held = S.held shelf.new;
        written = K.written out.new;
        read_faults = S.read_faults shelf.new;
        write_faults = S.write_faults shelf.new;
        put_faults = K.faults out.new;
      };
      status = result.code;
    }) }
{
    carry_out(alloc, words, shelf, out)
}

// Does the work and gives its output.
fn carry_out<S: Shelf, K: Sink>(
    alloc: Global,
    words: &[String],
    shelf: &mut S,
    out: &mut K,
) -> Status
    ensures ended { IsEnded S.tells (command_of (map string_bytes words.now)) result.code (S.held shelf.old) (S.held shelf.new)
        (S.write_faults shelf.old) (S.write_faults shelf.new) (K.written out.old) (K.written out.new) }
    ensures read_fault { result.code ≡ 6 → (name : List ℕ) × Reads S.tells (S.held shelf.old) (command_of (map string_bytes words.now)) name
        × (S.read_faults shelf.old name < S.read_faults shelf.new name) }
    ensures write_fault { result.code ≡ 7 →
        ((name : List ℕ) × Writes (command_of (map string_bytes words.now)) name × (S.write_faults shelf.old name < S.write_faults shelf.new name))
        ⊎ Rose (K.faults out.old) (K.faults out.new) }
{
    match work(alloc, words, shelf) {
        Ok(output) => match deliver(shelf, out, &output) {
            Ok(()) => Status {
                code: output.ending.code(),
            },
            Err(stop) => status_of(stop),
        },
        Err(stop) => status_of(stop),
    }
}

fn status_of(stop: Stop) -> Status
    ensures code { result.code ≡ stop_code stop }
    ensures least { 6 ≤ result.code }
    ensures most { result.code ≤ 8 }
{
    let code = match stop {
        Stop::ReadFault => 6,
        Stop::WriteFault => 7,
        Stop::Memory => 8,
    };
    Status { code }
}
