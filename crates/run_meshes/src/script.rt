//! A script, carried out as its bytes come.

ghost use Rattle.std.specs.Prelude.{◌≡◌, ◌≢◌, ◌+◌, ◌*◌, ◌≤◌, ◌⊎◌, ℕ, List, ◌∷◌, [], Some, Err, false, length};
ghost use Rattle.std.specs.Prelude.{OnOk};
ghost use Rattle.roam_edge.specs.Shelf.{NamedFile, bytes_of};
ghost use Rattle.run_laws.specs.Walk.{Walk};
ghost use Rattle.run_words.specs.Words.{Show};
ghost use Rattle.run_laws.specs.Act.{ReportText, Sinks};
ghost use Rattle.run_laws.specs.Moment.{Does};
ghost use Rattle.run_laws.specs.Leaving.{LeavesByScript};
ghost use Rattle.run_laws.specs.ReportText.{line_refusal};
ghost use Rattle.run_meshes.specs.StageView.{IsScriptStage, IsScriptAt};
ghost use Rattle.run_laws.specs.Maker.{Starts, Begins, refusal, IsScriptEnd, EndsScript, ScriptHasCome};
ghost use Rattle.run_laws.specs.FileStop.{StopsReading};
ghost use Rattle.run_meshes.specs.Taking.{OnlyTakes, OnlyEnds, TakesMore, status_for};

use crate::stage::Stage;
use roam_edge::Failed;
use roam_script::{Line, ScriptFault, line_laws, read_line};
use run_files::{FrameMaker, Outside, PIECE, line_report};
use run_laws::{Status, state_laws};

/// Why a run goes no further.
#[derive(Clone, Copy, Debug, PartialEq, Eq)]
pub(crate) enum Stop {
    /// A line is refused, and the report says so.
    Refused,
    /// A write failed.
    Failed,
}

/// Writes that a line is refused.
fn refuse<O: Outside>(number: u32, fault: ScriptFault, outside: &mut O) -> Result<(), Failed>
    ensures same { O.is_same outside.old outside.new }
    ensures does { Does (O.moment outside.old) (O.moment outside.new)
        (ReportText (line_refusal (refusal number fault)) ∷ []) result }
{
    outside.tell(line_report(number, fault).as_slice())
}

/// Carries out the line that has begun, which ends here, or refuses it.
fn take_line<K: FrameMaker, O: Outside>(
    frames: &mut K,
    stage: &mut Stage,
    outside: &mut O,
) -> Result<(), Stop>
    requires idle { (O.moment outside.old).under_way ≡ false }
    requires ready { K.is_ready frames.old stage.old.lines }
    requires stage { IsScriptStage stage.old }
    ensures outcome { TakesMore (10 ∷ []) (O.moment outside.old).sinks (O.moment outside.new).sinks
        (K.follows frames.old) (K.follows frames.new) stage.old stage.new result }
    ensures ready { OnOk result (K.is_ready frames.new stage.new.lines) }
    ensures stage { OnOk result (IsScriptStage stage.new) }
    ensures lines { OnOk result (stage.new.lines ≡ stage.old.lines + 1) }
    ensures part { OnOk result (stage.new.part.items ≡ []) }
    ensures same { O.is_same outside.old outside.new }
    ensures only { OnlyTakes (O.moment outside.old) (O.moment outside.new) result }
{
    state_laws();
    line_laws();
    match read_line(stage.part.as_slice(), &frames.limits(stage.lines)) {
        Ok(Line::Frame) => match frames.take_frame(outside) {
            Ok(()) => {
                stage.end_line();
                Ok(())
            }
            Err(_) => Err(Stop::Failed),
        },
        Ok(line) => {
            frames.apply_line(line);
            stage.end_line();
            Ok(())
        }
        Err(fault) => match refuse(stage.lines + 1, fault, outside) {
            Ok(()) => Err(Stop::Refused),
            Err(_) => Err(Stop::Failed),
        },
    }
}

/// Takes one byte of a script: the line that has begun goes on, or it ends and is carried out. A line
/// that no further byte can mend is refused at once.
fn take_byte<K: FrameMaker, O: Outside>(
    frames: &mut K,
    stage: &mut Stage,
    byte: u8,
    outside: &mut O,
) -> Result<(), Stop>
    requires idle { (O.moment outside.old).under_way ≡ false }
    requires ready { K.is_ready frames.old stage.old.lines }
    requires stage { IsScriptStage stage.old }
    ensures outcome { TakesMore (byte ∷ []) (O.moment outside.old).sinks (O.moment outside.new).sinks
        (K.follows frames.old) (K.follows frames.new) stage.old stage.new result }
    ensures ready { OnOk result (K.is_ready frames.new stage.new.lines) }
    ensures stage { OnOk result (IsScriptStage stage.new) }
    ensures longer { OnOk result (201 * stage.old.lines + length stage.old.part.items + 1
        ≤ 201 * stage.new.lines + length stage.new.part.items) }
    ensures same { O.is_same outside.old outside.new }
    ensures only { OnlyTakes (O.moment outside.old) (O.moment outside.new) result }
{
    if byte == b'\n' {
        return take_line(frames, stage, outside);
    }
    match stage.settled_fault() {
        Some(fault) => match refuse(stage.lines + 1, fault, outside) {
            Ok(()) => Err(Stop::Refused),
            Err(_) => Err(Stop::Failed),
        },
        None => {
            stage.part.push(byte);
            Ok(())
        }
    }
}

/// Takes a piece of a script.
fn take_piece<K: FrameMaker, O: Outside>(
    frames: &mut K,
    stage: &mut Stage,
    piece: &[u8],
    outside: &mut O,
) -> Result<(), Stop>
    requires idle { (O.moment outside.old).under_way ≡ false }
    requires ready { K.is_ready frames.old stage.old.lines }
    requires stage { IsScriptStage stage.old }
    ensures outcome { TakesMore piece.now (O.moment outside.old).sinks (O.moment outside.new).sinks
        (K.follows frames.old) (K.follows frames.new) stage.old stage.new result }
    ensures ready { OnOk result (K.is_ready frames.new stage.new.lines) }
    ensures stage { OnOk result (IsScriptStage stage.new) }
    ensures longer { OnOk result (201 * stage.old.lines + length stage.old.part.items + length piece.now
        ≤ 201 * stage.new.lines + length stage.new.part.items) }
    ensures same { O.is_same outside.old outside.new }
    ensures only { OnlyTakes (O.moment outside.old) (O.moment outside.new) result }
{
    for byte in piece {
        take_byte(frames, stage, *byte, outside)?;
    }
    Ok(())
}

/// The status of a run that goes no further.
fn status_of(stop: Stop) -> Status
    ensures { result ≡ status_for stop }
{
    match stop {
        Stop::Refused => Status::ScriptRefused,
        Stop::Failed => Status::WriteFault,
    }
}

/// Ends a script: bytes after the last LF are a line too.
fn end_script<K: FrameMaker, O: Outside>(
    frames: &mut K,
    stage: &mut Stage,
    outside: &mut O,
) -> Status
    requires idle { (O.moment outside.old).under_way ≡ false }
    requires ready { K.is_ready frames.old stage.old.lines }
    requires stage { IsScriptStage stage.old }
    ensures ends { (before : Sinks) (show : Show) (start : Walk) (read : List ℕ) → Starts start →
        IsScriptAt before (O.moment outside.old).sinks
        show (K.follows frames.old) start read stage.old →
        EndsScript before (O.moment outside.new).sinks
        show (K.follows frames.new) start read result }
    ensures status { IsScriptEnd result }
    ensures same { O.is_same outside.old outside.new }
    ensures only { OnlyEnds (O.moment outside.old) (O.moment outside.new) result }
{
    if stage.part.is_empty() {
        return Status::Done;
    }
    match take_line(frames, stage, outside) {
        Ok(()) => Status::Done,
        Err(stop) => status_of(stop),
    }
}

/// Reads the script of this name and carries out its lines, each whole line before the next read.
pub fn run_script<K: FrameMaker, O: Outside>(frames: &mut K, name: &str, outside: &mut O) -> Status
    requires idle { (O.moment outside.old).under_way ≡ false }
    requires ready { K.is_ready frames.old 0 }
    ensures ends { (show : Show) (start : Walk) → Begins show (K.follows frames.old) start →
        (files : List NamedFile) → (O.moment outside.old).shelf.files ≡ Some files → result ≢ Status.ReadFault →
        EndsScript (O.moment outside.old).sinks
        (O.moment outside.new).sinks show (K.follows frames.new) start
        (bytes_of files name.now) result }
    ensures read_fault { result ≡ Status.ReadFault → (show : Show) (start : Walk) →
        Begins show (K.follows frames.old) start → (files : List NamedFile) →
        (O.moment outside.old).shelf.files ≡ Some files →
        StopsReading (ScriptHasCome (O.moment outside.old).sinks
        (O.moment outside.new).sinks show start)
        (bytes_of files name.now) (O.moment outside.new).shelf.rest (O.moment outside.new).shelf.ended }
    ensures status { (result ≡ Status.ReadFault) ⊎ IsScriptEnd result }
    ensures same { O.is_same outside.old outside.new }
    ensures leaves { LeavesByScript (O.moment outside.old) (O.moment outside.new) result }
{
    let Ok(()) = outside.open_named(name) else {
        return Status::ReadFault;
    };
    let mut stage = Stage::new();
    let mut buffer = [0; PIECE];
    'pieces: loop {
        let Ok(count) = outside.read(&mut buffer) else {
            return Status::ReadFault;
        };
        if count == 0 {
            return end_script(frames, &mut stage, outside);
        }
        if let Err(stop) = take_piece(frames, &mut stage, &buffer[..count], outside) {
            return status_of(stop);
        }
    }
}
