//! The program at a console: real files, standard output for the report, and what standard error says.

ghost use Rattle.std.specs.Prelude.{◌≡◌, ◌≢◌, ◌↔◌, None, drop, map, string_bytes};
ghost use Rattle.std.specs.Process.{exit_status};
ghost use Rattle.run_words.specs.Words.{command_of};
ghost use Rattle.run_console.specs.Ending.{IsExit};

use crate::explanation::{Topic, topic_after};
use crate::hint::{GridHint, grid_hint};
use crate::note::Note;
use crate::noted_files::{Noted, NotedFiles};
use crate::opened::opened_file;
use crate::outside_text::{MeshFault, ReadFault, ReportFault};
use crate::prefix::mesh_prefix;
use crate::program::Program;
use crate::usage::{Asked, VERSION, asked_for, tell_usage};
use crate::watched::{WatchedShelf, WatchedSink};
use crate::word_text::WordText;
use roam_edge::{FileMeshes, FileShelf, StdSink};
use run_laws::Status;
use run_words::command_in;
use std::env::Env;
use std::fmt::Display;
use std::io::ErrorKind;
use std::process::ExitCode;
use std::rt::Files;
use std::{env, io};

/// The exit status where the words cannot be had and memory is not the cause. No run has it.
const NO_WORDS: u8 = 8;

/// What failed outside, by where it did.
#[derive(Drop)]
struct Notes {
    reading: Note,
    meshes: Note,
    report: Note,
}

/// Runs this program on the words of the command line, over real files and standard output, and answers its status as
/// the exit status. What the report does not say stands on standard error.
///
/// Where the system cannot give the words the exit status is 8, or that of `NoMemory` where memory is the cause. No
/// clause can speak of what the system gives, so which words are carried out is not said.
pub fn run_program<R: Env + Files + Print + Eprint + AllocGlobal, P: Program>(
    rt: &R,
    program: &P,
) -> ExitCode
    ensures exit { IsExit (P.ran program.now) (exit_status result) }
{
    let all = match all_words(rt) {
        Ok(all) => all,
        Err(error) => return without_words(rt, error.kind()),
    };
    let notes = Notes {
        reading: Note::new(),
        meshes: Note::new(),
        report: Note::new(),
    };
    let status = run(rt, program, behind_name(all.as_slice()), &notes);
    ExitCode::from(status.number())
}

/// The words behind the program's name.
fn behind_name(all: &[String]) -> &[String]
    ensures { result.now ≡ drop 1 all.now }
{
    match all {
        [_, words @ ..] => words,
        [] => all,
    }
}

/// Carries the words out over real files, and tells on standard error what the report does not.
fn run<R: Files + Print + Eprint + AllocGlobal, P: Program>(
    rt: &R,
    program: &P,
    words: &[String],
    notes: &Notes,
) -> Status
    ensures ran { P.ran program.now (map string_bytes words.now) result }
    ensures usage { (result ≡ Status.Usage) ↔ (command_of (map string_bytes words.now) ≡ None) }
{
    let read_files = NotedFiles::new(rt, &notes.reading);
    let mesh_files = NotedFiles::new(rt, &notes.meshes);
    let mut shelf = WatchedShelf::new(FileShelf::new(&read_files));
    let mut meshes = FileMeshes::new(&mesh_files);
    let mut report = WatchedSink::new(StdSink::new(Noted::new(io::writer(rt), &notes.report)));
    let status = program.status_of(rt.alloc(), words, &mut shelf, &mut meshes, &mut report);
    match topic_after(status, !report.line().is_empty(), is_cut(&notes.report)) {
        Topic::Nothing => {}
        Topic::Memory => say(rt, "out of memory"),
        Topic::Words => say_words(rt, words),
        Topic::Grid => say_refusal(rt, grid_hint(report.line(), shelf.head(), shelf.size())),
        Topic::Frames => say_frames(rt, words),
        Topic::File => say_file(rt, words, shelf.opens(), &notes.reading),
        Topic::Output => say_output(rt, words, notes),
    }
    status
}

/// Whether nobody reads any more what was written.
fn is_cut(note: &Note) -> bool {
    match note.failure() {
        Some(failure) => failure.error.kind() == ErrorKind::BrokenPipe,
        None => false,
    }
}

/// Says one line.
fn say<D: Display + Drop>(rt: &impl Eprint, text: D) {
    let _ = eprintln!(rt; "roam: {text}");
}

/// Says what is wrong with words that are no command, and how they are to be; or what they ask for.
fn say_words(rt: &impl Eprint, words: &[String]) {
    match asked_for(words) {
        Some(Asked::Version) => {
            let _ = rt.eprintln(VERSION);
        }
        Some(Asked::Usage) => tell_usage(rt),
        None => {
            if let Err(fault) = command_in(words) {
                say(rt, WordText { fault });
            }
            tell_usage(rt);
        }
    }
}

/// Says what was seen of a refused grid, and what is accepted.
fn say_refusal(rt: &impl Eprint, hint: Option<GridHint<'_>>) {
    if let Some(hint) = hint {
        say(rt, hint);
    }
}

/// Says that there was no frame.
fn say_frames(rt: &impl Eprint, words: &[String]) {
    match words {
        [word, ..] if word.as_str() == "measure" => {
            say(rt, "no 'frame' line in the script, so nothing was measured");
        }
        _ => say(rt, "no 'frame' line in the script, so no mesh was made"),
    }
}

/// Says which file could not be opened or read: the last one that was opened.
fn say_file(rt: &impl Eprint, words: &[String], opens: u64, note: &Note) {
    say(
        rt,
        ReadFault {
            file: opened_file(words, opens),
            failure: note.failure(),
        },
    );
}

/// Says whether a mesh or the report could not be written.
fn say_output(rt: &impl Eprint, words: &[String], notes: &Notes) {
    match (notes.meshes.failure(), mesh_prefix(words)) {
        (Some(failure), Some(prefix)) => say(
            rt,
            MeshFault {
                prefix,
                number: notes.meshes.opened(),
                failure: Some(failure),
            },
        ),
        _ => say(
            rt,
            ReportFault {
                failure: notes.report.failure(),
            },
        ),
    }
}

/// The words of the command line, the program's name first.
fn all_words(rt: &(impl Env + AllocGlobal)) -> io::Result<Vec<String>> {
    Ok(env::args(rt)?.collect(rt.alloc())?)
}

/// Ends a program that cannot have its words.
fn without_words(rt: &impl Eprint, kind: ErrorKind) -> ExitCode
    ensures memory { kind ≡ ErrorKind.OutOfMemory → exit_status result ≡ 1 }
    ensures system { kind ≢ ErrorKind.OutOfMemory → exit_status result ≡ 8 }
{
    if kind == ErrorKind::OutOfMemory {
        say(rt, "out of memory");
        return ExitCode::from(Status::NoMemory.number());
    }
    say(rt, "a word of the command line is not UTF-8");
    ExitCode::from(NO_WORDS)
}
