//! What is said of a file that could not be opened, read or written.

use crate::note::{Failure, Step};
use crate::opened::OpenedFile;
use crate::quoted::Quoted;
use run_words::Role;
use std::fmt;

/// A file that could not be opened or read. Its text says which one, and what the system says.
#[derive(Clone, Copy)]
pub struct ReadFault<'a> {
    /// The file, if the words name one.
    pub file: Option<OpenedFile<'a>>,
    /// The call that failed, if it was noted.
    pub failure: Option<Failure>,
}

impl<'a> fmt::Display for ReadFault<'a> {
    fn fmt<W: fmt::Write>(&self, f: &mut fmt::Formatter<W>) -> fmt::Result {
        write!(f, "cannot {} ", verb(self.failure, "open or read"))?;
        write_file(f, self.file)?;
        write_cause(f, self.failure)
    }
}

/// A mesh that could not be written. Its text says which file it is, and what the system says.
#[derive(Clone, Copy)]
pub struct MeshFault<'a> {
    /// What the names of meshes begin with.
    pub prefix: &'a str,
    /// The number of the mesh.
    pub number: u64,
    /// The call that failed, if it was noted.
    pub failure: Option<Failure>,
}

impl<'a> fmt::Display for MeshFault<'a> {
    fn fmt<W: fmt::Write>(&self, f: &mut fmt::Formatter<W>) -> fmt::Result {
        write!(
            f,
            "cannot {} the mesh '{}{:06}.obj'",
            verb(self.failure, "write"),
            self.prefix,
            self.number
        )?;
        write_cause(f, self.failure)
    }
}

/// A report that could not be written. Its text says what the system says.
#[derive(Clone, Copy)]
pub struct ReportFault {
    /// The call that failed, if it was noted.
    pub failure: Option<Failure>,
}

impl fmt::Display for ReportFault {
    fn fmt<W: fmt::Write>(&self, f: &mut fmt::Formatter<W>) -> fmt::Result {
        f.write_str("cannot write the report")?;
        write_cause(f, self.failure)
    }
}

/// What a file is, in words.
fn noun(role: Role) -> &'static str {
    match role {
        Role::Grid => "grid",
        Role::Script => "script",
        Role::Certificate => "certificate",
        Role::Mesh => "mesh",
        Role::Points => "points",
    }
}

/// What was tried, in words.
fn verb(failure: Option<Failure>, other: &'static str) -> &'static str {
    match failure {
        Some(failure) => match failure.step {
            Step::Open => "open",
            Step::Read => "read",
            Step::Write => "write",
        },
        None => other,
    }
}

/// Writes which file it is, if the words name one.
fn write_file<W: fmt::Write>(
    f: &mut fmt::Formatter<W>,
    file: Option<OpenedFile<'_>>,
) -> fmt::Result {
    match file {
        Some(file) => write!(f, "the {} {}", noun(file.role), Quoted(file.name)),
        None => f.write_str("a file"),
    }
}

/// Writes what the system says, if it was noted.
fn write_cause<W: fmt::Write>(f: &mut fmt::Formatter<W>, failure: Option<Failure>) -> fmt::Result {
    match failure {
        Some(failure) => write!(f, ": {}", failure.error),
        None => Ok(()),
    }
}
