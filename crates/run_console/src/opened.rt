//! Which file of a command was opened last.

ghost use Rattle.std.specs.Prelude.{◌≡◌, [], ◌∷◌, Some, map, option_map, string_bytes};
ghost use Rattle.run_words.specs.Words.{command_of};
ghost use Rattle.run_words.specs.WordView.{command_seen};
ghost use Rattle.run_console.specs.Opened.{opened_name, opened_role, entry};

use run_words::{Command, FrameWords, KeptCheckWords, Role, command_in};

/// A file that the words of a command name.
#[derive(Clone, Copy)]
pub struct OpenedFile<'a> {
    /// What it is.
    pub role: Role,
    /// Its name.
    pub name: &'a str,
}

/// The file that is opened as the one of this number, counted from 1, by the command that the words
/// are; None of words that are no command, and of numbers beyond its files.
pub fn opened_file(words: &[String], number: u64) -> Option<OpenedFile<'_>>
    ensures name { option_map (λ file. file.name.now) result ≡
        opened_name (command_of (map string_bytes words.now)) number }
    ensures role { option_map (λ file. file.role) result ≡
        opened_role (command_of (map string_bytes words.now)) number }
{
    match command_in(words) {
        Err(_) => None,
        Ok(command) => file_of(&command, number),
    }
}

/// The file that this command opens as the one of this number.
fn file_of<'a>(command: &Command<'a>, number: u64) -> Option<OpenedFile<'a>>
    ensures name { option_map (λ file. file.name.now) result ≡
        opened_name (Some (command_seen command.now)) number }
    ensures role { option_map (λ file. file.role) result ≡
        opened_role (Some (command_seen command.now)) number }
{
    match command {
        Command::Frames(words) => file_of_frames(words, number),
        Command::Info(grid) => file_of_grid(grid, number),
        Command::Try { .. } => None,
        Command::Make(words) => file_of_grid(words.grid, number),
        Command::Check(words) => {
            file_of_check(words.grid, words.certificate, words.mesh, number)
        }
        Command::Fit(words) => file_of_grid(words.grid, number),
        Command::Keep(words) => file_of_kept(words.grid, words.points, number),
        Command::MakeFit(words) => file_of_grid(words.grid, number),
        Command::CheckFit(words) => {
            file_of_check(words.grid, words.certificate, words.mesh, number)
        }
        Command::MakeKept(words) => file_of_kept(words.grid, words.points, number),
        Command::CheckKept(words) => file_of_kept_check(words, number),
    }
}

/// The only file of a command that has no other one than its grid.
fn file_of_grid(grid: &str, number: u64) -> Option<OpenedFile<'_>>
    ensures name { option_map (λ file. file.name.now) result ≡ entry (grid.now ∷ []) number }
    ensures role { option_map (λ file. file.role) result ≡ entry (Role.Grid ∷ []) number }
{
    match number {
        1 => Some(OpenedFile {
            role: Role::Grid,
            name: grid,
        }),
        _ => None,
    }
}

/// A file of a command that makes the frames of a script.
fn file_of_frames<'a>(words: &FrameWords<'a>, number: u64) -> Option<OpenedFile<'a>>
    ensures name { option_map (λ file. file.name.now) result ≡
        entry (words.now.grid.now ∷ (words.now.script.now ∷ [])) number }
    ensures role { option_map (λ file. file.role) result ≡
        entry (Role.Grid ∷ (Role.Script ∷ [])) number }
{
    match number {
        2 => Some(OpenedFile {
            role: Role::Script,
            name: words.script,
        }),
        _ => file_of_grid(words.grid, number),
    }
}

/// A file of a command that keeps points and checks nothing.
fn file_of_kept<'a>(grid: &'a str, points: &'a str, number: u64) -> Option<OpenedFile<'a>>
    ensures name { option_map (λ file. file.name.now) result ≡
        entry (grid.now ∷ (points.now ∷ [])) number }
    ensures role { option_map (λ file. file.role) result ≡
        entry (Role.Grid ∷ (Role.Points ∷ [])) number }
{
    match number {
        2 => Some(OpenedFile {
            role: Role::Points,
            name: points,
        }),
        _ => file_of_grid(grid, number),
    }
}

/// A file of a check of a mesh that keeps points: these come first, and then the certificate.
fn file_of_kept_check<'a>(words: &KeptCheckWords<'a>, number: u64) -> Option<OpenedFile<'a>>
    ensures name { option_map (λ file. file.name.now) result ≡
        entry (words.now.grid.now ∷ (words.now.points.now ∷ (words.now.certificate.now ∷ (words.now.mesh.now ∷ []))))
        number }
    ensures role { option_map (λ file. file.role) result ≡
        entry (Role.Grid ∷ (Role.Points ∷ (Role.Certificate ∷ (Role.Mesh ∷ [])))) number }
{
    match number {
        3 => Some(OpenedFile {
            role: Role::Certificate,
            name: words.certificate,
        }),
        4 => Some(OpenedFile {
            role: Role::Mesh,
            name: words.mesh,
        }),
        _ => file_of_kept(words.grid, words.points, number),
    }
}

/// A file of a check: the certificate comes before the mesh.
fn file_of_check<'a>(
    grid: &'a str,
    certificate: &'a str,
    mesh: &'a str,
    number: u64,
) -> Option<OpenedFile<'a>>
    ensures name { option_map (λ file. file.name.now) result ≡
        entry (grid.now ∷ (certificate.now ∷ (mesh.now ∷ []))) number }
    ensures role { option_map (λ file. file.role) result ≡
        entry (Role.Grid ∷ (Role.Certificate ∷ (Role.Mesh ∷ []))) number }
{
    match number {
        2 => Some(OpenedFile {
            role: Role::Certificate,
            name: certificate,
        }),
        3 => Some(OpenedFile {
            role: Role::Mesh,
            name: mesh,
        }),
        _ => file_of_grid(grid, number),
    }
}
