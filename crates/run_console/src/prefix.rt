//! What the names of the meshes of a command begin with.

ghost use Rattle.std.specs.Prelude.{◌≡◌, map, option_map, string_bytes};
ghost use Rattle.run_words.specs.Words.{command_of, prefix_of};
ghost use Rattle.run_words.specs.WordView.{show_for};
ghost use Rattle.run_console.specs.Prefix.{command_prefix};

use run_words::{Command, Meshing, Showing, command_in};

/// What the names of the meshes begin with that the command writes; None of a command that writes none, and of words
/// that are no command.
pub fn mesh_prefix(words: &[String]) -> Option<&str>
    ensures { option_map (λ prefix. prefix.now) result ≡ command_prefix (command_of (map string_bytes words.now)) }
{
    match command_in(words) {
        Ok(Command::Frames(words)) => prefix_for(words.meshing),
        Ok(Command::Fit(words)) => Some(words.prefix),
        Ok(Command::Keep(words)) => Some(words.prefix),
        _ => None,
    }
}

/// What the names of the meshes of a script begin with.
fn prefix_for(meshing: Meshing<'_>) -> Option<&str>
    ensures { option_map (λ prefix. prefix.now) result ≡ prefix_of (show_for meshing.entry) }
{
    match meshing {
        Meshing::ByEngine(Showing::Meshes(prefix) | Showing::Strips(prefix))
        | Meshing::ByTolerance { prefix, .. } => Some(prefix),
        Meshing::ByEngine(Showing::Measures) => None,
    }
}
