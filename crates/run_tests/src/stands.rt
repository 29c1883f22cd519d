//! What stands of a run that was cut short, beside the same run in which nothing fails.

use crate::ran::Ran;

/// How many whole meshes stand, how many whole lines, and how many bytes an unfinished mesh has.
#[derive(Clone, Copy, Debug, PartialEq, Eq)]
pub(crate) struct Stands {
    pub(crate) meshes: usize,
    pub(crate) lines: usize,
    pub(crate) part: Option<usize>,
}

/// How many lines these bytes are; none where the last of them does not end.
fn lines_in(bytes: &[u8]) -> Option<usize> {
    let mut lines = 0usize;
    let mut is_whole = true;
    for byte in bytes {
        is_whole = *byte == b'\n';
        if is_whole {
            lines = lines.saturating_add(1);
        }
    }
    if is_whole { Some(lines) } else { None }
}

/// What stands of a calm run; none where anything else stands than its first meshes, of which the last may be
/// unfinished, with the first of its bytes, and its first lines.
pub(crate) fn stands_of(ran: &Ran, calm: &Ran) -> Option<Stands> {
    let report = ran.report.as_slice();
    if !calm.report.as_slice().starts_with(report) || ran.meshes.len() > calm.meshes.len() {
        return None;
    }
    let mut stands = Stands {
        meshes: 0,
        lines: lines_in(report)?,
        part: None,
    };
    for (mesh, whole) in ran.meshes.iter().zip(calm.meshes.iter()) {
        let is_next = mesh.number == whole.number && stands.part.is_none();
        if !is_next || !whole.bytes.as_slice().starts_with(mesh.bytes.as_slice()) {
            return None;
        }
        if !mesh.finished {
            stands.part = Some(mesh.bytes.len());
        } else if mesh.bytes.len() == whole.bytes.len() {
            stands.meshes = stands.meshes.saturating_add(1);
        } else {
            return None;
        }
    }
    Some(stands)
}
