//! A sink of meshes in memory.

ghost use Rattle.std.specs.Prelude.{◌≡◌, ◌^◌, ◌<◌, ◌≤◌, ℕ, [], Some, None, true, false, IfOk, is_ok, is_err, is_some};
ghost use Rattle.std.specs.Prelude.{length, option_map, slice_get};
ghost use Rattle.roam_edge.specs.Fault.{HasCause, late_after};
ghost use Rattle.roam_edge.specs.MeshSink.{BeginsMesh, Writes, Finishes};
ghost use Rattle.roam_edge.specs.declared.mesh_sink.TheConstants.{LONGEST_PREFIX, GREATEST_NUMBER};
ghost use Rattle.roam_edge.specs.MemMeshes.{all_meshes, begin_fails, after_begin, write_fails, after_write};
ghost use Rattle.roam_edge.specs.MemMeshes.{finish_fails, after_finish};

use crate::mesh_call::is_named;
use crate::mesh_room::{Heading, Placed};
use crate::{Failed, MeshCall, MeshSink, NoMemory};
use arrayvec::ArrayString;
use std::alloc::Global;
use std::marker::Model;

/// A sink that keeps its meshes in memory.
///
/// Its room is taken once, by `new`. The calls that `new` names, a `begin` beyond its number of
/// meshes and a `write` beyond its bytes over all meshes fail and add nothing; no other call fails.
#[derive(Drop)]
pub struct MemMeshes {
    room: Vec<u8>,
    done: Vec<Placed>,
    current: Option<Heading>,
    mesh_room: u32,
    byte_room: u64,
    fails: Vec<MeshCall>,
    begins: u64,
    writes: u64,
    finishes: u64,
    faults: u64,
    late: bool,
}

impl Model for MemMeshes {
    ghost use Rattle.std.specs.Prelude.{◌≡◌, ◌+◌, ◌^◌, ◌<◌, ◌≤◌, length, map, option_map, option_to_list, vec_len};
    ghost use Rattle.std.specs.Prelude.{vec_capacity};
    ghost use Rattle.roam_edge.specs.MemMeshes.{KeptMeshes};
    ghost use Rattle.roam_edge.specs.MeshRoom.{mesh_from, mesh_at, LieWithin, StartsWithin};

    ghost Value = { KeptMeshes };

    ghost view = { λ s. record {
      done = map (mesh_at s.room.items) s.done.items;
      current = option_map (mesh_from s.room.items) s.current;
      mesh_room = s.mesh_room;
      byte_room = s.byte_room;
      fails = s.fails.items;
      begins = s.begins;
      writes = s.writes;
      finishes = s.finishes;
      faults = s.faults;
      late = s.late;
    } };

    ghost invariant = { λ s. record {
      places : s.mesh_room + length (option_to_list s.current) + vec_len s.done
          ≤ vec_capacity s.done;
      few : s.mesh_room + length (option_to_list s.current) + vec_len s.done < 2 ^ 32;
      bytes : s.byte_room + vec_len s.room ≤ vec_capacity s.room;
      done_within : LieWithin s.done.items (vec_len s.room);
      current_within : StartsWithin s.current (vec_len s.room);
    } };
}

impl MemMeshes {
    /// An empty sink with room for so many meshes and so many bytes over all of them, whose named
    /// calls fail.
    pub fn new(
        alloc: Global,
        fails: &[MeshCall],
        meshes: u32,
        bytes: u64,
    ) -> Result<MemMeshes, NoMemory>
        requires { bytes ≤ 2 ^ 32 }
        ensures { IfOk result (λ sink. sink ≡ record {
          done = [];
          current = None;
          mesh_room = meshes;
          byte_room = bytes;
          fails = fails.now;
          begins = 0;
          writes = 0;
          finishes = 0;
          faults = 0;
          late = false;
        }) }
    {
        Ok(MemMeshes {
            room: Vec::with_capacity(alloc, bytes as usize)?,
            done: Vec::with_capacity(alloc, meshes as usize)?,
            current: None,
            mesh_room: meshes,
            byte_room: bytes,
            fails: Vec::from_slice(alloc, fails)?,
            begins: 0,
            writes: 0,
            finishes: 0,
            faults: 0,
            late: false,
        })
    }

    /// The number of meshes that were begun, finished or not.
    pub fn count(&self) -> u64
        ensures { result ≡ length (all_meshes self.now) }
    {
        let done = self.done.len() as u64;
        match self.current {
            Some(_) => done + 1,
            None => done,
        }
    }

    /// The prefix of a mesh, by its place in the order of `begin`, counted from 0.
    pub fn prefix(&self, i: u64) -> &str
        requires { i < length (all_meshes self.now) }
        ensures { option_map (λ mesh. mesh.prefix) (slice_get (all_meshes self.now) i)
            ≡ Some result.now }
    {
        self.heading(i as usize).prefix.as_str()
    }

    /// The number of a mesh, by its place.
    pub fn number(&self, i: u64) -> u32
        requires { i < length (all_meshes self.now) }
        ensures { option_map (λ mesh. mesh.number) (slice_get (all_meshes self.now) i)
            ≡ Some result }
    {
        self.heading(i as usize).number
    }

    /// The bytes of a mesh so far, by its place.
    pub fn bytes(&self, i: u64) -> &[u8]
        requires { i < length (all_meshes self.now) }
        ensures { option_map (λ mesh. mesh.bytes) (slice_get (all_meshes self.now) i)
            ≡ Some result.now }
    {
        let i = i as usize;
        if i < self.done.len() {
            let placed = &self.done[i];
            return &self.room[placed.heading.start..placed.end];
        }
        match &self.current {
            Some(heading) => &self.room[heading.start..],
            None => unreachable!(),
        }
    }

    /// Whether a mesh is finished, by its place.
    pub fn finished(&self, i: u64) -> bool
        requires { i < length (all_meshes self.now) }
        ensures { option_map (λ mesh. mesh.finished) (slice_get (all_meshes self.now) i)
            ≡ Some result }
    {
        (i as usize) < self.done.len()
    }
}

impl MemMeshes {
    /// The heading of a mesh, by its place.
    fn heading(&self, i: usize) -> &Heading
        requires { i < length (all_meshes self.now) }
        ensures prefix { option_map (λ mesh. mesh.prefix) (slice_get (all_meshes self.now) i)
            ≡ Some result.now.prefix.bytes }
        ensures number { option_map (λ mesh. mesh.number) (slice_get (all_meshes self.now) i)
            ≡ Some result.now.number }
    {
        if i < self.done.len() {
            return &self.done[i].heading;
        }
        match &self.current {
            Some(heading) => heading,
            None => unreachable!(),
        }
    }
}

impl MeshSink for MemMeshes {
    ghost meshes = { λ s. Some (all_meshes s) };

    ghost under_way = { λ s. is_some s.current };

    ghost faults = { λ s. s.faults };

    ghost late = { λ s. s.late };

    fn begin(&mut self, prefix: &str, number: u32) -> Result<(), Failed>
        requires idle { is_some self.old.current ≡ false }
        requires prefix_some { 0 < length prefix.now }
        requires prefix_short { length prefix.now ≤ LONGEST_PREFIX }
        requires number_low { 1 ≤ number }
        requires number_high { number ≤ GREATEST_NUMBER }
        ensures fails { is_err result ≡ begin_fails self.old }
        ensures after { self.new ≡ after_begin self.old prefix.now number }
        ensures mesh { BeginsMesh (Some (all_meshes self.old)) (Some (all_meshes self.new))
            prefix.now number result }
        ensures under_way { is_some self.new.current ≡ is_ok result }
        ensures faults { HasCause self.old.faults self.new.faults result }
        ensures late { self.new.late ≡ late_after self.old.late self.old.faults }
    {
        self.late = self.late || self.faults > 0;
        self.begins = self.begins.saturating_add(1);
        let call = MeshCall::Begin(self.begins);
        if is_named(self.fails.as_slice(), call) || self.mesh_room == 0 {
            self.faults = self.faults.saturating_add(1);
            return Err(Failed);
        }
        let mut name = ArrayString::new();
        name.push_str(prefix);
        self.mesh_room -= 1;
        self.current = Some(Heading {
            prefix: name,
            number,
            start: self.room.len(),
        });
        Ok(())
    }

    fn write(&mut self, piece: &[u8]) -> Result<(), Failed>
        requires { is_some self.old.current ≡ true }
        ensures fails { is_err result ≡ write_fails self.old piece.now }
        ensures after { self.new ≡ after_write self.old piece.now }
        ensures mesh { Writes (Some (all_meshes self.old)) (Some (all_meshes self.new))
            piece.now result }
        ensures under_way { is_some self.new.current ≡ is_some self.old.current }
        ensures faults { HasCause self.old.faults self.new.faults result }
        ensures late { self.new.late ≡ late_after self.old.late self.old.faults }
    {
        self.late = self.late || self.faults > 0;
        self.writes = self.writes.saturating_add(1);
        let call = MeshCall::Write(self.writes);
        let size = piece.len() as u64;
        if is_named(self.fails.as_slice(), call) || self.byte_room < size {
            self.faults = self.faults.saturating_add(1);
            return Err(Failed);
        }
        match self.room.extend_from_slice(piece) {
            Ok(()) => {
                self.byte_room -= size;
                Ok(())
            }
            Err(_) => unreachable!(),
        }
    }

    fn finish(&mut self) -> Result<(), Failed>
        requires { is_some self.old.current ≡ true }
        ensures fails { is_err result ≡ finish_fails self.old }
        ensures after { self.new ≡ after_finish self.old }
        ensures mesh { Finishes (Some (all_meshes self.old)) (Some (all_meshes self.new)) result }
        ensures under_way { is_some self.new.current ≡ is_err result }
        ensures faults { HasCause self.old.faults self.new.faults result }
        ensures late { self.new.late ≡ late_after self.old.late self.old.faults }
    {
        self.late = self.late || self.faults > 0;
        self.finishes = self.finishes.saturating_add(1);
        let call = MeshCall::Finish(self.finishes);
        if is_named(self.fails.as_slice(), call) {
            self.faults = self.faults.saturating_add(1);
            return Err(Failed);
        }
        let Some(heading) = self.current else {
            unreachable!()
        };
        self.current = None;
        let placed = Placed {
            heading,
            end: self.room.len(),
        };
        match self.done.push(placed) {
            Ok(()) => Ok(()),
            Err(_) => unreachable!(),
        }
    }
}
