//! A sink of meshes that counts them.

ghost use Rattle.std.specs.Prelude.{◌≡◌, ◌+◌, ◌-◌, ◌^◌, ◌<◌, ◌≤◌, None, true, false, IsOk, is_ok, is_err, length, min};
ghost use Rattle.roam_edge.specs.Fault.{HasCause, next_count};
ghost use Rattle.roam_edge.specs.MeshSink.{BeginsMesh, Writes, Finishes};
ghost use Rattle.roam_edge.specs.declared.mesh_sink.TheConstants.{LONGEST_PREFIX, GREATEST_NUMBER};

use roam_edge::{Failed, MeshSink};
use std::marker::Model;

/// A sink that counts finished meshes and bytes, keeps none, never fails and takes no memory.
///
/// At 2^64 - 1 a count stands still.
#[derive(Drop)]
pub struct CountMeshes {
    meshes: u64,
    bytes: u64,
    under_way: bool,
}

impl Model for CountMeshes {
    ghost use Rattle.edge_doubles.specs.CountMeshes.{CountedMeshes};

    ghost Value = { CountedMeshes };

    ghost view = { λ s. record {
      meshes = s.meshes;
      bytes = s.bytes;
      under_way = s.under_way;
    } };
}

impl CountMeshes {
    /// A sink that has counted nothing.
    pub fn new() -> CountMeshes
        ensures { result ≡ record { meshes = 0; bytes = 0; under_way = false } }
    {
        CountMeshes {
            meshes: 0,
            bytes: 0,
            under_way: false,
        }
    }

    /// The number of finished meshes.
    pub fn meshes(&self) -> u64
        ensures { result ≡ self.now.meshes }
    {
        self.meshes
    }

    /// The number of bytes over all meshes, finished or not.
    pub fn bytes(&self) -> u64
        ensures { result ≡ self.now.bytes }
    {
        self.bytes
    }
}

impl MeshSink for CountMeshes {
    ghost meshes = { λ _. None };

    ghost under_way = { λ s. s.under_way };

    ghost faults = { λ _. 0 };

    ghost late = { λ _. false };

    fn begin(&mut self, _prefix: &str, _number: u32) -> Result<(), Failed>
        requires idle { self.old.under_way ≡ false }
        requires prefix_some { 0 < length _prefix.now }
        requires prefix_short { length _prefix.now ≤ LONGEST_PREFIX }
        requires number_low { 1 ≤ _number }
        requires number_high { _number ≤ GREATEST_NUMBER }
        ensures ok { IsOk result }
        ensures after { self.new ≡ record self.old { under_way = true } }
        ensures mesh { BeginsMesh None None _prefix.now _number result }
        ensures under_way { self.new.under_way ≡ is_ok result }
        ensures faults { HasCause 0 0 result }
    {
        self.under_way = true;
        Ok(())
    }

    fn write(&mut self, piece: &[u8]) -> Result<(), Failed>
        requires { self.old.under_way ≡ true }
        ensures ok { IsOk result }
        ensures after { self.new ≡ record self.old {
          bytes = min (self.old.bytes + length piece.now) (2 ^ 64 - 1);
        } }
        ensures mesh { Writes None None piece.now result }
        ensures under_way { self.new.under_way ≡ self.old.under_way }
        ensures faults { HasCause 0 0 result }
    {
        self.bytes = self.bytes.saturating_add(piece.len() as u64);
        Ok(())
    }

    fn finish(&mut self) -> Result<(), Failed>
        requires { self.old.under_way ≡ true }
        ensures ok { IsOk result }
        ensures after { self.new ≡ record self.old {
          meshes = next_count self.old.meshes;
          under_way = false;
        } }
        ensures mesh { Finishes None None result }
        ensures under_way { self.new.under_way ≡ is_err result }
        ensures faults { HasCause 0 0 result }
    {
        self.meshes = self.meshes.saturating_add(1);
        self.under_way = false;
        Ok(())
    }
}
