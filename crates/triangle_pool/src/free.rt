//! The free pairs of slots.

ghost use Rattle.std.specs.Prelude.{◌≡◌, ◌+◌, ◌^◌, ◌<◌, ◌≤◌, ◌++◌, [], ◌∷◌, IfOk, length};
ghost use Rattle.triangle_pool.specs.Slots.{IsGivenOut};

use mesh_defs::NoMemory;
use std::alloc::Global;
use std::marker::Model;

/// The pairs of slots that are free: those that merges gave back, and those that were never given out. What was never
/// given out is a number, so that making the pool touches no memory for it.
#[derive(Drop)]
pub struct FreePairs {
    /// The pairs that were given back; the last of them is the next to be given out.
    returned: Vec<u32>,
    /// The first pair that was never given out; so are all after it.
    unused: u32,
    /// How many pairs there are, free or not.
    pairs: u32,
}

impl Model for FreePairs {
    ghost use Rattle.std.specs.Prelude.{vec_capacity};
    ghost use Rattle.triangle_pool.specs.Slots.{FreeState, HasSpace};

    ghost Value = { FreeState };

    ghost view = { λ f. record { returned = f.returned.items; unused = f.unused; pairs = f.pairs } };

    ghost invariant = { λ f. HasSpace f.returned.items f.unused f.pairs (vec_capacity f.returned) };
}

impl FreePairs {
    /// All of so many pairs but the first.
    pub fn new(alloc: Global, pairs: u32) -> Result<FreePairs, NoMemory>
        requires some { 1 ≤ pairs }
        ensures returned { IfOk result (λ f. f.returned ≡ []) }
        ensures unused { IfOk result (λ f. f.unused ≡ 1) }
        ensures pairs { IfOk result (λ f. f.pairs ≡ pairs) }
    {
        Ok(FreePairs {
            returned: Vec::with_capacity(alloc, pairs as usize)?,
            unused: 1,
            pairs,
        })
    }

    /// How many pairs are free.
    pub fn room(&self) -> u32
        ensures { result + self.now.unused ≡ length self.now.returned + self.now.pairs }
    {
        self.returned.len() as u32 + (self.pairs - self.unused)
    }

    /// Gives a pair out.
    pub fn take(&mut self) -> u32
        requires some { self.old.unused < length self.old.returned + self.old.pairs }
        ensures next { IsGivenOut self.old self.new result }
        ensures pairs { self.new.pairs ≡ self.old.pairs }
    {
        match self.returned.pop() {
            Some(k) => k,
            None => {
                let k = self.unused;
                self.unused += 1;
                k
            }
        }
    }

    /// Takes a pair back that was given out; takes no memory.
    pub fn give_back(&mut self, k: u32)
        requires { length self.old.returned < self.old.unused }
        ensures returned { self.new.returned ≡ self.old.returned ++ (k ∷ []) }
        ensures unused { self.new.unused ≡ self.old.unused }
        ensures pairs { self.new.pairs ≡ self.old.pairs }
    {
        self.returned.push_reserved(k);
    }
}
