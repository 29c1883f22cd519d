//! Laws of the definitions, each a clause of a function with an empty body.

ghost use Rattle.std.specs.Prelude.{◌≡◌, ℕ, ◌+◌, ◌*◌, ◌^◌, ◌<◌, ◌≤◌, ◌⊎◌, Bool, true, IsTrue, List, length, take, All};
ghost use Rattle.std.specs.Prelude.{Contains, Option};
ghost use Rattle.mesh_defs.specs.ClosedSet.{IsSubset, leaves_of, among};
ghost use Rattle.mesh_defs.specs.Ranking.{RanksBefore, IsRanking, IsRankClosure, IsBefore};
ghost use Rattle.mesh_defs.specs.Greedy.{IsFirstLeaf};
ghost use Rattle.mesh_defs.specs.GridSet.{IsGridSet};
ghost use Rattle.mesh_defs.specs.Falling.{IsFalling};
ghost use Rattle.mesh_laws.specs.Order.{IsNoLater};
ghost use Rattle.mesh_laws.specs.Diamond.{IsInDiamond};
ghost use Rattle.bintree_addr.specs.declared.blocked.Blocked.{Blocked};
ghost use Rattle.mesh_laws.specs.Frame.{IsFrame};
ghost use Rattle.mesh_laws.specs.Lead.{IsLead};
ghost use Rattle.mesh_laws.specs.Steps.{leaf_count, IsSplitStep, IsMergeStep, IsFinished, StepRun, HoldsChosen};
ghost use Rattle.mesh_laws.specs.Steps.{AreLoose, IsFrameRun};
ghost use Rattle.mesh_laws.specs.Deferred.{LeafStraddles, DiamondStraddles, DeferredFrame, IsDeferredFrame};
ghost use Rattle.mesh_laws.specs.Keys.{upper_key, lower_key, IsLastKey};
ghost use Rattle.mesh_laws.specs.Stamps.{Stamp, Readings, HasStamps, StampsHold, ReadingsHold};

/// No set of a grid has more members; so the counts of a run have room in 32 bits.
pub const MOST_MEMBERS: u32 = 1 << 30;

/// Each step from a closed set: there is one or the frame is finished, and it respects the chosen triangles.
///
/// `merge` says that no diamond that holds a chosen triangle is merged, `split` that each split is of a chosen one.
pub fn step_laws()
    ensures next { (n budget : ℕ) (priority : ℕ → ℕ) (before : List ℕ) →
        IsGridSet n before → IsFalling n priority → 2 ≤ budget →
        (((after : List ℕ) × IsSplitStep n budget priority before after)
        ⊎ (((after : List ℕ) × IsMergeStep n budget priority before after) ⊎ IsFinished n budget priority before)) }
    ensures merge { (n budget : ℕ) (priority : ℕ → ℕ) (ranking : List ℕ) (chosen : ℕ) (best : ℕ → Bool)
        (before after : List ℕ) → IsRanking n priority ranking → IsFalling n priority →
        IsRankClosure n budget ranking chosen best → IsGridSet n before →
        (step : IsMergeStep n budget priority before after) → HoldsChosen n ranking chosen step.diamond → ⊥ }
    ensures split { (n budget : ℕ) (priority : ℕ → ℕ) (ranking : List ℕ) (chosen : ℕ) (best : ℕ → Bool)
        (before after : List ℕ) → IsRanking n priority ranking → IsFalling n priority →
        IsRankClosure n budget ranking chosen best → IsGridSet n before →
        (step : IsSplitStep n budget priority before after) → IsTrue (among (take chosen ranking) step.leaf) }
{}

/// The run of a frame from a closed set: it ends, at the rank closure, in one way, and changes no more than it must.
///
/// `bound` says that at most the members are taken away whose diamond holds no chosen triangle. `no_merge` and
/// `no_split` say that nothing is taken away where the set only grows, and nothing added where it only shrinks;
/// `still` that a set that is the rank closure stays.
pub fn frame_run_laws()
    ensures ends { (n budget : ℕ) (priority : ℕ → ℕ) (start : List ℕ) →
        IsGridSet n start → IsFalling n priority → 2 ≤ budget →
        ((last : List ℕ) × (added : ℕ) × (removed : ℕ) × IsFrameRun n budget priority start last added removed) }
    ensures unique { (n budget : ℕ) (priority : ℕ → ℕ) (start last other : List ℕ) (added removed more less : ℕ) →
        IsFrameRun n budget priority start last added removed → IsFrameRun n budget priority start other more less →
        ((last ≡ other) × (added ≡ more) × (removed ≡ less)) }
    ensures set { (n budget : ℕ) (priority : ℕ → ℕ) (start last : List ℕ) (added removed : ℕ) →
        IsGridSet n start → IsFrameRun n budget priority start last added removed → IsGridSet n last }
    ensures size { (n budget : ℕ) (priority : ℕ → ℕ) (start last : List ℕ) (added removed : ℕ) →
        IsGridSet n start → IsFrameRun n budget priority start last added removed →
        length start + added ≡ length last + removed }
    ensures closure { (n budget : ℕ) (priority : ℕ → ℕ) (start last : List ℕ) (added removed : ℕ) →
        IsGridSet n start → IsFrameRun n budget priority start last added removed →
        (ranking : List ℕ) → IsRanking n priority ranking → IsFalling n priority →
        ((chosen : ℕ) × IsRankClosure n budget ranking chosen (among last)) }
    ensures frame { (n budget : ℕ) (priority : ℕ → ℕ) (start last : List ℕ) (added removed : ℕ) →
        IsGridSet n start → IsFrameRun n budget priority start last added removed → IsFalling n priority → 2 ≤ budget →
        ((worst : ℕ) × (blocked : Option Blocked) × IsFrame n budget priority (among last) worst blocked) }
    ensures no_merge { (n budget : ℕ) (priority : ℕ → ℕ) (start last : List ℕ) (added removed : ℕ) →
        IsGridSet n start → IsFrameRun n budget priority start last added removed → IsFalling n priority →
        IsSubset (among start) (among last) → removed ≡ 0 }
    ensures no_split { (n budget : ℕ) (priority : ℕ → ℕ) (start last : List ℕ) (added removed : ℕ) →
        IsGridSet n start → IsFrameRun n budget priority start last added removed → IsFalling n priority →
        IsSubset (among last) (among start) → added ≡ 0 }
    ensures bound { (n budget : ℕ) (priority : ℕ → ℕ) (start last : List ℕ) (added removed : ℕ) →
        IsGridSet n start → IsFrameRun n budget priority start last added removed →
        (ranking : List ℕ) (chosen : ℕ) (loose : List ℕ) → IsRanking n priority ranking → IsFalling n priority →
        IsRankClosure n budget ranking chosen (among last) → AreLoose n ranking chosen start loose →
        removed ≤ length loose }
    ensures loose { (n : ℕ) (ranking : List ℕ) (chosen : ℕ) (members : List ℕ) → IsGridSet n members →
        ((loose : List ℕ) × AreLoose n ranking chosen members loose) }
    ensures still { (n budget : ℕ) (priority : ℕ → ℕ) (start last : List ℕ) (added removed : ℕ) →
        IsGridSet n start → IsFrameRun n budget priority start last added removed →
        (ranking : List ℕ) (chosen : ℕ) → IsRanking n priority ranking → IsFalling n priority →
        IsRankClosure n budget ranking chosen (among start) → ((last ≡ start) × (added ≡ 0) × (removed ≡ 0)) }
{}

/// For a loop in code: how many steps are left is a number that each step lowers, and its two counters have room.
pub fn loop_laws()
    ensures measure { (n budget : ℕ) (priority : ℕ → ℕ) → IsFalling n priority → 2 ≤ budget →
        ((steps_left : List ℕ → ℕ) × ((before after : List ℕ) → IsGridSet n before →
        (IsSplitStep n budget priority before after ⊎ IsMergeStep n budget priority before after) →
        steps_left after < steps_left before)) }
    ensures splits { (n budget : ℕ) (priority : ℕ → ℕ) (start last : List ℕ) (added removed : ℕ) →
        IsFalling n priority → 2 ≤ budget → IsGridSet n start → StepRun n budget priority start last added removed →
        added ≤ 2 * MOST_MEMBERS }
    ensures merges { (n budget : ℕ) (priority : ℕ → ℕ) (start last : List ℕ) (added removed : ℕ) →
        IsFalling n priority → 2 ≤ budget → IsGridSet n start → StepRun n budget priority start last added removed →
        removed ≤ MOST_MEMBERS }
{}

/// What a loop over bounds has to ask straddles, so that it asks no more than the entries whose bound leaves their
/// place open.
///
/// `leaf`: where the leaves are within the budget, a leaf whose key comes first. `room`: a diamond whose lower bounds
/// come after the first leaf in rank. `over`: one whose lower bounds come no earlier than the diamond merged next.
/// That one whose lower bounds are 0 straddles is its definition.
pub fn straddling_laws()
    ensures leaf { (w : DeferredFrame) → IsDeferredFrame w → (members : List ℕ) → IsGridSet w.n members →
        leaf_count w.n members ≤ w.budget → (key : ℕ → ℕ) →
        ((l : ℕ) → Contains (leaves_of w.n (among members)) l → w.priority l ≤ key l) → (a : ℕ) →
        ((l : ℕ) → Contains (leaves_of w.n (among members)) l → IsNoLater (key a) a (key l) l) → 0 < key a →
        LeafStraddles w.priority w.ranking w.chosen key a }
    ensures room { (w : DeferredFrame) → IsDeferredFrame w → (members : List ℕ) (added removed : ℕ) →
        StepRun w.n w.budget w.priority w.start members added removed →
        (f : ℕ) → IsFirstLeaf w.n w.priority (among members) f → (lower : ℕ → ℕ) (a : ℕ) →
        ((b : ℕ) → IsInDiamond w.n a b → IsBefore (w.priority f) f (lower b) b) →
        DiamondStraddles w.n w.budget w.priority w.start lower a }
    ensures over { (w : DeferredFrame) → IsDeferredFrame w → (members : List ℕ) (added removed : ℕ) (after : List ℕ) →
        StepRun w.n w.budget w.priority w.start members added removed →
        (step : IsMergeStep w.n w.budget w.priority members after) → (lower : ℕ → ℕ) (a : ℕ) →
        ((b : ℕ) → IsInDiamond w.n a b → IsNoLater (w.priority step.diamond) step.diamond (lower b) b) →
        DiamondStraddles w.n w.budget w.priority w.start lower a }
{}

/// What the heads of queues tell that hold bounds where a priority was not asked.
///
/// The head of the split queue is the first leaf in rank where it is known and positive, and where it is 0 no leaf is
/// wanted. The last key of the merge queue bounds the rank of each diamond that can be merged.
pub fn queue_laws()
    ensures first { (w : DeferredFrame) → IsDeferredFrame w → (members : List ℕ) (known : ℕ → Bool) (f : ℕ) →
        Contains (leaves_of w.n (among members)) f → known f ≡ true → 0 < w.priority f →
        ((l : ℕ) → Contains (leaves_of w.n (among members)) l →
        IsNoLater (upper_key w known f) f (upper_key w known l) l) →
        IsFirstLeaf w.n w.priority (among members) f }
    ensures none { (w : DeferredFrame) → IsDeferredFrame w → (members : List ℕ) (known : ℕ → Bool) (f : ℕ) →
        upper_key w known f ≡ 0 →
        ((l : ℕ) → Contains (leaves_of w.n (among members)) l →
        IsNoLater (upper_key w known f) f (upper_key w known l) l) →
        All (λ a. w.priority a ≡ 0) (leaves_of w.n (among members)) }
    ensures last { (w : DeferredFrame) → IsDeferredFrame w → (members : List ℕ) (known : ℕ → Bool) (a c : ℕ) →
        IsGridSet w.n members → IsLastKey w members known a c →
        (d : ℕ) → IsLead w.n w.priority (among members) d → IsNoLater (w.priority d) d (lower_key w known c) c }
    ensures before { (w : DeferredFrame) → IsDeferredFrame w → (members : List ℕ) (known : ℕ → Bool) (a c f : ℕ) →
        IsGridSet w.n members → IsLastKey w members known a c → IsBefore (lower_key w known c) c (w.priority f) f →
        (d : ℕ) → IsLead w.n w.priority (among members) d → RanksBefore w.priority d f }
    ensures positive { (w : DeferredFrame) → IsDeferredFrame w → (members : List ℕ) (known : ℕ → Bool) (a c : ℕ) →
        IsGridSet w.n members → IsLastKey w members known a c → 0 < lower_key w known c →
        (d : ℕ) → IsLead w.n w.priority (among members) d → 0 < w.priority d }
{}

/// From stamps to the bounds of a frame: where each stamp that is not due has the priority between its ranks, and so
/// has each one of an address of the grid that would be taken now, the frame that counts what is due by the latter is
/// one over bounds.
pub fn stamp_laws()
    ensures { (w : DeferredFrame) (readings : Readings) (odometer : ℕ) (stamps : ℕ → Option Stamp) →
        IsRanking w.n w.priority w.ranking → IsFalling w.n w.priority →
        IsRankClosure w.n w.budget w.ranking w.chosen w.best → 2 ≤ w.budget → IsGridSet w.n w.start →
        HasStamps w readings odometer stamps → StampsHold w.priority odometer stamps →
        ReadingsHold w.n w.priority odometer readings → IsDeferredFrame w }
{}
