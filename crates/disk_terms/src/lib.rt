//! What a crash may leave of a disk's files, by any type of names, and the laws of that. They name no code.
//!
//! The laws of histories speak of any set of files and of any fact about images. A clause can't, so they are lemmas of
//! `proofs`: how histories go on (`Moments`), files that calls leave alone (`Untouched`), what every crash leaves
//! (`Crashes`).
#![tactic(auto)]

ghost use Rattle.std.specs.Prelude.{◌≡◌, ◌≤◌, ◌+◌, ◌↔◌, ℕ, Bool, IsTrue, List, [], ◌∷◌, ◌++◌, length, take, drop};
ghost use Rattle.disk_terms.specs.Disk.{Range, Trail, AreBytes, MayLeave, DiffersWithin, at_rest, written_to, cut_to};
ghost use Rattle.disk_terms.specs.Disk.{History, IsChanged, IsSynced};
ghost use Rattle.disk_terms.specs.Worked.{IsWorked};

/// Of a file that stands on the disk as it is a crash leaves these bytes, and nothing else.
pub fn rest_laws()
    ensures may_leave { (bytes : List ℕ) → AreBytes bytes → MayLeave (at_rest bytes) bytes }
    ensures nothing_else { (bytes left : List ℕ) → MayLeave (at_rest bytes) left → left ≡ bytes }
{}

/// A crash may leave what reads give. Behind a write these are the old bytes with the new ones over them, and behind a
/// cut those in front of the new end.
pub fn read_laws()
    ensures written { (trail : Trail) (bytes new : List ℕ) (at : ℕ) → MayLeave trail bytes → AreBytes new
        → at ≤ length bytes
        → MayLeave (written_to at (length new) trail) (take at bytes ++ new ++ drop (at + length new) bytes) }
    ensures cut { (trail : Trail) (bytes : List ℕ) (size : ℕ) → MayLeave trail bytes
        → MayLeave (cut_to size trail) (take size bytes) }
{}

/// A call that failed, or that a crash cut short, has done a part of its work or nothing. So up to a sync what may be
/// left only becomes more.
pub fn failure_laws()
    ensures not_written { (trail : Trail) (bytes : List ℕ) (at size : ℕ) → MayLeave trail bytes
        → MayLeave (written_to at size trail) bytes }
    ensures partly_written { (trail : Trail) (old new : List ℕ) (range : Range) → MayLeave trail old → AreBytes new
        → range.at ≤ length old → DiffersWithin range old new → MayLeave (written_to range.at range.size trail) new }
    ensures not_cut { (trail : Trail) (bytes : List ℕ) (size : ℕ) → MayLeave trail bytes
        → MayLeave (cut_to size trail) bytes }
    ensures partly_cut { (trail : Trail) (bytes : List ℕ) (size longer : ℕ) → MayLeave trail bytes → size ≤ longer
        → MayLeave (cut_to size trail) (take longer bytes) }
{}

/// Where a test tells names apart, a change of one file's trail is possible, and makes one history.
pub fn change_laws<File>()
    ensures possible { (same : File → File → Bool) → ((x y : File) → IsTrue (same x y) ↔ (x ≡ y))
        → (file : File) (trail : Trail) (before : History File)
        → (now : History File) × IsChanged file trail before now }
    ensures one { (same : File → File → Bool) → ((x y : File) → IsTrue (same x y) ↔ (x ≡ y))
        → (file : File) (trail : Trail) (before now other : History File) → IsChanged file trail before now
        → IsChanged file trail before other → other ≡ now }
{}

/// A worked history: what a crash behind the cut may leave of the file, what it can't, and that behind a sync it leaves
/// what reads give and nothing else.
pub fn worked_laws<File>()
    ensures cut { (file : File) (begun written cut : History File) → IsWorked file begun written cut
        → MayLeave (cut.newest file) (1 ∷ 2 ∷ []) }
    ensures not_cut { (file : File) (begun written cut : History File) → IsWorked file begun written cut
        → MayLeave (cut.newest file) (1 ∷ 2 ∷ 3 ∷ 9 ∷ 9 ∷ []) }
    ensures any_bytes { (file : File) (begun written cut : History File) → IsWorked file begun written cut
        → MayLeave (cut.newest file) (1 ∷ 2 ∷ 3 ∷ 7 ∷ 7 ∷ []) }
    ensures nothing_done { (file : File) (begun written cut : History File) → IsWorked file begun written cut
        → MayLeave (cut.newest file) (1 ∷ 2 ∷ 3 ∷ 4 ∷ []) }
    ensures not_shorter { (file : File) (begun written cut : History File) → IsWorked file begun written cut
        → ¬ MayLeave (cut.newest file) [] }
    ensures not_elsewhere { (file : File) (begun written cut : History File) → IsWorked file begun written cut
        → ¬ MayLeave (cut.newest file) (1 ∷ 5 ∷ []) }
    ensures not_longer { (file : File) (begun written cut : History File) → IsWorked file begun written cut
        → ¬ MayLeave (cut.newest file) (1 ∷ 2 ∷ 3 ∷ 9 ∷ 9 ∷ 9 ∷ []) }
    ensures synced { (file : File) (begun written cut synced : History File) → IsWorked file begun written cut
        → IsSynced file (1 ∷ 2 ∷ []) cut synced → (left : List ℕ) → MayLeave (synced.newest file) left
        → left ≡ 1 ∷ 2 ∷ [] }
{}
