//! What a crash may leave of a job, so that the job can be resumed, and the laws of that. They name no code.
#![tactic(auto)]

ghost use Rattle.std.specs.Prelude.{◌≡◌, ◌≢◌, ◌<◌, ◌↔◌, ℕ, Bool, IsTrue, List, [], ◌∷◌, length, None, Some};
ghost use Rattle.disk_terms.specs.Disk.{History, Image, IsImage, IsSynced, IsUntouchedBeside, IsWritten};
ghost use Rattle.disk_terms.specs.Disk.{MayLeave, Survives};
ghost use Rattle.resume_terms.specs.Resumable.{GoesOn, IsAccepted, IsElsewhere, IsResumable, Leaves, open_text};
ghost use Rattle.resume_terms.specs.Worked.{Name, job, info, picture, worked_text, worked_frame, worked_digest};
ghost use Rattle.resume_terms.specs.Worked.{worked_body, worked_record};
ghost use Rattle.resume_terms.specs.Worked.{at_first, body_written, body_synced, gate_written, gate_synced};

/// The job file is open with its text behind the gate, and with no other gate and no empty text.
pub fn text_laws()
    ensures open { (text : List ℕ) → 0 < length text → open_text (1 ∷ text) ≡ Some text }
    ensures other_gate { (gate : ℕ) (text : List ℕ) → gate ≢ 1 → open_text (gate ∷ text) ≡ None }
    ensures no_text { (gate : ℕ) → open_text (gate ∷ []) ≡ None }
{}

/// Calls that touch neither the job file nor `info` keep each image resumable, where names can be told apart and there
/// was an image at all.
pub fn untouched_laws<File>()
    ensures goes_on { (same : File → File → Bool) → ((x y : File) → IsTrue (same x y) ↔ (x ≡ y))
        → (job info : File) (text : List ℕ) (frames : ℕ) (rec : ℕ → List ℕ) (before now : History File)
        → IsUntouchedBeside (IsElsewhere job info) before now
        → ((image : Image File) → IsImage before.newest image → IsResumable job info text frames rec image)
        → (first : Image File) → IsImage before.newest first → GoesOn job info text frames rec before now }
{}

/// What goes on from one moment to the next, and on from there, goes on over both.
pub fn step_laws<File>()
    ensures further { (job info : File) (text : List ℕ) (frames : ℕ) (rec : ℕ → List ℕ)
        (before middle now : History File) → GoesOn job info text frames rec before middle
        → GoesOn job info text frames rec middle now
        → GoesOn job info text frames rec before now }
{}

/// The worked history: each call on `info` is one that the disk's model has, what is synced is what reads may give, the
/// job file is open at each moment and each image is resumable, and behind the last sync `info` is the record.
pub fn worked_laws()
    ensures body_written { IsWritten info 1 63 at_first body_written }
    ensures body_synced { IsSynced info (0 ∷ worked_body) body_written body_synced }
    ensures gate_written { IsWritten info 0 1 body_synced gate_written }
    ensures gate_synced { IsSynced info worked_record gate_written gate_synced }
    ensures body_read { MayLeave (body_written.newest info) (0 ∷ worked_body) }
    ensures gate_read { MayLeave (gate_written.newest info) worked_record }
    ensures opened { Survives (λ image. open_text (image job) ≡ Some worked_text) at_first gate_synced }
    ensures goes_on { GoesOn job info worked_text 1 (λ _. worked_record) at_first gate_synced }
    ensures record_left { Leaves worked_record info gate_synced }
    ensures an_image { (image : Image Name) × IsImage gate_synced.newest image }
{}

/// What is accepted of the worked history: behind the first sync no frame, for its gate is closed yet, and behind the
/// last one the one frame, where its bytes have the digest that the record holds.
pub fn accepted_laws()
    ensures not_put { (digest : List ℕ → List ℕ) (image : Image Name) → IsImage body_synced.newest image
        → IsAccepted job info picture worked_text 1 digest image 0 }
    ensures put { (digest : List ℕ → List ℕ) → digest worked_frame ≡ worked_digest → (image : Image Name)
        → IsImage gate_synced.newest image → IsAccepted job info picture worked_text 1 digest image 1 }
{}
