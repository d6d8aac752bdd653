//! What is true of frames, whatever their bodies.
ghost use Rattle.std.specs.Prelude.{◌≡◌, ◌++◌, ◌<◌, ℕ, List, Ok, length, slice_index};
ghost use Rattle.hlc_frame.specs.{Frame.frame_bytes, Frame.FrameFits, Writing.joined, Writing.written};
ghost use Rattle.hlc_frame.specs.Reading.{body_so_far, tag_of};

/// A front, pieces with the length in the front, and the digest are a frame.
pub fn pieces_are_the_frame()
    ensures { (before : List ℕ) (len tag : ℕ) (pieces : List (List ℕ))
        → length (joined pieces) ≡ len
        → written before len tag pieces ≡ before ++ frame_bytes tag (joined pieces) }
{}

/// If the tag of some bytes is read, they are a frame of the body that was read, and a frame
/// returns its tag and its body.
pub fn blocks_are_the_frame()
    ensures found { (fed : List ℕ) (tag : ℕ) → ((i : ℕ) → slice_index fed i < 256)
        → tag_of fed ≡ Ok tag
        → FrameFits tag (body_so_far fed) × (fed ≡ frame_bytes tag (body_so_far fed)) }
    ensures only { (tag : ℕ) (body : List ℕ) → FrameFits tag body
        → (tag_of (frame_bytes tag body) ≡ Ok tag)
        × (body_so_far (frame_bytes tag body) ≡ body) }
{}
