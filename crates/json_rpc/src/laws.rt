ghost use Rattle.std.specs.Prelude.{◌≡◌, ◌↔◌, ◌⊎◌, ◌<◌, ◌≤◌, ◌+◌, ◌++◌, ◌∷◌, [], ℕ, List, length};
ghost use Rattle.json_rpc.specs.Replies.{frame_of};
ghost use Rattle.json_rpc.specs.Spelled.{AreHeaderLines, BeginsBody, BeginsFrame, BeginsLines, BeginsPart, GoesOn, IsFrame, IsRefusedAt};
ghost use Rattle.json_rpc.specs.Streams.{next_of, partial, whole, wrong};
ghost use Rattle.json_rpc.specs.declared.fault.FrameFault.{FrameFault};

/// Frames are read as they are spelled, and what is written is a frame that is read back.
pub fn frame_laws()
    ensures exactly { (at : ℕ) (bytes body rest : List ℕ) → (next_of at bytes ≡ whole body rest) ↔ BeginsFrame bytes body rest }
    ensures read { (at : ℕ) (frame body rest : List ℕ) → IsFrame frame body → next_of at (frame ++ rest) ≡ whole body rest }
    ensures refused { (at : ℕ) (bytes : List ℕ) (k : ℕ) → (next_of at bytes ≡ wrong (FrameFault.Header k)) ↔ ((place : ℕ) × (k ≡ at + place) × IsRefusedAt bytes place) }
    ensures one_place { (bytes : List ℕ) (a b : ℕ) → IsRefusedAt bytes a → IsRefusedAt bytes b → a ≡ b }
    ensures broken { (bytes : List ℕ) → ((more : List ℕ) → BeginsLines bytes more → ⊥) → ((prefix rest lengths : List ℕ) → bytes ≡ prefix ++ rest → AreHeaderLines prefix lengths → ⊥) → (place : ℕ) × IsRefusedAt bytes place }
    ensures no_length { (at : ℕ) (bytes : List ℕ) (k : ℕ) → (next_of at bytes ≡ wrong (FrameFault.NoLength k)) ↔ ((count : ℕ) × (k ≡ at + count) × BeginsPart bytes [] count) }
    ensures too_long { (at : ℕ) (bytes : List ℕ) (n : ℕ) → (next_of at bytes ≡ wrong (FrameFault.TooLong n)) ↔ ((16777216 < n) × ((count : ℕ) × BeginsPart bytes (n ∷ []) count)) }
    ensures unfinished { (at : ℕ) (bytes : List ℕ) → (next_of at bytes ≡ partial) ↔ (((length bytes ≤ 8192) × GoesOn bytes) ⊎ BeginsBody bytes) }
    ensures written { (body : List ℕ) → length body ≤ 16777216 → IsFrame (frame_of body) body }
{}
