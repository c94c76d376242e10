//! What the bytes of a batch say.
ghost use Rattle.std.specs.Prelude.{◌≡◌, ℕ, List};
ghost use Rattle.cube_model.specs.declared.rows.LineOrder.{LineOrder};
ghost use Rattle.column_segment.specs.Segment.{IsSegment};

/// Bytes are those of one batch at most, with one number. No program has to call it.
pub fn bytes_are_one_batch()
    ensures { (bytes : List ℕ) (number other : ℕ) (rows others : List LineOrder)
        → IsSegment bytes number rows → IsSegment bytes other others → (number ≡ other) × (rows ≡ others) }
{}
