//! What stays through runs and crashes.
ghost use Rattle.std.specs.Prelude.{ℕ, Option, List};
ghost use Rattle.outside_io.specs.Moments.{Moment, IsImage, settled};
ghost use Rattle.outside_io.specs.Traces.{Trace};
ghost use Rattle.page_codec.specs.declared.params.Params.{Params};
ghost use Rattle.page_file.specs.Stays.{AllImages};
ghost use Rattle.file_model.specs.Prefixes.{HasPages};
ghost use Rattle.file_model.specs.Stays.{Stays};

/// The first k pages of parameters stay in every image through two runs where they stay through both, one after the other, and a crash at any
/// moment leaves them in the one image that is then there.
pub fn staying_laws()
    ensures on { (params : Params) (k : ℕ) (old mid new : Option Trace) → Stays (HasPages params k) old mid → Stays (HasPages params k) mid new
        → Stays (HasPages params k) old new }
    ensures same { (params : Params) (k : ℕ) (told : Option Trace) → Stays (HasPages params k) told told }
    ensures crashed { (params : Params) (k : ℕ) (m : Moment) (image : List ℕ) → AllImages (HasPages params k) m → IsImage m image
        → AllImages (HasPages params k) (settled image) }
{}
