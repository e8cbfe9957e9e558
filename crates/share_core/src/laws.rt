//! Laws of runs. The function does nothing: its contract is the laws.
ghost use Rattle.std.specs.Prelude.{◌≡◌, ◌≢◌, ◌↔◌, ℕ, ◌<◌, nat_eq, List, All, AllPairs, Contains, count_by};
ghost use Rattle.share_merge.specs.Turns.{HasIndex, HasAll};
ghost use Rattle.share_core.specs.declared.events.Event.{Event};
ghost use Rattle.share_core.specs.declared.events.Answer.{Answer};
ghost use Rattle.share_core.specs.Lists.{Lists, indices_of, empty};
ghost use Rattle.share_core.specs.Coordinations.{Setting, AreLists};
ghost use Rattle.share_core.specs.Runs.{Runs, counted_in, IsGrantedIn, IsFirstDelivered, IsDeliveryOf, IsRefused, IsSound};

use residues::Ring;

/// After a list of events with their answers, from nothing counted and nothing granted on: the counted indices are those of the `Counted`
/// answers, in order, no two are equal, and all are counted where each was counted once. Index `i` is granted to a worker where it was, and was
/// not counted since, nor the worker lost, nor all restarted. A counted share is the first delivered share of its index that was not refused,
/// and a result of that share; whatever was delivered and not refused has its index counted.
pub fn coordinator_laws<R: Ring>()
    ensures lists { (setting : Setting R) (steps : List (Event × Answer)) (lists : Lists R R.Elem)
        → Runs (R.value setting.table.ring) setting steps empty lists → AreLists setting lists }
    ensures counted { (setting : Setting R) (steps : List (Event × Answer)) (lists : Lists R R.Elem)
        → Runs (R.value setting.table.ring) setting steps empty lists → indices_of lists.counted ≡ counted_in steps }
    ensures once { (setting : Setting R) (steps : List (Event × Answer)) (lists : Lists R R.Elem)
        → Runs (R.value setting.table.ring) setting steps empty lists → AllPairs (λ i k. i ≢ k) (counted_in steps) }
    ensures granted { (setting : Setting R) (steps : List (Event × Answer)) (lists : Lists R R.Elem)
        → Runs (R.value setting.table.ring) setting steps empty lists → (i worker : ℕ)
        → Contains lists.granted (i, worker) ↔ IsGrantedIn steps i worker }
    ensures first { (setting : Setting R) (steps : List (Event × Answer)) (lists : Lists R R.Elem)
        → Runs (R.value setting.table.ring) setting steps empty lists
        → All (IsFirstDelivered (R.value setting.table.ring) setting steps) lists.counted }
    ensures taken { (setting : Setting R) (steps : List (Event × Answer)) (lists : Lists R R.Elem)
        → Runs (R.value setting.table.ring) setting steps empty lists
        → All (λ s. (i : ℕ) → IsDeliveryOf i s.0 → ¬ (IsRefused s.1) → HasIndex lists.counted i) steps }
    ensures sound { (setting : Setting R) (steps : List (Event × Answer)) (lists : Lists R R.Elem)
        → Runs (R.value setting.table.ring) setting steps empty lists → All (IsSound (R.value setting.table.ring) setting) lists.counted }
    ensures done { (setting : Setting R) (steps : List (Event × Answer)) (lists : Lists R R.Elem)
        → Runs (R.value setting.table.ring) setting steps empty lists
        → HasAll setting.of lists.counted ↔ ((i : ℕ) → i < setting.of → count_by (λ k. nat_eq k i) (counted_in steps) ≡ 1) }
{}
