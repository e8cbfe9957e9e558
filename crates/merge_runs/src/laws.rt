//! The laws of merge runs. The function does nothing: its contract is the laws.
ghost use Rattle.std.specs.Prelude.{◌≡◌, ℕ, [], List};
ghost use Rattle.column_order.specs.Columns.{ColumnList};
ghost use Rattle.share_model.specs.declared.share.Share.{Share};
ghost use Rattle.share_model.specs.Checked.{Checked};
ghost use Rattle.share_merge.specs.Turns.{IsLeastMissing, HasAll, MergesWhole, BreaksAtRow};
ghost use Rattle.share_core.specs.declared.events.Event.{Event};
ghost use Rattle.share_core.specs.declared.events.Event.TheVariants.{Deliver};
ghost use Rattle.share_core.specs.declared.events.Answer.{Answer};
ghost use Rattle.share_core.specs.declared.events.Answer.TheVariants.{Refused};
ghost use Rattle.share_core.specs.declared.events.Refusal.{Refusal};
ghost use Rattle.share_core.specs.Lists.{Lists, empty};
ghost use Rattle.share_core.specs.Coordinations.{Setting};
ghost use Rattle.share_core.specs.Steps.{Answers};
ghost use Rattle.share_core.specs.Runs.{Runs};
ghost use Rattle.merge_program.specs.declared.words.TableWords.{TableWords};
ghost use Rattle.merge_runs.specs.MergeWords.{Asked, AsksForMerge};
ghost use Rattle.merge_runs.specs.Files.{AreOfShare};
ghost use Rattle.merge_runs.specs.Taking.{TakesAll, IsRefused};
ghost use Rattle.merge_runs.specs.Plain.{plain_shares};
ghost use Rattle.merge_runs.specs.Deliveries.{AreDelivered, CountsThese, why_refused};
ghost use Rattle.merge_runs.specs.Runs.{Run, IsMergeRun};

use residues::Ring;

/// Words ask for one merge, and for what is asked, over the bytes of the files, there is one whole run.
///
/// What a whole run takes, refuses and gives is what the steps of a coordinator and its `finish` do, over whatever ring, for the list of one
/// delivery for each file: where no delivery is refused the files are taken, and the same shares are counted; a file is refused as the delivery
/// of its share is; and of the counted shares the same is missing, the same is whole, and the work breaks at the same row.
pub fn merge_run_laws<R: Ring>()
    ensures one_ask { (words : List (List ℕ)) (a b : Asked) → AsksForMerge words a → AsksForMerge words b → a ≡ b }
    ensures one_run { (asked : Asked) (files : List (List ℕ)) (v w : Run) → IsMergeRun asked files v → IsMergeRun asked files w → v ≡ w }
    ensures delivered { (setting : Setting R) (merge : TableWords) (files : List (List ℕ)) (steps : List (Event × Answer)) (lists : Lists R R.Elem)
        → setting.params ≡ merge.params → setting.of ≡ merge.shares → AreDelivered files steps
        → Runs (R.value setting.table.ring) setting steps empty lists
        → (counted : List Share) × TakesAll merge [] files counted × CountsThese (R.value setting.table.ring) lists.counted counted }
    ensures refused { (setting : Setting R) (merge : TableWords) (lists new : Lists R R.Elem) (counted : List Share) (file : List ℕ) (share : Share)
        (why : Refusal) → setting.params ≡ merge.params → setting.of ≡ merge.shares
        → CountsThese (R.value setting.table.ring) lists.counted counted → AreOfShare file share
        → Answers (R.value setting.table.ring) setting lists (Deliver share) (Refused why) new → IsRefused merge counted file (why_refused why) }
    ensures missing { (ring : R) (shares index : ℕ) (list : List (Checked R R.Elem)) (counted : List Share) → CountsThese (R.value ring) list counted
        → IsLeastMissing shares list index → IsLeastMissing shares (plain_shares counted) index }
    ensures all { (ring : R) (shares : ℕ) (list : List (Checked R R.Elem)) (counted : List Share) → CountsThese (R.value ring) list counted
        → HasAll shares list → HasAll shares (plain_shares counted) }
    ensures whole { (ring : R) (columns : ColumnList) (list : List (Checked R R.Elem)) (counted : List Share) → CountsThese (R.value ring) list counted
        → MergesWhole (R.modulus ring) (R.value ring) columns list → MergesWhole (R.modulus ring) (λ v. v) columns (plain_shares counted) }
    ensures broken { (ring : R) (columns : ColumnList) (list : List (Checked R R.Elem)) (counted : List Share) (residue share row : ℕ)
        → CountsThese (R.value ring) list counted → BreaksAtRow (R.modulus ring) (R.value ring) columns list residue share row
        → BreaksAtRow (R.modulus ring) (λ v. v) columns (plain_shares counted) residue share row }
{}
