//! The laws of the lead order and of its lists. These functions do nothing when they are called: what each one says is its contract, and
//! the check proves it.
ghost use Rattle.std.specs.Prelude.{◌≡◌, ℕ, ◌⊎◌, ◌↔◌, List, [], map, slice_get, Some};
ghost use Rattle.zeta_model.specs.declared.Letter.{Letter};
ghost use Rattle.lyndon_words.specs.Lyndon.{IsFactors, joined};
ghost use Rattle.lyndon_words.specs.Monomials.{IsMonomial, product_of};
ghost use Rattle.column_order.specs.LeadOrder.{Leads};
ghost use Rattle.column_order.specs.Ranks.{mode_rank, rank_of};
ghost use Rattle.column_order.specs.Columns.{HasLimits, IsColumnList, IsColumnWord};

use crate::ranks::Mode;

/// Whatever the ranks of words are, the lead order is a total strict order, and a product by one more monomial keeps which of two
/// monomials comes first.
pub fn lead_order_laws()
    ensures irreflexive { (ranks : List Letter → ℕ) (p : List (List Letter)) → ¬ (Leads ranks p p) }
    ensures transitive { (ranks : List Letter → ℕ) (p q r : List (List Letter)) → Leads ranks p q → Leads ranks q r → Leads ranks p r }
    ensures total { (ranks : List Letter → ℕ) (p q : List (List Letter)) → Leads ranks p q ⊎ ((p ≡ q) ⊎ Leads ranks q p) }
    ensures products { (ranks : List Letter → ℕ) (p q r : List (List Letter)) → IsMonomial p → IsMonomial q → IsMonomial r
        → (Leads ranks p q ↔ Leads ranks (product_of p r) (product_of q r)) }
{}

/// There is one list of the columns of a weight and a depth in lead order, whatever the ranks are.
pub fn column_list_laws()
    ensures unique { (ranks : List Letter → ℕ) (w d : ℕ) (list other : List (List (List Letter)))
        → IsColumnList ranks w d list → IsColumnList ranks w d other → list ≡ other }
    ensures exists { (ranks : List Letter → ℕ) (w d : ℕ) → HasLimits w d → (list : List (List (List Letter))) × IsColumnList ranks w d list }
{}

/// The columns of a list and the admissible words of its weight and up to its depth correspond one to one: a column's word is its factors
/// put together, and a word's column is the list of its Lyndon factors.
pub fn column_word_laws()
    ensures column { (ranks : List Letter → ℕ) (w d : ℕ) (list : List (List (List Letter))) (u : List Letter)
        → HasLimits w d → IsColumnList ranks w d list → IsColumnWord w d u
        → (i : ℕ) × (slice_get (map joined list) i ≡ Some u) × ((j : ℕ) → slice_get (map joined list) j ≡ Some u → j ≡ i) }
    ensures word { (ranks : List Letter → ℕ) (w d : ℕ) (list : List (List (List Letter))) (i : ℕ) (p : List (List Letter))
        → HasLimits w d → IsColumnList ranks w d list → slice_get list i ≡ Some p → IsColumnWord w d (joined p) × IsFactors (joined p) p }
{}

/// Where no word is preferred, the lead order and the lists of columns are those by the mode's ranks alone.
pub fn preference_laws()
    ensures order { (mode : Mode) (p q : List (List Letter))
        → Leads (rank_of (record { mode = mode; words = [] })) p q ↔ Leads (mode_rank mode) p q }
    ensures list { (mode : Mode) (w d : ℕ) (list : List (List (List Letter)))
        → IsColumnList (rank_of (record { mode = mode; words = [] })) w d list ↔ IsColumnList (mode_rank mode) w d list }
{}
