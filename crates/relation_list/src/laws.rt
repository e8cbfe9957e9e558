//! Which names a listing holds, and which words a value. The functions do nothing when they are called: what each one says is its
//! contract, and the check proves it.
ghost use Rattle.std.specs.Prelude.{◌≡◌, ◌≢◌, ℕ, ◌<◌, ◌≤◌, ◌↔◌, IsTrue, List, Contains, AllPairs, length};
ghost use Rattle.zeta_model.specs.declared.Letter.{Letter};
ghost use Rattle.zeta_model.specs.WordLists.{admissible_within};
ghost use Rattle.relation_list.specs.declared.names.RelName.{RelName};
ghost use Rattle.relation_list.specs.Names.{weight_of_name, depth_of_name, is_name_of};
ghost use Rattle.relation_list.specs.Listings.{listing_of};
ghost use Rattle.relation_list.specs.Values.{value_of, IsWordOf};

/// The listing of weight w and depth d holds exactly the names of weight w and depth at most d, each once. Where at most 2,048
/// admissible words have the weight w and a depth of at most d, it has at most 1,179,648 names.
pub fn listing_laws()
    ensures whole { (w d : ℕ) (n : RelName) → w ≤ 24
        → Contains (listing_of w d) n ↔ (IsTrue (is_name_of n) × (weight_of_name n ≡ w) × (depth_of_name n ≤ d)) }
    ensures once { (w d : ℕ) → AllPairs (λ n o. n ≢ o) (listing_of w d) }
    ensures small { (w d : ℕ) → w ≤ 24 → length (admissible_within w d) ≤ 2048 → length (listing_of w d) ≤ 1179648 }
{}

/// A value modulo m is a sum of admissible words, each of the weight of the name and at most as deep as the name.
pub fn value_laws()
    ensures { (m : ℕ) (n : RelName) (t : List Letter) → IsTrue (is_name_of n) → 0 < value_of m n t → IsWordOf n t }
{}
