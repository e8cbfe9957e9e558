//! How many columns there are.
ghost use Rattle.std.specs.Prelude.{◌≡◌, ℕ, ◌<◌, ◌≤◌, List, length};
ghost use Rattle.zeta_model.specs.declared.Letter.{Letter};
ghost use Rattle.column_order.specs.Columns.{IsColumnList, column_count};

/// The number of columns of weight `w` and depth at most `d`: the sum of `w - 2` over `r - 1`, for r from 1 to d.
pub fn count(w: u32, d: u32) -> u64
    requires least { 2 ≤ w }
    requires most { w ≤ 24 }
    requires some { 1 ≤ d }
    requires below { d < w }
    ensures count { result ≡ column_count w d }

    // The whole list of columns has that length, whatever the ranks are.
    ensures columns { (ranks : List Letter → ℕ) (list : List (List (List Letter))) → IsColumnList ranks w d list → length list ≡ result }
{
    let letters = (w - 2) as u64;
    let mut sum: u64 = 0;
    let mut binomial: u64 = 1;
    for r in 0..d as u64 {
        sum += binomial;
        binomial = binomial * (letters - r) / (r + 1);
    }
    sum
}
