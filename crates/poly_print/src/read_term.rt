//! Taking a term from the front of a text.
ghost use Rattle.std.specs.Prelude.{◌≡◌, ℕ, ◌^◌, ◌<◌, List, ◌∷◌, ◌++◌, length, IfSome, IfNone};
ghost use Rattle.std.specs.Fmt.{decimal};
ghost use Rattle.poly_print.specs.Inner.{behind_first, HasNoPlus, IsTermAt};

/// The number in decimal at the front of some bytes, with what stands behind the `*` that ends it.
fn number_at(bytes: &[u8]) -> Option<(u64, &[u8])>
    ensures some { IfSome result (λ x. (r : ℕ) (behind : List ℕ) → r < 2 ^ 64 → bytes.now ≡ decimal r ++ 42 ∷ behind → (x.0 ≡ r) × (x.1.now ≡ behind)) }
    ensures none { IfNone result ((r : ℕ) (behind : List ℕ) → r < 2 ^ 64 → bytes.now ≡ decimal r ++ 42 ∷ behind → ⊥) }
    ensures begins { IfSome result (λ x. 0 < length bytes.now) }
{
    let mut rest = bytes;
    let mut number: u128 = 0;
    while let Some((byte, behind)) = rest.split_first() {
        if number > u64::MAX as u128 {
            return None;
        }
        if *byte == b'*' {
            return Some((number as u64, behind));
        }
        if *byte < b'0' || *byte > b'9' {
            return None;
        }
        number = 10 * number + u128::from(*byte - b'0');
        rest = behind;
    }
    None
}

/// The residue of a term with the monomial's text at the front of some bytes, with what stands behind it and behind a `+`.
pub(crate) fn term_at<'a>(bytes: &'a [u8], monomial: &[u8]) -> Option<(u64, &'a [u8])>
    requires { HasNoPlus monomial.now }
    ensures some { IfSome result (λ x. (r : ℕ) (text tail : List ℕ) → IsTermAt r text tail bytes.now → (text ≡ monomial.now) × (x.0 ≡ r) × (x.1.now ≡ behind_first tail)) }
    ensures none { IfNone result ((r : ℕ) (text tail : List ℕ) → IsTermAt r text tail bytes.now → text ≡ monomial.now → ⊥) }
    ensures begins { IfSome result (λ x. 0 < length bytes.now) }
{
    let (number, text) = number_at(bytes)?;
    let rest = text.strip_prefix(monomial)?;
    match rest.split_first() {
        None => Some((number, rest)),
        Some((byte, behind)) => {
            if *byte == b'+' {
                Some((number, behind))
            } else {
                None
            }
        }
    }
}
