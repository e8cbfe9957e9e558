//! The coefficients of the leading words, and their inverses.
ghost use Rattle.std.specs.Prelude.{◌≡◌, ◌<◌, true, IfOk, IfErr, IfSome, IfNone};
ghost use Rattle.zeta_model.specs.Modular.{Same};
ghost use Rattle.zeta_model.specs.Inverses.{HasInverse};
ghost use Rattle.table_model.specs.Conversion.{IsTable, Converts};
ghost use Rattle.table_model.specs.Faults.{IsNotInvertible};
ghost use Rattle.lyndon_polys.specs.Inner.{Inverts, leading, earlier_fault};

use column_order::Columns;
use leading_word::greatest_merge;
use lyndon_words::Monomial;
use residues::Ring;
use word_letters::Word;

/// The inverse of the coefficient of the monomial's word in the shuffle of the factors, or that coefficient where there is none.
pub(crate) fn leading_inverse<R: Ring>(ring: &R, p: &Monomial) -> Result<R::Elem, u64>
    ensures has { IfOk result (λ a. R.has ring.now a ≡ true) }
    ensures inverse { IfOk result (λ a. Inverts (R.modulus ring.now) (leading p.now) (R.value ring.now a)) }
    ensures residue { IfErr result (Same (R.modulus ring.now) (leading p.now)) }
    ensures small { IfErr result (λ residue. residue < R.modulus ring.now) }
    ensures none { IfErr result (λ residue. ¬ (HasInverse (R.modulus ring.now) residue)) }
{
    let merge = greatest_merge(p);
    let coefficient = ring.of(merge.count as u128);
    match ring.inverse(coefficient) {
        Some(inverse) => Ok(inverse),
        None => Err(ring.value(coefficient)),
    }
}

/// The residue and the word of the first word whose coefficient has no inverse. It takes no memory.
pub(crate) fn first_fault<R: Ring>(ring: &R, columns: &Columns) -> Option<(u64, Word)>
    requires { IsTable (R.modulus ring.now) columns.now }
    ensures some { IfSome result (λ fault. IsNotInvertible (R.modulus ring.now) columns.now fault.1 fault.0) }
    ensures none { IfNone result (Converts (R.modulus ring.now) columns.now) }
{
    let mut first = None;
    for i in 0..columns.len() {
        let column = columns.at(i);
        match leading_inverse(ring, column) {
            Ok(_) => {}
            Err(residue) => first = earlier(first, residue, column.word()),
        }
    }
    first
}

/// Of two faults the one with the earlier word.
fn earlier(first: Option<(u64, Word)>, residue: u64, word: Word) -> Option<(u64, Word)>
    ensures { result ≡ earlier_fault first residue word }
{
    match first {
        Some(fault) => {
            if word < fault.1 {
                Some((residue, word))
            } else {
                Some(fault)
            }
        }
        None => Some((residue, word)),
    }
}
