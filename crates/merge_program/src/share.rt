//! A share is made and written.
ghost use Rattle.std.specs.Prelude.{◌≡◌, IfOk};
ghost use Rattle.share_build.specs.Refusals.{GoesThrough, IsBuildRefusal};
ghost use Rattle.share_file.specs.Spelling.{share_spelling};
ghost use Rattle.share_model.specs.Shares.{IsShare, IsResult};
ghost use Rattle.merge_program.specs.Inner.{HasRun, HasText};
ghost use Rattle.merge_program.specs.MergeWords.{IsInRange};

use crate::ending::end_after;
use crate::refusals::{refuse_relation, refuse_word};
use crate::status::MergeStatus;
use crate::words::ShareWords;
use odd_residues::ResidueRing;
use outside_io::{Sink, write_all};
use residues::Ring;
use share_build::build_share;
use share_file::encode_share;
use share_model::{Share, ShareFault};
use std::alloc::{AllocError, Global};

// The bytes of a share.
fn bytes_of(alloc: Global, share: &Share) -> Result<Vec<u8>, AllocError>
    requires { IsShare share.now }
    ensures { IfOk result (λ bytes. bytes.items ≡ share_spelling share.now) }
{
    let mut bytes = Vec::new(alloc);
    encode_share(alloc, share, &mut bytes)?;
    Ok(bytes)
}

// Writes the share of the words.
fn write_share<K: Sink>(
    alloc: Global,
    words: &ShareWords,
    share: &Share,
    sink: &mut K,
) -> MergeStatus
    requires params { share.now.params ≡ words.now.params }
    requires id { share.now.id ≡ words.now.id }
    requires share { IsShare share.now }
    requires result { IsResult share.now }
    requires through { GoesThrough words.now.params words.now.id }
    ensures { HasRun words.now (K.taken sink.old) (K.taken sink.new) (K.faults sink.old) (K.faults sink.new) result }
{
    let Ok(bytes) = bytes_of(alloc, share) else {
        return MergeStatus::Memory;
    };
    let written = write_all(sink, &bytes);
    end_after(written, MergeStatus::Done)
}

// Tells why the share of the words was not made, and writes nothing where memory was wanting.
fn refuse_share<K: Sink>(words: &ShareWords, sink: &mut K, fault: ShareFault) -> MergeStatus
    requires text { HasText fault }
    requires refusal { IsBuildRefusal words.now.params words.now.id fault }
    ensures { HasRun words.now (K.taken sink.old) (K.taken sink.new) (K.faults sink.old) (K.faults sink.new) result }
{
    match fault {
        ShareFault::NoInverseWord { value, word } => refuse_word(sink, value, word),
        ShareFault::NoInverseRelation { value, n } => refuse_relation(sink, value, n),
        ShareFault::Memory(_) => MergeStatus::Memory,
        _ => unreachable!(),
    }
}

// Makes the share of the words in a ring of their modulus, and writes it.
fn share_over<R: Ring, K: Sink>(
    alloc: Global,
    ring: R,
    words: &ShareWords,
    sink: &mut K,
) -> MergeStatus
    requires range { IsInRange words.now }
    requires ring { R.modulus ring ≡ words.now.params.modulus }
    ensures { HasRun words.now (K.taken sink.old) (K.taken sink.new) (K.faults sink.old) (K.faults sink.new) result }
{
    match build_share(alloc, ring, &words.params, words.id) {
        Ok(share) => write_share(alloc, words, &share, sink),
        Err(fault) => refuse_share(words, sink, fault),
    }
}

// Makes the share of the words, and writes it.
pub(crate) fn make_share<K: Sink>(alloc: Global, words: &ShareWords, sink: &mut K) -> MergeStatus
    requires { IsInRange words.now }
    ensures { HasRun words.now (K.taken sink.old) (K.taken sink.new) (K.faults sink.old) (K.faults sink.new) result }
{
    match ResidueRing::new(words.params.modulus) {
        Ok(ResidueRing::Odd(ring)) => share_over(alloc, ring, words, sink),
        Ok(ResidueRing::Even(ring)) => share_over(alloc, ring, words, sink),
        Err(_) => unreachable!(),
    }
}
