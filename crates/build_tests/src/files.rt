//! Builds and resumes over disks in memory, and what they answer.
use outside_io::MemDisk;
use page_codec::Params;
use residues::WordMod;
use std::alloc::Global;
use table_build::{BuildFault, Built, ResumeFault, build, resume};

// The file of the parameters 3 2 5 lex.
pub(crate) const FILE: [u8; 131] = [
    1, 1, 20, 0, 0, 0, 77, 90, 86, 68, 65, 84, 65, 2, 3, 2, 0, 5, 0, 0, 0, 0, 0, 0, 0, 0, 1, 2, 45,
    0, 0, 0, 0, 0, 0, 0, 1, 0, 0, 0, 0, 2, 0, 0, 0, 1, 0, 0, 0, 0, 0, 0, 0, 1, 0, 4, 0, 0, 0, 0, 0,
    0, 0, 1, 0, 0, 0, 0, 0, 4, 0, 0, 0, 0, 0, 0, 0, 1, 3, 39, 0, 0, 0, 0, 0, 1, 2, 0, 0, 0, 1, 0,
    0, 0, 0, 0, 0, 0, 1, 0, 4, 0, 0, 0, 0, 0, 0, 0, 1, 0, 0, 0, 0, 0, 4, 0, 0, 0, 0, 0, 0, 0, 1, 4,
    2, 0, 0, 0, 1, 0, 0,
];

// What a call answered: the name of its answer, and the number that it tells.
pub(crate) type Answered = (&'static str, u64);

fn resume_answer(answer: Result<Built, ResumeFault>) -> Answered {
    match answer {
        Ok(built) => ("resumed", u64::from(built.offered)),
        Err(ResumeFault::DiskFault) => ("disk fault", 0),
        Err(ResumeFault::Foreign(n)) => ("foreign", n),
        Err(ResumeFault::BadPage(i)) => ("unreadable", i),
        Err(ResumeFault::Other(params)) => ("other", params.modulus),
        Err(ResumeFault::Misfit(i)) => ("misplaced", i),
        Err(ResumeFault::NoInverseWord { value, .. }) => ("word", value),
        Err(ResumeFault::NotForward(i)) => ("not forward", i),
        Err(ResumeFault::NoInverseRelation { n, .. }) => ("relation", u64::from(n)),
        Err(ResumeFault::Differs(i)) => ("differs", i),
        Err(ResumeFault::Memory(_)) => ("memory", 0),
    }
}

fn build_answer(answer: Result<Built, BuildFault>) -> Answered {
    match answer {
        Ok(built) => ("built", u64::from(built.offered)),
        Err(BuildFault::DiskFault) => ("disk fault", 0),
        Err(BuildFault::Exists(n)) => ("exists", n),
        Err(BuildFault::BadPage(i)) => ("unreadable", i),
        Err(BuildFault::NoInverseWord { value, .. }) => ("word", value),
        Err(BuildFault::NoInverseRelation { n, .. }) => ("relation", u64::from(n)),
        Err(BuildFault::Differs(i)) => ("differs", i),
        Err(BuildFault::Memory(_)) => ("memory", 0),
    }
}

// A build of these parameters with the order lex.
pub(crate) fn build_lex(alloc: Global, wdm: (u64, u64, u64), disk: &mut MemDisk) -> Answered {
    let (weight, depth, modulus) = wdm;
    let Ok(params) = Params::test(weight, depth, modulus, "lex", None) else {
        return ("parameters", 0);
    };
    let Ok(ring) = WordMod::new(params.modulus) else {
        return ("modulus", 0);
    };
    build_answer(build(alloc, ring, &params, disk))
}

// Goes on with a build of these parameters with the order lex.
pub(crate) fn resume_lex(alloc: Global, wdm: (u64, u64, u64), disk: &mut MemDisk) -> Answered {
    let (weight, depth, modulus) = wdm;
    let Ok(params) = Params::test(weight, depth, modulus, "lex", None) else {
        return ("parameters", 0);
    };
    let Ok(ring) = WordMod::new(params.modulus) else {
        return ("modulus", 0);
    };
    resume_answer(resume(alloc, ring, &params, disk))
}
