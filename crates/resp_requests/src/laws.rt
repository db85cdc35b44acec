//! Laws of requests.
ghost use Rattle.resp_requests.specs.Laws.{OneAfterAnother, AnyPieces};
ghost use Rattle.resp_requests.specs.Examples.{ArraysOfBulks, BadArrays, Words, Quotes};

/// Reading two pieces is reading the first, and then what it left with the second. Behind a fault nothing is
/// read.
#[tactic(auto, using(crate::proofs::LawProofs::one_after_another))]
pub fn one_after_another()
    ensures { OneAfterAnother }
{}

/// However bytes are cut, the same commands are read, and the same stands behind them.
#[tactic(auto, using(crate::proofs::LawProofs::any_pieces))]
pub fn any_pieces()
    ensures { AnyPieces }
{}

/// Bytes and the commands that they spell. Sources: the RESP specification, and what Redis 7.0.15 was
/// seen to do.
#[tactic(auto, using(crate::proofs::ExampleReads::arrays_hold, crate::proofs::ExampleReads::bad_arrays_hold, crate::proofs::ExampleReads::words_hold, crate::proofs::ExampleReads::quotes_hold))]
pub fn examples()
    ensures arrays { ArraysOfBulks }
    ensures bad_arrays { BadArrays }
    ensures words { Words }
    ensures quotes { Quotes }
{}
