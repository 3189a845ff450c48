//! Literal rows: which lines say a seal. Each function has rows for its contract and does nothing.
ghost use Rattle.std.specs.Prelude.{◌≡◌, [], codes, Some, None};
ghost use Rattle.record_text.specs.Seals.{seal_in, seal_verdict, unsealed, verdict_at};
ghost use Rattle.record_text.specs.declared.seals.SealVerdict.TheVariants as verdict;

/// A seal follows the number of a connection, and stands nowhere else.
pub fn line_rows()
    ensures seal { seal_in (codes "12 SEAL 0f") ≡ Some (codes "0f") }
    ensures other { seal_in (codes "12 LEFT 0f") ≡ None }
    ensures part { seal_in (codes "PART 1 SEAL 0f") ≡ None }
{}

/// Lines below the last seal, and a record without any.
#[tactic(auto, unfolding(crate::specs::Seals::unsealed))]
pub fn unsealed_rows()
    ensures below { unsealed (codes "A\n1 SEAL 0f\nB\nC\n") ≡ Some 3 }
    ensures whole { unsealed (codes "A\n1 SEAL 0f\ntorn") ≡ None }
    ensures never { unsealed (codes "A\nB\n") ≡ Some 1 }
{}

/// A text without a seal is never judged; one with a seal only under a key.
#[tactic(auto, unfolding(crate::specs::Seals::unsealed))]
pub fn verdict_rows()
    ensures never { seal_verdict (Some (codes "k")) (codes "A\nB\n") ≡ verdict.Unsealed }
    ensures empty { seal_verdict (Some (codes "k")) [] ≡ verdict.Unsealed }
    ensures unkeyed { seal_verdict None (codes "A\n1 SEAL 0f\n") ≡ verdict.Unjudged }
    ensures open { verdict_at (Some 3) ≡ verdict.Open 3 }
{}
