// What follows from the definitions alone. Each function has a law for its contract and does nothing.
ghost use Rattle.std.specs.Prelude.{◌≡◌, ℕ, List, [], ◌∷◌, ◌++◌, Option, Result};
ghost use Rattle.line_framing.specs.Names.{IsLine, AreLines, line_bytes, Front, Next, IsFound, next_of, no_bytes, IsStream, IsRead, AreSame, TakesFirst, fault_in, Call, after_calls, handed_out, bytes_fed, IsAccounted, NoLineLeft, FramingFault};

/// One thing is at the start of a list of bytes, and it is what `next_of` says.
#[tactic(auto, using(crate::proofs::FirstLine::next_holds))]
pub fn one_front()
    ensures some { (bytes : List ℕ) → Next bytes (next_of bytes) }
    ensures one { (bytes : List ℕ) (r s : Front) → Next bytes r → Next bytes s → r ≡ s }
{}

/// A line with CR LF after it is the first line, whatever follows, and what follows stays.
#[tactic(auto, using(crate::proofs::FirstLine::first_line_at))]
pub fn written_line_comes_first()
    ensures { (line more : List ℕ) → IsLine line
        → next_of (line ++ 13 ∷ 10 ∷ more) ≡ Ok (Some (line, more)) }
{}

/// What is found at the front is a line, and was there with CR LF after it.
pub fn found_line_stood_there()
    ensures { (bytes line rest : List ℕ) → next_of bytes ≡ Ok (Some (line, rest))
        → IsFound bytes line rest }
{}

/// Bytes that come later change neither the first line nor a fault.
#[tactic(auto, using(crate::proofs::FirstLine::found_stays))]
pub fn later_bytes_change_no_front()
    ensures line { (bytes line rest more : List ℕ) → next_of bytes ≡ Ok (Some (line, rest))
        → next_of (bytes ++ more) ≡ Ok (Some (line, rest ++ more)) }
    ensures fault { (bytes more : List ℕ) (fault : FramingFault) → next_of bytes ≡ Err fault
        → next_of (bytes ++ more) ≡ Err fault }
{}

/// Where bytes and what is to come are lines, no fault is at their front, and a line that is there is
/// the first of them, with the others after it. Where nothing is to come, nothing is there only if no
/// line is left.
#[tactic(auto, using(crate::proofs::Streams::no_fault, crate::proofs::Streams::takes_first, crate::proofs::Streams::none_left))]
pub fn written_lines_are_taken_in_order()
    ensures fault { (bytes more : List ℕ) (lines : List (List ℕ)) (fault : FramingFault)
        → AreLines lines
        → bytes ++ more ≡ line_bytes lines → next_of bytes ≡ Err fault → ⊥ }
    ensures line { (bytes more : List ℕ) (lines : List (List ℕ)) (line left : List ℕ)
        → AreLines lines
        → bytes ++ more ≡ line_bytes lines → next_of bytes ≡ Ok (Some (line, left))
        → TakesFirst lines line left more }
    ensures none { (lines : List (List ℕ)) → AreLines lines → next_of (line_bytes lines) ≡ Ok None
        → lines ≡ [] }
{}

/// The bytes of joined lists of lines are their bytes joined.
pub fn joined_lines_have_joined_bytes()
    ensures { (lines others : List (List ℕ))
        → line_bytes (lines ++ others) ≡ line_bytes lines ++ line_bytes others }
{}

/// Bytes have one list of lines, one rest and one fault, and each list of bytes has them.
pub fn one_stream()
    ensures some { (bytes : List ℕ) → IsRead bytes }
    ensures one { (bytes : List ℕ) (lines others : List (List ℕ)) (rest left : List ℕ)
        (fault other : Option FramingFault) → IsStream bytes lines rest fault
        → IsStream bytes others left other
        → AreSame lines others rest left fault other }
{}

/// The lines handed out, each with CR LF, followed by the rest, are the bytes fed, whatever the calls were
/// and however the bytes were cut. After a fault nothing is taken any more.
#[tactic(auto, using(crate::proofs::CallLists::nothing_is_lost))]
pub fn nothing_is_lost()
    ensures { (calls : List Call)
        → IsAccounted (bytes_fed calls) (handed_out no_bytes calls) (after_calls no_bytes calls) }
{}

/// Where no line is left, the lines handed out are those of the bytes fed, and what then is at the
/// front is their fault.
#[tactic(auto, using(crate::proofs::CallLists::handed_out_all))]
pub fn all_lines_are_handed_out()
    ensures { (calls : List Call) → NoLineLeft (after_calls no_bytes calls)
        → (rest : List ℕ) × IsStream (bytes_fed calls) (handed_out no_bytes calls) rest
        (fault_in (next_of (after_calls no_bytes calls).rest)) }
{}

/// Two lists of calls that feed the same bytes in other pieces hand out the same lines and meet the same fault.
pub fn pieces_do_not_matter()
    ensures { (calls others : List Call) → bytes_fed calls ≡ bytes_fed others
        → NoLineLeft (after_calls no_bytes calls) → NoLineLeft (after_calls no_bytes others)
        → (handed_out no_bytes calls ≡ handed_out no_bytes others)
        × (fault_in (next_of (after_calls no_bytes calls).rest)
        ≡ fault_in (next_of (after_calls no_bytes others).rest)) }
{}
