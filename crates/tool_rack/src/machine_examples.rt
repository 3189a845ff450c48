//! Literal rows: what lines and words give. Each function has rows for its contract and does nothing.
ghost use Rattle.std.specs.Prelude.{◌≡◌, List, [], ◌∷◌, ◌++◌, codes, Ok, Err, Some, None};
ghost use Rattle.tool_rack.specs.MachineEntries.{Given, given, given_on};
ghost use Rattle.tool_rack.specs.Machines.{machine_of};
ghost use Rattle.tool_rack.specs.Words.{named_machine, with_machine};
ghost use Rattle.tool_rack.specs.declared.machine_faults.MachineFault.TheVariants.{BadLine, Twice};

/// A value goes to the end of its line; a word is read in any case.
#[tactic(auto, unfolding(crate::specs::MachineEntries::given_on))]
pub fn line_rows()
    ensures text { given_on 1 (codes "setup  my cell.setup")
        ≡ Ok (Some (given (codes "setup") (codes "my cell.setup"))) }
    ensures comment { given_on 1 (codes "# PORT 1") ≡ Ok None }
    ensures unknown { given_on 3 (codes "PART A") ≡ Err (BadLine 3) }
    ensures alone { given_on 4 (codes "PORT") ≡ Err (BadLine 4) }
    ensures outer { given_on 5 (codes "PORT 1 ") ≡ Err (BadLine 5) }
{}

/// The first line that is refused decides; a word stands once.
#[tactic(auto, unfolding(crate::specs::MachineEntries::given_on, crate::specs::Machines::machine_of))]
pub fn text_rows()
    ensures two { machine_of (codes "HOST cmm\n\nPORT 1294\n")
        ≡ Ok (given (codes "host") (codes "cmm") ∷ (given (codes "port") (codes "1294") ∷ [])) }
    ensures twice { machine_of (codes "PORT 1\nport 2\nX\n") ≡ Err (Twice 2) }
{}

/// A machine's file is that of `run` alone, in either form, before the words that are no options.
pub fn name_rows()
    ensures next { named_machine (codes "dme" ∷ (codes "run" ∷ (codes "--machine" ∷ (codes "m" ∷ []))))
        ≡ Some (codes "m") }
    ensures joined { named_machine (codes "dme" ∷ (codes "run" ∷ (codes "--machine=m" ∷ [])))
        ≡ Some (codes "m") }
    ensures other { named_machine (codes "dme" ∷ (codes "loop" ∷ (codes "--machine" ∷ (codes "m" ∷ []))))
        ≡ None }
    ensures behind { named_machine (codes "dme" ∷ (codes "run" ∷ (codes "--" ∷ (codes "--machine=m" ∷ []))))
        ≡ None }
{}

/// What is typed goes over what the file says.
pub fn word_rows()
    ensures added { with_machine (given (codes "port") (codes "1") ∷ [])
        (codes "dme" ∷ (codes "run" ∷ (codes "a" ∷ [])))
        ≡ codes "dme" ∷ (codes "run" ∷ (codes "--port=1" ∷ (codes "a" ∷ []))) }
    ensures typed { with_machine (given (codes "port") (codes "1") ∷ [])
        (codes "dme" ∷ (codes "run" ∷ (codes "--port=2" ∷ [])))
        ≡ codes "dme" ∷ (codes "run" ∷ (codes "--port=2" ∷ [])) }
    ensures other { with_machine (given (codes "port") (codes "1") ∷ [])
        (codes "dme" ∷ (codes "run" ∷ (codes "--ports" ∷ [])))
        ≡ codes "dme" ∷ (codes "run" ∷ (codes "--port=1" ∷ (codes "--ports" ∷ []))) }
{}
