// Examples: where a plan continues in the steps of a program.

ghost use Rattle.std.specs.Prelude.{◌≡◌, ◌++◌, ◌∷◌, [], Ok, codes, pos};
ghost use Rattle.dme_line.specs.declared.commands.Csy.TheVariants.{MachineCsy};
ghost use Rattle.dme_line.specs.declared.commands.Command.TheVariants as command;
ghost use Rattle.dmis_program.specs.Meaning.{program_of};
ghost use Rattle.protocol_model.specs.Plan.{plan};
ghost use Rattle.protocol_model.specs.PlanReading.{commands_of};
ghost use Rattle.protocol_model.specs.PositionExamples.{moved_between};
ghost use Rattle.protocol_model.specs.Examples.{at, from_above};
ghost use Rattle.protocol_model.specs.declared.plans.Start.TheVariants.{NewConnection, SameConnection};

/// A program with a move and another tool between a touch and the end of its block, and a move
/// between the blocks.
pub fn position_rows()
    ensures text { program_of []
        (codes "DMISMN/'BETWEEN',05.2\nSNSLCT/S(P1)\nMEAS/POINT,F(A),1\nPTMEAS/CART,1,2,3,0,0,1\n"
        ++ codes "GOTO/1,2,10\nSNSLCT/S(P2)\nENDMES\nGOTO/4,5,10\nMEAS/POINT,F(B),1\n"
        ++ codes "PTMEAS/CART,4,5,6,0,0,1\nENDMES\nENDFIL")
        ≡ Ok moved_between }
    ensures from_the_start { commands_of (plan moved_between 0 NewConnection)
        ≡ command.StartSession ∷ command.ClearAllErrors ∷ command.IsHomed ∷ command.Home
        ∷ command.OnPtMeasReport ∷ command.SetCoordSystem MachineCsy ∷ command.ChangeTool (codes "P1")
        ∷ command.PtMeas (at (pos 1000) (pos 2000) (pos 3000)) from_above
        ∷ command.GoTo (at (pos 1000) (pos 2000) (pos 10000)) ∷ command.ChangeTool (codes "P2")
        ∷ command.GoTo (at (pos 4000) (pos 5000) (pos 10000))
        ∷ command.PtMeas (at (pos 4000) (pos 5000) (pos 6000)) from_above
        ∷ command.EndSession ∷ [] }
    // After the first feature both moves are made; the tool is that of the touch, then the other.
    ensures behind_the_first { commands_of (plan moved_between 1 SameConnection)
        ≡ command.ClearAllErrors ∷ command.IsHomed ∷ command.Home ∷ command.OnPtMeasReport
        ∷ command.ChangeTool (codes "P1") ∷ command.SetCoordSystem MachineCsy
        ∷ command.GoTo (at (pos 1000) (pos 2000) (pos 10000)) ∷ command.ChangeTool (codes "P2")
        ∷ command.GoTo (at (pos 4000) (pos 5000) (pos 10000))
        ∷ command.PtMeas (at (pos 4000) (pos 5000) (pos 6000)) from_above
        ∷ command.EndSession ∷ [] }
    ensures behind_both { commands_of (plan moved_between 2 SameConnection)
        ≡ command.ClearAllErrors ∷ command.IsHomed ∷ command.Home ∷ command.OnPtMeasReport
        ∷ command.ChangeTool (codes "P2") ∷ command.SetCoordSystem MachineCsy
        ∷ command.EndSession ∷ [] }
{}
