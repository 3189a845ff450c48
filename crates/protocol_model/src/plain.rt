// Examples: what a program plainly measures, and what that asks of the rack and the machine.

ghost use Rattle.std.specs.Prelude.{◌≡◌, pos, [], ◌∷◌, drop, codes};
ghost use Rattle.fixed_um.specs.declared.frames.Frame.TheVariants as frame;
ghost use Rattle.protocol_model.specs.PlainExecution.{plain_execution, touch_job, as_measured};
ghost use Rattle.protocol_model.specs.Finishing.{AreInReach, AreObeyed};
ghost use Rattle.protocol_model.specs.Plan.{plan};
ghost use Rattle.protocol_model.specs.Examples.{at, neg, from_above, tool, part, feature_on};
ghost use Rattle.protocol_model.specs.Scripts.{two_frames};
ghost use Rattle.protocol_model.specs.Plain.{
  answering,
  deviating,
  missing,
  always_done,
  unmoved,
  measured_so,
  touch_there,
  two_touches,
  change_to,
};
ghost use Rattle.protocol_model.specs.declared.machine.Job.TheVariants as job;
ghost use Rattle.protocol_model.specs.declared.plans.Start.TheVariants.{NewConnection};

/// The points of a program's features, by what the machine answers to its touches.
pub fn plain_rows()
    // The third touch is in the part's frame: its point is reported as seen from the part.
    ensures frames { plain_execution answering 0 two_frames.features
        ≡ measured_so (codes "A") (at (pos 10002) (pos 0) (pos 0) ∷ [])
        ∷ measured_so (codes "B") (at (pos 20000) (pos 0) (pos 4)
        ∷ at (pos 29999) (pos 1) (pos 0) ∷ []) ∷ [] }
    // Where one feature is kept, the numbers continue after its touch.
    ensures behind_the_first { plain_execution answering 1 (drop 1 two_frames.features)
        ≡ measured_so (codes "B") (at (pos 20000) (pos 0) (pos 4)
        ∷ at (pos 29999) (pos 1) (pos 0) ∷ []) ∷ [] }
    // More contacts were made before: the numbers continue after them.
    ensures behind_others { plain_execution answering 3 (drop 1 two_frames.features)
        ≡ measured_so (codes "B") (at (pos 20002) (pos 0) (pos 0)
        ∷ at (pos 30000) (pos 0) (pos 4) ∷ []) ∷ [] }
    ensures deviations { plain_execution (deviating (at (pos 1) (pos 0) (pos 0)
        ∷ at (pos 0) (neg 2) (pos 0) ∷ at (pos 0) (pos 0) (pos 3) ∷ [])) 0 two_frames.features
        ≡ measured_so (codes "A") (at (pos 10001) (pos 0) (pos 0) ∷ [])
        ∷ measured_so (codes "B") (at (pos 20000) (neg 2) (pos 0)
        ∷ at (pos 30000) (pos 0) (pos 3) ∷ []) ∷ [] }
    ensures nothing_wanted { plain_execution answering 7 [] ≡ [] }
    // The machine is asked in its own axes, with the direction.
    ensures job { touch_job (touch_there part)
        ≡ job.Touch (at (pos 130000) (pos 0) (pos 0)) from_above }
    // Where a feature comes from is not part of what was measured.
    ensures without_origin { as_measured (feature_on 7 frame.Machine (codes "A")
        (at (pos 1) (pos 2) (pos 3) ∷ []) ∷ [])
        ≡ measured_so (codes "A") (at (pos 1) (pos 2) (pos 3) ∷ []) ∷ [] }
{}

/// What a plan asks of the rack and the volume, and of the machine.
pub fn premise_rows()
    ensures reached { AreInReach (tool ∷ []) (plan two_frames 0 NewConnection) }
    ensures no_such_tool { AreInReach (tool ∷ []) (change_to (codes "P2")) → ⊥ }
    // The target is in the volume, but with the offset of its frame it is not.
    ensures out_of_reach { AreInReach (tool ∷ [])
        (two_touches (at (pos 1000000000) (pos 0) (pos 0))) → ⊥ }
    ensures obeyed { AreObeyed answering 0 (plan two_frames 0 NewConnection) }
    // The second touch has the number after the first; a move between them has none.
    ensures missed { AreObeyed (missing 1) 0 (two_touches part) → ⊥ }
    ensures others_missed { AreObeyed (missing 1) 2 (two_touches part) }
    ensures not_touched { AreObeyed always_done 0 (two_touches part) → ⊥ }
    ensures touched_outside { AreObeyed (deviating (at (pos 0) (pos 1000000001) (pos 0) ∷ [])) 0
        (two_touches part) → ⊥ }
    ensures not_moved { AreObeyed unmoved 0 (two_touches part) → ⊥ }
{}
