// Examples: where features come from.

ghost use Rattle.std.specs.Prelude.{◌≡◌, pos, [], ◌∷◌, ◌++◌, codes};
ghost use Rattle.fixed_um.specs.declared.frames.Frame.TheVariants.{Machine, Part};
ghost use Rattle.protocol_model.specs.declared.states.State.TheVariants as State;
ghost use Rattle.protocol_model.specs.Client.{joined, origin_of};
ghost use Rattle.protocol_model.specs.Examples.{at, part, feature, feature_on};
ghost use Rattle.protocol_model.specs.Scripts.{one_point, two_frames, two_points, connect, accept, client_leaves, server_leaves};
ghost use Rattle.protocol_model.specs.Scripts.{client_restart, quiet, quiet_to_the_end, opened, play, reported, report, contact};
ghost use Rattle.protocol_model.specs.LedgerRows.{two_wanted, first_point};

/// A feature comes from the connection on which its last point was counted, by the client's own number, and from the frame of its last
/// touch.
pub fn origin_rows()
    // Connections that were left count, though nothing was measured on them.
    ensures third_connection { reported one_point 1
        (opened ++ client_leaves ∷ server_leaves ∷ connect ∷ accept 2
        ∷ client_leaves ∷ server_leaves ∷ connect ∷ accept 3 ∷ quiet_to_the_end ∷ [])
        ≡ report State.Done 6
        (feature_on 3 Machine (codes "A") (at (pos 10002) (pos 20000) (pos 25000) ∷ []) ∷ [])
        (contact 0 3 (at (pos 10002) (pos 20000) (pos 25000)) ∷ []) }
    // The first feature was counted before the connection was left, the second after it; its last
    // touch is in the part's frame.
    ensures two_connections { (play two_frames 1
        (opened ++ quiet 8 ∷ client_leaves ∷ server_leaves ∷ connect ∷ accept 2
        ∷ quiet_to_the_end ∷ [])).world.client.table.tally.features
        ≡ feature_on 1 Machine (codes "A") (at (pos 10002) (pos 0) (pos 0) ∷ [])
        ∷ feature_on 2 (Part part) (codes "B")
        (at (pos 20000) (pos 0) (pos 4) ∷ at (pos 29999) (pos 1) (pos 0) ∷ []) ∷ [] }
    // A restart keeps what it keeps with its origin.
    ensures restarted { (play two_points 1
        (opened ++ quiet_to_the_end ∷ client_restart 1 ∷ [])).world.client.table.tally.features
        ≡ feature_on 1 Machine (codes "A") (at (pos 1002) (pos 2000) (pos 3000) ∷ []) ∷ [] }
    // What is unknown stays unknown where another feature joins.
    ensures unknown { joined two_wanted (feature (codes "A") (first_point ∷ []) ∷ [])
        (first_point ∷ []) (origin_of 2 (Part part))
        ≡ feature (codes "A") (first_point ∷ [])
        ∷ feature_on 2 (Part part) (codes "B") (first_point ∷ []) ∷ [] }
{}
