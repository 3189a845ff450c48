// The places of the two views on the sheet, and their scale.

ghost use Rattle.std.specs.Prelude.{◌≡◌, ◌≤◌, ◌+◌};
ghost use Rattle.drawings.specs.Names.{views_room, AreViews, on_paper, AreShort, IsScaleFor};

use crate::extents::Extents;
use crate::scales::{Lengths, Room, Scale};
use crate::sides::Side;
use crate::views::{FRAME_LEFT, View};

/// The upper edge of the plan's frame, and the gap between it and the front view's.
const TOP: u64 = 22_000;

const TITLE: u64 = 7_000;

/// The margin around the drawn content.
const MARGIN: u64 = 10_000;

/// The paper within the margins of both frames.
const ROOM: Room = Room {
    across: 187_000,
    upright: 118_000,
};

/// Both views, at one scale, the plan above the front.
#[derive(Clone, Copy)]
pub(crate) struct Views {
    pub plan: View,
    pub front: View,
}

#[tactic(auto, using(crate::proofs::Paper::views_fit))]
fn scale_of(lengths: Lengths) -> Scale
    requires { AreShort lengths }
    ensures scale { IsScaleFor lengths views_room result }
    ensures across { on_paper result lengths.across ≤ 187000 }
    ensures upright { on_paper result lengths.first + on_paper result lengths.second ≤ 118000 }
{
    Scale::for_room(lengths, ROOM)
}

impl Views {
    /// The views of content with these extents.
    pub fn of(extents: &Extents) -> Views
        ensures { AreViews extents.now result }
    {
        let lengths = Lengths {
            across: extents.x.length(),
            first: extents.y.length(),
            second: extents.z.length(),
        };
        let scale = scale_of(lengths);
        let right = scale.on_paper(lengths.across);
        let first = scale.on_paper(lengths.first);
        let second = scale.on_paper(lengths.second);
        let left = FRAME_LEFT + MARGIN + (ROOM.across - right) / 2;
        let free = (ROOM.upright - first - second) / 4;
        let plan_base = TOP + MARGIN + free + first;
        let plan_bottom = plan_base + free + MARGIN;
        let front_top = plan_bottom + TITLE;
        let front_base = front_top + MARGIN + free + second;
        let front_bottom = front_base + free + MARGIN;
        let plan = View {
            side: Side::Plan,
            scale,
            across: extents.x,
            upright: extents.y,
            left,
            base: plan_base,
            top: TOP,
            bottom: plan_bottom,
        };
        let front = View {
            side: Side::Front,
            scale,
            across: extents.x,
            upright: extents.z,
            left,
            base: front_base,
            top: front_top,
            bottom: front_bottom,
        };
        Views { plan, front }
    }
}
