// The worked lanes: known questions with known answers, shown of the definitions.
#![tactic(auto)]

ghost use Rattle.std.specs.Prelude.{◌≡◌, length};
ghost use Rattle.worked.specs.Table.{LanesStand, lanes};

// How many lanes the table has.
const LANES: u8 = 9;

// The count of the worked lanes: each has the answer that is expected, and what this says of its plan and its permit is so.
pub fn lanes_stand() -> u8
    ensures count { result ≡ length lanes }
    ensures stand { LanesStand }
{
    LANES
}
