// The theory of set points: the points that a march can stop at. The function does nothing; its contract is
// a theorem about the definitions that the code's contracts cite.
#![tactic(auto)]

ghost use Rattle.setpoints.specs.Law.{SetPointsLaw};

// Set points begin at A and end at B, all are points of space, and two of them that are j numbers apart
// differ by at most j along each axis, so are at most 2j apart.
pub fn set_points_law()
    ensures { SetPointsLaw }
{}
